// A packet that a console has sent, and the receiver that it reaches.
#[derive(Clone, Copy, Debug)]
pub struct Handover {
    pub receiver: u16,
    pub console: u16,
    // The number of its universe.
    pub universe: u16,
    // Its place in the stream of that universe, counted from 0.
    pub k: u64,
}
