/// What an operator orders.
#[derive(Clone, Copy, Debug, PartialEq, Eq)]
pub enum Command {
    /// To the least cue above the current one, or to the first where none is current.
    Go,
    /// To the greatest cue below the current one.
    Back,
    /// To this cue, in thousandths.
    Goto(u32),
    /// The master of this submaster to this byte.
    Sub(u16, u8),
    /// The master of this group to this byte.
    Group(u16, u8),
    /// The grand master to this byte.
    Master(u8),
    /// Dark, and the end of the streams.
    End,
}
