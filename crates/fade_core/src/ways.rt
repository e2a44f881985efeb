// The ways of the channels in a fade: where each starts, and where it goes.
#[derive(Clone, Copy, Debug)]
pub struct Ways<'a> {
    pub from: &'a [u16],
    pub to: &'a [u16],
}
