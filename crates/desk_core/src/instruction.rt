use crate::command::Command;

/// What an operator tells a desk to do.
#[derive(Clone, Copy, Debug, PartialEq, Eq)]
pub enum Instruction {
    /// A command.
    Plain(Command),
    /// To this cue, in thousandths, over this time in milliseconds: up and down and without delay,
    /// in place of the cue's times.
    GotoIn { cue: u32, time: u32 },
}
