ghost use Rattle.std.specs.Prelude.{◌≡◌, IsTrue, IsFalse, All, if◌then◌else◌, nat_lt};
ghost use Rattle.std.specs.List.{list_any};
ghost use Rattle.desk_core.specs.Inside.{are_current, are_kept};
ghost use Rattle.desk_core.specs.Stands.{keeps_floors};

use crate::command::Command;
use crate::instruction::Instruction;

/// What is known of the floors that a desk keeps.
#[derive(Clone, Copy, Debug, PartialEq, Eq)]
pub(crate) enum FloorState {
    /// A submaster or a group was set after they were worked out.
    Stale,
    /// Each is 0.
    Dark,
    Lit,
}

/// What is known of the frames that a desk keeps.
#[derive(Clone, Copy, Debug, PartialEq, Eq)]
pub(crate) enum FrameState {
    /// They were right at the latest tick, and something happened after it.
    Stale,
    /// They are what the show means now, too.
    Kept,
}

impl FloorState {
    /// The state of floors that were worked out just now.
    pub fn of(floors: &[u16]) -> FloorState
        ensures value { result ≡ if list_any (nat_lt 0) floors.now
            then FloorState.Lit else FloorState.Dark }
        ensures current { IsTrue (are_current result) }
        ensures dark { result ≡ FloorState.Dark → All (λ floor. floor ≡ 0) floors.now }
    {
        if floors.iter().any(|floor| *floor > 0) {
            FloorState::Lit
        } else {
            FloorState::Dark
        }
    }

    /// The state behind an instruction.
    pub fn state_after(self, instruction: Instruction) -> FloorState
        ensures { result ≡ if keeps_floors instruction then self else FloorState.Stale }
    {
        match instruction {
            Instruction::Plain(Command::Sub(_, _) | Command::Group(_, _)) => FloorState::Stale,
            _ => self,
        }
    }

    /// Whether a floor may be above 0.
    pub fn may_be_lit(self) -> bool
        ensures lit { IsFalse result → self ≡ FloorState.Dark }
        ensures dark { self ≡ FloorState.Dark → IsFalse result }
    {
        !matches!(self, FloorState::Dark)
    }
}

impl FrameState {
    /// Whether a tick may keep the frames.
    pub fn are_kept(self) -> bool
        ensures { result ≡ are_kept self }
    {
        matches!(self, FrameState::Kept)
    }
}
