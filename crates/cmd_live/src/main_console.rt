ghost use Rattle.std.specs.Prelude.{◌≡◌, List, ◌∷◌};
ghost use Rattle.cmd_live.specs.declared.main_console.Led.{Led};

use live_input::InputLine;

/// What a night that follows a main is told.
#[derive(Debug, Drop)]
pub enum Led {
    /// A line of the main's record, without its LF.
    Line(InputLine),
    /// `where` was typed.
    Where,
    /// The following ends: `take` was typed, or no line has come for too long.
    End,
}

/// Where a night that follows a main hears of it: the main's record as it grows, and what is typed
/// meanwhile. Nothing else that is typed gets to the night.
///
/// It *tells* where contracts can see what it gave.
pub trait MainConsole {
    /// Contracts can see what it gave.
    ghost tells: { Self → Type 0 };

    /// What it gave, the newest first.
    ghost given: { Self → List Led };

    /// What is next. It waits for it.
    fn next(&mut self) -> Led
        ensures told { tells self.new → tells self.old }
        ensures gives { tells self.new → given self.new ≡ result ∷ given self.old };
}
