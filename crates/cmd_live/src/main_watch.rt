ghost use Rattle.std.specs.Prelude.{◌≡◌, ◌<◌, ◌∷◌, [], ℕ, List, length, false, true, IfOk, IfSome};
ghost use Rattle.std.specs.Prelude.{IsNone, OnErr};
ghost use Rattle.cmd_live.specs.Backup.{following_began};
ghost use Rattle.cmd_live.specs.declared.main_watch.MainDeed.TheVariants.{Kept, Missing};
ghost use Rattle.cmd_live.specs.declared.main_watch.MainDeed.TheVariants.{Refused, Helped};
ghost use Rattle.cmd_live.specs.declared.main_watch.MainDeed.TheVariants.{Reminded};
ghost use Rattle.cmd_live.specs.declared.main_watch.MainEvent.{MainEvent};
ghost use Rattle.cmd_live.specs.declared.main_watch.MainEvent.TheVariants as event;

use devices::LinkFault;
use live_machine::Came;
use night_record::LineFront;
use std::time::Duration;

/// What is done about a line, or about an end of the input.
#[derive(Debug, Drop)]
pub enum MainDeed {
    /// A line of the main is in this night's own record.
    Kept(LineFront),
    /// It was told that lines of the main are missing, as this one says.
    Missing(LineFront),
    /// It was told that a typed line is not carried out.
    Refused(LineFront),
    /// It was shown what can be typed.
    Helped,
    /// It was told that a typed end of the input ends nothing.
    Reminded,
}

/// What happened where a main is watched.
#[derive(Debug, Drop)]
pub enum MainEvent {
    /// The following began.
    Began,
    /// The next line that was typed, without its LF.
    Typed(LineFront),
    /// No whole line stood there that was typed.
    NothingTyped,
    /// The main's record gave its next line, without its LF.
    Came(LineFront),
    /// The record was looked at, and whether a line stood there that it has not given.
    Looked(bool),
    /// The record could not be read.
    Unreadable,
    /// The record is not there any more.
    Gone,
    /// So long ago the newest line came.
    Passed(Duration),
    /// The clock could not be read.
    ClockFailed,
    /// What was typed was waited for, and this came.
    Heard(Came),
    /// What is typed could not be waited for.
    Deaf,
    Did(MainDeed),
}

/// Where a night follows its main: the main's record behind its head, what is typed, the night's
/// own record, and what the operator sees.
///
/// It *tells* where contracts can see what happened, under the rules of an
/// [`Output`](devices::Output). One that tells has had at most 2^64 - 2 events.
pub trait MainWatch {
    /// Contracts can see what happened.
    ghost tells: { Self → Type 0 };

    /// What happened, the newest first.
    ghost events: { Self → List MainEvent };

    /// The lines that stood in the main's record when it was last looked at, and that it has not
    /// given.
    ghost left: { Self → List (List ℕ) };

    /// The next whole line that was typed, without its LF; of a long one the first 201 bytes.
    fn typed_line(&mut self) -> Option<LineFront>
        ensures told { tells self.new → tells self.old }
        ensures line { IfSome result (λ line. tells self.new
            → events self.new ≡ event.Typed line ∷ events self.old) }
        ensures none { IsNone result → tells self.new
            → events self.new ≡ event.NothingTyped ∷ events self.old }
        ensures few { tells self.new → length (events self.new) < 18446744073709551615 };

    /// The next line of the main's record, without its LF, where one stood there; of a long one the
    /// first 201 bytes.
    fn next_line(&mut self) -> Option<LineFront>
        ensures told { tells self.new → tells self.old }
        ensures line { IfSome result (λ line. tells self.new
            → (events self.new ≡ event.Came line ∷ events self.old)
            × (left self.old ≡ line.items ∷ left self.new)) }
        ensures none { IsNone result → tells self.new
            → (events self.new ≡ events self.old) × (left self.new ≡ []) };

    /// Looks for lines behind those that stood there: whether one stands there that it has not
    /// given.
    ///
    /// # Errors
    ///
    /// Where the record cannot be read.
    fn look(&mut self) -> Result<bool, LinkFault>
        ensures told { tells self.new → tells self.old }
        ensures ok { IfOk result (λ found. tells self.new
            → events self.new ≡ event.Looked found ∷ events self.old) }
        ensures none { IfOk result (λ found. found ≡ false → tells self.new
            → left self.new ≡ []) }
        ensures err { OnErr result (tells self.new
            → (events self.new ≡ event.Unreadable ∷ events self.old)
            × (left self.new ≡ left self.old)) };

    /// Whether the following began, behind the lines that stood there at the start.
    fn has_begun(&self) -> bool
        ensures { tells self.now → result ≡ following_began (events self.now) };

    /// Whether the record is still there, with all lines that it gave.
    fn is_there(&mut self) -> bool
        ensures told { tells self.new → tells self.old }
        ensures there { result ≡ true → tells self.new → events self.new ≡ events self.old }
        ensures gone { result ≡ false → tells self.new
            → events self.new ≡ event.Gone ∷ events self.old }
        ensures same { tells self.new → left self.new ≡ left self.old };

    /// How long ago its newest line came; or the following began, where that was later.
    ///
    /// # Errors
    ///
    /// Where the clock cannot be read.
    fn time_passed(&mut self) -> Result<Duration, LinkFault>
        ensures told { tells self.new → tells self.old }
        ensures ok { IfOk result (λ passed. tells self.new
            → events self.new ≡ event.Passed passed ∷ events self.old) }
        ensures err { OnErr result (tells self.new
            → events self.new ≡ event.ClockFailed ∷ events self.old) }
        ensures same { tells self.new → left self.new ≡ left self.old };

    /// Waits for a moment for what is typed: what came.
    ///
    /// # Errors
    ///
    /// Where nothing can be waited for.
    fn wait(&mut self) -> Result<Came, LinkFault>
        ensures told { tells self.new → tells self.old }
        ensures ok { IfOk result (λ came. tells self.new
            → events self.new ≡ event.Heard came ∷ events self.old) }
        ensures err { OnErr result (tells self.new
            → events self.new ≡ event.Deaf ∷ events self.old) }
        ensures same { tells self.new → left self.new ≡ left self.old };

    /// Keeps a line of the main in the night's own record.
    fn keep(&mut self, line: &LineFront)
        ensures told { tells self.new → tells self.old }
        ensures did { tells self.new
            → events self.new ≡ event.Did (Kept line.now) ∷ events self.old };

    /// Tells that lines of the main are missing, as this one says.
    fn tell_missing(&mut self, line: &LineFront)
        ensures told { tells self.new → tells self.old }
        ensures did { tells self.new
            → events self.new ≡ event.Did (Missing line.now) ∷ events self.old };

    /// Tells that a typed line is not carried out.
    fn refuse(&mut self, line: &LineFront)
        ensures told { tells self.new → tells self.old }
        ensures did { tells self.new
            → events self.new ≡ event.Did (Refused line.now) ∷ events self.old };

    /// Shows what can be typed.
    fn help(&mut self)
        ensures told { tells self.new → tells self.old }
        ensures did { tells self.new → events self.new ≡ event.Did Helped ∷ events self.old };

    /// Tells that a typed end of the input ends nothing.
    fn remind(&mut self)
        ensures told { tells self.new → tells self.old }
        ensures did { tells self.new → events self.new ≡ event.Did Reminded ∷ events self.old }
        ensures same { tells self.new → left self.new ≡ left self.old };
}
