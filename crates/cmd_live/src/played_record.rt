ghost use Rattle.std.specs.Prelude.{◌≡◌, ◌∷◌, ◌<◌, List, ℕ, length, false, IfOk, IfSome, IsNone};
ghost use Rattle.std.specs.Prelude.{OnErr};
ghost use Rattle.cmd_live.specs.Spare.{AreFirstLines, has_had_lock, given_by_record};
ghost use Rattle.cmd_live.specs.declared.played_record.RecordEvent.{RecordEvent};
ghost use Rattle.cmd_live.specs.declared.played_record.RecordEvent.TheVariants.{Gave};
ghost use Rattle.cmd_live.specs.declared.played_record.RecordEvent.TheVariants.{Looked};
ghost use Rattle.cmd_live.specs.declared.played_record.RecordEvent.TheVariants.{Tried};
ghost use Rattle.cmd_live.specs.declared.played_record.RecordEvent.TheVariants.{Failed};

use devices::LinkFault;
use night_record::LineFront;

/// What happened at a record that another process plays.
#[derive(Debug, Drop)]
pub enum RecordEvent {
    /// It gave its next line, without the LF.
    Gave(LineFront),
    /// It was looked at, and whether a line stood there that it has not given.
    Looked(bool),
    /// Its lock was tried, and whether this process has it now.
    Tried(bool),
    /// It could not be read, or not be locked.
    Failed,
}

/// The record of a night that another process plays: its lines behind its head, and its lock, which
/// a process has while it plays that night. So nobody else writes to it once the lock is had.
///
/// It *tells* where contracts can see what happened at it, under the rules of an
/// [`Output`](devices::Output). One that tells has had at most 2^64 - 2 events.
pub trait PlayedRecord {
    /// Contracts can see what happened at it.
    ghost tells: { Self → Type 0 };

    /// What happened at it, the newest first.
    ghost events: { Self → List RecordEvent };

    /// The lines that stood in it when it was last looked at, the newest first.
    ghost written: { Self → List (List ℕ) };

    /// Its next line, without the LF, where one stood there that it has not given; of a long one
    /// the first 201 bytes.
    fn next_line(&mut self) -> Option<LineFront>
        ensures told { tells self.new → tells self.old }
        ensures line { IfSome result (λ line. tells self.new
            → events self.new ≡ Gave line ∷ events self.old) }
        ensures none { IsNone result → tells self.new → events self.new ≡ events self.old }
        ensures same { tells self.new → written self.new ≡ written self.old }
        ensures first { tells self.new
            → AreFirstLines (given_by_record (events self.new)) (written self.new) };

    /// Looks for lines behind those that stood there: whether one stands there that it has not
    /// given.
    ///
    /// # Errors
    ///
    /// Where it cannot be read.
    fn look(&mut self) -> Result<bool, LinkFault>
        ensures told { tells self.new → tells self.old }
        ensures ok { IfOk result (λ found. tells self.new
            → events self.new ≡ Looked found ∷ events self.old) }
        ensures err { OnErr result (tells self.new → events self.new ≡ Failed ∷ events self.old) }
        ensures all { IfOk result (λ found. found ≡ false → tells self.new
            → written self.new ≡ given_by_record (events self.new)) }
        ensures few { tells self.new → length (events self.new) < 18446744073709551615 };

    /// Whether its lock is had.
    fn has_lock(&self) -> bool
        ensures { tells self.now → result ≡ has_had_lock (events self.now) };

    /// Tries its lock: whether it is had now.
    ///
    /// # Errors
    ///
    /// Where there are no locks, or it is gone.
    fn take_over(&mut self) -> Result<bool, LinkFault>
        ensures told { tells self.new → tells self.old }
        ensures ok { IfOk result (λ is_had. tells self.new
            → events self.new ≡ Tried is_had ∷ events self.old) }
        ensures err { OnErr result (tells self.new → events self.new ≡ Failed ∷ events self.old) };

    /// Waits for a moment, until it is worth while to look again.
    fn wait_turn(&mut self)
        ensures told { tells self.new → tells self.old }
        ensures same { tells self.new → events self.new ≡ events self.old };
}
