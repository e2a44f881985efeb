ghost use Rattle.std.specs.Prelude.{◌≡◌, ◌<◌, ◌∷◌, ◌+◌, ◌⊎◌, length, true, false, IfOk, OnErr};
ghost use Rattle.cmd_live.specs.Spare.{AreFirstLines, HasFailed, IsQuiet, IsTakenUp};
ghost use Rattle.cmd_live.specs.Spare.{given_by_record, told_by_record};
ghost use Rattle.cmd_live.specs.declared.main_console.Led.TheVariants.{End};

use crate::main_console::{Led, MainConsole};
use crate::played_record::PlayedRecord;
use devices::LinkFault;

/// A spare that stands by for the night of a record, until another process plays that no more.
#[derive(Debug, Drop)]
pub struct Spare<R> {
    pub record: R,
}

impl<R: PlayedRecord> Spare<R> {
    // Whether it goes on to stand by, behind a look for more lines. What was written before the
    // lock was let go comes behind the lock.
    fn goes_on(&mut self) -> Result<bool, LinkFault>
        ensures told { R.tells self.new.record → R.tells self.old.record }
        ensures goes { IfOk result (λ goes. goes ≡ true → R.tells self.new.record
            → IsQuiet (R.events self.old.record) (R.events self.new.record)) }
        ensures ends { IfOk result (λ goes. goes ≡ false → R.tells self.new.record
            → (told_by_record (R.events self.new.record)
            ≡ End ∷ told_by_record (R.events self.old.record))
            × IsTakenUp (R.events self.new.record) (R.written self.new.record)) }
        ensures fails { OnErr result (R.tells self.new.record
            → (told_by_record (R.events self.new.record)
            ≡ End ∷ told_by_record (R.events self.old.record))
            × HasFailed (R.events self.new.record)) }
        ensures few { R.tells self.new.record
            → length (R.events self.old.record) + 1 < 18446744073709551615 }
    {
        if self.record.look()? {
            return Ok(true);
        }
        if self.record.has_lock() {
            return Ok(false);
        }
        if !self.record.take_over()? {
            self.record.wait_turn();
        }
        Ok(true)
    }
}

impl<R: PlayedRecord> MainConsole for Spare<R> {
    ghost tells = { λ s. R.tells s.record };

    ghost given = { λ s. told_by_record (R.events s.record) };

    fn next(&mut self) -> Led
        ensures told { R.tells self.new.record → R.tells self.old.record }
        ensures gives { R.tells self.new.record → told_by_record (R.events self.new.record)
            ≡ result ∷ told_by_record (R.events self.old.record) }
        ensures first { R.tells self.new.record → (result ≡ End → ⊥)
            → AreFirstLines (given_by_record (R.events self.new.record))
            (R.written self.new.record) }
        ensures end { R.tells self.new.record → result ≡ End
            → IsTakenUp (R.events self.new.record) (R.written self.new.record)
            ⊎ HasFailed (R.events self.new.record) }
    {
        // One turn a nanosecond would last for 584 years.
        for _turn in 0..u64::MAX {
            if let Some(line) = self.record.next_line() {
                return Led::Line(line);
            }
            match self.goes_on() {
                Ok(true) => {}
                Ok(false) | Err(LinkFault) => return Led::End,
            }
        }
        Led::End
    }
}
