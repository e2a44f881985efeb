ghost use Rattle.std.specs.Prelude.{◌≡◌, IfOk, OnOk, OnErr};
ghost use Rattle.devices.specs.Tape.{with_more, with_failure};
ghost use Rattle.live_input.specs.Night.{asked};
ghost use Rattle.cmd_live.specs.Booth.{BoothState, HeardFits, with_fault, happens, with_input};
ghost use Rattle.cmd_live.specs.Booth.{keeps};
ghost use Rattle.cmd_live.specs.Booth.{begins, is_told, keys, refused, shows, waits_until};

use devices::{Link, LinkFault};
use live_input::Reason;

/// What a wait brought.
#[derive(Clone, Copy, Debug, PartialEq, Eq)]
pub enum Heard {
    /// So many bytes, at the front of the block.
    Bytes(usize),
    /// The end of the input, and whether the night ends with it.
    End(bool),
    /// Nothing.
    Nothing,
}

/// Where a live night is run from: the clock, what is typed, the record, and what the operator
/// sees.
///
/// A booth *tells* where contracts can see what it did, under the rules of an
/// [`Output`](devices::Output). Nothing that it keeps or shows ends a night: a call that fails is
/// one that the booth tells of in its own way.
pub trait Booth {
    /// Contracts can see what the booth did.
    ghost tells: { Self → Type 0 };

    /// What happened to the night's input, and what was kept and shown, and when.
    ghost state: { Self → BoothState };

    /// Sets the clock: it is this moment now, in milliseconds from the start of the night.
    fn begin(&mut self, moment: u64)
        ensures told { tells self.new → tells self.old }
        ensures begins { tells self.new → state self.new ≡ begins moment (state self.old) };

    /// The moment of the clock, in milliseconds from the start of the night.
    ///
    /// # Errors
    ///
    /// Where the clock cannot be read. Then the night ends.
    fn moment(&mut self) -> Result<u64, LinkFault>
        ensures told { tells self.new → tells self.old }
        ensures ok { IfOk result (λ moment. tells self.new
            → state self.new ≡ happens (asked moment) (state self.old)) }
        ensures err { OnErr result (tells self.new
            → state self.new ≡ with_fault (state self.old)) };

    /// Waits for what is typed, at most from `moment` to `due`, both in milliseconds from the start
    /// of the night, and writes it to the front of the block.
    ///
    /// # Errors
    ///
    /// Where nothing can be waited for. Then the night ends.
    fn wait(&mut self, moment: u64, due: u64, block: &mut [u8; 4096]) -> Result<Heard, LinkFault>
        ensures told { tells self.new → tells self.old }
        ensures within { IfOk result HeardFits }
        ensures ok { IfOk result (λ heard. tells self.new
            → state self.new ≡ with_input heard block.new (waits_until due (state self.old))) }
        ensures err { OnErr result (tells self.new → state self.new
            ≡ with_fault (waits_until due (state self.old))) };

    /// Records a line, with its LF, before anything of it is offered to this link.
    ///
    /// # Errors
    ///
    /// Where the line is not in the record. The night goes on.
    fn keep<L: Link>(&mut self, line: &[u8], link: &L) -> Result<(), LinkFault>
        ensures told { tells self.new → tells self.old }
        ensures ok { OnOk result (tells self.new → state self.new ≡ keeps
            (with_more (state self.old).kept line.now) (L.offered link.now) (state self.old)) }
        ensures err { OnErr result (tells self.new → state self.new ≡ keeps
            (with_failure (state self.old).kept) (L.offered link.now) (state self.old)) };

    /// Shows a line, with its LF, behind all that is offered to this link.
    ///
    /// # Errors
    ///
    /// Where the line is not shown. The night goes on.
    fn show<L: Link>(&mut self, line: &[u8], link: &L) -> Result<(), LinkFault>
        ensures told { tells self.new → tells self.old }
        ensures ok { OnOk result (tells self.new → state self.new ≡ shows
            (with_more (state self.old).shown line.now) (L.offered link.now) (state self.old)) }
        ensures err { OnErr result (tells self.new → state self.new ≡ shows
            (with_failure (state self.old).shown) (L.offered link.now) (state self.old)) };

    /// Tells that a typed line was refused, and why: its first 200 bytes, as they are shown.
    fn refuse(&mut self, text: &[u8], why: Reason)
        ensures told { tells self.new → tells self.old }
        ensures refused { tells self.new
            → state self.new ≡ is_told (refused text.now why) (state self.old) };

    /// Tells that keys were left out of a typed line.
    fn ignore_keys(&mut self)
        ensures told { tells self.new → tells self.old }
        ensures ignored { tells self.new → state self.new ≡ is_told keys (state self.old) };
}
