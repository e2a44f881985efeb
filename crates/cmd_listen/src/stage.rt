ghost use Rattle.std.specs.Prelude.{◌≤◌};

use crate::fault::WatchFault;
use crate::print::{take_end, take_line};
use crate::watching::Watching;
use arrayvec::ArrayVec;
use devices::{Feed, Output};
use std::alloc::Global;

// The most lines that a watch takes.
const MOST_LINES: u32 = 4_000_000_000;

// Where a watch stands in its input.
#[derive(Drop)]
pub struct Stage {
    pub alloc: Global,
    pub watching: Watching,
    // What has come of the next line: there is room for 1,500 bytes in hex, and a moment.
    pub pending: ArrayVec<u8, 3072>,
    // How many lines were taken.
    pub number: u32,
    ghost few: { number ≤ 4000000000 },
}

impl Stage {
    ghost use Rattle.std.specs.Prelude.{◌≡◌, ℕ, List, [], ◌∷◌, OnOk, IfErr};
    ghost use Rattle.ascii_text.specs.Lines.{no_bytes};
    ghost use Rattle.cmd_listen.specs.Runs.{WatchEndsEarly, WatchesAll};
    ghost use Rattle.cmd_listen.specs.Stage.{WatchHasEnded, WatchHasTaken, LastTold};
    ghost use Rattle.cmd_listen.specs.Stage.{StageStandsFor, last_lf};

    // Takes a byte of the input: LF ends a line.
    pub fn take_byte<W: Output>(&mut self, byte: u8, out: &mut W) -> Result<(), WatchFault>
        ensures told { W.tells out.new → W.tells out.old }
        ensures taken { OnOk result (WatchHasTaken (byte ∷ []) self.old self.new (W.tells out.new)
            (W.tape out.old) (W.tape out.new)) }
        ensures ended { IfErr result (λ fault. WatchHasEnded fault (byte ∷ []) self.old
            (W.tells out.new) (W.tape out.old) (W.tape out.new)) }
    {
        let number = self.number + 1;
        if self.number == MOST_LINES {
            return Err(WatchFault::Line(number));
        }
        if byte != b'\n' {
            if self.pending.is_full() {
                return Err(WatchFault::Line(number));
            }
            self.pending.push(byte);
            return Ok(());
        }
        take_line(
            self.alloc,
            &mut self.watching,
            number,
            self.pending.as_slice(),
            out,
        )?;
        self.number = number;
        self.pending.clear();
        Ok(())
    }

    // Takes some bytes of the input.
    pub fn take_bytes<W: Output>(&mut self, bytes: &[u8], out: &mut W) -> Result<(), WatchFault>
        ensures told { W.tells out.new → W.tells out.old }
        ensures taken { OnOk result (WatchHasTaken bytes.now self.old self.new (W.tells out.new)
            (W.tape out.old) (W.tape out.new)) }
        ensures ended { IfErr result (λ fault. WatchHasEnded fault bytes.now self.old
            (W.tells out.new) (W.tape out.old) (W.tape out.new)) }
    {
        for byte in bytes {
            self.take_byte(*byte, out)?;
        }
        Ok(())
    }

    // Takes the LF that a last line without one lacks.
    fn take_rest<W: Output>(&mut self, out: &mut W) -> Result<(), WatchFault>
        ensures told { W.tells out.new → W.tells out.old }
        ensures taken { OnOk result
            (WatchHasTaken (last_lf self.old.pending.items) self.old self.new
            (W.tells out.new) (W.tape out.old) (W.tape out.new)) }
        ensures ended { IfErr result (λ fault. WatchHasEnded fault (last_lf self.old.pending.items)
            self.old (W.tells out.new) (W.tape out.old) (W.tape out.new)) }
    {
        if self.pending.is_empty() {
            return Ok(());
        }
        self.take_bytes(b"\n", out)
    }

    // Takes the end of the lines.
    fn take_last<W: Output>(&mut self, out: &mut W) -> Result<(), WatchFault>
        ensures told { W.tells out.new → W.tells out.old }
        ensures last { LastTold result self.old.watching (W.tells out.new) (W.tape out.old)
            (W.tape out.new) }
    {
        take_end(self.alloc, &mut self.watching, out)
    }

    // Takes a whole input where nothing was taken yet.
    pub fn take_input<R: Feed, W: Output>(
        &mut self,
        input: &mut R,
        out: &mut W,
    ) -> Result<(), WatchFault>
        ensures told_input { R.tells input.new → R.tells input.old }
        ensures told_output { W.tells out.new → W.tells out.old }
        ensures all { OnOk result ((universes : List ℕ) → StageStandsFor universes self.old no_bytes
            → R.tells input.new → W.tells out.new
            → WatchesAll universes (R.ended input.new) (R.tape input.old) (R.tape input.new)
            (W.tape out.old) (W.tape out.new)) }
        ensures ends { IfErr result (λ fault. (universes : List ℕ)
            → StageStandsFor universes self.old no_bytes
            → R.tells input.new → W.tells out.new
            → WatchEndsEarly universes fault (R.ended input.new) (R.tape input.old)
            (R.tape input.new) (W.tape out.old) (W.tape out.new)) }
    {
        let mut buf = [0; 4096];
        loop {
            let count = input.read(&mut buf)?;
            if count == 0 {
                break;
            }
            self.take_bytes(&buf[..count], out)?;
        }
        self.take_rest(out)?;
        self.take_last(out)
    }
}
