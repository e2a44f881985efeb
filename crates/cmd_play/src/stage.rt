ghost use Rattle.std.specs.Prelude.{◌≤◌, ◌*◌};

use crate::fault::PlayFault;
use crate::line::take_line;
use arrayvec::ArrayVec;
use console::Console;
use devices::{Feed, Link, Output};
use fade_core::Fader;

// The most lines that a play carries out.
const MOST_LINES: u32 = 10_000_000;

// Where a play stands in its input.
#[derive(Drop)]
pub struct Stage<F: Fader> {
    pub console: Console<F>,
    // What has come of the next line.
    pub pending: ArrayVec<u8, 200>,
    // How many lines were carried out.
    pub number: u32,
    // How many packets were lost.
    pub lost: u64,
    ghost few: { number ≤ 10000000 },
    ghost counted: { lost ≤ 16 * number },
}

impl<F: Fader> Stage<F> {
    ghost use Rattle.std.specs.Prelude.{◌≡◌, [], ◌∷◌, OnOk, IfOk, IfErr};
    ghost use Rattle.console.specs.Streams.{Production};
    ghost use Rattle.ascii_text.specs.Lines.{Cut, no_bytes};
    ghost use Rattle.cmd_play.specs.Play.{PlayEndsEarly, PlaysAll};
    ghost use Rattle.cmd_play.specs.Run.{emission};
    ghost use Rattle.cmd_play.specs.Stage.{PlayHasEnded, PlayHasTaken, StandsFor};

    // Takes a byte of the input: LF carries a line out.
    pub fn take_byte<L: Link, W: Output>(
        &mut self,
        byte: u8,
        link: &mut L,
        out: &mut W,
    ) -> Result<(), PlayFault>
        requires real { (p : Production) × (cut : Cut) × StandsFor F.stands_for p self.old cut }
        ensures told { (L.tells link.new → L.tells link.old) × (W.tells out.new → W.tells out.old) }
        ensures taken { OnOk result (PlayHasTaken F.stands_for (byte ∷ []) self.old self.new
            (L.tells link.new × W.tells out.new) (emission (L.offered link.old) (W.tape out.old))
            (emission (L.offered link.new) (W.tape out.new))) }
        ensures ended { IfErr result (λ fault. PlayHasEnded F.stands_for fault (byte ∷ []) self.old
            (L.tells link.new × W.tells out.new) (emission (L.offered link.old) (W.tape out.old))
            (emission (L.offered link.new) (W.tape out.new))) }
    {
        let number = self.number + 1;
        if self.number == MOST_LINES {
            return Err(PlayFault::Line(number));
        }
        if byte != b'\n' {
            if self.pending.is_full() {
                return Err(PlayFault::Line(number));
            }
            self.pending.push(byte);
            return Ok(());
        }
        let lost = take_line(
            &mut self.console,
            number,
            self.pending.as_slice(),
            link,
            out,
        )?;
        self.number = number;
        self.lost += lost as u64;
        self.pending.clear();
        Ok(())
    }

    // Takes some bytes of the input.
    pub fn take_bytes<L: Link, W: Output>(
        &mut self,
        bytes: &[u8],
        link: &mut L,
        out: &mut W,
    ) -> Result<(), PlayFault>
        requires real { (p : Production) × (cut : Cut) × StandsFor F.stands_for p self.old cut }
        ensures told { (L.tells link.new → L.tells link.old) × (W.tells out.new → W.tells out.old) }
        ensures taken { OnOk result (PlayHasTaken F.stands_for bytes.now self.old self.new
            (L.tells link.new × W.tells out.new) (emission (L.offered link.old) (W.tape out.old))
            (emission (L.offered link.new) (W.tape out.new))) }
        ensures ended { IfErr result (λ fault. PlayHasEnded F.stands_for fault bytes.now self.old
            (L.tells link.new × W.tells out.new) (emission (L.offered link.old) (W.tape out.old))
            (emission (L.offered link.new) (W.tape out.new))) }
    {
        for byte in bytes {
            self.take_byte(*byte, link, out)?;
        }
        Ok(())
    }

    // Takes a whole input where nothing was taken yet, and answers how many packets were lost.
    pub fn take_input<R: Feed, L: Link, W: Output>(
        &mut self,
        input: &mut R,
        link: &mut L,
        out: &mut W,
    ) -> Result<u64, PlayFault>
        requires real { (p : Production) × StandsFor F.stands_for p self.old no_bytes }
        requires none_lost { self.old.lost ≡ 0 }
        ensures told_input { R.tells input.new → R.tells input.old }
        ensures told_link { L.tells link.new → L.tells link.old }
        ensures told_output { W.tells out.new → W.tells out.old }
        ensures all { IfOk result (λ lost. (p : Production)
            → StandsFor F.stands_for p self.old no_bytes
            → R.tells input.new → L.tells link.new → W.tells out.new
            → PlaysAll p (R.ended input.new) (R.tape input.old) (R.tape input.new)
            (emission (L.offered link.old) (W.tape out.old))
            (emission (L.offered link.new) (W.tape out.new)) lost) }
        ensures ends { IfErr result (λ fault. (p : Production)
            → StandsFor F.stands_for p self.old no_bytes
            → R.tells input.new → L.tells link.new → W.tells out.new
            → PlayEndsEarly p fault (R.ended input.new) (R.tape input.old) (R.tape input.new)
            (emission (L.offered link.old) (W.tape out.old))
            (emission (L.offered link.new) (W.tape out.new))) }
    {
        let mut buf = [0; 4096];
        loop {
            let count = input.read(&mut buf)?;
            if count == 0 {
                break;
            }
            self.take_bytes(&buf[..count], link, out)?;
        }
        if self.pending.is_empty() {
            return Ok(self.lost);
        }
        self.take_bytes(b"\n", link, out)?;
        Ok(self.lost)
    }
}
