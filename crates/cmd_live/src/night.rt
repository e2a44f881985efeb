ghost use Rattle.std.specs.Prelude.{◌≡◌, ◌≤◌, ◌⊎◌, List, [], length, IfOk, OnErr, OnOk, true};
ghost use Rattle.live_input.specs.Night.{Happening, answers, ignored_keys, is_over};
ghost use Rattle.live_input.specs.Stands as live;
ghost use Rattle.cmd_live.specs.Night.{trace_of};
ghost use Rattle.cmd_live.specs.Booth.{with_fault, waits_until};
ghost use Rattle.cmd_live.specs.Stands.{BreaksOff, GoesOn, HasHistory, OfEach, Waits, WearsOut};
ghost use Rattle.cmd_live.specs.Stands.{told_keys};

use crate::booth::{Booth, Heard};
use crate::carry::carry_out;
use crate::place::{help_text, show_place};
use console::Console;
use devices::{Link, LinkFault};
use fade_core::Fader;
use live_input::{Given, LiveInput};

/// A live night: it is opened for a show, may begin with a cue or go on behind a record, and is
/// then run from a [`Booth`].
#[derive(Drop)]
pub struct Night<F: Fader> {
    /// The console that carries out its lines.
    pub console: Console<F>,
    /// The input that gives them.
    pub input: LiveInput,
    /// How many packets were lost.
    pub lost: u64,
}

impl<F: Fader> Night<F> {
    // Does what is next, and answers whether the night is over.
    fn go_on<B: Booth, L: Link>(&mut self, booth: &mut B, link: &mut L) -> Result<bool, LinkFault>
        requires real { HasHistory F.stands_for self.old }
        ensures told_booth { B.tells booth.new → B.tells booth.old }
        ensures told_link { L.tells link.new → L.tells link.old }
        ensures goes { OnOk result ((goes : GoesOn F.stands_for
            (B.tells booth.new × L.tells link.new) self.old self.new
            (trace_of (B.state booth.old) (L.offered link.old))
            (trace_of (B.state booth.new) (L.offered link.new))) × (1 ≤ length goes.since)) }
        ensures broke { OnErr result (BreaksOff F.stands_for
            (B.tells booth.new × L.tells link.new) self.old self.new
            (trace_of (B.state booth.old) (L.offered link.old))
            (trace_of (B.state booth.new) (L.offered link.new))) }
        ensures over { IfOk result (λ over. over ≡ true
            → OfEach F.stands_for self.new (λ p happened. is_over (answers happened) ≡ true)) }
    {
        let moment = booth.moment()?;
        match self.input.next(moment) {
            Given::Line(given) => {
                let lost = carry_out(&mut self.console, &given, booth, link);
                self.lost = self.lost.saturating_add(lost as u64);
                self.tell_keys(booth);
            }
            Given::Where(moment) => {
                show_place(&self.console, moment, booth, link);
                self.tell_keys(booth);
            }
            Given::Help => {
                let _ = booth.show(help_text().as_bytes(), link);
                self.tell_keys(booth);
            }
            Given::Refused(text, why) => booth.refuse(text.as_slice(), why),
            Given::Until(due) => self.wait(moment, due, booth)?,
            Given::Over => return Ok(true),
        }
        Ok(false)
    }

    // Tells where keys were left out of the line that was answered.
    fn tell_keys<B: Booth>(&self, booth: &mut B)
        ensures told_booth { B.tells booth.new → B.tells booth.old }
        ensures tells { (happened : List Happening) → live.StandsFor self.now.input happened
            → B.tells booth.new → B.state booth.new
            ≡ told_keys (ignored_keys (answers happened)) (B.state booth.old) }
    {
        if self.input.ignored_keys() {
            booth.ignore_keys();
        }
    }

    // Waits for what is typed, until something is due.
    fn wait<B: Booth>(&mut self, moment: u64, due: u64, booth: &mut B) -> Result<(), LinkFault>
        requires { self.old.input.typed.unread ≡ [] }
        ensures told_booth { B.tells booth.new → B.tells booth.old }
        ensures console { self.new.console ≡ self.old.console }
        ensures lost { self.new.lost ≡ self.old.lost }
        ensures stands { OnOk result (Waits (B.tells booth.new) self.old.input self.new.input
            (waits_until due (B.state booth.old)) (B.state booth.new)) }
        ensures unchanged { OnErr result (self.new ≡ self.old) }
        ensures broke { OnErr result (B.tells booth.new
            → B.state booth.new ≡ with_fault (waits_until due (B.state booth.old))) }
    {
        let mut block = [0; 4096];
        match booth.wait(moment, due, &mut block)? {
            Heard::Bytes(count) => self.input.take_bytes(&block[..count]),
            Heard::End(ends) => self.input.close(ends),
            Heard::Nothing => {}
        }
        Ok(())
    }

    // Goes on until the night is over.
    pub(crate) fn run<B: Booth, L: Link>(
        &mut self,
        booth: &mut B,
        link: &mut L,
    ) -> Result<(), LinkFault>
        requires real { HasHistory F.stands_for self.old }
        ensures told_booth { B.tells booth.new → B.tells booth.old }
        ensures told_link { L.tells link.new → L.tells link.old }
        ensures goes { OnOk result (GoesOn F.stands_for (B.tells booth.new × L.tells link.new)
            self.old self.new (trace_of (B.state booth.old) (L.offered link.old))
            (trace_of (B.state booth.new) (L.offered link.new))) }
        ensures broke { OnErr result (BreaksOff F.stands_for
            (B.tells booth.new × L.tells link.new) self.old self.new
            (trace_of (B.state booth.old) (L.offered link.old))
            (trace_of (B.state booth.new) (L.offered link.new))
            ⊎ WearsOut F.stands_for (B.tells booth.new × L.tells link.new) self.old self.new
            (trace_of (B.state booth.old) (L.offered link.old))
            (trace_of (B.state booth.new) (L.offered link.new))) }
        ensures over { OnOk result (OfEach F.stands_for self.new (λ p happened.
            is_over (answers happened) ≡ true)) }
    {
        // One turn a nanosecond would last for 584 years.
        for _turn in 0..u64::MAX {
            if self.go_on(booth, link)? {
                return Ok(());
            }
        }
        Err(LinkFault)
    }
}
