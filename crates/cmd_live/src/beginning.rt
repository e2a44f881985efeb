ghost use Rattle.std.specs.Prelude.{◌≡◌, ◌<◌, ◌+◌, ℕ, List, true, false, length};
ghost use Rattle.std.specs.Prelude.{Err, IfOk, IfErr, OnOk, OnErr};
ghost use Rattle.show_reader.specs.Reading.{longest_text};
ghost use Rattle.show_reader.specs.declared.fault.ShowFault.TheVariants as show_fault;
ghost use Rattle.console.specs.Streams.{Production};
ghost use Rattle.ascii_text.specs.Lines.{cut_of};
ghost use Rattle.cmd_play.specs.Opened.{Refuses};
ghost use Rattle.live_input.specs.Night.{Happening, answers, is_over, now};
ghost use Rattle.live_input.specs.Recall.{AreRecalled, IsRecalled, recall_of, recall_line};
ghost use Rattle.live_input.specs.Stands as live;
ghost use Rattle.cmd_live.specs.Beginning.{BeginsWith, HasTakenUp, IsFirstOther, IsReady};
ghost use Rattle.cmd_live.specs.Beginning.{OffersLine, OpensNight, TakesUp, has_cue};
ghost use Rattle.cmd_live.specs.Night.{history_at};
ghost use Rattle.cmd_live.specs.Stands.{HasHistory, OfEach, StandsFor};

use crate::night::Night;
use arrayvec::ArrayString;
use cmd_faults::RunFault;
use cmd_play::{open, perform};
use console::{Console, cue_number};
use devices::Link;
use fade_core::Fader;
use live_input::LiveInput;
use sacn_source::Identity;
use std::alloc::Global;

impl<F: Fader> Night<F> {
    /// A night with the show of a text, `base` as the universe number of ordinal 0 and `identity`
    /// as who sends. Only this takes memory.
    ///
    /// # Errors
    ///
    /// `Show`, `Base` or `Memory`.
    pub fn open(alloc: Global, show: &[u8], identity: Identity, base: u16) -> Result<Self, RunFault>
        ensures opened { IfOk result (λ night. OpensNight F.stands_for night show.now base
            identity) }
        ensures refused { IfErr result (λ fault. Refuses fault show.now base) }
        ensures too_long { longest_text < length show.now → result ≡ Err
            (RunFault.Show show_fault.TooLong) }
    {
        let console: Console<F> = open(alloc, show, identity, base)?;
        Ok(Night {
            console,
            input: LiveInput::new(),
            lost: 0,
        })
    }

    /// Begins with a cue, in thousandths, at full: `goto` this cue in no time is what was typed
    /// before the first tick.
    ///
    /// # Errors
    ///
    /// `NoCue` where the show has no such cue. Then nothing changed.
    pub fn begin_with(&mut self, cue: u32) -> Result<(), RunFault>
        requires ready { IsReady self.old }
        ensures begins { OnOk result (BeginsWith F.stands_for self.old self.new cue) }
        ensures there { OfEach F.stands_for self.old (λ p happened. has_cue result p.show cue) }
        ensures unchanged { OnErr result (self.new ≡ self.old) }
    {
        if self.console.show().cue(cue).is_none() {
            return Err(RunFault::NoCue);
        }
        let mut line = ArrayString::<24>::new();
        line.push_str("goto ");
        line.push_str(cue_number(cue).as_str());
        line.push_str(" in 0\n");
        self.input.take_bytes(line.as_str().as_bytes());
        Ok(())
    }

    /// TakesText up lines of the record of a live night behind those before, by their text: carries
    /// them out, and offers to the link what is due. A night that goes on behind a record takes it
    /// up over [`Silent`]; one that follows another console takes up its lines as they come, over a
    /// link of its own. Bytes behind the last LF are no line yet. Answers how many bytes of the
    /// text are whole lines. Packets that are lost are not counted.
    ///
    /// # Errors
    ///
    /// The number in this text, from 1, of the first line that no live night gives behind those
    /// before it. Then this night is of no use any more.
    pub fn take_up<L: Link>(&mut self, text: &[u8], link: &mut L) -> Result<usize, u64>
        requires ready { IsReady self.old }
        requires real { (p : Production) × HasTakenUp F.stands_for p self.old }
        ensures told { L.tells link.new → L.tells link.old }
        ensures goes_on { OnOk result (TakesUp F.stands_for (L.tells link.new) self.old self.new
            (cut_of text.now).lines (L.offered link.old) (L.offered link.new)) }
        ensures whole { IfOk result (λ count. count + length (cut_of text.now).rest
            ≡ length text.now) }
        ensures stops { IfErr result (λ number. (p : Production) (older : List (List ℕ))
            → StandsFor F.stands_for p self.old (recall_of older) → AreRecalled older
            → IsFirstOther older text.now number) }
    {
        let mut from = 0;
        let mut number = 0;
        for at in 0..text.len() {
            if text[at] == b'\n' {
                number += 1;
                if !self.recall(&text[from..at], link) {
                    return Err(number);
                }
                from = at + 1;
            }
        }
        Ok(from)
    }

    // Carries out a line of a record, where it is given again.
    pub(crate) fn recall<L: Link>(&mut self, line: &[u8], link: &mut L) -> bool
        requires ready { IsReady self.old }
        requires real { HasHistory F.stands_for self.old }
        ensures told { L.tells link.new → L.tells link.old }
        ensures stands { result ≡ true → OfEach F.stands_for self.old (λ p happened.
            StandsFor F.stands_for p self.new (recall_line line.now happened)) }
        ensures recalls { result ≡ true → (happened : List Happening)
            → live.StandsFor self.old.input happened → IsRecalled line.now happened }
        ensures offers { result ≡ true → L.tells link.new
            → OfEach F.stands_for self.old (λ p happened.
            OffersLine p (history_at p.show happened) line.now (L.offered link.old)
            (L.offered link.new)) }
        ensures ready { result ≡ true → IsReady self.new }
        ensures other { result ≡ false → (happened : List Happening)
            → live.StandsFor self.old.input happened → IsRecalled line.now happened → ⊥ }
    {
        match self.input.recall(line) {
            Some(given) => {
                let _performed = perform(&mut self.console, given.moment, given.call, link);
                true
            }
            None => false,
        }
    }

    /// The moment of the last line, in milliseconds from the start of the night; 0 before the
    /// first.
    pub fn moment(&self) -> u64
        ensures { (happened : List Happening) → live.StandsFor self.now.input happened
            → result ≡ now happened }
    {
        self.input.moment()
    }

    /// Whether the night is over: nothing is carried out any more.
    pub fn is_over(&self) -> bool
        ensures { (happened : List Happening) → live.StandsFor self.now.input happened
            → result ≡ is_over (answers happened) }
    {
        self.input.is_over()
    }
}
