ghost use Rattle.std.specs.Prelude.{◌≡◌, ◌↔◌, None, Some, Err, IsFalse, List, [], ◌∷◌, IfOk, OnOk};
ghost use Rattle.std.specs.Prelude.{OnErr, MatchResult, is_some};
ghost use Rattle.std.specs.Coded.{codes};
ghost use Rattle.show_core.specs.contracts.show.Show as show_model;
ghost use Rattle.patch_core.specs.Frame.{is_base};
ghost use Rattle.patch_core.specs.declared.fault.RigFault.TheVariants.{Universe};
ghost use Rattle.playback_core.specs.Placed.{IsPlaceAfter};
ghost use Rattle.playback_core.specs.Played.{current_after};
ghost use Rattle.master_core.specs.Settings as masters_stand;
ghost use Rattle.desk_core.specs.Played.{moves, order_at, outcome, refusal, settings, tick_answer};
ghost use Rattle.desk_core.specs.Played.{tick_at, ticks_since_end};
ghost use Rattle.console.specs.ConsoleState.{ConsoleState};
ghost use Rattle.console.specs.Offering.{OffersDues as OffersTo};
ghost use Rattle.console.specs.Stands.{HasHistory, Leads, OfEach, StandsFor};
ghost use Rattle.console.specs.Streams.{dues_at};

use crate::offers::Offers;
use crate::tick::offer_all;
use desk_core::{Desk, Instruction, Refused, Ticked};
use fade_core::Fader;
use master_core::Masters;
use patch_core::RigFault;
use playback_core::Place;
use sacn_source::{Identity, Link, Sender};
use show_core::Show;
use std::alloc::{AllocError, Global};
use std::fmt;
use std::marker::Model;

/// A desk, and the source that sends its frames.
///
/// Moments are in milliseconds. Calls are taken whole, one after another; a refused one changes
/// nothing and sends nothing.
///
/// Only `open` takes memory.
#[derive(Drop)]
pub struct Console<F: Fader> {
    desk: Desk<F>,
    sender: Sender,
}

impl<F: Fader> Model for Console<F> {
    ghost Value = { ConsoleState F };

    ghost coded = { Prim.hlevel (codes, show_model.the_row.coded) };

    ghost view = { λ console. record { desk = console.desk; sender = console.sender } };
}

impl<F: Fader> fmt::Debug for Console<F> {
    fn fmt<W: fmt::Write>(&self, f: &mut fmt::Formatter<W>) -> fmt::Result {
        f.debug_struct("Console")
            .field("desk", &self.desk)
            .field("sender", &self.sender)
            .finish()
    }
}

impl<F: Fader> Console<F> {
    /// A console with a copy of the show, `base` as the number of the universe of ordinal 0, and
    /// nothing sent yet.
    ///
    /// # Errors
    ///
    /// `Universe` where `base`, or `base` plus an ordinal with a patched dimmer, is not 1 to 63999;
    /// else `Memory` if an allocation failed.
    pub fn open(alloc: Global, show: &Show, base: u16, source: Identity) -> Result<Self, RigFault>
        ensures stands { IfOk result (λ console. StandsFor F.stands_for
            (record { show = show.now; base = base; source = source }) console []) }
        ensures universe { (result ≡ Err Universe) ↔ IsFalse (is_base show.now.patch base) }
    {
        let desk = Desk::open(alloc, show, base)?;
        let sender = match Sender::open(alloc, source, desk.universes().as_slice()) {
            Ok(sender) => sender,
            Err(AllocError) => return Err(RigFault::Memory),
        };
        Ok(Console { desk, sender })
    }

    /// Carries out an instruction.
    ///
    /// # Errors
    ///
    /// As [`Desk::order`]; then nothing changed.
    pub fn order(&mut self, moment: u64, instruction: Instruction) -> Result<(), Refused>
        ensures answer { OfEach F.stands_for self.old (λ production history.
            result ≡ outcome (refusal production.show history (order_at moment instruction)) tt) }
        ensures stands { OnOk result
            (Leads F.stands_for (order_at moment instruction) self.old self.new) }
        ensures unchanged { OnErr result (self.new ≡ self.old) }
    {
        self.desk.order(moment, instruction)
    }

    /// Shows every universe anew, and offers each of them, ascending, its frame or, after End, the
    /// end of its stream. A lost packet is not offered again, and the other universes are still
    /// offered theirs.
    ///
    /// A console that is called stands for some history: a new one for the empty one.
    ///
    /// # Errors
    ///
    /// As [`Desk::tick`]; then nothing changed, and nothing was offered.
    pub fn tick<L: Link>(&mut self, moment: u64, link: &mut L) -> Result<(Ticked, Offers), Refused>
        requires real { HasHistory F.stands_for self.old }
        ensures answer { OfEach F.stands_for self.old (λ production history. MatchResult result
            (λ answer. (refusal production.show history (tick_at moment) ≡ None)
            × (answer.0 ≡ tick_answer (ticks_since_end history)))
            (λ refused. refusal production.show history (tick_at moment) ≡ Some refused)) }
        ensures stands { OnOk result (Leads F.stands_for (tick_at moment) self.old self.new) }
        ensures offered { IfOk result (λ answer. OfEach F.stands_for self.old (λ production history.
            L.tells link.new
            → OffersTo production.source (dues_at production history moment) answer.1
            (L.offered link.old) (L.offered link.new))) }
        ensures told { L.tells link.new → L.tells link.old }
        ensures unchanged { OnErr result (self.new ≡ self.old) }
        ensures quiet { OnErr result (L.tells link.new → L.offered link.new ≡ L.offered link.old) }
    {
        let answer = self.desk.tick(moment)?;
        let offers = offer_all(&self.desk, &mut self.sender, moment, answer, link);
        Ok((answer, offers))
    }

    /// The current cue, in thousandths: that of the latest move.
    pub fn current(&self) -> Option<u32>
        ensures { OfEach F.stands_for self.now (λ production history.
            result ≡ current_after (moves production.show history)) }
    {
        self.desk.current()
    }

    /// The place in the cue list: the current cue, and when the next one follows it by itself.
    pub fn place(&self) -> Place
        ensures { OfEach F.stands_for self.now (λ production history.
            IsPlaceAfter production.show result (moves production.show history)
            (is_some (ticks_since_end history))) }
    {
        self.desk.place()
    }

    /// The masters, as the commands so far set them.
    pub fn masters(&self) -> &Masters
        ensures { OfEach F.stands_for self.now (λ production history.
            masters_stand.StandsFor result.now (settings history)) }
    {
        self.desk.masters()
    }

    /// The show that is played.
    pub fn show(&self) -> &Show
        ensures { OfEach F.stands_for self.now (λ production history.
            result.now ≡ production.show) }
    {
        self.desk.show()
    }
}
