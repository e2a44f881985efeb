ghost use Rattle.std.specs.Prelude.{◌≡◌, ◌↔◌, ℕ, ◌-◌, ◌^◌, ◌<◌, ◌≤◌, List, [], ◌∷◌, All, Contains};
ghost use Rattle.std.specs.Prelude.{IsTrue, IsFalse, IfOk, OnOk, OnErr, Err, IfSome, None, Some};
ghost use Rattle.std.specs.Prelude.{false, is_some};
ghost use Rattle.std.specs.Coded.{codes};
ghost use Rattle.std.specs.List.Sorted.{IsStrictlyIncreasing};
ghost use Rattle.show_core.specs.Numbers.{is_channel};
ghost use Rattle.show_core.specs.Tables.{Tables};
ghost use Rattle.show_core.specs.contracts.show.Show as show_model;
ghost use Rattle.playback_core.specs.Placed.{IsPlaceAfter};
ghost use Rattle.playback_core.specs.Played.{current_after, with_due};
ghost use Rattle.playback_core.specs.Stands as playback_stands;
ghost use Rattle.master_core.specs.Settings as masters_stand;
ghost use Rattle.patch_core.specs.Frame.{is_universe, is_base, frames_in};
ghost use Rattle.patch_core.specs.declared.fault.RigFault.TheVariants.{Universe};
ghost use Rattle.desk_core.specs.Played.{Act, order, order_at, tick, tick_at, ticks_since_end, ended_by};
ghost use Rattle.desk_core.specs.Played.{moves, settings};
ghost use Rattle.desk_core.specs.Played.{time_refusal, is_after_end, is_soon, lack_refusal, refusal};
ghost use Rattle.desk_core.specs.Played.{outcome, tick_answer};
ghost use Rattle.desk_core.specs.DeskState.{DeskState};
ghost use Rattle.desk_core.specs.Inside.{IsDesk, are_current, are_kept};
ghost use Rattle.desk_core.specs.Meaning.{latest_frame, universe_numbers};
ghost use Rattle.desk_core.specs.Stands.{Leads, OfEach, StandsFor};
ghost use Rattle.desk_core.specs.declared.instruction.Instruction.TheVariants.{Plain, GotoIn};
ghost use Rattle.desk_core.specs.Ticks.{IsKeptBut};

use crate::answer::{Refused, Ticked};
use crate::command::Command;
use crate::frames::{Merged, darken, draw_merged, redraw_merged};
use crate::instruction::Instruction;
use crate::kept::{FloorState, FrameState};
use arrayvec::ArrayVec;
use fade_core::Fader;
use master_core::Masters;
use patch_core::{Rig, RigFault};
use playback_core::{Place, Playback};
use show_core::{CHANNELS, DIMMERS, Frame, Show};
use std::alloc::Global;
use std::fmt;
use std::marker::Model;

/// Moments are below this, 2^48 milliseconds.
pub const MOMENTS: u64 = 0x1_0000_0000_0000;

/// Ticks are at least so many milliseconds apart: a full packet of DMX512-A takes 22.7 (E1.31,
/// Transmission Rate).
pub const SHORTEST_GAP: u64 = 23;

/// So many ticks after End carry the end of the streams (E1.31, Options: Stream_Terminated).
pub const ENDING_TICKS: u8 = 3;

/// More channels than this are quicker drawn with all others than one by one.
const FEW: usize = 700;

/// A console: a show, its playback and masters, and the frames of its universes as the latest tick
/// showed them.
///
/// Moments are in milliseconds. Calls are taken whole, one after another; a refused one changes
/// nothing. A frame has 512 slots of a level byte; what commands do is seen in it from the next
/// tick on.
///
/// Only `open` takes memory.
#[derive(Drop)]
pub struct Desk<F: Fader> {
    show: Show,
    rig: Rig,
    playback: Playback<F>,
    masters: Masters,
    last_moment: u64,
    last_tick: Option<u64>,
    ended: Option<u8>,
    universes: ArrayVec<u16, 16>,
    levels: Vec<u16>,
    floors: Vec<u16>,
    floor_state: FloorState,
    // The slots of all dimmers, in a row.
    slots: Vec<u8>,
    frame_state: FrameState,
}

impl<F: Fader> Model for Desk<F> {
    ghost Value = { DeskState F };

    ghost coded = { Prim.hlevel (codes, show_model.the_row.coded) };

    ghost view = { λ d. record {
      show = d.show;
      base = d.rig.base;
      playback = d.playback;
      masters = d.masters;
      last_moment = d.last_moment;
      last_tick = d.last_tick;
      ended = d.ended;
      floors = d.floors.items;
      are_floors = are_current d.floor_state;
      frames = frames_in d.slots.items;
      is_kept = are_kept d.frame_state;
    } };

    ghost invariant = { λ d. IsDesk (F.latest d.playback.fader) d.last_moment d.rig d.show
        d.universes.items d.levels.items d.floors.items d.floor_state d.slots.items };
}

impl<F: Fader> fmt::Debug for Desk<F> {
    // Without the show, the levels and the frames, which are long.
    fn fmt<W: fmt::Write>(&self, f: &mut fmt::Formatter<W>) -> fmt::Result {
        f.debug_struct("Desk")
            .field("base", &self.rig.base())
            .field("current", &self.current())
            .field("last_moment", &self.last_moment)
            .field("last_tick", &self.last_tick)
            .field("ended", &self.ended)
            .finish_non_exhaustive()
    }
}

impl<F: Fader> Desk<F> {
    /// A desk with a copy of the show, `base` as the number of the universe of ordinal 0, no
    /// current cue, and dark frames.
    ///
    /// # Errors
    ///
    /// `Universe` where `base`, or `base` plus an ordinal with a patched dimmer, is not 1 to 63999;
    /// else `Memory` if an allocation failed.
    pub fn open(alloc: Global, show: &Show, base: u16) -> Result<Self, RigFault>
        ensures stands { IfOk result (λ desk. StandsFor F.stands_for show.now base desk []) }
        ensures universe { (result ≡ Err Universe) ↔ IsFalse (is_base show.now.patch base) }
    {
        let rig = Rig::new(alloc, show, base)?;
        let levels = vec![in alloc; 0; usize::from(CHANNELS)]?;
        let floors = vec![in alloc; 0; usize::from(CHANNELS)]?;
        let slots = vec![in alloc; 0; usize::from(DIMMERS)]?;
        let playback = Playback::new(alloc)?;
        let show = show.clone_in(alloc)?;
        let universes = universe_numbers(&show, rig.base());
        Ok(Desk {
            show,
            rig,
            playback,
            masters: Masters::new(),
            last_moment: 0,
            last_tick: None,
            ended: None,
            universes,
            levels,
            floors,
            floor_state: FloorState::Stale,
            slots,
            frame_state: FrameState::Stale,
        })
    }

    /// Carries out a command.
    ///
    /// # Errors
    ///
    /// The first of `Backwards`, `MomentTooLarge`, `Ended`, `AtEnd`, `AtStart`, `NoCue`, `NoSub`
    /// and `NoGroup` that applies; then nothing changed.
    pub fn command(&mut self, moment: u64, command: Command) -> Result<(), Refused>
        ensures answer { OfEach F.stands_for self.old (λ show base history.
            result ≡ outcome (refusal show history (order_at moment (Plain command))) tt) }
        ensures stands { OnOk result
            (Leads F.stands_for (order_at moment (Plain command)) self.old self.new) }
        ensures unchanged { OnErr result (self.new ≡ self.old) }
    {
        self.order(moment, Instruction::Plain(command))
    }

    /// Moves to a cue, in thousandths, over this time in milliseconds, up and down and without
    /// delay, in place of the cue's times.
    ///
    /// # Errors
    ///
    /// The first of `Backwards`, `MomentTooLarge`, `Ended` and `NoCue` that applies; then nothing
    /// changed.
    pub fn goto_in(&mut self, moment: u64, cue: u32, time: u32) -> Result<(), Refused>
        ensures answer { OfEach F.stands_for self.old (λ show base history.
            result ≡ outcome (refusal show history (order_at moment (GotoIn cue time))) tt) }
        ensures stands { OnOk result
            (Leads F.stands_for (order_at moment (GotoIn cue time)) self.old self.new) }
        ensures unchanged { OnErr result (self.new ≡ self.old) }
    {
        self.order(moment, Instruction::GotoIn { cue, time })
    }

    /// Carries out an instruction, as `command` or `goto_in` does.
    ///
    /// # Errors
    ///
    /// As of that call; then nothing changed.
    pub fn order(&mut self, moment: u64, instruction: Instruction) -> Result<(), Refused>
        ensures answer { OfEach F.stands_for self.old (λ show base history.
            result ≡ outcome (refusal show history (order_at moment instruction)) tt) }
        ensures stands { OnOk result
            (Leads F.stands_for (order_at moment instruction) self.old self.new) }
        ensures unchanged { OnErr result (self.new ≡ self.old) }
    {
        if let Some(refused) = time_refusal(self.last_moment, moment, self.ended.is_some(), false) {
            return Err(refused);
        }
        carry_out(
            &self.show,
            &mut self.playback,
            &mut self.masters,
            moment,
            instruction,
        )?;
        self.frame_state = FrameState::Stale;
        self.floor_state = self.floor_state.state_after(instruction);
        self.ended = ending_begun(instruction);
        self.last_moment = moment;
        Ok(())
    }

    /// Shows every universe anew, by the commands before.
    ///
    /// # Errors
    ///
    /// The first of `Backwards`, `MomentTooLarge`, `Ended` and `TooSoon` that applies; then nothing
    /// changed.
    pub fn tick(&mut self, moment: u64) -> Result<Ticked, Refused>
        ensures answer { OfEach F.stands_for self.old (λ show base history.
            result ≡ outcome (refusal show history (tick_at moment))
            (tick_answer (ticks_since_end history))) }
        ensures stands { OnOk result (Leads F.stands_for (tick_at moment) self.old self.new) }
        ensures unchanged { OnErr result (self.new ≡ self.old) }
    {
        let over = is_over(self.ended);
        let soon = is_soon(self.last_tick, moment);
        if let Some(refused) = time_refusal(self.last_moment, moment, over, soon) {
            return Err(refused);
        }
        match self.ended {
            None => {
                self.tick_live(moment);
                Ok(Ticked::Live)
            }
            Some(ticks) => {
                self.tick_ending(moment, ticks + 1);
                Ok(Ticked::Ending(ticks + 1))
            }
        }
    }

    fn tick_live(&mut self, moment: u64)
        requires not_before { self.old.last_moment ≤ moment }
        requires below { moment < 2 ^ 48 }
        requires live { self.old.ended ≡ None }
        ensures { Leads F.stands_for (tick_at moment) self.old self.new }
    {
        if self.is_still(moment) {
            self.tick_still(moment);
        } else {
            self.tick_moving(moment);
        }
    }

    // Whether no channel moves, and what is kept is what the commands before mean.
    fn is_still(&self, moment: u64) -> bool
        ensures { IsTrue result → IsKeptBut F.stands_for F.latest self.now moment [] }
    {
        self.movable(moment).is_some_and(|moving| moving.is_empty())
    }

    // Draws what may have changed. It is called, so that a tick at which nothing moves saves no
    // registers.
    #[inline(never)]
    fn tick_moving(&mut self, moment: u64)
        requires not_before { self.old.last_moment ≤ moment }
        requires below { moment < 2 ^ 48 }
        requires live { self.old.ended ≡ None }
        ensures { Leads F.stands_for (tick_at moment) self.old self.new }
    {
        self.keep_floors();
        let mut channels = ArrayVec::<u16, FEW>::new();
        match self.movable(moment) {
            Some(moving) if channels.try_extend_from_slice(moving).is_ok() => {
                self.tick_few(moment, &channels)
            }
            _ => self.tick_all(moment),
        }
    }

    // Works the floors out anew, where a submaster or a group was set.
    fn keep_floors(&mut self)
        ensures floors { IsTrue self.new.are_floors }
        ensures rest { self.new
            ≡ record self.old { floors = self.new.floors; are_floors = self.new.are_floors } }
        ensures stands { OfEach F.stands_for self.old (λ show base history.
            StandsFor F.stands_for show base self.new history) }
    {
        if let FloorState::Stale = self.floor_state {
            self.masters.write_floors(&self.show, &mut self.floors);
            self.floor_state = FloorState::of(&self.floors);
        }
    }

    // The channels that may move, where the rest of the frames may be kept, since no cue follows by
    // itself.
    fn movable(&self, moment: u64) -> Option<&[u16]>
        ensures in_range { IfSome result (λ channels.
            All (λ channel. IsTrue (is_channel channel)) channels.now) }
        ensures kept { IfSome result (λ channels.
            IsKeptBut F.stands_for F.latest self.now moment channels.now) }
    {
        if !self.frame_state.are_kept() || self.playback.is_due(moment) {
            return None;
        }
        self.playback.moving_channels()
    }

    // Keeps the frames, since each channel has the level that it had. The playback need not move
    // on.
    fn tick_still(&mut self, moment: u64)
        requires not_before { self.old.last_moment ≤ moment }
        requires live { self.old.ended ≡ None }
        requires kept { IsKeptBut F.stands_for F.latest self.old moment [] }
        ensures { Leads F.stands_for (tick_at moment) self.old self.new }
    {
        self.last_moment = moment;
        self.last_tick = Some(moment);
    }

    // Draws these channels anew: each other one has the level that it had.
    fn tick_few(&mut self, moment: u64, channels: &[u16])
        requires not_before { self.old.last_moment ≤ moment }
        requires below { moment < 2 ^ 48 }
        requires live { self.old.ended ≡ None }
        requires floors { IsTrue self.old.are_floors }
        requires in_range { All (λ channel. IsTrue (is_channel channel)) channels.now }
        requires kept { IsKeptBut F.stands_for F.latest self.old moment channels.now }
        ensures { Leads F.stands_for (tick_at moment) self.old self.new }
    {
        self.playback.advance(&self.show, moment);
        redraw_merged(
            &mut self.slots,
            &mut self.levels,
            &self.rig,
            channels,
            &Merged {
                playback: &self.playback,
                floors: &self.floors,
                has_floors: self.floor_state.may_be_lit(),
                grand: self.masters.grand(),
            },
        );
        self.last_moment = moment;
        self.last_tick = Some(moment);
    }

    // Draws every channel.
    fn tick_all(&mut self, moment: u64)
        requires not_before { self.old.last_moment ≤ moment }
        requires below { moment < 2 ^ 48 }
        requires live { self.old.ended ≡ None }
        requires floors { IsTrue self.old.are_floors }
        ensures { Leads F.stands_for (tick_at moment) self.old self.new }
    {
        self.playback.advance(&self.show, moment);
        draw_merged(
            &mut self.slots,
            &mut self.levels,
            &self.rig,
            &Merged {
                playback: &self.playback,
                floors: &self.floors,
                has_floors: self.floor_state.may_be_lit(),
                grand: self.masters.grand(),
            },
        );
        self.frame_state = FrameState::Kept;
        self.last_moment = moment;
        self.last_tick = Some(moment);
    }

    // The tick of this number since End.
    #[tactic(auto, unfolding(crate::specs::Meaning::frame))]
    fn tick_ending(&mut self, moment: u64, ticks: u8)
        requires not_before { self.old.last_moment ≤ moment }
        requires ending { self.old.ended ≡ Some (ticks - 1) }
        requires from_one { 1 ≤ ticks }
        ensures { Leads F.stands_for (tick_at moment) self.old self.new }
    {
        darken(&mut self.slots);
        self.frame_state = FrameState::Stale;
        self.ended = Some(ticks);
        self.last_moment = moment;
        self.last_tick = Some(moment);
    }

    /// The numbers of the universes that have a patched dimmer, ascending.
    pub fn universes(&self) -> ArrayVec<u16, 16>
        ensures numbers { result.items ≡ universe_numbers self.now.show.patch self.now.base }
        ensures ascending { IsStrictlyIncreasing result.items }
        ensures range { All (λ number. IsTrue (is_universe number)) result.items }
    {
        let mut numbers = ArrayVec::new();
        let _fits = numbers.try_extend_from_slice(self.universes.as_slice());
        numbers
    }

    /// The 512 slots of one of `universes`, as the latest tick showed them: all 0 before the first,
    /// and from the first after End on.
    pub fn slots(&self, universe: u16) -> &Frame
        requires { Contains (universe_numbers self.now.show.patch self.now.base) universe }
        ensures { OfEach F.stands_for self.now (λ show base history.
            result.now ≡ latest_frame show history (universe - base)) }
    {
        &self.slots.as_chunks().0[usize::from(universe - self.rig.base())]
    }

    /// The current cue, in thousandths: that of the latest move.
    pub fn current(&self) -> Option<u32>
        ensures { OfEach F.stands_for self.now (λ show base history.
            result ≡ current_after (moves show history)) }
    {
        self.playback.current()
    }

    /// The place in the cue list: the current cue, and when the next one follows it by itself.
    pub fn place(&self) -> Place
        ensures { OfEach F.stands_for self.now (λ show base history.
            IsPlaceAfter show result (moves show history) (is_some (ticks_since_end history))) }
    {
        self.playback.place()
    }

    /// The masters, as the commands so far set them.
    pub fn masters(&self) -> &Masters
        ensures { OfEach F.stands_for self.now (λ show base history.
            masters_stand.StandsFor result.now (settings history)) }
    {
        &self.masters
    }

    /// The show that is played.
    pub fn show(&self) -> &Show
        ensures { result.now ≡ self.now.show }
    {
        &self.show
    }
}

// The numbers of the universes that have a patched dimmer, ascending.
fn universe_numbers(show: &Show, base: u16) -> ArrayVec<u16, 16>
    requires { IsTrue (is_base show.now.patch base) }
    ensures { result.items ≡ universe_numbers show.now.patch base }
{
    let ordinals = show.universes();
    let mut numbers = ArrayVec::new();
    for ordinal in ordinals.as_slice() {
        numbers.push(base + *ordinal);
    }
    numbers
}

// The lowest refusal that the moment of a call gives.
fn time_refusal(last: u64, moment: u64, over: bool, soon: bool) -> Option<Refused>
    ensures { result ≡ time_refusal last moment over soon }
{
    if moment < last {
        Some(Refused::Backwards)
    } else if moment >= MOMENTS {
        Some(Refused::MomentTooLarge)
    } else if over {
        Some(Refused::Ended)
    } else if soon {
        Some(Refused::TooSoon)
    } else {
        None
    }
}

// Whether the ticks that end the streams are over.
fn is_over(ended: Option<u8>) -> bool
    ensures { result ≡ is_after_end ended tick }
{
    ended.is_some_and(|ticks| ticks >= ENDING_TICKS)
}

// Whether a tick comes too soon after the last one.
fn is_soon(last_tick: Option<u64>, moment: u64) -> bool
    ensures { result ≡ is_soon last_tick moment tick }
{
    last_tick.is_some_and(|last| moment.saturating_sub(last) < SHORTEST_GAP)
}

// The ticks since End once the instruction is done, where there was no End before.
fn ending_begun(instruction: Instruction) -> Option<u8>
    ensures { result ≡ ended_by (order instruction) None }
{
    match instruction {
        Instruction::Plain(Command::End) => Some(0),
        _ => None,
    }
}

// What an instruction does to the playback and the masters.
fn carry_out<F: Fader>(
    show: &Show,
    playback: &mut Playback<F>,
    masters: &mut Masters,
    moment: u64,
    instruction: Instruction,
) -> Result<(), Refused>
    requires not_before { F.latest playback.old.fader ≤ moment }
    requires below { moment < 2 ^ 48 }
    ensures answer { (history : List Act)
        → playback_stands.StandsFor F.stands_for show.now playback.old (moves show.now history)
        false
        → let current = current_after (with_due show.now moment (moves show.now history)) in
        result ≡ outcome (lack_refusal show.now current (order instruction)) tt }
    ensures playback { OnOk result ((history : List Act) → ticks_since_end history ≡ None
        → playback_stands.StandsFor F.stands_for show.now playback.old (moves show.now history)
        false
        → let after : List Act = order_at moment instruction ∷ history in
        playback_stands.StandsFor F.stands_for show.now playback.new
        (moves show.now after) (is_some (ticks_since_end after))) }
    ensures masters { OnOk result ((history : List Act)
        → masters_stand.StandsFor masters.old (settings history)
        → masters_stand.StandsFor masters.new (settings (order_at moment instruction ∷ history))) }
    ensures not_ahead { F.latest playback.new.fader ≤ moment }
    ensures playback_unchanged { OnErr result (playback.new ≡ playback.old) }
    ensures masters_unchanged { OnErr result (masters.new ≡ masters.old) }
{
    match instruction {
        Instruction::Plain(Command::Go) => {
            playback.go(show, moment)?;
        }
        Instruction::Plain(Command::Back) => {
            playback.back(show, moment)?;
        }
        Instruction::Plain(Command::Goto(n)) => {
            playback.goto(show, n, moment)?;
        }
        Instruction::GotoIn { cue, time } => {
            playback.goto_in(show, cue, time, moment)?;
        }
        Instruction::Plain(Command::Sub(n, byte)) => {
            masters.set_sub(show, n, byte)?;
            playback.advance(show, moment);
        }
        Instruction::Plain(Command::Group(n, byte)) => {
            masters.set_group(show, n, byte)?;
            playback.advance(show, moment);
        }
        Instruction::Plain(Command::Master(byte)) => {
            masters.set_grand(byte);
            playback.advance(show, moment);
        }
        Instruction::Plain(Command::End) => playback.stop(show, moment),
    }
    Ok(())
}
