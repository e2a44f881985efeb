ghost use Rattle.std.specs.Prelude.{◌≡◌, ℕ, ◌-◌, ◌^◌, ◌<◌, ◌≤◌, Bool, true, false, IsTrue};
ghost use Rattle.std.specs.Prelude.{List, [], map, All, Contains, Some, None, IfOk, IfSome};
ghost use Rattle.std.specs.Prelude.{length, slice_index};
ghost use Rattle.std.specs.Option.{ok_or};
ghost use Rattle.show_core.specs.Numbers.{is_channel, AreLevels};
ghost use Rattle.show_core.specs.Tables.{Tables};
ghost use Rattle.playback_core.specs.Placed.{IsPlaceAfter};
ghost use Rattle.playback_core.specs.Played.{Move, go_target, back_target, goto_target};
ghost use Rattle.playback_core.specs.Played.{moves_by, is_by, move_rate, start_of};
ghost use Rattle.playback_core.specs.Played.{playback_level};
ghost use Rattle.playback_core.specs.Stands.{StandsFor, Moves, MovesOn, OfEach, Steps};

use crate::place::Place;
use fade_core::Fader;
use show_core::{CHANNELS, Rate, Show};
use std::alloc::{AllocError, Global};
use std::marker::Model;
use thiserror::Error;

/// Why a move is refused.
#[derive(Clone, Copy, Debug, PartialEq, Eq, Error)]
pub enum NoMove {
    /// No cue is above the current one.
    #[error("no cue above the current one")]
    AtEnd,
    /// The current cue is the first, or there is none.
    #[error("no cue below the current one")]
    AtStart,
    /// The show has no cue of that number.
    #[error("no such cue")]
    NoCue,
}

/// The current cue of a show, and the level of each of 4096 channels on the way to it.
///
/// All calls are given equal shows. Moments are in milliseconds, below 2^48, and never go back; the
/// latest given is 0 at first. A move starts every channel from its level at that moment, and aims
/// at the whole look of the cue, over the cue's times or, by [`Playback::goto_in`], over another.
///
/// A cue with a follow-on time is followed by the next cue so long after it went, if no other move
/// is made before. Each accepted call first makes such moves of moments up to its own, each at its
/// own moment, also several in a chain.
///
/// Only `new` takes memory.
#[derive(Debug, Drop)]
pub struct Playback<F: Fader> {
    fader: F,
    place: Place,
}

impl<F: Fader> Model for Playback<F> {
    ghost use Rattle.std.specs.Prelude.{◌≡◌};
    ghost use Rattle.playback_core.specs.Playing.{PlaybackState};

    ghost Value = { PlaybackState F };

    ghost view = { λ p. record {
      fader = p.fader;
      current = p.place.current;
      due = p.place.due;
    } };

    ghost use Rattle.playback_core.specs.Inside.{IsPlayback};

    ghost invariant = { λ p. IsPlayback (F.channels p.fader) (F.latest p.fader) p.place.due };
}

impl<F: Fader> Playback<F> {
    /// A playback with no current cue and every level at 0.
    ///
    /// # Errors
    ///
    /// If an allocation failed.
    pub fn new(alloc: Global) -> Result<Self, AllocError>
        ensures stands { (show : Tables)
            → IfOk result (λ playback. StandsFor F.stands_for show playback [] false) }
        ensures latest { IfOk result (λ playback. F.latest playback.fader ≡ 0) }
        ensures current { IfOk result (λ playback. playback.current ≡ None) }
    {
        Ok(Playback {
            fader: F::new(alloc, CHANNELS)?,
            place: Place::start(),
        })
    }

    /// Moves to the least cue above the current one, or to the first where none is current.
    ///
    /// # Errors
    ///
    /// `AtEnd` where there is no such cue; then nothing changed.
    pub fn go(&mut self, show: &Show, moment: u64) -> Result<u32, NoMove>
        requires not_before { F.latest self.old.fader ≤ moment }
        requires below { moment < 2 ^ 48 }
        ensures { Steps F.stands_for F.latest show.now moment self.old self.new result
            (λ current. ok_or (go_target show.now.cues current) NoMove.AtEnd) }
    {
        let current = self.place.current_by(show, moment);
        let cue = show.next(current.unwrap_or(0)).ok_or(NoMove::AtEnd)?;
        self.goto(show, cue, moment)
    }

    /// Moves to the greatest cue below the current one.
    ///
    /// # Errors
    ///
    /// `AtStart` where the current cue is the first, or there is none; then nothing changed.
    pub fn back(&mut self, show: &Show, moment: u64) -> Result<u32, NoMove>
        requires not_before { F.latest self.old.fader ≤ moment }
        requires below { moment < 2 ^ 48 }
        ensures { Steps F.stands_for F.latest show.now moment self.old self.new result
            (λ current. ok_or (back_target show.now.cues current) NoMove.AtStart) }
    {
        let current = self.place.current_by(show, moment).ok_or(NoMove::AtStart)?;
        let cue = show.before(current).ok_or(NoMove::AtStart)?;
        self.goto(show, cue, moment)
    }

    /// Moves to cue `n` (in thousandths), also where it is the current one: its fade then starts
    /// anew from the present levels.
    ///
    /// # Errors
    ///
    /// `NoCue` where the show has no such cue; then nothing changed.
    pub fn goto(&mut self, show: &Show, n: u32, moment: u64) -> Result<u32, NoMove>
        requires not_before { F.latest self.old.fader ≤ moment }
        requires below { moment < 2 ^ 48 }
        ensures answer { result ≡ ok_or (goto_target show.now.cues n) NoMove.NoCue }
        ensures moved { Moves F.stands_for F.latest show.now moment None self.old self.new result }
    {
        self.start_move(show, n, None, moment)
    }

    /// Moves to cue `n` (in thousandths) as `goto` does, but over this time in milliseconds, up and
    /// down and without delay, in place of the cue's times. The cue's follow-on time holds.
    ///
    /// # Errors
    ///
    /// `NoCue` where the show has no such cue; then nothing changed.
    pub fn goto_in(&mut self, show: &Show, n: u32, time: u32, moment: u64) -> Result<u32, NoMove>
        requires not_before { F.latest self.old.fader ≤ moment }
        requires below { moment < 2 ^ 48 }
        ensures answer { result ≡ ok_or (goto_target show.now.cues n) NoMove.NoCue }
        ensures moved { Moves F.stands_for F.latest show.now moment (Some time) self.old self.new
            result }
    {
        self.start_move(show, n, Some(time), moment)
    }

    // Moves to this cue, over this time or the cue's.
    fn start_move(
        &mut self,
        show: &Show,
        n: u32,
        time: Option<u32>,
        moment: u64,
    ) -> Result<u32, NoMove>
        requires not_before { F.latest self.old.fader ≤ moment }
        requires below { moment < 2 ^ 48 }
        ensures answer { result ≡ ok_or (goto_target show.now.cues n) NoMove.NoCue }
        ensures moved { Moves F.stands_for F.latest show.now moment time self.old self.new result }
    {
        let cue = show.cue(n).ok_or(NoMove::NoCue)?;
        make_due(&mut self.fader, &mut self.place, show, moment);
        let up = move_rate(time, cue.up());
        let down = move_rate(time, cue.down());
        self.fader.start(cue.pairs(), up, down, moment);
        self.place = Place::at(show, n, moment);
        Ok(n)
    }

    /// Moves on to this moment, with the moves due by it. How often it is called changes nothing.
    pub fn advance(&mut self, show: &Show, moment: u64)
        requires not_before { F.latest self.old.fader ≤ moment }
        requires below { moment < 2 ^ 48 }
        ensures { MovesOn F.stands_for F.latest show.now moment self.old self.new
            (λ stopped. stopped) }
    {
        make_due(&mut self.fader, &mut self.place, show, moment);
        self.fader.advance(moment);
    }

    /// Moves on to this moment, with the moves due by it, and lets none be due until the next move.
    pub fn stop(&mut self, show: &Show, moment: u64)
        requires not_before { F.latest self.old.fader ≤ moment }
        requires below { moment < 2 ^ 48 }
        ensures { MovesOn F.stands_for F.latest show.now moment self.old self.new (λ _. true) }
    {
        self.advance(show, moment);
        self.place.due = None;
    }

    /// Whether a move is due by this moment.
    pub fn is_due(&self, moment: u64) -> bool
        ensures { result ≡ is_by self.now.due moment }
    {
        self.place.is_due(moment)
    }

    /// The current cue, in thousandths: that of the latest move.
    pub fn current(&self) -> Option<u32>
        ensures { result ≡ self.now.current }
    {
        self.place.current
    }

    /// The place in the cue list: the current cue, and when the next one follows it by itself.
    pub fn place(&self) -> Place
        ensures { OfEach F.stands_for self.now (λ show moves stopped.
            IsPlaceAfter show result moves stopped) }
    {
        self.place
    }

    /// The level of a channel, 1 to 4096, at the latest moment given: 0 to 65025.
    pub fn level(&self, channel: u16) -> u32
        requires from_one { 1 ≤ channel }
        requires in_range { channel ≤ 4096 }
        ensures level { OfEach F.stands_for self.now (λ show moves stopped.
            result ≡ playback_level show moves channel (F.latest self.now.fader)) }
        ensures full { result ≤ 65025 }
    {
        self.fader.level(channel)
    }

    /// The level of each channel, 0 to 65025, at the latest moment given, channel 1 first, where
    /// the fader has them at hand.
    pub fn levels(&self) -> Option<&[u16]>
        ensures each_channel { IfSome result (λ levels. length levels.now ≡ 4096) }
        ensures levels { IfSome result (λ levels. OfEach F.stands_for self.now
            (λ show moves stopped. (channel : ℕ) → IsTrue (is_channel channel)
            → slice_index levels.now (channel - 1)
            ≡ playback_level show moves channel (F.latest self.now.fader))) }
        ensures full { IfSome result (λ levels. AreLevels levels.now) }
    {
        self.fader.levels()
    }

    /// The channels that may have another level at a later moment, as long as there is no move,
    /// where the fader lists them. Where it does not, each may.
    pub fn moving_channels(&self) -> Option<&[u16]>
        ensures in_range { IfSome result (λ moving.
            All (λ channel. IsTrue (is_channel channel)) moving.now) }
        ensures others { IfSome result (λ moving. OfEach F.stands_for self.now
            (λ show moves stopped. (channel moment : ℕ)
            → IsTrue (is_channel channel) → ¬ Contains moving.now channel
            → F.latest self.now.fader ≤ moment
            → playback_level show moves channel moment
            ≡ playback_level show moves channel (F.latest self.now.fader))) }
    {
        self.fader.moving_channels()
    }
}

// The rate of a move: this time without delay, or else the cue's rate.
fn move_rate(time: Option<u32>, of_cue: Rate) -> Rate
    ensures { result ≡ move_rate time of_cue }
{
    time.map_or(of_cue, |time| Rate { time, delay: 0 })
}

// Makes the moves that are due by this moment, each at its own.
fn make_due<F: Fader>(fader: &mut F, place: &mut Place, show: &Show, moment: u64)
    requires not_before { F.latest fader.old ≤ moment }
    requires below { moment < 2 ^ 48 }
    requires channels { F.channels fader.old ≡ 4096 }
    requires in_order { IfSome place.old.due (λ due. F.latest fader.old ≤ due) }
    ensures stands { (moves : List Move) (stopped : Bool)
        → IsPlaceAfter show.now place.old moves stopped
        → F.stands_for fader.old (map (start_of show.now) moves)
        → let made = moves_by show.now stopped moment moves in
        IsPlaceAfter show.now place.new made stopped
        × F.stands_for fader.new (map (start_of show.now) made) }
    ensures channels { F.channels fader.new ≡ 4096 }
    ensures not_ahead { F.latest fader.new ≤ moment }
    ensures later { IfSome place.new.due (λ due. moment ≤ due) }
{
    while let Some((n, due)) = place.follow(show, moment) {
        if let Some(cue) = show.cue(n) {
            fader.start(cue.pairs(), cue.up(), cue.down(), due);
        }
    }
}
