ghost use Rattle.std.specs.Prelude.{◌≡◌, ◌≤◌, IfOk, IfSome};
ghost use Rattle.std.specs.FinMap as map;
ghost use Rattle.show_core.specs.Cues.{blank, cue_with_time, IsRateInRange, HasTimes};
ghost use Rattle.show_core.specs.Readers.{HasChannels, rate_of, level_in};

use crate::levels::Levels;
use crate::rate::Rate;
use crate::table::CloneIn;
use std::alloc::{AllocError, Global};
use std::marker::Model;

/// A time of a cue, as UP, DOWN or FOLLOWON sets it.
#[derive(Clone, Copy, Debug, PartialEq, Eq)]
pub enum CueTime {
    /// The rate of rising levels.
    Up(Rate),
    /// The rate of falling levels.
    Down(Rate),
    /// The follow-on time in milliseconds: so long after the move to the cue the next one goes.
    Follow(u32),
}

/// What a cue has: its levels, and the rates and the follow-on time that were set.
#[derive(Debug, Drop)]
pub struct CueData {
    pub levels: Levels,
    pub up: Option<Rate>,
    pub down: Option<Rate>,
    pub follow: Option<u32>,
}

impl CueData {
    /// A cue with nothing in it. It takes no memory.
    pub fn blank(alloc: Global) -> CueData
        ensures { result ≡ blank }
    {
        CueData {
            levels: Levels::new(alloc),
            up: None,
            down: None,
            follow: None,
        }
    }

    /// Sets a time. The one of its kind set last counts.
    pub fn set_time(&mut self, time: CueTime)
        ensures { self.new ≡ cue_with_time self.old time }
    {
        match time {
            CueTime::Up(rate) => self.up = Some(rate),
            CueTime::Down(rate) => self.down = Some(rate),
            CueTime::Follow(time) => self.follow = Some(time),
        }
    }

    /// A copy.
    pub fn clone_in(&self, alloc: Global) -> Result<CueData, AllocError>
        ensures { IfOk result (λ copy. copy ≡ self.now) }
    {
        Ok(CueData {
            levels: self.levels.clone_in(alloc)?,
            up: self.up,
            down: self.down,
            follow: self.follow,
        })
    }
}

/// A cue of a show. It is a whole look: a channel that is not listed is at 0.
#[derive(Debug, Drop)]
pub struct Cue<'a> {
    data: &'a CueData,
}

impl<'a> Model for Cue<'a> {
    ghost use Rattle.show_core.specs.declared.cue.CueData.{CueData};

    ghost Value = { CueData };

    ghost use Rattle.show_core.specs.contracts.cue.CueData as cue_data;

    ghost coded = { cue_data.the_row.coded };

    ghost view = { λ c. c.data.now };

    ghost use Rattle.show_core.specs.Cues.{HasTimes};

    ghost invariant = { λ c. HasTimes c.data.now };
}

impl<'a> Cue<'a> {
    pub(crate) fn of(cue: &'a CueData) -> Cue<'a>
        requires { HasTimes cue.now }
        ensures { result ≡ cue.now }
    {
        Cue { data: cue }
    }

    /// The level byte of a channel: 0 where none is listed.
    pub fn level(&self, channel: u16) -> u8
        ensures { result ≡ level_in self.now.levels channel }
    {
        self.data.levels.level(channel)
    }

    /// The channels that are listed and their level bytes. The entries of a map are sorted, so the
    /// channels strictly ascend.
    pub fn pairs(&self) -> &'a [(u16, u8)]
        ensures entries { result.now ≡ map.entries self.now.levels }
        ensures range { HasChannels self.now.levels }
    {
        self.data.levels.pairs()
    }

    /// The rate of rising levels: the one set last, else that of falling levels, else zeros.
    /// Its time and delay are at most 5,999,990 milliseconds.
    pub fn up(&self) -> Rate
        ensures rate { result ≡ rate_of self.now.up self.now.down }
        ensures time { result.time ≤ 5999990 }
        ensures delay { result.delay ≤ 5999990 }
    {
        rate_of(self.data.up, self.data.down)
    }

    /// The rate of falling levels: the one set last, else that of rising levels, else zeros.
    /// Its time and delay are at most 5,999,990 milliseconds.
    pub fn down(&self) -> Rate
        ensures rate { result ≡ rate_of self.now.down self.now.up }
        ensures time { result.time ≤ 5999990 }
        ensures delay { result.delay ≤ 5999990 }
    {
        rate_of(self.data.down, self.data.up)
    }

    /// The follow-on time in milliseconds, at most 5,999,990: so long after the move to this cue
    /// the next one goes. `None` where no such time was set.
    pub fn follow(&self) -> Option<u32>
        ensures time { result ≡ self.now.follow }
        ensures range { IfSome result (λ time. time ≤ 5999990) }
    {
        self.data.follow
    }
}

// The rate that is set, else the other's, else zeros.
fn rate_of(set: Option<Rate>, other: Option<Rate>) -> Rate
    requires set { IfSome set IsRateInRange }
    requires other { IfSome other IsRateInRange }
    ensures rate { result ≡ rate_of set other }
    ensures time { result.time ≤ 5999990 }
    ensures delay { result.delay ≤ 5999990 }
{
    set.or(other).unwrap_or(Rate { time: 0, delay: 0 })
}
