ghost use Rattle.std.specs.Prelude.{◌≡◌, IsTrue, IsOk, IfOk, OnOk, OnErr, []};
ghost use Rattle.std.specs.List.{list_all};
ghost use Rattle.std.specs.FinMap as map;
ghost use Rattle.show_core.specs.Numbers.{is_channel};
ghost use Rattle.show_core.specs.Builders.{with_bytes};
ghost use Rattle.show_core.specs.Cues.{cue_with_time};

use crate::cue::{CueData, CueTime};
use crate::table::CloneIn;
use std::alloc::{AllocError, Global};
use std::marker::Model;

// A cue in a box: a table moves little where one goes in between others.
#[derive(Debug, Drop)]
pub struct HeapCue {
    cue: Box<CueData>,
}

impl Model for HeapCue {
    ghost use Rattle.show_core.specs.declared.cue.CueData.{CueData};

    ghost Value = { CueData };

    ghost use Rattle.show_core.specs.contracts.cue.CueData as cue_data;

    ghost coded = { cue_data.the_row.coded };

    ghost view = { λ h. h.cue.value };
}

impl HeapCue {
    pub fn new(alloc: Global, cue: CueData) -> Result<HeapCue, AllocError>
        ensures { IfOk result (λ boxed. boxed ≡ cue) }
    {
        let cue = Box::new(alloc, cue)?;
        Ok(HeapCue { cue })
    }

    pub fn data(&self) -> &CueData
        ensures { result.now ≡ self.now }
    {
        &self.cue
    }

    pub fn set_level(&mut self, channel: u16, byte: u8) -> Result<(), AllocError>
        requires { IsTrue (is_channel channel) }
        ensures ok { OnOk result (self.new
            ≡ record self.old { levels = map.insert self.old.levels channel byte }) }
        ensures err { OnErr result (self.new ≡ self.old) }
        ensures sure { IsTrue (map.contains_key self.old.levels channel) → IsOk result }
    {
        self.cue.levels.set(channel, byte)
    }

    pub fn set_levels(&mut self, pairs: &[(u16, u8)]) -> Result<(), AllocError>
        requires { IsTrue (list_all (λ pair. is_channel pair.0) pairs.now) }
        ensures ok { OnOk result (self.new
            ≡ record self.old { levels = with_bytes self.old.levels pairs.now }) }
        ensures err { OnErr result (self.new ≡ self.old) }
        ensures sure { pairs.now ≡ [] → IsOk result }
    {
        self.cue.levels.set_all(pairs)
    }

    pub fn set_time(&mut self, time: CueTime)
        ensures { self.new ≡ cue_with_time self.old time }
    {
        self.cue.set_time(time);
    }
}

impl CloneIn for HeapCue {
    fn clone_in(&self, alloc: Global) -> Result<HeapCue, AllocError> {
        let data = self.data().clone_in(alloc)?;
        HeapCue::new(alloc, data)
    }
}
