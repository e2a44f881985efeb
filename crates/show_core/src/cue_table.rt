ghost use Rattle.std.specs.Prelude.{◌≡◌, IsTrue, IsOk, OnOk, OnErr, IfSome, []};
ghost use Rattle.std.specs.List.{list_all};
ghost use Rattle.std.specs.Prelude.{find as find_in, reverse, nat_lt, map as map_list};
ghost use Rattle.std.specs.FinMap as map;
ghost use Rattle.show_core.specs.Numbers.{is_channel};
ghost use Rattle.show_core.specs.Builders.{with_cue, with_level, with_levels, with_time};
ghost use Rattle.show_core.specs.Cues.{HasTimes};
ghost use Rattle.show_core.specs.Readers.{cue_above, cue_below};

use crate::cue::{Cue, CueData, CueTime};
use crate::heap_cue::HeapCue;
use crate::table::Table;
use std::alloc::{AllocError, Global};

/// The cues, by their numbers in thousandths.
pub type CueTable = Table<u32, HeapCue>;

impl CueTable {
    // Opens cue `n`, or continues it where it is there.
    pub fn open(&mut self, alloc: Global, n: u32) -> Result<(), AllocError>
        ensures opened { OnOk result (self.new ≡ with_cue self.old n) }
        ensures unchanged { OnErr result (self.new ≡ self.old) }
        ensures sure { IsTrue (map.contains_key self.old n) → IsOk result }
    {
        if !self.has(n) {
            let cue = HeapCue::new(alloc, CueData::blank(alloc))?;
            self.put(n, cue)?;
        }
        Ok(())
    }

    #[tactic(auto, using(crate::proofs::Changes::insert_there))]
    pub fn set_level(&mut self, n: u32, channel: u16, byte: u8) -> Result<(), AllocError>
        requires there { IsTrue (map.contains_key self.old n) }
        requires range { IsTrue (is_channel channel) }
        ensures set { OnOk result (self.new ≡ with_level self.old n channel byte) }
        ensures unchanged { OnErr result (self.new ≡ self.old) }
        ensures sure { IfSome (map.get self.old n)
            (λ cue. IsTrue (map.contains_key cue.levels channel) → IsOk result) }
    {
        if let Some(cue) = self.get_mut(n) {
            cue.set_level(channel, byte)?;
        }
        Ok(())
    }

    // Sets each of the levels, one after the other.
    #[tactic(auto, using(crate::proofs::Changes::level_changes))]
    pub fn set_levels(&mut self, n: u32, pairs: &[(u16, u8)]) -> Result<(), AllocError>
        requires { IsTrue (list_all (λ pair. is_channel pair.0) pairs.now) }
        ensures set { OnOk result (self.new ≡ with_levels self.old n pairs.now) }
        ensures unchanged { OnErr result (self.new ≡ self.old) }
        ensures sure { pairs.now ≡ [] → IsOk result }
    {
        if let Some(cue) = self.get_mut(n) {
            cue.set_levels(pairs)?;
        }
        Ok(())
    }

    pub fn set_time(&mut self, n: u32, time: CueTime)
        ensures { self.new ≡ with_time self.old n time }
    {
        if let Some(cue) = self.get_mut(n) {
            cue.set_time(time);
        }
    }

    pub fn cue(&self, n: u32) -> Option<Cue<'_>>
        requires { IfSome (map.get self.now n) HasTimes }
        ensures { result ≡ map.get self.now n }
    {
        let cue = self.get(n)?;
        Some(Cue::of(cue.data()))
    }

    // The least number above `n`.
    pub fn next(&self, n: u32) -> Option<u32>
        ensures { result ≡ cue_above self.now n }
    {
        first_above(self.entries(), n)
    }

    // The greatest number below `n`.
    pub fn before(&self, n: u32) -> Option<u32>
        ensures { result ≡ cue_below self.now n }
    {
        last_below(self.entries(), n)
    }
}

fn first_above(entries: &[(u32, HeapCue)], n: u32) -> Option<u32>
    ensures { result ≡ find_in (λ k. nat_lt n k) (map_list (λ e. e.0) entries.now) }
{
    entries
        .iter()
        .map(|entry| entry.0)
        .find(|number| *number > n)
}

fn last_below(entries: &[(u32, HeapCue)], n: u32) -> Option<u32>
    ensures { result ≡ find_in (λ k. nat_lt k n) (map_list (λ e. e.0) (reverse entries.now)) }
{
    entries
        .iter()
        .rev()
        .map(|entry| entry.0)
        .find(|number| *number < n)
}
