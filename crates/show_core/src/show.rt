ghost use Rattle.std.specs.Prelude.{◌≡◌, ◌*◌, ◌<◌, ◌↔◌, ◌==◌, ◌||◌, IsTrue, IsFalse, IsOk, IfOk};
ghost use Rattle.std.specs.Prelude.{OnOk, OnErr, IfErr, IfSome, Some, Err, All, option_map, []};
ghost use Rattle.std.specs.List.{list_all};
ghost use Rattle.std.specs.Option.{OnSome};
ghost use Rattle.std.specs.FinMap as map;
ghost use Rattle.show_core.specs.Numbers.{is_channel, is_dimmer, is_sub, is_group, is_time};
ghost use Rattle.show_core.specs.Builders.{with_cue, can_open, with_level, with_levels, with_time};
ghost use Rattle.show_core.specs.Builders.{opened_in, with_listed, with_all_listed};
ghost use Rattle.show_core.specs.Builders.{can_patch, patched_with, all_patched};
ghost use Rattle.show_core.specs.Cues.{IsRateInRange, IsTimeInRange};
ghost use Rattle.show_core.specs.Readers.{cue_above, cue_below, patch_ordinals};
ghost use Rattle.show_core.specs.Readers.{look_slot, look_frame, IsInRange};
ghost use Rattle.show_core.specs.Codes.{tables_code};
ghost use Rattle.show_core.specs.Inside.{show_view, IsShow};
ghost use Rattle.show_core.specs.Tables.{Tables};
ghost use Rattle.show_core.specs.declared.fault.BuildFault.TheVariants.{Limit};

use crate::Frame;
use crate::cue::{Cue, CueTime};
use crate::cue_table::CueTable;
use crate::fault::BuildFault;
use crate::levels::Levels;
use crate::limits::{
    CHANNELS, CUES, SLOTS, UNIVERSES, is_channel, is_cue_number, is_dimmer, is_group, is_sub,
};
use crate::master_table::MasterTable;
use crate::patch_table::PatchTable;
use crate::rate::Rate;
use crate::slots::slot;
use crate::table::CloneIn;
use arrayvec::ArrayVec;
use std::alloc::{AllocError, Global};
use std::marker::Model;

/// How many records and patched dimmers a show has.
#[derive(Clone, Copy, Debug, PartialEq, Eq)]
pub struct Counts {
    pub cues: u32,
    pub subs: u32,
    pub groups: u32,
    pub dimmers: u32,
}

/// The tables of a show: cues, submasters, groups and the patch.
#[derive(Debug, Drop)]
pub struct Show {
    alloc: Global,
    cues: CueTable,
    subs: MasterTable,
    groups: MasterTable,
    patch: PatchTable,
}

impl Model for Show {
    ghost Value = { Tables };

    ghost coded = { tables_code };

    ghost view = { show_view };

    ghost invariant = { IsShow };
}

impl Show {
    /// An empty show. It takes no memory.
    pub fn new(alloc: Global) -> Show
        ensures cues { result.cues ≡ map.empty }
        ensures subs { result.subs ≡ map.empty }
        ensures groups { result.groups ≡ map.empty }
        ensures patch { result.patch ≡ map.empty }
    {
        Show {
            alloc,
            cues: CueTable::new(alloc),
            subs: MasterTable::new(alloc),
            groups: MasterTable::new(alloc),
            patch: PatchTable::new(alloc),
        }
    }

    /// Opens cue `n` (in thousandths), or continues it where it is there: that changes nothing.
    ///
    /// # Errors
    ///
    /// `Limit` where `n` is not 1 to 9,999,999, or the cue would be the 2,001st; `Memory` if an
    /// allocation failed.
    pub fn open_cue(&mut self, n: u32) -> Result<(), BuildFault>
        ensures opened { OnOk result (self.new
            ≡ record self.old { cues = with_cue self.old.cues n }) }
        ensures unchanged { OnErr result (self.new ≡ self.old) }
        ensures limit { (result ≡ Err Limit) ↔ IsFalse (can_open self.old.cues n) }
        ensures sure { IsTrue (can_open self.old.cues n) → IsTrue (map.contains_key self.old.cues n)
            → IsOk result }
    {
        limit(self.can_open(n))?;
        self.cues.open(self.alloc, n)?;
        Ok(())
    }

    fn can_open(&self, n: u32) -> bool
        ensures { result ≡ can_open self.now.cues n }
    {
        is_cue_number(n) && (self.cues.has(n) || self.cues.len() < CUES)
    }

    /// Opens submaster `n`, or continues it where it is there: that changes nothing.
    ///
    /// # Errors
    ///
    /// `Limit` where `n` is not 1 to 100; `Memory` if an allocation failed.
    pub fn open_sub(&mut self, n: u16) -> Result<(), BuildFault>
        ensures opened { OnOk result (self.new
            ≡ record self.old { subs = opened_in self.old.subs n }) }
        ensures unchanged { OnErr result (self.new ≡ self.old) }
        ensures limit { (result ≡ Err Limit) ↔ IsFalse (is_sub n) }
        ensures sure { IsTrue (is_sub n) → IsTrue (map.contains_key self.old.subs n)
            → IsOk result }
    {
        limit(is_sub(n))?;
        self.subs.open(self.alloc, n)?;
        Ok(())
    }

    /// Opens group `n`, or continues it where it is there: that changes nothing.
    ///
    /// # Errors
    ///
    /// `Limit` where `n` is not 1 to 500; `Memory` if an allocation failed.
    pub fn open_group(&mut self, n: u16) -> Result<(), BuildFault>
        ensures opened { OnOk result (self.new
            ≡ record self.old { groups = opened_in self.old.groups n }) }
        ensures unchanged { OnErr result (self.new ≡ self.old) }
        ensures limit { (result ≡ Err Limit) ↔ IsFalse (is_group n) }
        ensures sure { IsTrue (is_group n) → IsTrue (map.contains_key self.old.groups n)
            → IsOk result }
    {
        limit(is_group(n))?;
        self.groups.open(self.alloc, n)?;
        Ok(())
    }

    /// Sets the level byte of a channel in cue `n`. The last one set counts.
    ///
    /// # Errors
    ///
    /// `Limit` where the channel is not 1 to 4096; `Memory` if an allocation failed.
    pub fn cue_level(&mut self, n: u32, channel: u16, byte: u8) -> Result<(), BuildFault>
        requires { IsTrue (map.contains_key self.old.cues n) }
        ensures set { OnOk result (self.new
            ≡ record self.old { cues = with_level self.old.cues n channel byte }) }
        ensures unchanged { OnErr result (self.new ≡ self.old) }
        ensures limit { (result ≡ Err Limit) ↔ IsFalse (is_channel channel) }
        ensures sure { IsTrue (is_channel channel) → IfSome (map.get self.old.cues n)
            (λ cue. IsTrue (map.contains_key cue.levels channel) → IsOk result) }
    {
        limit(is_channel(channel))?;
        self.cues.set_level(n, channel, byte)?;
        Ok(())
    }

    /// Sets the level bytes of channels in cue `n`, one after the other: the last one of a
    /// channel counts. It is done for all of them or for none.
    ///
    /// # Errors
    ///
    /// `Limit` where a channel is not 1 to 4096; `Memory` if an allocation failed.
    pub fn cue_levels(&mut self, n: u32, pairs: &[(u16, u8)]) -> Result<(), BuildFault>
        requires { IsTrue (map.contains_key self.old.cues n) }
        ensures set { OnOk result (self.new
            ≡ record self.old { cues = with_levels self.old.cues n pairs.now }) }
        ensures unchanged { OnErr result (self.new ≡ self.old) }
        ensures limit { (result ≡ Err Limit)
            ↔ IsFalse (list_all (λ pair. is_channel pair.0) pairs.now) }
        ensures sure { pairs.now ≡ [] → IsOk result }
    {
        limit(are_channels(pairs))?;
        self.cues.set_levels(n, pairs)?;
        Ok(())
    }

    /// Sets the level byte of a channel in submaster `n`. The last one set counts.
    ///
    /// # Errors
    ///
    /// `Limit` where the channel is not 1 to 4096; `Memory` if an allocation failed.
    pub fn sub_level(&mut self, n: u16, channel: u16, byte: u8) -> Result<(), BuildFault>
        requires { IsTrue (map.contains_key self.old.subs n) }
        ensures set { OnOk result (self.new
            ≡ record self.old { subs = with_listed self.old.subs n channel byte }) }
        ensures unchanged { OnErr result (self.new ≡ self.old) }
        ensures limit { (result ≡ Err Limit) ↔ IsFalse (is_channel channel) }
        ensures sure { IsTrue (is_channel channel) → IfSome (map.get self.old.subs n)
            (λ levels. IsTrue (map.contains_key levels channel) → IsOk result) }
    {
        limit(is_channel(channel))?;
        self.subs.set_level(n, channel, byte)?;
        Ok(())
    }

    /// Sets the level bytes of channels in submaster `n`, one after the other: the last one of a
    /// channel counts. It is done for all of them or for none.
    ///
    /// # Errors
    ///
    /// `Limit` where a channel is not 1 to 4096; `Memory` if an allocation failed.
    pub fn sub_levels(&mut self, n: u16, pairs: &[(u16, u8)]) -> Result<(), BuildFault>
        requires { IsTrue (map.contains_key self.old.subs n) }
        ensures set { OnOk result (self.new
            ≡ record self.old { subs = with_all_listed self.old.subs n pairs.now }) }
        ensures unchanged { OnErr result (self.new ≡ self.old) }
        ensures limit { (result ≡ Err Limit)
            ↔ IsFalse (list_all (λ pair. is_channel pair.0) pairs.now) }
        ensures sure { pairs.now ≡ [] → IsOk result }
    {
        limit(are_channels(pairs))?;
        self.subs.set_levels(n, pairs)?;
        Ok(())
    }

    /// Sets the level byte of a channel in group `n`. The last one set counts.
    ///
    /// # Errors
    ///
    /// `Limit` where the channel is not 1 to 4096; `Memory` if an allocation failed.
    pub fn group_level(&mut self, n: u16, channel: u16, byte: u8) -> Result<(), BuildFault>
        requires { IsTrue (map.contains_key self.old.groups n) }
        ensures set { OnOk result (self.new
            ≡ record self.old { groups = with_listed self.old.groups n channel byte }) }
        ensures unchanged { OnErr result (self.new ≡ self.old) }
        ensures limit { (result ≡ Err Limit) ↔ IsFalse (is_channel channel) }
        ensures sure { IsTrue (is_channel channel) → IfSome (map.get self.old.groups n)
            (λ levels. IsTrue (map.contains_key levels channel) → IsOk result) }
    {
        limit(is_channel(channel))?;
        self.groups.set_level(n, channel, byte)?;
        Ok(())
    }

    /// Sets the level bytes of channels in group `n`, one after the other: the last one of a
    /// channel counts. It is done for all of them or for none.
    ///
    /// # Errors
    ///
    /// `Limit` where a channel is not 1 to 4096; `Memory` if an allocation failed.
    pub fn group_levels(&mut self, n: u16, pairs: &[(u16, u8)]) -> Result<(), BuildFault>
        requires { IsTrue (map.contains_key self.old.groups n) }
        ensures set { OnOk result (self.new
            ≡ record self.old { groups = with_all_listed self.old.groups n pairs.now }) }
        ensures unchanged { OnErr result (self.new ≡ self.old) }
        ensures limit { (result ≡ Err Limit)
            ↔ IsFalse (list_all (λ pair. is_channel pair.0) pairs.now) }
        ensures sure { pairs.now ≡ [] → IsOk result }
    {
        limit(are_channels(pairs))?;
        self.groups.set_levels(n, pairs)?;
        Ok(())
    }

    /// Patches a dimmer to a channel at a level byte, or leaves it unpatched at channel 0. The last
    /// patch of a dimmer counts.
    ///
    /// # Errors
    ///
    /// `Limit` where the dimmer is not 1 to 8192 or the channel above 4096; `Memory` if an
    /// allocation failed.
    pub fn set_patch(&mut self, dimmer: u16, channel: u16, byte: u8) -> Result<(), BuildFault>
        ensures set { OnOk result (self.new
            ≡ record self.old { patch = patched_with self.old.patch dimmer channel byte }) }
        ensures unchanged { OnErr result (self.new ≡ self.old) }
        ensures limit { (result ≡ Err Limit) ↔ IsFalse (can_patch dimmer channel) }
        ensures sure { IsTrue (can_patch dimmer channel)
            → IsTrue ((channel == 0) || map.contains_key self.old.patch dimmer) → IsOk result }
    {
        limit(can_patch(dimmer, channel))?;
        self.patch.set(dimmer, channel, byte)?;
        Ok(())
    }

    /// Patches each dimmer to its channel at its level byte, or leaves it unpatched at channel 0,
    /// one after the other: the last patch of a dimmer counts. It is done for all of them or for
    /// none.
    ///
    /// # Errors
    ///
    /// `Limit` where a dimmer is not 1 to 8192 or a channel above 4096; `Memory` if an allocation
    /// failed.
    pub fn set_patches(&mut self, entries: &[(u16, (u16, u8))]) -> Result<(), BuildFault>
        ensures set { OnOk result (self.new
            ≡ record self.old { patch = all_patched self.old.patch entries.now }) }
        ensures unchanged { OnErr result (self.new ≡ self.old) }
        ensures limit { (result ≡ Err Limit)
            ↔ IsFalse (list_all (λ e. can_patch e.0 e.1.0) entries.now) }
        ensures sure { IsTrue (list_all (λ e. can_patch e.0 e.1.0) entries.now)
            → IsTrue (list_all (λ e. e.1.0 == 0) entries.now) → IsOk result }
    {
        limit(can_all_patch(entries))?;
        self.patch.set_all(entries)?;
        Ok(())
    }

    /// Sets the rate of rising levels of cue `n`: its time and delay are at most 5,999,990
    /// milliseconds. The one set last counts.
    pub fn set_up(&mut self, n: u32, rate: Rate)
        requires there { IsTrue (map.contains_key self.old.cues n) }
        requires range { IsRateInRange rate }
        ensures { self.new
            ≡ record self.old { cues = with_time self.old.cues n (CueTime.Up rate) } }
    {
        self.set_time(n, CueTime::Up(rate));
    }

    /// Sets the rate of falling levels of cue `n`: its time and delay are at most 5,999,990
    /// milliseconds. The one set last counts.
    pub fn set_down(&mut self, n: u32, rate: Rate)
        requires there { IsTrue (map.contains_key self.old.cues n) }
        requires range { IsRateInRange rate }
        ensures { self.new
            ≡ record self.old { cues = with_time self.old.cues n (CueTime.Down rate) } }
    {
        self.set_time(n, CueTime::Down(rate));
    }

    /// Sets the follow-on time of cue `n`, at most 5,999,990 milliseconds. The one set last counts.
    pub fn set_follow(&mut self, n: u32, time: u32)
        requires there { IsTrue (map.contains_key self.old.cues n) }
        requires range { IsTrue (is_time time) }
        ensures { self.new
            ≡ record self.old { cues = with_time self.old.cues n (CueTime.Follow time) } }
    {
        self.set_time(n, CueTime::Follow(time));
    }

    /// Sets a time of cue `n`: a rate, whose time and delay are at most 5,999,990 milliseconds, or
    /// a follow-on time of at most as many. The one of its kind set last counts.
    pub fn set_time(&mut self, n: u32, time: CueTime)
        requires there { IsTrue (map.contains_key self.old.cues n) }
        requires range { IsTimeInRange time }
        ensures { self.new ≡ record self.old { cues = with_time self.old.cues n time } }
    {
        self.cues.set_time(n, time);
    }

    /// Takes all cues away.
    pub fn clear_cues(&mut self)
        ensures { self.new ≡ record self.old { cues = map.empty } }
    {
        self.cues.clear();
    }

    /// Takes all submasters away.
    pub fn clear_subs(&mut self)
        ensures { self.new ≡ record self.old { subs = map.empty } }
    {
        self.subs.clear();
    }

    /// Takes all groups away.
    pub fn clear_groups(&mut self)
        ensures { self.new ≡ record self.old { groups = map.empty } }
    {
        self.groups.clear();
    }

    /// Leaves all dimmers unpatched.
    pub fn clear_patch(&mut self)
        ensures { self.new ≡ record self.old { patch = map.empty } }
    {
        self.patch.clear();
    }

    /// Cue `n`.
    pub fn cue(&self, n: u32) -> Option<Cue<'_>>
        ensures { result ≡ map.get self.now.cues n }
    {
        self.cues.cue(n)
    }

    /// The least cue above `n`; `next(0)` is the first cue.
    pub fn next(&self, n: u32) -> Option<u32>
        ensures { result ≡ cue_above self.now.cues n }
    {
        self.cues.next(n)
    }

    /// The greatest cue below `n`.
    pub fn before(&self, n: u32) -> Option<u32>
        ensures { result ≡ cue_below self.now.cues n }
    {
        self.cues.before(n)
    }

    /// The submasters that are there, each with its number, 1 to 100, and its levels. The entries
    /// of a map are sorted, so the numbers strictly ascend.
    pub fn subs(&self) -> &[(u16, Levels)]
        ensures entries { result.now ≡ map.entries self.now.subs }
        ensures range { All (λ e. IsTrue (is_sub e.0)) result.now }
    {
        self.subs.entries()
    }

    /// The groups that are there, each with its number, 1 to 500, and its levels. The entries of a
    /// map are sorted, so the numbers strictly ascend.
    pub fn groups(&self) -> &[(u16, Levels)]
        ensures entries { result.now ≡ map.entries self.now.groups }
        ensures range { All (λ e. IsTrue (is_group e.0)) result.now }
    {
        self.groups.entries()
    }

    /// The channels of submaster `n` and their level bytes. The entries of a map are sorted, so the
    /// channels strictly ascend.
    pub fn sub(&self, n: u16) -> Option<&[(u16, u8)]>
        ensures entries { option_map (λ pairs. pairs.now) result
            ≡ option_map map.entries (map.get self.now.subs n) }
        ensures number { OnSome result (IsTrue (is_sub n)) }
        ensures range { IfSome result (λ pairs. All (λ e. IsTrue (is_channel e.0)) pairs.now) }
    {
        self.subs.pairs(n)
    }

    /// The channels of group `n` and their level bytes. The entries of a map are sorted, so the
    /// channels strictly ascend.
    pub fn group(&self, n: u16) -> Option<&[(u16, u8)]>
        ensures entries { option_map (λ pairs. pairs.now) result
            ≡ option_map map.entries (map.get self.now.groups n) }
        ensures number { OnSome result (IsTrue (is_group n)) }
        ensures range { IfSome result (λ pairs. All (λ e. IsTrue (is_channel e.0)) pairs.now) }
    {
        self.groups.pairs(n)
    }

    /// The channel and the level byte of a dimmer, where it is patched.
    pub fn patched(&self, dimmer: u16) -> Option<(u16, u8)>
        ensures patch { result ≡ map.get self.now.patch dimmer }
        ensures range { IfSome result (λ p. IsTrue (is_dimmer dimmer) × IsTrue (is_channel p.0)) }
    {
        self.patch.get(dimmer).copied()
    }

    /// The dimmers that are patched, 1 to 8192, each with its channel, 1 to 4096, and its level
    /// byte. The entries of a map are sorted, so the dimmers strictly ascend.
    pub fn patch(&self) -> &[(u16, (u16, u8))]
        ensures entries { result.now ≡ map.entries self.now.patch }
        ensures range { All (λ e. IsTrue (is_dimmer e.0) × IsTrue (is_channel e.1.0)) result.now }
    {
        self.patch.entries()
    }

    /// The ordinals of the universes that have a patched dimmer, ascending.
    pub fn universes(&self) -> ArrayVec<u16, 16>
        ensures { result.items ≡ patch_ordinals self.now.patch }
    {
        let mut found = ArrayVec::new();
        for ordinal in 0..UNIVERSES {
            if self.patch.has_dimmer_in(ordinal) {
                found.push(ordinal);
            }
        }
        found
    }

    /// The 512 slots of the universe of an ordinal below 16, with cue `n` alone at full and the
    /// grand master at 255.
    pub fn look_slots(&self, n: u32, ordinal: u16) -> Frame
        requires there { IsTrue (map.contains_key self.now.cues n) }
        requires below { ordinal < 16 }
        ensures { IfSome (map.get self.now.cues n)
            (λ cue. result ≡ look_frame cue.levels self.now.patch ordinal) }
    {
        match self.cue(n) {
            Some(cue) => self.cue_slots(&cue, ordinal),
            None => [0; 512],
        }
    }

    /// The 512 slots of the universe of an ordinal below 16, with a cue alone at full and the grand
    /// master at 255.
    pub fn cue_slots(&self, cue: &Cue<'_>, ordinal: u16) -> Frame
        requires { ordinal < 16 }
        ensures { result ≡ look_frame cue.now.levels self.now.patch ordinal }
    {
        let mut slots = [0; 512];
        for place in 0..SLOTS {
            slots[usize::from(place)] = self.look_slot(cue, SLOTS * ordinal + 1 + place);
        }
        slots
    }

    fn look_slot(&self, cue: &Cue<'_>, dimmer: u16) -> u8
        ensures { result ≡ look_slot cue.now.levels self.now.patch dimmer }
    {
        match self.patched(dimmer) {
            Some((channel, byte)) => slot(255 * u32::from(cue.level(channel)), 255, byte),
            None => 0,
        }
    }

    /// How many cues, submasters, groups and patched dimmers there are.
    pub fn counts(&self) -> Counts
        ensures cues { result.cues ≡ map.len self.now.cues }
        ensures subs { result.subs ≡ map.len self.now.subs }
        ensures groups { result.groups ≡ map.len self.now.groups }
        ensures dimmers { result.dimmers ≡ map.len self.now.patch }

        // What holds of every show.
        ensures ranges { IsInRange self.now }
    {
        Counts {
            cues: self.cues.len() as u32,
            subs: self.subs.len() as u32,
            groups: self.groups.len() as u32,
            dimmers: self.patch.len() as u32,
        }
    }

    /// An equal show of its own.
    ///
    /// # Errors
    ///
    /// If an allocation failed.
    pub fn clone_in(&self, alloc: Global) -> Result<Show, AllocError>
        ensures copy { IfOk result (λ copy. copy ≡ self.now) }

        // What holds of every show.
        ensures range { IsInRange self.now }
    {
        let cues = self.cues.clone_in(alloc)?;
        let subs = self.subs.clone_in(alloc)?;
        let groups = self.groups.clone_in(alloc)?;
        let patch = self.patch.copy_in(alloc)?;
        Ok(Show {
            alloc,
            cues,
            subs,
            groups,
            patch,
        })
    }
}

fn can_patch(dimmer: u16, channel: u16) -> bool
    ensures { result ≡ can_patch dimmer channel }
{
    is_dimmer(dimmer) && channel <= CHANNELS
}

fn are_channels(pairs: &[(u16, u8)]) -> bool
    ensures { result ≡ list_all (λ pair. is_channel pair.0) pairs.now }
{
    pairs.iter().all(|pair| is_channel(pair.0))
}

fn can_all_patch(entries: &[(u16, (u16, u8))]) -> bool
    ensures { result ≡ list_all (λ e. can_patch e.0 e.1.0) entries.now }
{
    entries.iter().all(|entry| can_patch(entry.0, entry.1.0))
}

// Refuses by `Limit` what is out of range.
fn limit(is_within: bool) -> Result<(), BuildFault>
    ensures ok { IsOk result ↔ IsTrue is_within }
    ensures err { IfErr result (λ fault. fault ≡ Limit) }
{
    if is_within {
        Ok(())
    } else {
        Err(BuildFault::Limit)
    }
}
