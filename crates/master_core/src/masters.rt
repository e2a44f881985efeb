ghost use Rattle.std.specs.Prelude.{◌≡◌, ℕ, ◌-◌, ◌≤◌, List, [], ◌∷◌};
ghost use Rattle.std.specs.Prelude.{IsTrue, length, slice_index};
ghost use Rattle.show_core.specs.Numbers.{is_channel, is_group, is_sub, AreLevels};
ghost use Rattle.master_core.specs.declared.fault.NoMaster.TheVariants.{NoSub, NoGroup};
ghost use Rattle.master_core.specs.Merged.{merged_after};
ghost use Rattle.master_core.specs.Settings.{Setting, sub_setting, group_setting, grand_setting};
ghost use Rattle.master_core.specs.Settings.{Bytes, grand_after, group_after, sub_after};
ghost use Rattle.master_core.specs.Settings.{Leads, Sets, StandsFor};
ghost use Rattle.master_core.specs.Inside.{masters_view, IsMasters};

use crate::fault::NoMaster;
use crate::floors::raise;
use crate::highest::highest;
use show_core::Show;
use std::marker::Model;

/// The masters of a show: a byte, 0 to 255, for each submaster and each group, and one for the
/// whole.
#[derive(Debug, Drop)]
pub struct Masters {
    subs: [u8; 101],
    groups: [u8; 501],
    grand: u8,
}

impl Model for Masters {
    ghost Value = { Bytes };

    ghost view = { masters_view };

    ghost invariant = { IsMasters };
}

impl Default for Masters {
    ghost is_default = { λ masters. StandsFor masters [] };

    fn default() -> Masters {
        Masters::new()
    }
}

impl Masters {
    /// The masters before any setting: each submaster and each group at 0, and the grand master at
    /// 255.
    pub fn new() -> Masters
        ensures { StandsFor result [] }
    {
        Masters {
            subs: [0; 101],
            groups: [0; 501],
            grand: 255,
        }
    }

    /// Sets the master of submaster `n`.
    ///
    /// # Errors
    ///
    /// `NoSub` where the show has no submaster `n`: then nothing changes.
    pub fn set_sub(&mut self, show: &Show, n: u16, byte: u8) -> Result<(), NoMaster>
        ensures { Sets show.now.subs n NoSub (sub_setting n byte) self.old self.new result }
    {
        show.sub(n).ok_or(NoMaster::NoSub)?;
        self.subs[usize::from(n)] = byte;
        Ok(())
    }

    /// Sets the master of group `n`.
    ///
    /// # Errors
    ///
    /// `NoGroup` where the show has no group `n`: then nothing changes.
    pub fn set_group(&mut self, show: &Show, n: u16, byte: u8) -> Result<(), NoMaster>
        ensures { Sets show.now.groups n NoGroup (group_setting n byte) self.old self.new result }
    {
        show.group(n).ok_or(NoMaster::NoGroup)?;
        self.groups[usize::from(n)] = byte;
        Ok(())
    }

    /// Sets the grand master.
    pub fn set_grand(&mut self, byte: u8)
        ensures { Leads (grand_setting byte) self.old self.new }
    {
        self.grand = byte;
    }

    /// The grand master.
    pub fn grand(&self) -> u8
        ensures { (settings : List Setting) → StandsFor self.now settings
            → result ≡ grand_after settings }
    {
        self.grand
    }

    /// The master of submaster `n`, 1 to 100.
    pub fn sub(&self, n: u16) -> u8
        requires { IsTrue (is_sub n) }
        ensures { (settings : List Setting) → StandsFor self.now settings
            → result ≡ sub_after settings n }
    {
        self.subs[usize::from(n)]
    }

    /// The master of group `n`, 1 to 500.
    pub fn group(&self, n: u16) -> u8
        requires { IsTrue (is_group n) }
        ensures { (settings : List Setting) → StandsFor self.now settings
            → result ≡ group_after settings n }
    {
        self.groups[usize::from(n)]
    }

    /// The level of a channel: the highest of the playback level, of its byte times the master in
    /// each submaster, and the same in each group. Where the playback level is at most 65025, this
    /// is too. The grand master plays no part.
    pub fn merged(&self, show: &Show, channel: u16, playback: u32) -> u32
        ensures level { (settings : List Setting) → StandsFor self.now settings
            → result ≡ merged_after show.now settings channel playback }
        ensures full { playback ≤ 65025 → result ≤ 65025 }
    {
        playback
            .max(highest(show.subs(), &self.subs, channel))
            .max(highest(show.groups(), &self.groups, channel))
    }

    /// Writes the level of each channel over a playback level of 0, as `merged` answers it, channel
    /// 1 first: no more work than the records with a master above 0 list channels.
    pub fn write_floors(&self, show: &Show, floors: &mut [u16])
        requires { length floors.old ≡ 4096 }
        ensures levels { (settings : List Setting) → StandsFor self.now settings
            → (channel : ℕ) → IsTrue (is_channel channel)
            → slice_index floors.new (channel - 1) ≡ merged_after show.now settings channel 0 }
        ensures full { AreLevels floors.new }
    {
        floors.fill(0);
        raise(floors, show.subs(), &self.subs);
        raise(floors, show.groups(), &self.groups);
    }
}
