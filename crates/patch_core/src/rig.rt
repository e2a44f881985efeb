ghost use Rattle.std.specs.Prelude.{◌≡◌, ℕ, ◌+◌, ◌*◌, ◌<◌, ◌≤◌, ◌↔◌};
ghost use Rattle.std.specs.Prelude.{IsTrue, IsFalse, IfOk, Err, All, Contains, length};
ghost use Rattle.std.specs.List.{AllWithin, list_all};
ghost use Rattle.std.specs.Ordering.{nat_cmp};
ghost use Rattle.std.specs.FinMap as map;
ghost use Rattle.show_core.specs.Numbers.{is_channel, AreLevels};
ghost use Rattle.patch_core.specs.Frame.{is_universe, is_base, listed_level, frame_of};
ghost use Rattle.patch_core.specs.Frame.{AreDrawn, frames_in};
ghost use Rattle.patch_core.specs.declared.fault.RigFault.TheVariants.{Universe};

use crate::draw::{Drawing, draw_slots};
use crate::fault::RigFault;
use crate::index::{ByChannel, begins_of, sorted_by_channel};
use crate::slots::redraw_channels;
use crate::sources::{Bytes, kinds_of, write_sources};
use show_core::{DIMMERS, Frame, SLOTS, Show, slot};
use std::alloc::Global;
use std::marker::Model;

/// Universes are numbered from 1 to this (E1.31, Universe).
pub const TOP_UNIVERSE: u32 = 63_999;

/// The patch of a show, and the number of the universe of ordinal 0: what makes frames of levels.
#[derive(Debug, Drop)]
pub struct Rig {
    base: u16,
    dimmers: Vec<(u16, (u16, u8))>,
    by_channel: Vec<(u16, (u16, u8))>,
    begins: Vec<u16>,
    sources: Vec<u16>,
    bytes: Vec<u8>,
    kinds: Vec<Bytes>,
}

impl Model for Rig {
    ghost use Rattle.patch_core.specs.Frame.{Rigging};

    ghost Value = { Rigging };

    ghost use Rattle.std.specs.Prelude.{ℕ, refl};
    ghost use Rattle.std.specs.Coded.{code_by, coded×, coded_ℕ};
    ghost use Rattle.std.specs.FinMap as map;
    ghost use Rattle.show_core.specs.Tables.{PatchMap};

    ghost coded = { code_by (ℕ × PatchMap)
        (coded× coded_ℕ (map.code coded_ℕ (coded× coded_ℕ coded_ℕ)))
        (λ r. (r.base, r.patch)) (λ p. record { base = p.0; patch = p.1 }) (λ _. refl) };

    ghost use Rattle.patch_core.specs.Inside.{rig_view, IsRig};

    ghost view = { rig_view };

    ghost invariant = { IsRig };
}

impl Rig {
    /// The rig of a show's patch, with `base` as the number of the universe of ordinal 0.
    ///
    /// # Errors
    ///
    /// `Universe` where `base`, or `base` plus an ordinal with a patched dimmer, is not 1 to 63999,
    /// so where `has_numbers` does not hold; else `Memory` if an allocation failed.
    pub fn new(alloc: Global, show: &Show, base: u16) -> Result<Rig, RigFault>
        ensures rig { IfOk result (λ rig. rig ≡ record { base = base; patch = show.now.patch }) }
        ensures universe { (result ≡ Err Universe) ↔ IsFalse (is_base show.now.patch base) }
    {
        if !has_numbers(show, base) {
            return Err(RigFault::Universe);
        }
        let dimmers = Vec::from_slice(alloc, show.patch())?;
        let by_channel = sorted_by_channel(alloc, &dimmers)?;
        let begins = begins_of(alloc, &by_channel)?;
        let mut sources = vec![in alloc; 0; usize::from(DIMMERS)]?;
        let mut bytes = vec![in alloc; 0; usize::from(DIMMERS)]?;
        write_sources(&mut sources, &mut bytes, &dimmers);
        let kinds = kinds_of(alloc, &bytes)?;
        Ok(Rig {
            base,
            dimmers,
            by_channel,
            begins,
            sources,
            bytes,
            kinds,
        })
    }

    /// The number of the universe of ordinal 0. Each universe with a patched dimmer has a number,
    /// too.
    pub fn base(&self) -> u16
        ensures base { result ≡ self.now.base }
        ensures range { IsTrue (is_base self.now.patch result) }
    {
        self.base
    }

    /// Writes the frame of the universe of ordinal `k`, 0 to 15: for each patched dimmer its
    /// channel's level, scaled by the grand master and by the dimmer's own byte, to the nearest
    /// byte; 0 for each other dimmer.
    ///
    /// `levels` has a level for each channel, from 0 to 65025, beginning with channel 1.
    pub fn frame(&self, k: u16, levels: &[u32], grand: u8, out: &mut Frame)
        requires ordinal { k < 16 }
        requires each_channel { length levels.now ≡ 4096 }
        requires full { AreLevels levels.now }
        ensures { out.new ≡ frame_of self.now.patch (listed_level levels.now) grand k }
    {
        let first = SLOTS * k + 1;
        let dimmers = self.dimmers.as_slice();
        let from = first_from(dimmers, first);
        let to = first_from(dimmers, first + SLOTS);
        *out = [0; 512];
        for i in from..to {
            let (dimmer, (channel, byte)) = dimmers[i];
            out[usize::from(dimmer - first)] = slot(levels[usize::from(channel) - 1], grand, byte);
        }
    }

    /// Writes the slots of all dimmers, those of an ordinal as `frame` writes them. They stand in a
    /// row, from dimmer 1 to dimmer 8192.
    ///
    /// `levels` has a level for each channel, from 0 to 65025, beginning with channel 1.
    pub fn draw(&self, slots: &mut [u8], levels: &[u16], grand: u8)
        requires each_slot { length slots.old ≡ 8192 }
        requires each_channel { length levels.now ≡ 4096 }
        requires full { AreLevels levels.now }
        ensures { AreDrawn self.now.patch (listed_level levels.now) grand (frames_in slots.new) }
    {
        draw_slots(
            slots,
            &Drawing {
                levels,
                sources: &self.sources,
                bytes: &self.bytes,
                kinds: &self.kinds,
                grand,
            },
        );
    }

    /// Writes the slots of the dimmers of some channels anew, each channel 1 to 4096. The slots of
    /// all dimmers, in a row, were those of levels that are equal at each other channel, at the
    /// same grand master.
    ///
    /// `levels` has a level for each channel, from 0 to 65025, beginning with channel 1; those of
    /// other channels are not read.
    pub fn redraw(&self, slots: &mut [u8], channels: &[u16], levels: &[u16], grand: u8)
        requires each_slot { length slots.old ≡ 8192 }
        requires channels { All (λ channel. IsTrue (is_channel channel)) channels.now }
        requires each_channel { length levels.now ≡ 4096 }
        requires full { AreLevels levels.now }
        ensures { (before after : ℕ → ℕ)
            → AreDrawn self.now.patch before grand (frames_in slots.old)
            → ((channel : ℕ) → IsTrue (is_channel channel) → ¬ Contains channels.now channel
            → before channel ≡ after channel)
            → All (λ channel. listed_level levels.now channel ≡ after channel) channels.now
            → AreDrawn self.now.patch after grand (frames_in slots.new) }
    {
        redraw_channels(
            slots,
            &ByChannel {
                dimmers: &self.by_channel,
                begins: &self.begins,
            },
            channels,
            levels,
            grand,
        );
    }
}

fn is_universe(number: u32) -> bool
    ensures { result ≡ is_universe number }
{
    (1..=TOP_UNIVERSE).contains(&number)
}

/// Whether the universes of a show have numbers from 1 to 63999, with `base` as that of ordinal 0:
/// `base` itself, and `base` plus each ordinal with a patched dimmer. It takes no memory.
#[tactic(auto, unfolding(crate::specs::Frame::is_base))]
pub fn has_numbers(show: &Show, base: u16) -> bool
    ensures { result ≡ is_base show.now.patch base }
{
    is_universe(u32::from(base)) && are_universes(base, &show.universes())
}

// Whether the base plus each ordinal is a universe number.
fn are_universes(base: u16, ordinals: &[u16]) -> bool
    ensures { result ≡ list_all (λ ordinal. is_universe (base + ordinal)) ordinals.now }
{
    ordinals.iter().all(|ordinal| is_universe(u32::from(base) + u32::from(*ordinal)))
}

// The place where the dimmers from this one on begin.
fn first_from(dimmers: &[(u16, (u16, u8))], dimmer: u16) -> usize
    requires { IsTrue (map.is_sorted nat_cmp dimmers.now) }
    ensures range { result ≤ length dimmers.now }
    ensures below { AllWithin (λ e. e.0 < dimmer) dimmers.now 0 result }
    ensures from_on { AllWithin (λ e. dimmer ≤ e.0) dimmers.now result (length dimmers.now) }
{
    dimmers.partition_point(|entry| entry.0 < dimmer)
}
