ghost use Rattle.std.specs.Prelude.{◌≡◌, ◌≢◌, ℕ, ◌+◌, ◌<◌, ◌≤◌, IsTrue, All, length, slice_index};
ghost use Rattle.std.specs.FinMap as map;
ghost use Rattle.show_core.specs.Numbers.{is_channel, is_dimmer, AreLevels};
ghost use Rattle.show_core.specs.Readers.{slot_of};
ghost use Rattle.show_core.specs.Tables.{PatchMap};
ghost use Rattle.patch_core.specs.Frame.{listed_level, dimmer_slot};
ghost use Rattle.patch_core.specs.Index.{IsIndex, slot_at, dimmer_at, byte_at};

use crate::index::ByChannel;
use show_core::slot;
use std::ops::Range;

// Writes the slots of some channels anew.
pub fn redraw_channels(
    slots: &mut [u8],
    by_channel: &ByChannel<'_>,
    channels: &[u16],
    levels: &[u16],
    grand: u8,
)
    requires each_slot { length slots.old ≡ 8192 }
    requires channels { All (λ channel. IsTrue (is_channel channel)) channels.now }
    requires each_channel { length levels.now ≡ 4096 }
    requires full { AreLevels levels.now }
    ensures { (patch : PatchMap) (before after : ℕ → ℕ)
        → IsIndex (map.entries patch) by_channel.now.dimmers.now by_channel.now.begins.now
        → All (λ e. IsTrue (is_channel e.1.0)) (map.entries patch)
        → ((dimmer : ℕ) → IsTrue (is_dimmer dimmer)
        → slot_at slots.old dimmer ≡ dimmer_slot patch before grand dimmer)
        → ((channel : ℕ) → IsTrue (is_channel channel)
        → ((m : ℕ) → m < length channels.now → slice_index channels.now m ≢ channel)
        → before channel ≡ after channel)
        → All (λ channel. listed_level levels.now channel ≡ after channel) channels.now
        → (dimmer : ℕ) → IsTrue (is_dimmer dimmer)
        → slot_at slots.new dimmer ≡ dimmer_slot patch after grand dimmer }
{
    for channel in channels {
        let place = usize::from(*channel);
        let from = usize::from(by_channel.begins[place - 1]);
        let to = usize::from(by_channel.begins[place]);
        let level = u32::from(levels[place - 1]);
        redraw_run(slots, by_channel.dimmers, from..to, level, grand);
    }
}

// Writes the slots of a run of dimmers for one level.
fn redraw_run(
    slots: &mut [u8],
    dimmers: &[(u16, (u16, u8))],
    run: Range<usize>,
    level: u32,
    grand: u8,
)
    requires each_slot { length slots.old ≡ 8192 }
    requires order { run.start ≤ run.end }
    requires within { run.end ≤ length dimmers.now }
    requires full { level ≤ 65025 }
    requires numbers { All (λ e. IsTrue (is_dimmer e.0)) dimmers.now }
    ensures { (want : ℕ → ℕ)
        → ((dimmer : ℕ) → IsTrue (is_dimmer dimmer)
        → ((p : ℕ) → run.start ≤ p → p < run.end → dimmer_at dimmers.now p ≢ dimmer)
        → slot_at slots.old dimmer ≡ want dimmer)
        → ((p : ℕ) → run.start ≤ p → p < run.end
        → slot_of level grand (byte_at dimmers.now p) ≡ want (dimmer_at dimmers.now p))
        → (dimmer : ℕ) → IsTrue (is_dimmer dimmer) → slot_at slots.new dimmer ≡ want dimmer }
{
    for i in run.start..run.end {
        let (dimmer, (_channel, byte)) = dimmers[i];
        slots[usize::from(dimmer) - 1] = slot(level, grand, byte);
    }
}
