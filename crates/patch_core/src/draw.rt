ghost use Rattle.std.specs.Prelude.{◌≡◌, ◌≢◌, ℕ, ◌+◌, ◌*◌, ◌<◌, ◌≤◌};
ghost use Rattle.std.specs.Prelude.{length, slice_index, slice_index_or};
ghost use Rattle.show_core.specs.Numbers.{AreLevels};
ghost use Rattle.show_core.specs.Readers.{slot_of};
ghost use Rattle.show_core.specs.Tables.{PatchMap};
ghost use Rattle.patch_core.specs.Frame.{AreDrawn, listed_level};
ghost use Rattle.patch_core.specs.Sources.{AreBytesOf, AreSources};
ghost use Rattle.patch_core.specs.declared.sources.Bytes.TheVariants.{Dark, Mixed};

use crate::sources::Bytes;
use show_core::{CHANNELS, SLOTS, UNIVERSES, slot};

// What the frames are drawn from.
#[derive(Drop)]
pub struct Drawing<'a> {
    // The level of each channel.
    pub levels: &'a [u16],
    // The place of each dimmer's channel among the levels.
    pub sources: &'a [u16],
    // The byte of each dimmer.
    pub bytes: &'a [u8],
    // What the bytes of each ordinal are.
    pub kinds: &'a [Bytes],
    pub grand: u8,
    ghost each_channel: { length levels.now ≡ 4096 },
    ghost full: { AreLevels levels.now },
    ghost each_source: { length sources.now ≡ 8192 },
    ghost in_range: { (p : ℕ) → slice_index sources.now p < 4096 },
    ghost each_byte: { length bytes.now ≡ 8192 },
    ghost each_kind: { length kinds.now ≡ 16 },
}

// Writes the slot of each dimmer, from the level at its place and from its byte.
pub fn draw_slots(out: &mut [u8], drawing: &Drawing<'_>)
    requires each_slot { length out.old ≡ 8192 }
    requires kinds { (k : ℕ) → k < 16
        → AreBytesOf (slice_index_or drawing.now.kinds.now k Mixed) drawing.now.bytes.now
        (512 * k) }
    ensures { (p : ℕ) → p < 8192 → slice_index out.new p
        ≡ slot_of (slice_index drawing.now.levels.now (slice_index drawing.now.sources.now p))
        drawing.now.grand (slice_index drawing.now.bytes.now p) }
{
    let mut slots = [0; 4096];
    if drawing.grand == 255 {
        fill_full(&mut slots, drawing.levels);
    } else {
        fill_dimmed(&mut slots, drawing.levels, drawing.grand);
    }
    for ordinal in 0..usize::from(UNIVERSES) {
        let first = usize::from(SLOTS) * ordinal;
        draw_frame(
            &mut out[first..first + usize::from(SLOTS)],
            drawing,
            &slots,
            ordinal,
        );
    }
}

// The slot of each channel at a byte of 255, where the grand master is full: in sixteen bits, of
// which a processor has more at a time.
fn fill_full(slots: &mut [u8; 4096], levels: &[u16])
    requires each_channel { length levels.now ≡ 4096 }
    requires full { AreLevels levels.now }
    ensures { (c : ℕ) → c < 4096
        → slice_index slots.new c ≡ slot_of (slice_index levels.now c) 255 255 }
{
    for place in 0..usize::from(CHANNELS) {
        slots[place] = full_slot(levels[place]);
    }
}

// The same for any grand master.
fn fill_dimmed(slots: &mut [u8; 4096], levels: &[u16], grand: u8)
    requires each_channel { length levels.now ≡ 4096 }
    requires full { AreLevels levels.now }
    ensures { (c : ℕ) → c < 4096
        → slice_index slots.new c ≡ slot_of (slice_index levels.now c) grand 255 }
{
    for place in 0..usize::from(CHANNELS) {
        slots[place] = slot(u32::from(levels[place]), grand, 255);
    }
}

// The slot of a channel at a full grand master and a full byte.
fn full_slot(level: u16) -> u8
    requires { level ≤ 65025 }
    ensures { result ≡ slot_of level 255 255 }
{
    ((level + 127) / 255) as u8
}

// Writes the 512 slots of an ordinal: `slots` has that of each channel at a byte of 255.
fn draw_frame(out: &mut [u8], drawing: &Drawing<'_>, slots: &[u8; 4096], ordinal: usize)
    requires size { length out.old ≡ 512 }
    requires ordinal { ordinal < 16 }
    requires kind { AreBytesOf (slice_index_or drawing.now.kinds.now ordinal Dark)
        drawing.now.bytes.now (512 * ordinal) }
    requires slots { (c : ℕ) → c < 4096 → slice_index slots.now c
        ≡ slot_of (slice_index drawing.now.levels.now c) drawing.now.grand 255 }
    ensures { (s : ℕ) → s < 512 → slice_index out.new s
        ≡ slot_of (slice_index drawing.now.levels.now
        (slice_index drawing.now.sources.now (512 * ordinal + s)))
        drawing.now.grand (slice_index drawing.now.bytes.now (512 * ordinal + s)) }
{
    let first = usize::from(SLOTS) * ordinal;
    match drawing.kinds[ordinal] {
        Bytes::Dark => out.fill(0),
        Bytes::Full => gather_slots(out, slots, drawing.sources, first),
        Bytes::FullOrDark => {
            gather_slots(out, slots, drawing.sources, first);
            keep_patched(out, drawing.bytes, first);
        }
        Bytes::Mixed => {
            let mut own = [0; 512];
            gather_levels(&mut own, drawing.levels, drawing.sources, first);
            fill_scaled(out, &own, drawing.bytes, first, drawing.grand);
        }
    }
}

// Brings the slot of the channel of each of 512 dimmers.
fn gather_slots(out: &mut [u8], slots: &[u8; 4096], sources: &[u16], first: usize)
    requires size { length out.old ≡ 512 }
    requires sources { first + 512 ≤ length sources.now }
    requires in_range { (p : ℕ) → slice_index sources.now p < 4096 }
    ensures { (s : ℕ) → s < 512 → slice_index out.new s
        ≡ slice_index slots.now (slice_index sources.now (first + s)) }
{
    for group in 0..usize::from(SLOTS) / 8 {
        let place = 8 * group;
        let eight = eight_slots(slots, sources, first + place);
        out[place..place + 8].copy_from_slice(&eight);
    }
}

// The slots of eight dimmers: LLVM brings them into one number, which a processor writes at once.
#[inline(always)]
fn eight_slots(slots: &[u8; 4096], sources: &[u16], first: usize) -> [u8; 8]
    requires sources { first + 8 ≤ length sources.now }
    requires in_range { (p : ℕ) → slice_index sources.now p < 4096 }
    ensures size { length result ≡ 8 }
    ensures slots { (s : ℕ) → s < 8 → slice_index result s
        ≡ slice_index slots.now (slice_index sources.now (first + s)) }
{
    let mut eight = [0; 8];
    for place in 0..8 {
        eight[place] = slots[usize::from(sources[first + place])];
    }
    eight
}

// Puts the slots of 512 dimmers at 0 where their byte is 0.
fn keep_patched(out: &mut [u8], bytes: &[u8], first: usize)
    requires size { length out.old ≡ 512 }
    requires bytes { first + 512 ≤ length bytes.now }
    ensures dark { (s : ℕ) → s < 512 → slice_index bytes.now (first + s) ≡ 0
        → slice_index out.new s ≡ 0 }
    ensures kept { (s : ℕ) → s < 512 → slice_index bytes.now (first + s) ≢ 0
        → slice_index out.new s ≡ slice_index out.old s }
{
    for place in 0..usize::from(SLOTS) {
        let kept = out[place];
        out[place] = if bytes[first + place] == 0 { 0 } else { kept };
    }
}

// Brings the level of each of 512 dimmers.
fn gather_levels(own: &mut [u16; 512], levels: &[u16], sources: &[u16], first: usize)
    requires each_channel { length levels.now ≡ 4096 }
    requires full { AreLevels levels.now }
    requires sources { first + 512 ≤ length sources.now }
    requires in_range { (p : ℕ) → slice_index sources.now p < 4096 }
    ensures levels { (s : ℕ) → s < 512 → slice_index own.new s
        ≡ slice_index levels.now (slice_index sources.now (first + s)) }
    ensures full { (s : ℕ) → s < 512 → slice_index own.new s ≤ 65025 }
{
    for slot in 0..usize::from(SLOTS) {
        own[slot] = levels[usize::from(sources[first + slot])];
    }
}

// The slots of 512 dimmers whose bytes are any.
fn fill_scaled(out: &mut [u8], own: &[u16; 512], bytes: &[u8], first: usize, grand: u8)
    requires size { length out.old ≡ 512 }
    requires full { (s : ℕ) → s < 512 → slice_index own.now s ≤ 65025 }
    requires bytes { first + 512 ≤ length bytes.now }
    ensures { (s : ℕ) → s < 512 → slice_index out.new s
        ≡ slot_of (slice_index own.now s) grand (slice_index bytes.now (first + s)) }
{
    for place in 0..usize::from(SLOTS) {
        out[place] = slot(u32::from(own[place]), grand, bytes[first + place]);
    }
}
