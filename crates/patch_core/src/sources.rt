ghost use Rattle.std.specs.Prelude.{◌≡◌, ℕ, ◌+◌, ◌*◌, ◌<◌, ◌≤◌};
ghost use Rattle.std.specs.Prelude.{IsTrue, IfOk, All, length, slice_index, slice_index_or};
ghost use Rattle.std.specs.FinMap.{find, is_sorted};
ghost use Rattle.std.specs.Option.{option_map_or};
ghost use Rattle.std.specs.Ordering.{nat_cmp};
ghost use Rattle.show_core.specs.Numbers.{is_channel, is_dimmer};
ghost use Rattle.show_core.specs.Readers.{slot_of};
ghost use Rattle.patch_core.specs.Sources.{AreBytesOf};
ghost use Rattle.patch_core.specs.declared.sources.Bytes.TheVariants.{Mixed};

use show_core::{SLOTS, UNIVERSES};
use std::alloc::{AllocError, Global};

// The bytes of the dimmers of an ordinal.
#[derive(Clone, Copy, Debug, Drop)]
pub enum Bytes {
    // None is patched.
    Dark,
    // Each is patched, at full.
    Full,
    // Each that is patched is at full.
    FullOrDark,
    Mixed,
}

// Writes the place of each dimmer's channel, from 0 on, and its byte.
pub fn write_sources(sources: &mut [u16], bytes: &mut [u8], dimmers: &[(u16, (u16, u8))])
    requires each_source { length sources.old ≡ 8192 }
    requires each_byte { length bytes.old ≡ 8192 }
    requires in_range { (p : ℕ) → slice_index sources.old p < 4096 }
    requires dark { (p : ℕ) → slice_index bytes.old p ≡ 0 }
    requires sorted { IsTrue (is_sorted nat_cmp dimmers.now) }
    requires numbers { All (λ e. IsTrue (is_dimmer e.0)) dimmers.now }
    requires channels { All (λ e. IsTrue (is_channel e.1.0)) dimmers.now }
    ensures in_range { (p : ℕ) → slice_index sources.new p < 4096 }
    ensures slots { (p : ℕ) → p < 8192 → (level : ℕ → ℕ) (grand : ℕ)
        → slot_of (level (slice_index sources.new p + 1)) grand (slice_index bytes.new p)
        ≡ option_map_or (λ e. slot_of (level e.0) grand e.1) (find nat_cmp (p + 1) dimmers.now) 0 }
{
    for (dimmer, (channel, byte)) in dimmers {
        let place = usize::from(*dimmer) - 1;
        sources[place] = *channel - 1;
        bytes[place] = *byte;
    }
}

// What the bytes of the dimmers of each ordinal are.
pub fn kinds_of(alloc: Global, bytes: &[u8]) -> Result<Vec<Bytes>, AllocError>
    requires { length bytes.now ≡ 8192 }
    ensures each { IfOk result (λ kinds. length kinds.items ≡ 16) }
    ensures kinds { IfOk result (λ kinds. (k : ℕ) → k < 16
        → AreBytesOf (slice_index_or kinds.items k Mixed) bytes.now (512 * k)) }
{
    let mut kinds = Vec::with_capacity(alloc, usize::from(UNIVERSES))?;
    for ordinal in 0..UNIVERSES {
        kinds.push(kind_of(bytes, usize::from(SLOTS * ordinal)))?;
    }
    Ok(kinds)
}

// What the 512 bytes from this one on are.
fn kind_of(bytes: &[u8], first: usize) -> Bytes
    requires { first + 512 ≤ length bytes.now }
    ensures { AreBytesOf result bytes.now first }
{
    let mut dark = true;
    let mut full = true;
    let mut full_or_dark = true;
    for slot in 0..usize::from(SLOTS) {
        let byte = bytes[first + slot];
        dark = dark && byte == 0;
        full = full && byte == 255;
        full_or_dark = full_or_dark && (byte == 0 || byte == 255);
    }
    if dark {
        Bytes::Dark
    } else if full {
        Bytes::Full
    } else if full_or_dark {
        Bytes::FullOrDark
    } else {
        Bytes::Mixed
    }
}
