ghost use Rattle.std.specs.Prelude.{◌≡◌, ℕ, ◌+◌, ◌<◌, ◌≤◌, IsTrue, IfOk, All};
ghost use Rattle.std.specs.Prelude.{length, slice_index};
ghost use Rattle.std.specs.List.Sorted.{IsPermutation, IsNonDecreasingBy};
ghost use Rattle.show_core.specs.Numbers.{is_dimmer};
ghost use Rattle.patch_core.specs.Index.{IsBegin};

use show_core::CHANNELS;
use std::alloc::{AllocError, Global};

// The dimmers of a rig by their channels.
#[derive(Drop)]
pub struct ByChannel<'a> {
    // In the order of their channels.
    pub dimmers: &'a [(u16, (u16, u8))],
    // For each channel from 0 to 4096, the place where the dimmers of the channels above it begin.
    pub begins: &'a [u16],
    ghost numbers: { All (λ e. IsTrue (is_dimmer e.0)) dimmers.now },
    ghost each_begin: { length begins.now ≡ 4097 },
    ghost bounds: { (c : ℕ) → c < 4096
        → slice_index begins.now c ≤ slice_index begins.now (c + 1) },
    ghost in_range: { (c : ℕ) → c < 4097 → slice_index begins.now c ≤ length dimmers.now },
}

// The dimmers in the order of their channels.
pub fn sorted_by_channel(
    alloc: Global,
    dimmers: &[(u16, (u16, u8))],
) -> Result<Vec<(u16, (u16, u8))>, AllocError>
    ensures same { IfOk result (λ sorted. IsPermutation dimmers.now sorted.items) }
    ensures rising { IfOk result (λ sorted. IsNonDecreasingBy (λ e. e.1.0) sorted.items) }
{
    let mut sorted = Vec::from_slice(alloc, dimmers)?;
    sorted.sort_unstable_by_key(|entry| entry.1.0);
    Ok(sorted)
}

// For each channel from 0 to 4096, the place where the dimmers of the channels above it begin.
pub fn begins_of(alloc: Global, sorted: &[(u16, (u16, u8))]) -> Result<Vec<u16>, AllocError>
    requires rising { IsNonDecreasingBy (λ e. e.1.0) sorted.now }
    requires few { length sorted.now ≤ 8192 }
    ensures each { IfOk result (λ begins. length begins.items ≡ 4097) }
    ensures places { IfOk result (λ begins. (c : ℕ) → c < 4097
        → IsBegin sorted.now (c + 1) (slice_index begins.items c)) }
{
    let mut begins = Vec::with_capacity(alloc, usize::from(CHANNELS) + 1)?;
    for channel in 1..=CHANNELS + 1 {
        begins.push(first_of(sorted, channel) as u16)?;
    }
    Ok(begins)
}

// The place where the dimmers of the channels from this one on begin.
fn first_of(sorted: &[(u16, (u16, u8))], channel: u16) -> usize
    requires { IsNonDecreasingBy (λ e. e.1.0) sorted.now }
    ensures { IsBegin sorted.now channel result }
{
    sorted.partition_point(|entry| entry.1.0 < channel)
}
