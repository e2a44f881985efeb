ghost use Rattle.std.specs.Prelude.{◌≡◌, ◌<◌, ◌≤◌, ◌+◌, ◌*◌, ◌/◌, ℕ, length, max, slice_index};

use show_core::Frame;
use std::simd::prelude::*;

// The slots of one vector.
const LANES: usize = 32;

/// Each slot of `a` up to the length of `b` becomes the greater of the two slots; the rest of `a`
/// stays.
pub fn max_into(a: &mut Frame, b: &[u8])
    requires { length b.now ≤ 512 }
    ensures greatest { (s : ℕ) → s < length b.now
        → slice_index a.new s ≡ max (slice_index a.old s) (slice_index b.now s) }
    ensures rest { (s : ℕ) → length b.now ≤ s → slice_index a.new s ≡ slice_index a.old s }
{
    let vectors = b.len() / LANES;
    max_vectors(a, b, vectors);
    max_rest(a, b, vectors * LANES);
}

// So many vectors of slots from the first on.
fn max_vectors(a: &mut Frame, b: &[u8], vectors: usize)
    requires { (vectors * 32 ≤ length b.now) × (length b.now ≤ 512) }
    ensures greatest { (s : ℕ) → s < vectors * 32
        → slice_index a.new s ≡ max (slice_index a.old s) (slice_index b.now s) }
    ensures rest { (s : ℕ) → vectors * 32 ≤ s → slice_index a.new s ≡ slice_index a.old s }
{
    for vector in 0..vectors {
        max_vector(a, b, vector * LANES);
    }
}

// The vector of slots from this one on.
fn max_vector(a: &mut [u8], b: &[u8], from: usize)
    requires { (from + 32 ≤ length a.old) × (from + 32 ≤ length b.now) }
    ensures before { (s : ℕ) → s < from → slice_index a.new s ≡ slice_index a.old s }
    ensures greatest { (s : ℕ) → from ≤ s → s < from + 32
        → slice_index a.new s ≡ max (slice_index a.old s) (slice_index b.now s) }
    ensures after { (s : ℕ) → from + 32 ≤ s → slice_index a.new s ≡ slice_index a.old s }
{
    let most = greater(u8x32::from_slice(&a[from..]), u8x32::from_slice(&b[from..]));
    most.copy_to_slice(&mut a[from..]);
}

// Lane by lane the greater of the two.
fn greater(a: u8x32, b: u8x32) -> u8x32
    requires { (length a ≡ 32) × (length b ≡ 32) }
    ensures long { length result ≡ 32 }
    ensures each { (lane : ℕ) → lane < 32
        → slice_index result lane ≡ max (slice_index a lane) (slice_index b lane) }
{
    a.simd_max(b)
}

// The slots from this one on.
fn max_rest(a: &mut Frame, b: &[u8], from: usize)
    requires { (from ≤ length b.now) × (length b.now ≤ 512) }
    ensures before { (s : ℕ) → s < from → slice_index a.new s ≡ slice_index a.old s }
    ensures greatest { (s : ℕ) → from ≤ s → s < length b.now
        → slice_index a.new s ≡ max (slice_index a.old s) (slice_index b.now s) }
    ensures after { (s : ℕ) → length b.now ≤ s → slice_index a.new s ≡ slice_index a.old s }
{
    for slot in from..b.len() {
        a[slot] = a[slot].max(b[slot]);
    }
}
