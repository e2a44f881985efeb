ghost use Rattle.std.specs.Prelude.{◌≡◌, ◌+◌, ◌*◌, ◌≤◌};
ghost use Rattle.std.specs.Prelude.{IsTrue, All, EachIndex, length, slice_index};
ghost use Rattle.std.specs.Ordering.{nat_cmp};
ghost use Rattle.std.specs.FinMap.{is_sorted};
ghost use Rattle.show_core.specs.Numbers.{AreLevels};
ghost use Rattle.fade_core.specs.Level.{byte_of};

use show_core::Rate;

// Where a fade takes the channels, and how fast: the look, the rate of those that rise, and that of
// the others.
#[derive(Clone, Copy, Debug)]
pub struct Goal<'a> {
    pub look: &'a [(u16, u8)],
    pub up: Rate,
    pub down: Rate,
}

// Puts 255 times the byte of each channel in the look in its place.
pub fn aim(to: &mut [u16], look: &[(u16, u8)])
    requires ascending { IsTrue (is_sorted nat_cmp look.now) }
    requires in_range { All (λ pair. (1 ≤ pair.0) × (pair.0 ≤ length to.old)) look.now }
    ensures levels { EachIndex to.new (λ place.
        slice_index to.new place ≡ 255 * byte_of look.now (place + 1)) }
    ensures full { AreLevels to.new }
{
    for level in to.iter_mut() {
        *level = 0;
    }
    for (channel, byte) in look {
        to[usize::from(*channel) - 1] = 255 * u16::from(*byte);
    }
}
