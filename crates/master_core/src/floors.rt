ghost use Rattle.std.specs.Prelude.{◌≡◌, ◌+◌, ◌*◌, ◌<◌};
ghost use Rattle.std.specs.Prelude.{IsTrue, All, EachIndex, length, map, max, slice_index};
ghost use Rattle.std.specs.Prelude.{unwrap_or};
ghost use Rattle.std.specs.FinMap.{find, is_sorted};
ghost use Rattle.std.specs.Ordering.{nat_cmp};
ghost use Rattle.show_core.specs.Numbers.{is_channel, AreLevels};
ghost use Rattle.show_core.specs.Readers.{level_in};
ghost use Rattle.master_core.specs.Merged.{greatest};

use crate::highest::product;
use show_core::Levels;

// Raises the level of each channel, channel 1 first, to the greatest that the records make it, from
// the master of each by its number.
pub fn raise(floors: &mut [u16], records: &[(u16, Levels)], masters: &[u8])
    requires each_channel { length floors.old ≡ 4096 }
    requires full { AreLevels floors.old }
    requires masters { All (λ e. e.0 < length masters.now) records.now }
    ensures raised { EachIndex floors.new (λ place. slice_index floors.new place
        ≡ max (slice_index floors.old place) (greatest (map
        (λ e. level_in e.1 (place + 1) * slice_index masters.now e.0) records.now))) }
    ensures full { AreLevels floors.new }
{
    for (number, levels) in records {
        let master = masters[usize::from(*number)];
        if master > 0 {
            raise_listed(floors, levels.pairs(), master);
        }
    }
}

// Raises each channel that is listed to its byte times the master.
fn raise_listed(floors: &mut [u16], pairs: &[(u16, u8)], master: u8)
    requires each_channel { length floors.old ≡ 4096 }
    requires full { AreLevels floors.old }
    requires ascending { IsTrue (is_sorted nat_cmp pairs.now) }
    requires in_range { All (λ pair. IsTrue (is_channel pair.0)) pairs.now }
    ensures raised { EachIndex floors.new (λ place. slice_index floors.new place
        ≡ max (slice_index floors.old place)
        (unwrap_or (find nat_cmp (place + 1) pairs.now) 0 * master)) }
    ensures full { AreLevels floors.new }
{
    for (channel, byte) in pairs {
        let place = usize::from(*channel) - 1;
        floors[place] = floors[place].max(product(*byte, master));
    }
}
