ghost use Rattle.std.specs.Prelude.{◌≡◌, ◌*◌, ◌<◌, ◌≤◌, All, length, map, slice_index};
ghost use Rattle.show_core.specs.Readers.{level_in};
ghost use Rattle.master_core.specs.Merged.{greatest};

use show_core::Levels;

// The greatest level that the records make the channel, from the master of each by its number.
pub fn highest(records: &[(u16, Levels)], masters: &[u8], channel: u16) -> u32
    requires { All (λ e. e.0 < length masters.now) records.now }
    ensures greatest { result ≡ greatest (map
        (λ e. level_in e.1 channel * slice_index masters.now e.0) records.now) }
    ensures full { result ≤ 65025 }
{
    let mut most: u16 = 0;
    for (number, levels) in records {
        let master = masters[usize::from(*number)];
        if master > 0 {
            most = most.max(product(levels.level(channel), master));
        }
    }
    u32::from(most)
}

// The level that a record makes a channel.
pub fn product(byte: u8, master: u8) -> u16
    ensures product { result ≡ byte * master }
    ensures full { result ≤ 65025 }
{
    u16::from(byte) * u16::from(master)
}
