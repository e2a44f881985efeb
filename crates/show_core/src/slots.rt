ghost use Rattle.std.specs.Prelude.{◌≡◌, ◌≤◌};
ghost use Rattle.show_core.specs.Readers.{slot_of};

/// The 512 slots of a universe, slot 1 first: what DMX512-A sends behind its START code.
pub type Frame = [u8; 512];

// What brings a fine level, times two bytes, back to a byte.
const SCALE: u32 = 255 * 255 * 255;

/// The slot of a dimmer: its channel's fine level, 0 to 65025, scaled by the grand master and by
/// the dimmer's own byte, to the nearest byte.
pub fn slot(level: u32, grand: u8, byte: u8) -> u8
    requires { level ≤ 65025 }
    ensures { result ≡ slot_of level grand byte }
{
    ((level * u32::from(grand) * u32::from(byte) + SCALE / 2) / SCALE) as u8
}
