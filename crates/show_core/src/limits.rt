ghost use Rattle.std.specs.Prelude.{◌≡◌};
ghost use Rattle.show_core.specs.Numbers as numbers;

/// Channels are numbered from 1 to this.
pub const CHANNELS: u16 = 4096;

/// Dimmers are numbered from 1 to this.
pub const DIMMERS: u16 = 8192;

/// The most cues that a show has.
pub const CUES: usize = 2000;

/// Submasters are numbered from 1 to this.
pub const SUBMASTERS: u16 = 100;

/// Groups are numbered from 1 to this.
pub const GROUPS: u16 = 500;

/// Cues are numbered from 1 to this, in thousandths.
pub const TOP_CUE: u32 = 9_999_999;

/// The longest time or delay, in milliseconds.
pub const LONGEST_TIME: u32 = 5_999_990;

/// The slots of a universe.
pub const SLOTS: u16 = 512;

/// The universes that the dimmers fill, with the ordinals from 0 on.
pub const UNIVERSES: u16 = 16;

pub fn is_channel(n: u16) -> bool
    ensures { result ≡ numbers.is_channel n }
{
    (1..=CHANNELS).contains(&n)
}

pub fn is_dimmer(n: u16) -> bool
    ensures { result ≡ numbers.is_dimmer n }
{
    (1..=DIMMERS).contains(&n)
}

pub fn is_sub(n: u16) -> bool
    ensures { result ≡ numbers.is_sub n }
{
    (1..=SUBMASTERS).contains(&n)
}

pub fn is_group(n: u16) -> bool
    ensures { result ≡ numbers.is_group n }
{
    (1..=GROUPS).contains(&n)
}

pub fn is_cue_number(n: u32) -> bool
    ensures { result ≡ numbers.is_cue_number n }
{
    (1..=TOP_CUE).contains(&n)
}
