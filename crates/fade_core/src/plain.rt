ghost use Rattle.std.specs.Prelude.{◌≡◌, ℕ, ◌+◌, ◌-◌, ◌*◌, ◌^◌, ◌<◌, ◌≤◌, IsTrue, All, length};
ghost use Rattle.std.specs.Prelude.{slice_index_or};
ghost use Rattle.std.specs.Ordering.{nat_cmp};
ghost use Rattle.std.specs.FinMap.{is_sorted};
ghost use Rattle.fade_core.specs.declared.channel_fade.ChannelFade.{ChannelFade};
ghost use Rattle.fade_core.specs.Level.{byte_of, split_fade};
ghost use Rattle.fade_core.specs.Plain.{IsUnderway, level_in};

use crate::channel_fade::ChannelFade;
use crate::fader::Fader;
use show_core::Rate;
use std::alloc::{AllocError, Global};
use std::marker::Model;

/// Keeps the fade of each channel, and divides each time that it is asked for a level.
#[derive(Debug, Drop)]
pub struct PlainFader {
    fades: Vec<ChannelFade>,
    latest: u64,
}

impl Model for PlainFader {
    ghost use Rattle.fade_core.specs.Plain.{PlainFading, plain_view, IsPlainFading};

    ghost Value = { PlainFading };

    ghost view = { plain_view };

    ghost invariant = { λ fader. IsPlainFading (plain_view fader) };
}

impl Fader for PlainFader {
    ghost use Rattle.fade_core.specs.Plain.{Makes};

    ghost stands_for = { Makes };

    ghost latest = { λ fading. fading.latest };

    ghost channels = { λ fading. length fading.fades };

    fn new(alloc: Global, channel_count: u16) -> Result<Self, AllocError> {
        let dark = ChannelFade {
            start: 0,
            target: 0,
            rate: Rate { time: 0, delay: 0 },
            began: 0,
        };
        Ok(PlainFader {
            fades: vec![in alloc; dark; usize::from(channel_count)]?,
            latest: 0,
        })
    }

    fn start(&mut self, look: &[(u16, u8)], up: Rate, down: Rate, moment: u64) {
        aim(&mut self.fades, look, up, down, moment);
        self.latest = moment;
    }

    fn advance(&mut self, moment: u64) {
        self.latest = moment;
    }

    fn level(&self, channel: u16) -> u32 {
        self.fades[usize::from(channel) - 1].level(self.latest)
    }
}

// Sends each channel to its byte in the look.
fn aim(fades: &mut [ChannelFade], look: &[(u16, u8)], up: Rate, down: Rate, moment: u64)
    requires ascending { IsTrue (is_sorted nat_cmp look.now) }
    requires few { length fades.old < 2 ^ 16 }
    requires underway { All (IsUnderway moment) fades.old }
    ensures levels { (place later : ℕ) (none : ChannelFade) → place < length fades.old
        → level_in (slice_index_or fades.new place none) later
        ≡ split_fade (level_in (slice_index_or fades.old place none) moment)
        (255 * byte_of look.now (place + 1)) up down (later - moment) }
    ensures underway { All (IsUnderway moment) fades.new }
{
    for place in 0..fades.len() {
        let byte = byte_in(look, place as u16 + 1);
        fades[place] = fades[place].towards(byte, up, down, moment);
    }
}

// The byte of a channel, 0 where the look does not list it.
fn byte_in(look: &[(u16, u8)], channel: u16) -> u8
    requires { IsTrue (is_sorted nat_cmp look.now) }
    ensures { result ≡ byte_of look.now channel }
{
    match look.binary_search_by_key(&channel, |pair| pair.0) {
        Ok(place) => look[place].1,
        Err(_) => 0,
    }
}
