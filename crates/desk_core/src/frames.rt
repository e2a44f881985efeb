ghost use Rattle.std.specs.Prelude.{◌≡◌, ◌<◌, ℕ, Bool, List, Some, All, EachIndex};
ghost use Rattle.std.specs.Prelude.{IsTrue, IsFalse, Contains};
ghost use Rattle.std.specs.Prelude.{length, max, slice_get, slice_index};
ghost use Rattle.std.specs.FinMap as maps;
ghost use Rattle.show_core.specs.Numbers.{is_channel, AreLevels};
ghost use Rattle.show_core.specs.Tables.{Tables};
ghost use Rattle.playback_core.specs.Played.{Move, playback_level};
ghost use Rattle.playback_core.specs.Stands as playback_stands;
ghost use Rattle.patch_core.specs.Frame.{listed_level, frames_in, AreDrawn};
ghost use Rattle.desk_core.specs.Meaning.{dark};

use fade_core::Fader;
use patch_core::Rig;
use playback_core::Playback;
use show_core::CHANNELS;

// What a tick shows: of each channel the higher of its floor and of the playback's level at the
// latest moment that the playback was given, and all of it by the grand master.
#[derive(Drop)]
pub struct Merged<'a, F: Fader> {
    pub playback: &'a Playback<F>,
    pub floors: &'a [u16],
    // Where it is false, there is nothing to merge.
    pub has_floors: bool,
    pub grand: u8,
    ghost each_channel: { length floors.now ≡ 4096 },
    ghost full: { AreLevels floors.now },
    ghost none: { IsFalse has_floors → All (λ floor. floor ≡ 0) floors.now },
}

// Draws the frames of the merged levels.
pub fn draw_merged<F: Fader>(
    slots: &mut [u8],
    levels: &mut [u16],
    rig: &Rig,
    merged: &Merged<'_, F>,
)
    requires each_slot { length slots.old ≡ 8192 }
    requires levels { length levels.old ≡ 4096 }
    requires levels_full { AreLevels levels.old }
    ensures drawn { (show : Tables) (moves : List Move) (stopped : Bool) (level : ℕ → ℕ)
        → All (λ e. IsTrue (is_channel e.1.0)) (maps.entries rig.now.patch)
        → playback_stands.StandsFor F.stands_for show merged.now.playback.now moves stopped
        → ((channel : ℕ) → IsTrue (is_channel channel)
        → max (playback_level show moves channel (F.latest merged.now.playback.now.fader))
        (listed_level merged.now.floors.now channel) ≡ level channel)
        → AreDrawn rig.now.patch level merged.now.grand (frames_in slots.new) }
    ensures full { AreLevels levels.new }
{
    match merged.playback.levels() {
        Some(playing) if !merged.has_floors => rig.draw(slots, playing, merged.grand),
        _ => {
            merge_levels(levels, merged.playback, merged.floors);
            rig.draw(slots, levels, merged.grand);
        }
    }
}

// Writes the level of each channel: the higher of its floor and of the playback's level at the
// latest moment that the playback was given.
fn merge_levels<F: Fader>(levels: &mut [u16], playback: &Playback<F>, floors: &[u16])
    requires levels { length levels.old ≡ 4096 }
    requires floors { length floors.now ≡ 4096 }
    requires full { AreLevels floors.now }
    ensures merged { playback_stands.OfEach F.stands_for playback.now (λ show moves stopped.
        (channel : ℕ) → IsTrue (is_channel channel)
        → listed_level levels.new channel
        ≡ max (playback_level show moves channel (F.latest playback.now.fader))
        (listed_level floors.now channel)) }
    ensures full { AreLevels levels.new }
{
    match playback.levels() {
        Some(playing) => merge_all(levels, playing, floors),
        None => {
            for channel in 1..=CHANNELS {
                let place = usize::from(channel) - 1;
                levels[place] = floors[place].max(playback.level(channel) as u16);
            }
        }
    }
}

// The higher of two levels at each place.
fn merge_all(levels: &mut [u16], playing: &[u16], floors: &[u16])
    requires levels { length levels.old ≡ 4096 }
    requires playing { length playing.now ≡ 4096 }
    requires floors { length floors.now ≡ 4096 }
    requires playing_full { AreLevels playing.now }
    requires floors_full { AreLevels floors.now }
    ensures merged { EachIndex levels.new (λ place. slice_index levels.new place
        ≡ max (slice_index playing.now place) (slice_index floors.now place)) }
    ensures full { AreLevels levels.new }
{
    for place in 0..levels.len() {
        levels[place] = playing[place].max(floors[place]);
    }
}

// Draws these channels anew, at the merged levels.
pub fn redraw_merged<F: Fader>(
    slots: &mut [u8],
    levels: &mut [u16],
    rig: &Rig,
    channels: &[u16],
    merged: &Merged<'_, F>,
)
    requires each_slot { length slots.old ≡ 8192 }
    requires levels { length levels.old ≡ 4096 }
    requires levels_full { AreLevels levels.old }
    requires in_range { All (λ channel. IsTrue (is_channel channel)) channels.now }
    ensures drawn { (show : Tables) (moves : List Move) (stopped : Bool) (before after : ℕ → ℕ)
        → AreDrawn rig.now.patch before merged.now.grand (frames_in slots.old)
        → ((channel : ℕ) → IsTrue (is_channel channel) → ¬ Contains channels.now channel
        → before channel ≡ after channel)
        → playback_stands.StandsFor F.stands_for show merged.now.playback.now moves stopped
        → All (λ channel.
        max (playback_level show moves channel (F.latest merged.now.playback.now.fader))
        (listed_level merged.now.floors.now channel) ≡ after channel) channels.now
        → AreDrawn rig.now.patch after merged.now.grand (frames_in slots.new) }
    ensures full { AreLevels levels.new }
{
    match merged.playback.levels() {
        Some(playing) if !merged.has_floors => {
            rig.redraw(slots, channels, playing, merged.grand)
        }
        _ => {
            merge_some(levels, channels, merged.playback, merged.floors);
            rig.redraw(slots, channels, levels, merged.grand);
        }
    }
}

// Writes the levels of these channels, at the latest moment that the playback was given.
fn merge_some<F: Fader>(
    levels: &mut [u16],
    channels: &[u16],
    playback: &Playback<F>,
    floors: &[u16],
)
    requires each_channel { length levels.old ≡ 4096 }
    requires full { AreLevels levels.old }
    requires in_range { All (λ channel. IsTrue (is_channel channel)) channels.now }
    requires floors { length floors.now ≡ 4096 }
    requires floors_full { AreLevels floors.now }
    ensures merged { playback_stands.OfEach F.stands_for playback.now (λ show moves stopped.
        All (λ channel. listed_level levels.new channel
        ≡ max (playback_level show moves channel (F.latest playback.now.fader))
        (listed_level floors.now channel)) channels.now) }
    ensures full { AreLevels levels.new }
{
    for channel in channels {
        let place = usize::from(*channel) - 1;
        levels[place] = floors[place].max(playback.level(*channel) as u16);
    }
}

// Puts every slot at 0.
pub fn darken(slots: &mut [u8])
    requires { length slots.old ≡ 8192 }
    ensures { (ordinal : ℕ) → ordinal < 16
        → slice_get (frames_in slots.new) ordinal ≡ Some dark }
{
    slots.fill(0);
}
