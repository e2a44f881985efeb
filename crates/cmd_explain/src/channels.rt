ghost use Rattle.std.specs.Prelude.{◌≡◌, ◌==◌, ◌≤◌, ◌||◌, ℕ, false};
ghost use Rattle.std.specs.FinMap as maps;
ghost use Rattle.cmd_explain.specs.ShowNotes.{is_listed, is_marked, is_patched, lists};

use show_core::{Cue, Show};

/// Which channels are meant, from 0 on.
pub type Channels = [bool; 4097];

/// No channel.
pub fn no_channels() -> Channels
    ensures { (channel : ℕ) → is_marked result channel ≡ false }
{
    [false; 4097]
}

/// Marks a channel.
pub fn mark(channels: &mut Channels, channel: u16)
    requires { channel ≤ 4096 }
    ensures { (other : ℕ) → is_marked channels.new other
        ≡ is_marked channels.old other || (channel == other) }
{
    channels[usize::from(channel)] = true;
}

/// Whether a channel is marked.
pub fn is_marked(channels: &Channels, channel: u16) -> bool
    ensures { result ≡ is_marked channels.now channel }
{
    channels.get(usize::from(channel)).copied().unwrap_or(false)
}

/// The channels to which dimmers are patched.
pub fn patched_channels(show: &Show) -> Channels
    ensures { (channel : ℕ) → is_marked result channel ≡ is_patched show.now.patch channel }
{
    let mut patched = no_channels();
    for (_, (channel, _)) in show.patch() {
        mark(&mut patched, *channel);
    }
    patched
}

/// The channels that these cues list.
pub fn listed_channels(show: &Show, cues: &[u32]) -> Channels
    ensures { (channel : ℕ) → is_marked result channel ≡ is_listed show.now.cues cues.now channel }
{
    let mut listed = no_channels();
    for n in cues {
        if let Some(cue) = show.cue(*n) {
            mark_listed(&mut listed, &cue);
        }
    }
    listed
}

fn mark_listed(channels: &mut Channels, cue: &Cue<'_>)
    ensures { (channel : ℕ) → is_marked channels.new channel
        ≡ is_marked channels.old channel || lists channel cue.now.levels }
{
    for (channel, _) in cue.pairs() {
        mark(channels, *channel);
    }
}
