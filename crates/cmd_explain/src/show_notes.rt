ghost use Rattle.std.specs.Prelude.{◌≡◌, ◌++◌, ◌&&◌, IfOk, OnOk, None, codes, decimal};
ghost use Rattle.std.specs.List.{list_any};
ghost use Rattle.std.specs.FinMap as maps;
ghost use Rattle.cmd_explain.specs.Decimals.{decimal_text};
ghost use Rattle.cmd_explain.specs.ShowNotes.{changes_nothing, dark_channels, dark_cues};
ghost use Rattle.cmd_explain.specs.ShowNotes.{has_levels_of, is_dark, is_marked, list_note};
ghost use Rattle.cmd_explain.specs.ShowNotes.{look_alike, patch_notes, same_cues, show_notes};
ghost use Rattle.cmd_explain.specs.ShowNotes.{dark_notes, no_patch_note};

use crate::channels::{Channels, is_marked, listed_channels, patched_channels};
use crate::decimal::{push_decimal, push_number};
use show_core::{CHANNELS, Cue, Show};
use std::alloc::{AllocError, Global};

/// Appends the notes on a show: on its patch, on cues and channels that no dimmer shows, and on
/// cues that look as the one before.
pub fn push_show_notes(alloc: Global, out: &mut Vec<u8>, show: &Show) -> Result<(), AllocError>
    ensures { OnOk result (out.new.items ≡ out.old.items ++ show_notes show.now) }
{
    let cues = cue_numbers(alloc, show)?;
    push_patch_notes(alloc, out, show, cues.as_slice())?;
    let same = same_cues(alloc, show, cues.as_slice())?;
    push_cue_list(out, b"cues that look as the one before:", same.as_slice())?;
    Ok(())
}

fn push_patch_notes(
    alloc: Global,
    out: &mut Vec<u8>,
    show: &Show,
    cues: &[u32],
) -> Result<(), AllocError>
    requires { cues.now ≡ maps.keys show.now.cues }
    ensures { OnOk result (out.new.items ≡ out.old.items ++ patch_notes show.now) }
{
    if show.patch().is_empty() {
        push_no_patch(out)
    } else {
        push_dark(alloc, out, show, cues)
    }
}

fn push_no_patch(out: &mut Vec<u8>) -> Result<(), AllocError>
    ensures { OnOk result (out.new.items ≡ out.old.items ++ no_patch_note) }
{
    out.extend_from_slice(b"note: no dimmer is patched: no universe is sent\n")
}

// Appends the notes on cues and channels that no dimmer shows.
fn push_dark(alloc: Global, out: &mut Vec<u8>, show: &Show, cues: &[u32]) -> Result<(), AllocError>
    requires { cues.now ≡ maps.keys show.now.cues }
    ensures { OnOk result (out.new.items ≡ out.old.items ++ dark_notes show.now) }
{
    let patched = patched_channels(show);
    let dark = dark_cues(alloc, show, cues, &patched)?;
    push_cue_list(
        out,
        b"cues of which no channel is patched:",
        dark.as_slice(),
    )?;
    let listed = listed_channels(show, cues);
    let channels = dark_channels(alloc, &listed, &patched)?;
    push_channel_list(
        out,
        b"channels of cues that are patched nowhere:",
        channels.as_slice(),
    )
}

/// The numbers of a show's cues, in thousandths, ascending.
///
/// # Errors
///
/// If an allocation failed.
pub fn cue_numbers(alloc: Global, show: &Show) -> Result<Vec<u32>, AllocError>
    ensures { IfOk result (λ numbers. numbers.items ≡ maps.keys show.now.cues) }
{
    let mut numbers = Vec::new(alloc);
    let mut next = show.next(0);
    for _cue in 0..show.counts().cues {
        let Some(number) = next else {
            return Ok(numbers);
        };
        numbers.push(number)?;
        next = show.next(number);
    }
    Ok(numbers)
}

fn dark_cues(
    alloc: Global,
    show: &Show,
    cues: &[u32],
    patched: &Channels,
) -> Result<Vec<u32>, AllocError>
    ensures { IfOk result (λ dark.
        dark.items ≡ dark_cues (is_marked patched.now) show.now.cues cues.now) }
{
    let mut dark = Vec::new(alloc);
    for n in cues {
        if show.cue(*n).is_some_and(|cue| is_dark(&cue, patched)) {
            dark.push(*n)?;
        }
    }
    Ok(dark)
}

fn is_dark(cue: &Cue<'_>, patched: &Channels) -> bool
    ensures { result ≡ is_dark (is_marked patched.now) cue.now.levels }
{
    let pairs = cue.pairs();
    !pairs.is_empty() && !has_marked(patched, pairs)
}

fn has_marked(channels: &Channels, pairs: &[(u16, u8)]) -> bool
    ensures { result ≡ list_any (λ pair. is_marked channels.now pair.0) pairs.now }
{
    pairs
        .iter()
        .any(|(channel, _)| is_marked(channels, *channel))
}

fn dark_channels(
    alloc: Global,
    listed: &Channels,
    patched: &Channels,
) -> Result<Vec<u16>, AllocError>
    ensures { IfOk result (λ dark.
        dark.items ≡ dark_channels (is_marked listed.now) (is_marked patched.now)) }
{
    (1..CHANNELS + 1)
        .filter(|channel| is_marked(listed, *channel) && !is_marked(patched, *channel))
        .collect(alloc)
}

// The cues in which each channel has the level of the cue before.
fn same_cues(alloc: Global, show: &Show, cues: &[u32]) -> Result<Vec<u32>, AllocError>
    ensures { IfOk result (λ same. same.items ≡ same_cues show.now.cues None cues.now) }
{
    let mut same = Vec::new(alloc);
    let mut before = None;
    for n in cues {
        if changes_nothing(show, before, *n) {
            same.push(*n)?;
        }
        before = Some(*n);
    }
    Ok(same)
}

fn changes_nothing(show: &Show, before: Option<u32>, n: u32) -> bool
    ensures { result ≡ changes_nothing show.now.cues before n }
{
    match before {
        Some(before) => match (show.cue(before), show.cue(n)) {
            (Some(one), Some(other)) => look_alike(&one, &other),
            _ => false,
        },
        None => false,
    }
}

fn look_alike(one: &Cue<'_>, other: &Cue<'_>) -> bool
    ensures { result ≡ has_levels_of other.now.levels one.now.levels
        && has_levels_of one.now.levels other.now.levels }
{
    has_levels_of(other, one) && has_levels_of(one, other)
}

// Whether a cue has the level of each channel that another one lights.
fn has_levels_of(other: &Cue<'_>, one: &Cue<'_>) -> bool
    ensures { result ≡ has_levels_of other.now.levels one.now.levels }
{
    one.pairs().iter().all(|(channel, level)| *level == 0 || other.level(*channel) == *level)
}

fn push_cue_list(out: &mut Vec<u8>, about: &[u8], cues: &[u32]) -> Result<(), AllocError>
    ensures { OnOk result (out.new.items
        ≡ out.old.items ++ list_note about.now decimal_text cues.now) }
{
    if cues.is_empty() {
        return Ok(());
    }
    out.extend_from_slice(b"note: ")?;
    out.extend_from_slice(about)?;
    for n in cues {
        out.push(b' ')?;
        push_decimal(out, *n)?;
    }
    out.push(b'\n')?;
    Ok(())
}

fn push_channel_list(out: &mut Vec<u8>, about: &[u8], channels: &[u16]) -> Result<(), AllocError>
    ensures { OnOk result (out.new.items
        ≡ out.old.items ++ list_note about.now decimal channels.now) }
{
    if channels.is_empty() {
        return Ok(());
    }
    out.extend_from_slice(b"note: ")?;
    out.extend_from_slice(about)?;
    for channel in channels {
        out.push(b' ')?;
        push_number(out, u64::from(*channel))?;
    }
    out.push(b'\n')?;
    Ok(())
}
