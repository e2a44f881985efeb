ghost use Rattle.std.specs.Prelude.{◌≡◌, ◌≤◌, ◌++◌, ◌==◌, ℕ, OnOk, IfOk, Some, filter, is_some};
ghost use Rattle.std.specs.Prelude.{map, option_map};
ghost use Rattle.std.specs.List.{list_any, range_with_len};
ghost use Rattle.cmd_explain.specs.CueParts.{channel_word, channels_in, channels_text};
ghost use Rattle.cmd_explain.specs.CueParts.{notes_on_cues};
ghost use Rattle.cmd_explain.specs.CueParts.{difference_text, first_times, last_times, moves_text};
ghost use Rattle.cmd_explain.specs.CueParts.{part_name_text, part_of, part_subject, part_text};
ghost use Rattle.cmd_explain.specs.CueParts.{part_note, cue_part_notes, take_word};
ghost use Rattle.cmd_explain.specs.LineNotes.{note_on, rate_text};
ghost use Rattle.cmd_explain.specs.ShowNotes.{is_marked};

use crate::channels::{Channels, is_marked, mark, no_channels};
use crate::cue_parts::{Part, Times};
use crate::decimal::{push_decimal, push_number};
use crate::line_notes::{push_front, push_rate};
use crate::skipped::{first_bytes, push_display_text};
use show_core::{CHANNELS, Rate};
use std::alloc::{AllocError, Global};

/// Appends the notes on the parts of these cues.
pub fn push_part_notes(
    alloc: Global,
    out: &mut Vec<u8>,
    parts: &[Part],
    cues: &[u32],
) -> Result<(), AllocError>
    ensures { OnOk result (out.new.items
        ≡ out.old.items ++ notes_on_cues (map part_of parts.now) cues.now) }
{
    for cue in cues {
        push_cue_parts(alloc, out, parts, *cue)?;
    }
    Ok(())
}

fn push_cue_parts(
    alloc: Global,
    out: &mut Vec<u8>,
    parts: &[Part],
    cue: u32,
) -> Result<(), AllocError>
    ensures { OnOk result (out.new.items ≡ out.old.items
        ++ cue_part_notes (filter (λ p. p.cue == cue) (map part_of parts.now))) }
{
    if !has_named_part(parts, cue) {
        return Ok(());
    }
    let first = first_times(parts, cue);
    let last = last_times(parts, cue);
    for part in parts {
        if part.cue == cue {
            push_part(alloc, out, part, part.times.or(first), last)?;
        }
    }
    Ok(())
}

// Whether a PART line begins one of a cue's parts.
#[tactic(auto, using(crate::proofs::PartLists::filter_more))]
fn has_named_part(parts: &[Part], cue: u32) -> bool
    ensures { result
        ≡ list_any (λ p. is_some p.name) (filter (λ p. p.cue == cue) (map part_of parts.now)) }
{
    for part in parts {
        if part.cue == cue && part.name.is_some() {
            return true;
        }
    }
    false
}

#[tactic(auto, using(crate::proofs::PartLists::filter_more))]
fn first_times(parts: &[Part], cue: u32) -> Times
    ensures { result ≡ first_times (filter (λ p. p.cue == cue) (map part_of parts.now)) }
{
    for part in parts {
        if part.cue == cue {
            return part.times;
        }
    }
    Times::none()
}

#[tactic(auto, using(crate::proofs::PartLists::filter_more))]
fn last_times(parts: &[Part], cue: u32) -> Times
    ensures { result ≡ last_times (filter (λ p. p.cue == cue) (map part_of parts.now)) }
{
    let mut last = Times::none();
    for part in parts {
        if part.cue == cue {
            last = part.times.or(last);
        }
    }
    last
}

// Appends the note on a part that has these times of its own, where its cue takes others.
fn push_part(
    alloc: Global,
    out: &mut Vec<u8>,
    part: &Part,
    own: Times,
    times: Times,
) -> Result<(), AllocError>
    ensures { OnOk result (out.new.items
        ≡ out.old.items ++ part_note (part_of part.now) own times) }
{
    if part.pairs.is_empty() || own.is_same(times) {
        return Ok(());
    }
    push_part_note(alloc, out, part, own, times)
}

fn push_part_note(
    alloc: Global,
    out: &mut Vec<u8>,
    part: &Part,
    own: Times,
    times: Times,
) -> Result<(), AllocError>
    ensures { OnOk result (out.new.items ≡ out.old.items
        ++ note_on part.now.line (part_text (part_of part.now) own times)) }
{
    push_front(out, part.line)?;
    push_part_text(alloc, out, part, own, times)?;
    out.push(b'\n')?;
    Ok(())
}

fn push_part_text(
    alloc: Global,
    out: &mut Vec<u8>,
    part: &Part,
    own: Times,
    times: Times,
) -> Result<(), AllocError>
    ensures { OnOk result (out.new.items
        ≡ out.old.items ++ part_text (part_of part.now) own times) }
{
    let channels = channels_in(alloc, part.pairs.as_slice())?;
    push_subject(out, part)?;
    push_channels(out, channels.as_slice())?;
    push_difference(out, own, times)?;
    Ok(())
}

fn push_subject(out: &mut Vec<u8>, part: &Part) -> Result<(), AllocError>
    ensures { OnOk result (out.new.items ≡ out.old.items
        ++ part_subject (part_of part.now)) }
{
    out.extend_from_slice(b"cue ")?;
    push_decimal(out, part.cue)?;
    push_name(out, &part.name)?;
    out.extend_from_slice(b": ")?;
    Ok(())
}

fn push_name(out: &mut Vec<u8>, name: &Option<Vec<u8>>) -> Result<(), AllocError>
    ensures { OnOk result (out.new.items ≡ out.old.items
        ++ part_name_text (option_map (λ name. name.items) name.now)) }
{
    match name {
        Some(name) => {
            out.extend_from_slice(b", part ")?;
            push_display_text(out, first_bytes(name.as_slice()))?;
            Ok(())
        }
        None => out.extend_from_slice(b", before its parts"),
    }
}

// The channels that pairs list.
fn channels_in(alloc: Global, pairs: &[(u16, u8)]) -> Result<Vec<u16>, AllocError>
    ensures { IfOk result (λ channels. channels.items ≡ channels_in pairs.now) }
{
    let listed = marked_channels(pairs);
    list_of(alloc, &listed)
}

fn list_of(alloc: Global, channels: &Channels) -> Result<Vec<u16>, AllocError>
    ensures { IfOk result (λ list.
        list.items ≡ filter (is_marked channels.now) (range_with_len 1 4096)) }
{
    (1..CHANNELS + 1)
        .filter(|channel| is_marked(channels, *channel))
        .collect(alloc)
}

fn marked_channels(pairs: &[(u16, u8)]) -> Channels
    ensures { (channel : ℕ) → channel ≤ 4096
        → is_marked result channel ≡ list_any (λ pair. pair.0 == channel) pairs.now }
{
    let mut channels = no_channels();
    for (channel, _) in pairs {
        if *channel <= CHANNELS {
            mark(&mut channels, *channel);
        }
    }
    channels
}

fn push_channels(out: &mut Vec<u8>, channels: &[u16]) -> Result<(), AllocError>
    ensures { OnOk result (out.new.items ≡ out.old.items ++ channels_text channels.now) }
{
    let is_one = channels.len() == 1;
    out.extend_from_slice(channel_word(is_one))?;
    for channel in channels {
        out.push(b' ')?;
        push_number(out, u64::from(*channel))?;
    }
    out.extend_from_slice(take_word(is_one))?;
    Ok(())
}

fn channel_word(is_one: bool) -> &'static [u8]
    ensures { result.now ≡ channel_word is_one }
{
    if is_one { b"channel" } else { b"channels" }
}

fn take_word(is_one: bool) -> &'static [u8]
    ensures { result.now ≡ take_word is_one }
{
    if is_one { b" takes " } else { b" take " }
}

fn push_difference(out: &mut Vec<u8>, own: Times, times: Times) -> Result<(), AllocError>
    ensures { OnOk result (out.new.items ≡ out.old.items ++ difference_text own times) }
{
    push_moves(out, times)?;
    out.extend_from_slice(b", not ")?;
    push_moves(out, own)?;
    Ok(())
}

fn push_moves(out: &mut Vec<u8>, times: Times) -> Result<(), AllocError>
    ensures { OnOk result (out.new.items ≡ out.old.items ++ moves_text times.up times.down) }
{
    match (times.up, times.down) {
        (Some(up), Some(down)) => push_both(out, up, down),
        (Some(up), None) => push_move(out, b"UP ", up),
        (None, Some(down)) => push_move(out, b"DOWN ", down),
        (None, None) => out.extend_from_slice(b"no time"),
    }
}

fn push_both(out: &mut Vec<u8>, up: Rate, down: Rate) -> Result<(), AllocError>
    ensures { OnOk result (out.new.items ≡ out.old.items ++ moves_text (Some up) (Some down)) }
{
    push_move(out, b"UP ", up)?;
    out.extend_from_slice(b", ")?;
    push_move(out, b"DOWN ", down)?;
    Ok(())
}

fn push_move(out: &mut Vec<u8>, word: &[u8], rate: Rate) -> Result<(), AllocError>
    ensures { OnOk result (out.new.items ≡ out.old.items ++ word.now ++ rate_text rate) }
{
    out.extend_from_slice(word)?;
    push_rate(out, rate)?;
    Ok(())
}
