ghost use Rattle.std.specs.Prelude.{◌≡◌, ◌++◌, ◌==◌, [], ◌∷◌, IfOk, OnOk, codes};
ghost use Rattle.std.specs.Prelude.{if◌then◌else◌};
ghost use Rattle.hex.specs.Hex.{encode_lower};
ghost use Rattle.cmd_cues.specs.LabelLines.{label_by};
ghost use Rattle.cmd_cues.specs.Masters.{record_in};
ghost use Rattle.cmd_cues.specs.Json.{array_text, cue_object, dimmer_object, follow_text};
ghost use Rattle.cmd_cues.specs.Json.{json_text, master_object, string_byte, string_text};
ghost use Rattle.cmd_cues.specs.Json.{rate_members, universe_object};

use crate::cue_rows::{CueRow, Masters, channel_count, cue_rows, dimmer_count};
use crate::labels::Labels;
use cmd_explain::{push_decimal, push_number};
use show_core::{Levels, Rate, Show};
use show_line::Record;
use std::alloc::{AllocError, Global};

const HEX_DIGITS: &[u8; 16] = b"0123456789abcdef";

/// The JSON object of a show.
pub fn json_text(alloc: Global, show: &Show, labels: &Labels<'_>) -> Result<Vec<u8>, AllocError>
    ensures { IfOk result (λ text.
        text.items ≡ json_text (label_by labels.now.lines.items) show.now) }
{
    let mut text = Vec::new(alloc);
    let cues = cue_rows(alloc, show)?;
    text.extend_from_slice(b"{\"cues\":")?;
    push_cues(&mut text, cues.as_slice(), labels)?;
    text.extend_from_slice(b",\n\"submasters\":")?;
    push_masters(&mut text, Masters::Subs, show.subs(), labels)?;
    text.extend_from_slice(b",\n\"groups\":")?;
    push_masters(&mut text, Masters::Groups, show.groups(), labels)?;
    text.extend_from_slice(b",\n\"universes\":")?;
    push_universes(&mut text, show, show.universes().as_slice())?;
    text.extend_from_slice(b",\n\"patch\":")?;
    push_dimmers(&mut text, show.patch())?;
    text.extend_from_slice(b"}\n")?;
    Ok(text)
}

// What stands before an item of an array, by its place.
fn push_break(text: &mut Vec<u8>, place: usize) -> Result<(), AllocError>
    ensures { OnOk result (text.new.items ≡ text.old.items
        ++ (if place == 0 then codes "\n" else codes ",\n")) }
{
    if place == 0 {
        text.extend_from_slice(b"\n")
    } else {
        text.extend_from_slice(b",\n")
    }
}

fn push_cues(text: &mut Vec<u8>, cues: &[CueRow], labels: &Labels<'_>) -> Result<(), AllocError>
    ensures { OnOk result (text.new.items ≡ text.old.items
        ++ array_text (cue_object (label_by labels.now.lines.items)) cues.now) }
{
    text.push(b'[')?;
    for (place, cue) in cues.iter().enumerate() {
        push_break(text, place)?;
        push_cue(text, cue, labels)?;
    }
    text.push(b']')?;
    Ok(())
}

fn push_cue(text: &mut Vec<u8>, cue: &CueRow, labels: &Labels<'_>) -> Result<(), AllocError>
    ensures { OnOk result (text.new.items ≡ text.old.items
        ++ cue_object (label_by labels.now.lines.items) cue.now) }
{
    text.extend_from_slice(b"{\"number\":\"")?;
    push_decimal(text, cue.number)?;
    text.extend_from_slice(b"\",\"label\":")?;
    push_string(text, labels.label(Record::Cue(cue.number)))?;
    push_rate(text, b"up", cue.up)?;
    push_rate(text, b"down", cue.down)?;
    text.extend_from_slice(b",\"follow\":")?;
    push_follow(text, cue.follow)?;
    text.extend_from_slice(b",\"channels\":")?;
    push_number(text, cue.channels)?;
    text.push(b'}')?;
    Ok(())
}

fn push_rate(text: &mut Vec<u8>, name: &[u8], rate: Rate) -> Result<(), AllocError>
    ensures { OnOk result (text.new.items ≡ text.old.items ++ rate_members name.now rate) }
{
    text.extend_from_slice(b",\"")?;
    text.extend_from_slice(name)?;
    text.extend_from_slice(b"\":")?;
    push_decimal(text, rate.time)?;
    text.extend_from_slice(b",\"")?;
    text.extend_from_slice(name)?;
    text.extend_from_slice(b"_delay\":")?;
    push_decimal(text, rate.delay)
}

fn push_follow(text: &mut Vec<u8>, follow: Option<u32>) -> Result<(), AllocError>
    ensures { OnOk result (text.new.items ≡ text.old.items ++ follow_text follow) }
{
    match follow {
        Some(time) => push_decimal(text, time),
        None => text.extend_from_slice(b"null"),
    }
}

fn push_masters(
    text: &mut Vec<u8>,
    of: Masters,
    masters: &[(u16, Levels)],
    labels: &Labels<'_>,
) -> Result<(), AllocError>
    ensures { OnOk result (text.new.items ≡ text.old.items
        ++ array_text (master_object (λ n. label_by labels.now.lines.items (record_in of n)))
        masters.now) }
{
    text.push(b'[')?;
    for (place, (number, levels)) in masters.iter().enumerate() {
        push_break(text, place)?;
        push_master(text, of, *number, levels, labels)?;
    }
    text.push(b']')?;
    Ok(())
}

fn push_master(
    text: &mut Vec<u8>,
    of: Masters,
    number: u16,
    levels: &Levels,
    labels: &Labels<'_>,
) -> Result<(), AllocError>
    ensures { OnOk result (text.new.items ≡ text.old.items
        ++ master_object (λ n. label_by labels.now.lines.items (record_in of n))
        (number, levels.now)) }
{
    text.extend_from_slice(b"{\"number\":")?;
    push_number(text, u64::from(number))?;
    text.extend_from_slice(b",\"label\":")?;
    push_string(text, labels.label(of.record(number)))?;
    text.extend_from_slice(b",\"channels\":")?;
    push_number(text, channel_count(levels))?;
    text.push(b'}')?;
    Ok(())
}

fn push_universes(text: &mut Vec<u8>, show: &Show, ordinals: &[u16]) -> Result<(), AllocError>
    ensures { OnOk result (text.new.items ≡ text.old.items
        ++ array_text (universe_object show.now.patch) ordinals.now) }
{
    text.push(b'[')?;
    for (place, ordinal) in ordinals.iter().enumerate() {
        push_break(text, place)?;
        push_universe(text, show, *ordinal)?;
    }
    text.push(b']')?;
    Ok(())
}

fn push_universe(text: &mut Vec<u8>, show: &Show, ordinal: u16) -> Result<(), AllocError>
    ensures { OnOk result (text.new.items ≡ text.old.items
        ++ universe_object show.now.patch ordinal) }
{
    text.extend_from_slice(b"{\"universe\":")?;
    push_number(text, u64::from(ordinal) + 1)?;
    text.extend_from_slice(b",\"dimmers\":")?;
    push_number(text, dimmer_count(show, ordinal))?;
    text.push(b'}')?;
    Ok(())
}

fn push_dimmers(text: &mut Vec<u8>, patch: &[(u16, (u16, u8))]) -> Result<(), AllocError>
    ensures { OnOk result (text.new.items ≡ text.old.items ++ array_text dimmer_object patch.now) }
{
    text.push(b'[')?;
    for (place, entry) in patch.iter().enumerate() {
        push_break(text, place)?;
        push_dimmer(text, *entry)?;
    }
    text.push(b']')?;
    Ok(())
}

fn push_dimmer(text: &mut Vec<u8>, entry: (u16, (u16, u8))) -> Result<(), AllocError>
    ensures { OnOk result (text.new.items ≡ text.old.items ++ dimmer_object entry) }
{
    let (dimmer, (channel, level)) = entry;
    text.extend_from_slice(b"{\"dimmer\":")?;
    push_number(text, u64::from(dimmer))?;
    text.extend_from_slice(b",\"channel\":")?;
    push_number(text, u64::from(channel))?;
    text.extend_from_slice(b",\"level\":")?;
    push_number(text, u64::from(level))?;
    text.push(b'}')?;
    Ok(())
}

fn push_string(text: &mut Vec<u8>, bytes: &[u8]) -> Result<(), AllocError>
    ensures { OnOk result (text.new.items ≡ text.old.items ++ string_text bytes.now) }
{
    text.push(b'"')?;
    for byte in bytes {
        push_string_byte(text, *byte)?;
    }
    text.push(b'"')?;
    Ok(())
}

fn push_string_byte(text: &mut Vec<u8>, byte: u8) -> Result<(), AllocError>
    ensures { OnOk result (text.new.items ≡ text.old.items ++ string_byte byte) }
{
    match byte {
        b'"' | b'\\' => text.extend_from_slice(&[b'\\', byte]),
        b' '..=b'~' => text.extend_from_slice(&[byte]),
        _ => {
            text.extend_from_slice(b"\\u00")?;
            text.extend_from_slice(&hex_digits(byte))
        }
    }
}

fn hex_digits(byte: u8) -> [u8; 2]
    ensures { result ≡ encode_lower (byte ∷ []) }
{
    [
        HEX_DIGITS[usize::from(byte / 16)],
        HEX_DIGITS[usize::from(byte % 16)],
    ]
}
