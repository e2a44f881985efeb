ghost use Rattle.std.specs.Prelude.{◌≡◌, ◌++◌, IfOk, OnOk, codes, flat_map, take};
ghost use Rattle.cmd_cues.specs.LabelLines.{label_by};
ghost use Rattle.cmd_cues.specs.Masters.{masters_head, record_in};
ghost use Rattle.cmd_cues.specs.Table.{cue_table_line, follow_cell, label_cell, master_table_line};
ghost use Rattle.cmd_cues.specs.Table.{rate_cells, section, table_text, universe_table_line};

use crate::cell::{push_cell, push_decimal_cell, push_number_cell};
use crate::cue_rows::{CueRow, Masters, channel_count, cue_rows, dimmer_count};
use crate::labels::Labels;
use cmd_explain::push_display_text;
use show_core::{Levels, Rate, Show};
use show_line::Record;
use std::alloc::{AllocError, Global};

/// The table of a show.
pub fn table_text(alloc: Global, show: &Show, labels: &Labels<'_>) -> Result<Vec<u8>, AllocError>
    ensures { IfOk result (λ text.
        text.items ≡ table_text (label_by labels.now.lines.items) show.now) }
{
    let mut text = Vec::new(alloc);
    text.extend_from_slice(
        b"     cue       up    delay     down    delay   follow  channels  label\n",
    )?;
    let cues = cue_rows(alloc, show)?;
    push_cues(alloc, &mut text, cues.as_slice(), labels)?;
    push_masters(&mut text, Masters::Subs, show.subs(), labels)?;
    push_masters(&mut text, Masters::Groups, show.groups(), labels)?;
    push_universes(&mut text, show, show.universes().as_slice())?;
    Ok(text)
}

fn push_cues(
    alloc: Global,
    text: &mut Vec<u8>,
    cues: &[CueRow],
    labels: &Labels<'_>,
) -> Result<(), AllocError>
    ensures { OnOk result (text.new.items ≡ text.old.items
        ++ flat_map (cue_table_line (label_by labels.now.lines.items)) cues.now) }
{
    for cue in cues {
        push_cue(alloc, text, cue, labels)?;
    }
    Ok(())
}

fn push_cue(
    alloc: Global,
    text: &mut Vec<u8>,
    cue: &CueRow,
    labels: &Labels<'_>,
) -> Result<(), AllocError>
    ensures { OnOk result (text.new.items ≡ text.old.items
        ++ cue_table_line (label_by labels.now.lines.items) cue.now) }
{
    push_decimal_cell(alloc, text, 8, cue.number)?;
    push_rate(alloc, text, cue.up)?;
    push_rate(alloc, text, cue.down)?;
    push_follow(alloc, text, cue.follow)?;
    push_number_cell(text, 10, cue.channels)?;
    push_label(text, labels.label(Record::Cue(cue.number)))?;
    text.push(b'\n')?;
    Ok(())
}

fn push_rate(alloc: Global, text: &mut Vec<u8>, rate: Rate) -> Result<(), AllocError>
    ensures { OnOk result (text.new.items ≡ text.old.items ++ rate_cells rate) }
{
    push_decimal_cell(alloc, text, 9, rate.time)?;
    push_decimal_cell(alloc, text, 9, rate.delay)
}

fn push_follow(alloc: Global, text: &mut Vec<u8>, follow: Option<u32>) -> Result<(), AllocError>
    ensures { OnOk result (text.new.items ≡ text.old.items ++ follow_cell follow) }
{
    match follow {
        Some(time) => push_decimal_cell(alloc, text, 9, time),
        None => push_cell(text, 9, b"-"),
    }
}

fn push_label(text: &mut Vec<u8>, label: &[u8]) -> Result<(), AllocError>
    ensures { OnOk result (text.new.items ≡ text.old.items ++ label_cell label.now) }
{
    if label.is_empty() {
        return Ok(());
    }
    text.extend_from_slice(b"  ")?;
    push_display_text(text, first_bytes(label))
}

// What is shown of a label.
fn first_bytes<'a>(label: &'a [u8]) -> &'a [u8]
    ensures { result.now ≡ take 80 label.now }
{
    &label[..label.len().min(80)]
}

// The head of the records, and a line for each; nothing where there are none.
fn push_masters(
    text: &mut Vec<u8>,
    of: Masters,
    masters: &[(u16, Levels)],
    labels: &Labels<'_>,
) -> Result<(), AllocError>
    ensures { OnOk result (text.new.items ≡ text.old.items ++ section (masters_head of)
        (master_table_line (λ n. label_by labels.now.lines.items (record_in of n))) masters.now) }
{
    if masters.is_empty() {
        return Ok(());
    }
    text.extend_from_slice(masters_head(of))?;
    for (number, levels) in masters {
        push_master(text, of, *number, levels, labels)?;
    }
    Ok(())
}

fn masters_head(of: Masters) -> &'static [u8]
    ensures { result.now ≡ masters_head of }
{
    match of {
        Masters::Subs => b"\nsubmaster  channels  label\n",
        Masters::Groups => b"\n    group  channels  label\n",
    }
}

fn push_master(
    text: &mut Vec<u8>,
    of: Masters,
    number: u16,
    levels: &Levels,
    labels: &Labels<'_>,
) -> Result<(), AllocError>
    ensures { OnOk result (text.new.items ≡ text.old.items
        ++ master_table_line (λ n. label_by labels.now.lines.items (record_in of n))
        (number, levels.now)) }
{
    push_number_cell(text, 9, u64::from(number))?;
    push_number_cell(text, 10, channel_count(levels))?;
    push_label(text, labels.label(of.record(number)))?;
    text.push(b'\n')?;
    Ok(())
}

// The head of universes, and a line for each; nothing where there are none.
fn push_universes(text: &mut Vec<u8>, show: &Show, ordinals: &[u16]) -> Result<(), AllocError>
    ensures { OnOk result (text.new.items ≡ text.old.items
        ++ section (codes "\n universe   dimmers\n") (universe_table_line show.now.patch)
        ordinals.now) }
{
    if ordinals.is_empty() {
        return Ok(());
    }
    text.extend_from_slice(b"\n universe   dimmers\n")?;
    for ordinal in ordinals {
        push_universe(text, show, *ordinal)?;
    }
    Ok(())
}

fn push_universe(text: &mut Vec<u8>, show: &Show, ordinal: u16) -> Result<(), AllocError>
    ensures { OnOk result (text.new.items ≡ text.old.items
        ++ universe_table_line show.now.patch ordinal) }
{
    push_number_cell(text, 9, u64::from(ordinal) + 1)?;
    push_number_cell(text, 10, dimmer_count(show, ordinal))?;
    text.push(b'\n')?;
    Ok(())
}
