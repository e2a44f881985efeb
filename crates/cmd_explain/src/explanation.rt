ghost use Rattle.std.specs.Prelude.{◌≡◌, ◌<◌, ◌^◌, ◌++◌, ℕ, List, length, map, flat_map};
ghost use Rattle.std.specs.Prelude.{IfOk, OnOk};
ghost use Rattle.cmd_show.specs.Faults.{CheckFails, ReadsFirst};
ghost use Rattle.cmd_explain.specs.Explanation.{AreFaultLines, Explains, IsTextOf, ListsFaults};
ghost use Rattle.cmd_explain.specs.Explanation.{text_line};
ghost use Rattle.cmd_explain.specs.LineNotes.{note_line};
ghost use Rattle.cmd_explain.specs.NotesOf.{AreNotesOf, line_notes};
ghost use Rattle.cmd_explain.specs.NumberedLines.{AreNumberedOf, numbered_notes};
ghost use Rattle.cmd_explain.specs.Skipped.{display_text};

use crate::encoding::push_encoding;
use crate::faulty::faulty_lines;
use crate::misspelt::push_misspelt;
use crate::note_lines::LineNotes;
use crate::notes::Notes;
use crate::numbered_lines::{NumberedLines, push_run};
use crate::show_notes::push_show_notes;
use crate::skipped::{push_display_text, skipped_lines};
use crate::weight::push_weighty;
use cmd_faults::RunFault;
use devices::Output;
use show_core::Show;
use show_reader::{LONGEST_TEXT, Loaded, ShowFault, read_show};
use std::alloc::{AllocError, Global};

/// Prints notes for the author of a show, and why lines of its text are skipped.
///
/// Notes on how the text is encoded come first; then for each skipped line a line with its number,
/// the reason and its text; and then all other notes. A note is a line that begins with `note: `.
/// Of a line the first 200 bytes are shown. A line's text and a note are shown as printable ASCII,
/// a tab and a CR as a space, and each other byte as `?`, so that neither begins a line of its own.
/// All of the text goes out by one write, and only after all memory was taken.
///
/// Of a text with a fault the notes on its encoding and its faulty lines are printed in place of
/// all that.
///
/// # Errors
///
/// The text's fault, also where there was no memory for the faulty lines, or printing them failed;
/// `Memory` if another allocation failed; `Device` where the write of an explanation failed.
pub fn explain<W: Output>(alloc: Global, show: &[u8], out: &mut W) -> Result<(), RunFault>
    ensures told { W.tells out.new → W.tells out.old }
    ensures text { W.tells out.new → Explains show.now result (W.tape out.old) (W.tape out.new) }
    ensures reads { ReadsFirst show.now (CheckFails show.now) result }
{
    let loaded = match read_show(alloc, show) {
        Ok(loaded) => loaded,
        Err(ShowFault::Memory) => return Err(RunFault::Memory),
        Err(fault) => {
            write_faults(alloc, show, fault, out);
            return Err(RunFault::Show(fault));
        }
    };
    let text = explanation(alloc, show, &loaded)?;
    out.write(text.as_slice())?;
    Ok(())
}

// Prints the faulty lines of a text that is not too long, where there is memory for them.
fn write_faults<W: Output>(alloc: Global, show: &[u8], fault: ShowFault, out: &mut W)
    ensures told { W.tells out.new → W.tells out.old }
    ensures lists { W.tells out.new → ListsFaults show.now (W.tape out.old) (W.tape out.new) }
{
    if show.len() > LONGEST_TEXT {
        return;
    }
    if let Ok(text) = faults_text(alloc, show, fault) {
        let _ = out.write(text.as_slice());
    }
}

fn faults_text(alloc: Global, show: &[u8], fault: ShowFault) -> Result<Vec<u8>, AllocError>
    requires { length show.now < 2 ^ 32 }
    ensures { IfOk result (λ text. AreFaultLines show.now text.items) }
{
    let mut text = Vec::new(alloc);
    push_encoding(&mut text, show)?;
    push_lines(&mut text, faulty_lines(alloc, show, fault)?.as_slice())?;
    Ok(text)
}

fn push_lines(text: &mut Vec<u8>, lines: &[Vec<u8>]) -> Result<(), AllocError>
    ensures { OnOk result (text.new.items
        ≡ text.old.items ++ flat_map text_line (map (λ line. display_text line.items) lines.now)) }
{
    for line in lines {
        push_line(text, line.as_slice())?;
    }
    Ok(())
}

fn push_line(text: &mut Vec<u8>, line: &[u8]) -> Result<(), AllocError>
    ensures { OnOk result (text.new.items ≡ text.old.items ++ text_line (display_text line.now)) }
{
    push_display_text(text, line)?;
    text.push(b'\n')?;
    Ok(())
}

fn explanation(alloc: Global, show: &[u8], loaded: &Loaded) -> Result<Vec<u8>, AllocError>
    requires { length show.now < 2 ^ 32 }
    ensures { IfOk result (λ text. IsTextOf show.now loaded.now.lines loaded.now.show text.items) }
{
    let mut text = Vec::new(alloc);
    push_encoding(&mut text, show)?;
    let skipped = skipped_lines(alloc, show, loaded.lines)?;
    text.extend_from_slice(skipped.as_slice())?;
    let notes = LineNotes::read(alloc, show, loaded.lines, &loaded.show)?;
    push_numbered(&mut text, &notes.numbered)?;
    push_notes(&mut text, doubts(alloc, show, loaded.lines)?.as_slice())?;
    push_line_notes(alloc, &mut text, &notes, &loaded.show)?;
    push_show_notes(alloc, &mut text, &loaded.show)?;
    Ok(text)
}

// Notes on what may be meant otherwise.
fn doubts(alloc: Global, show: &[u8], lines: u32) -> Result<Notes, AllocError>
    requires { length show.now < 2 ^ 32 }
{
    let mut notes = Vec::new(alloc);
    push_misspelt(alloc, &mut notes, show, lines)?;
    Ok(notes)
}

fn push_numbered(text: &mut Vec<u8>, numbered: &NumberedLines) -> Result<(), AllocError>
    ensures { OnOk result ((lines : List (List ℕ)) → AreNumberedOf lines numbered.now
        → text.new.items ≡ text.old.items ++ numbered_notes lines) }
{
    text.extend_from_slice(numbered.notes.as_slice())?;
    push_run(text, numbered.list, numbered.numbers.as_slice())?;
    Ok(())
}

fn push_line_notes(
    alloc: Global,
    text: &mut Vec<u8>,
    notes: &LineNotes,
    show: &Show,
) -> Result<(), AllocError>
    ensures { OnOk result ((lines : List (List ℕ)) → AreNotesOf show.now lines notes.now
        → text.new.items ≡ text.old.items ++ line_notes show.now lines) }
{
    push_weighty(alloc, text, notes, show)?;
    text.extend_from_slice(notes.hours.as_slice())?;
    Ok(())
}

/// Appends notes.
pub fn push_notes(text: &mut Vec<u8>, notes: &[Vec<u8>]) -> Result<(), AllocError>
    ensures { OnOk result (text.new.items
        ≡ text.old.items ++ flat_map note_line (map (λ note. display_text note.items)
        notes.now)) }
{
    for note in notes {
        push_note(text, note.as_slice())?;
    }
    Ok(())
}

fn push_note(text: &mut Vec<u8>, note: &[u8]) -> Result<(), AllocError>
    ensures { OnOk result (text.new.items ≡ text.old.items ++ note_line (display_text note.now)) }
{
    text.extend_from_slice(b"note: ")?;
    push_display_text(text, note)?;
    text.push(b'\n')?;
    Ok(())
}
