ghost use Rattle.std.specs.Prelude.{◌≡◌, ◌+◌, ◌<◌, ◌^◌, ◌++◌, ℕ, List, ◌∷◌, length, take};
ghost use Rattle.std.specs.Prelude.{reverse, IfOk, OnOk};
ghost use Rattle.ascii_text.specs.Text.{lines_of};
ghost use Rattle.cmd_explain.specs.Headings.{heading_below};
ghost use Rattle.cmd_explain.specs.Skipped.{skipped_lines, skipped_line_below, display_text};
ghost use Rattle.cmd_explain.specs.Skipped.{display_byte};
ghost use Rattle.cmd_explain.specs.Skipped.{skipped_line, words_in};

use crate::heading::{Heading, is_skipped};
use crate::line_words::operands;
use crate::reason::{Reason, reason_of};
use ascii_text::{Line, Lines};
use itoa::Buffer;
use show_line::read_line;
use std::alloc::{AllocError, Global};

/// The lines about the skipped ones among so many lines of a show text.
pub fn skipped_lines(alloc: Global, text: &[u8], lines: u32) -> Result<Vec<u8>, AllocError>
    requires { length text.now < 2 ^ 32 }
    ensures { IfOk result (λ out.
        out.items ≡ skipped_lines (reverse (take lines (lines_of text.now)))) }
{
    let mut out = Vec::new(alloc);
    let mut above = Heading::Nothing;
    for line in Lines::new(text) {
        if line.number > lines {
            return Ok(out);
        }
        above = explain_line(&mut out, above, line)?;
    }
    Ok(out)
}

// Appends the line about a line, where that is skipped; and answers what heads the next one.
fn explain_line(out: &mut Vec<u8>, above: Heading, line: Line<'_>) -> Result<Heading, AllocError>
    ensures text { OnOk result ((lines : List (List ℕ)) → above ≡ heading_below (words_in lines)
        → line.entry.number ≡ length lines + 1
        → out.new.items ≡ out.old.items ++ skipped_line_below lines line.entry.bytes.now) }
    ensures heading { IfOk result (λ below. (lines : List (List ℕ))
        → above ≡ heading_below (words_in lines)
        → below ≡ heading_below (words_in (line.entry.bytes.now ∷ lines))) }
{
    let Some(reading) = read_line(above.owner(), line.bytes) else {
        return Ok(above);
    };
    if is_skipped(&reading.statement) {
        let reason = reason_of(above, reading.keyword, operands(line.bytes));
        push_skipped_line(out, line.number, reason, line.bytes)?;
    }
    if reading.keyword.may_own() {
        Ok(Heading::of(reading.keyword, &reading.statement))
    } else {
        Ok(above)
    }
}

fn push_skipped_line(
    out: &mut Vec<u8>,
    number: u32,
    reason: Reason,
    line: &[u8],
) -> Result<(), AllocError>
    ensures { OnOk result (out.new.items ≡ out.old.items ++ skipped_line number reason line.now) }
{
    out.extend_from_slice(b"line ")?;
    out.extend_from_slice(Buffer::new().format(number).as_bytes())?;
    out.extend_from_slice(b": ")?;
    reason.push_to(out)?;
    out.extend_from_slice(b": ")?;
    push_display_text(out, first_bytes(line))?;
    out.push(b'\n')?;
    Ok(())
}

/// What is shown of a line.
pub fn first_bytes<'a>(line: &'a [u8]) -> &'a [u8]
    ensures { result.now ≡ take 200 line.now }
{
    &line[..line.len().min(200)]
}

/// Appends bytes as they are shown: printable ASCII as it is, a tab and a CR as a space, and each
/// other byte as `?`.
///
/// # Errors
///
/// If an allocation failed.
pub fn push_display_text(out: &mut Vec<u8>, bytes: &[u8]) -> Result<(), AllocError>
    ensures { OnOk result (out.new.items ≡ out.old.items ++ display_text bytes.now) }
{
    for byte in bytes {
        out.push(display_byte(*byte))?;
    }
    Ok(())
}

/// A byte as it is shown: printable ASCII as it is, a tab and a CR as a space, and each other byte
/// as `?`.
pub fn display_byte(byte: u8) -> u8
    ensures { result ≡ display_byte byte }
{
    match byte {
        b'\t' | b'\r' => b' ',
        b' '..=b'~' => byte,
        _ => b'?',
    }
}
