ghost use Rattle.std.specs.Prelude.{◌≡◌, ◌++◌, OnOk};
ghost use Rattle.cmd_explain.specs.Encoding.{encoding_notes, has_cr_alone, has_mark};
ghost use Rattle.cmd_explain.specs.Encoding.{is_utf_16, note_if};

use std::alloc::AllocError;

const MARK: &[u8] =
    b"the file begins with a byte order mark, read as part of its first word: save it as ASCII";

const UTF_16: &[u8] = b"the file is UTF-16, which is not read as text: save it as ASCII";

const CR_ALONE: &[u8] =
    b"the file's lines end in CR alone, so that it is one line: save it with LF or CR LF";

/// Appends the notes on how a show text is encoded.
pub fn push_encoding(out: &mut Vec<u8>, text: &[u8]) -> Result<(), AllocError>
    ensures { OnOk result (out.new.items ≡ out.old.items ++ encoding_notes text.now) }
{
    push_if(out, has_mark(text), MARK)?;
    push_if(out, is_utf_16(text), UTF_16)?;
    push_if(out, has_cr_alone(text), CR_ALONE)?;
    Ok(())
}

fn push_if(out: &mut Vec<u8>, applies: bool, note: &[u8]) -> Result<(), AllocError>
    ensures { OnOk result (out.new.items ≡ out.old.items ++ note_if applies note.now) }
{
    if !applies {
        return Ok(());
    }
    out.extend_from_slice(b"note: ")?;
    out.extend_from_slice(note)?;
    out.push(b'\n')?;
    Ok(())
}

fn has_mark(text: &[u8]) -> bool
    ensures { result ≡ has_mark text.now }
{
    text.starts_with(b"\xef\xbb\xbf")
}

// A mark, or a zero in the first character, as all ASCII has in UTF-16.
fn is_utf_16(text: &[u8]) -> bool
    ensures { result ≡ is_utf_16 text.now }
{
    text.starts_with(b"\xff\xfe")
        || text.starts_with(b"\xfe\xff")
        || text.iter().take(2).any(|byte| *byte == 0)
}

// A CR that ends the text ends its one line, too.
fn has_cr_alone(text: &[u8]) -> bool
    ensures { result ≡ has_cr_alone text.now }
{
    text.contains(&b'\r') && !text.contains(&b'\n')
}
