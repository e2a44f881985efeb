ghost use Rattle.std.specs.Prelude.{◌≡◌, ◌++◌, OnOk};
ghost use Rattle.hex.specs.Hex.{encode_lower};
ghost use Rattle.cmd_listen.specs.Sources as sources;

use crate::source::Source;
use itoa::Buffer;
use std::alloc::AllocError;

/// What each line begins with.
#[derive(Clone, Copy, Debug, PartialEq, Eq)]
pub struct Head {
    /// In milliseconds.
    pub moment: u64,
    /// 0 for what is of no universe.
    pub universe: u16,
}

// Pushes the moment and the universe.
pub fn push_head(text: &mut Vec<u8>, head: Head) -> Result<(), AllocError>
    ensures { OnOk result (text.new.items ≡ text.old.items ++ sources.line_head head) }
{
    text.extend_from_slice(Buffer::new().format(head.moment).as_bytes())?;
    text.extend_from_slice(b" ")?;
    text.extend_from_slice(Buffer::new().format(head.universe).as_bytes())?;
    text.extend_from_slice(b" ")
}

// Pushes what a line says of a source: a word, its name and its CID.
pub fn push_told(
    text: &mut Vec<u8>,
    head: Head,
    word: &[u8],
    source: &Source,
) -> Result<(), AllocError>
    ensures { OnOk result (text.new.items
        ≡ text.old.items ++ sources.source_words head word.now source.now) }
{
    push_head(text, head)?;
    text.extend_from_slice(word)?;
    text.extend_from_slice(b" ")?;
    push_name(text, &source.name)?;
    text.extend_from_slice(b" ")?;
    push_cid(text, &source.cid)
}

fn push_name(text: &mut Vec<u8>, field: &[u8]) -> Result<(), AllocError>
    ensures { OnOk result (text.new.items ≡ text.old.items ++ sources.name_text field.now) }
{
    for byte in field {
        push_shown(text, *byte)?;
    }
    Ok(())
}

// Pushes a byte of a name as it is shown.
fn push_shown(text: &mut Vec<u8>, byte: u8) -> Result<(), AllocError>
    ensures { OnOk result (text.new.items ≡ text.old.items ++ sources.name_byte byte) }
{
    if byte == 0 {
        return Ok(());
    }
    let shown = if (b' '..=b'~').contains(&byte) {
        byte
    } else {
        b'?'
    };
    text.extend_from_slice(&[shown])
}

fn push_cid(text: &mut Vec<u8>, cid: &[u8; 16]) -> Result<(), AllocError>
    ensures { OnOk result (text.new.items
        ≡ text.old.items ++ sources.uuid_text (encode_lower cid.now)) }
{
    let mut digits = [0; 32];
    let _ = hex::encode_to_slice(cid, &mut digits);
    push_parted(text, &digits)
}

fn push_parted(text: &mut Vec<u8>, digits: &[u8; 32]) -> Result<(), AllocError>
    ensures { OnOk result (text.new.items ≡ text.old.items ++ sources.uuid_text digits.now) }
{
    text.extend_from_slice(&digits[0..8])?;
    text.extend_from_slice(b"-")?;
    text.extend_from_slice(&digits[8..12])?;
    text.extend_from_slice(b"-")?;
    text.extend_from_slice(&digits[12..16])?;
    text.extend_from_slice(b"-")?;
    text.extend_from_slice(&digits[16..20])?;
    text.extend_from_slice(b"-")?;
    text.extend_from_slice(&digits[20..32])
}
