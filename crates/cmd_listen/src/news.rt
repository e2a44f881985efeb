ghost use Rattle.std.specs.Prelude.{◌≡◌, ◌++◌, OnOk, flat_map};
ghost use Rattle.cmd_listen.specs.Sources as spec;

use crate::source::Source;
use crate::sources::{has, has_alike, is_leading, packets_missed, was_leading};
use crate::text::{Head, push_told};
use itoa::Buffer;
use std::alloc::AllocError;

// Pushes all that is told of the sources before and after: with a word those that left.
pub fn push_changes(
    text: &mut Vec<u8>,
    head: Head,
    word: &[u8],
    before: &[Source],
    after: &[Source],
) -> Result<(), AllocError>
    ensures { OnOk result (text.new.items
        ≡ text.old.items ++ spec.changes head word.now before.now after.now) }
{
    push_left(text, head, word, before, after)?;
    push_news(text, head, before, after)
}

fn push_left(
    text: &mut Vec<u8>,
    head: Head,
    word: &[u8],
    before: &[Source],
    after: &[Source],
) -> Result<(), AllocError>
    ensures { OnOk result (text.new.items
        ≡ text.old.items ++ flat_map (spec.left_line head word.now after.now) before.now) }
{
    for source in before {
        push_left_line(text, head, word, after, source)?;
    }
    Ok(())
}

fn push_news(
    text: &mut Vec<u8>,
    head: Head,
    before: &[Source],
    after: &[Source],
) -> Result<(), AllocError>
    ensures { OnOk result (text.new.items
        ≡ text.old.items ++ flat_map (spec.news head before.now after.now) after.now) }
{
    for source in after {
        push_news_of(text, head, before, after, source)?;
    }
    Ok(())
}

// Pushes the lines of a source that is there after.
fn push_news_of(
    text: &mut Vec<u8>,
    head: Head,
    before: &[Source],
    after: &[Source],
    source: &Source,
) -> Result<(), AllocError>
    ensures { OnOk result (text.new.items
        ≡ text.old.items ++ spec.news head before.now after.now source.now) }
{
    push_source_line(text, head, before, source)?;
    push_lost_line(text, head, before, source)?;
    push_lead_line(text, head, before, after, source)
}

fn push_left_line(
    text: &mut Vec<u8>,
    head: Head,
    word: &[u8],
    after: &[Source],
    source: &Source,
) -> Result<(), AllocError>
    ensures { OnOk result (text.new.items
        ≡ text.old.items ++ spec.left_line head word.now after.now source.now) }
{
    if has(after, &source.cid) {
        return Ok(());
    }
    push_told(text, head, word, source)?;
    text.extend_from_slice(b"\n")
}

fn push_source_line(
    text: &mut Vec<u8>,
    head: Head,
    before: &[Source],
    source: &Source,
) -> Result<(), AllocError>
    ensures { OnOk result (text.new.items
        ≡ text.old.items ++ spec.source_line head before.now source.now) }
{
    if has_alike(before, source) {
        return Ok(());
    }
    push_told(text, head, b"source", source)?;
    text.extend_from_slice(b" priority ")?;
    text.extend_from_slice(Buffer::new().format(source.priority).as_bytes())?;
    text.extend_from_slice(b"\n")
}

fn push_lost_line(
    text: &mut Vec<u8>,
    head: Head,
    before: &[Source],
    source: &Source,
) -> Result<(), AllocError>
    ensures { OnOk result (text.new.items
        ≡ text.old.items ++ spec.lost_line head before.now source.now) }
{
    let missed = packets_missed(before, source);
    if missed == 0 {
        return Ok(());
    }
    push_told(text, head, b"lost", source)?;
    text.extend_from_slice(b" ")?;
    text.extend_from_slice(Buffer::new().format(missed).as_bytes())?;
    text.extend_from_slice(b"\n")
}

fn push_lead_line(
    text: &mut Vec<u8>,
    head: Head,
    before: &[Source],
    after: &[Source],
    source: &Source,
) -> Result<(), AllocError>
    ensures { OnOk result (text.new.items
        ≡ text.old.items ++ spec.lead_line head before.now after.now source.now) }
{
    if !is_leading(after, source) || was_leading(before, source) {
        return Ok(());
    }
    push_told(text, head, b"leads", source)?;
    text.extend_from_slice(b"\n")
}
