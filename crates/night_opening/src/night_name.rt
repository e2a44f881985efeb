ghost use Rattle.std.specs.Prelude.{◌≡◌, ℕ, List, Option, IfOk, option_map};
ghost use Rattle.cmd_words.specs.Source.{name_on};
ghost use Rattle.night_opening.specs.LiveNames.{IsNameBy, IsRecordedName};
ghost use Rattle.std.specs.Str.{IsUtf8};

use cmd_words::{Name, name_on};
use night_record::{FirstLines, HeadName, RecordHead};
use std::alloc::{AllocError, Global};
use std::str;

/// The name of who sends in a live night, where none was given: that of the night that goes on, by
/// the first two lines of its record where they came, so that another machine can take it up; else
/// the program's and that of this machine.
///
/// # Errors
///
/// If an allocation failed.
pub fn live_name(
    alloc: Global,
    lines: &Option<FirstLines>,
    machine: &[u8],
) -> Result<Name, AllocError>
    ensures { IfOk result (λ name. (recorded : Option (List ℕ))
        × IsRecordedName (option_map (λ lines. lines.items) lines.now) recorded
        × IsNameBy recorded machine.now name) }
{
    let recorded = recorded_name(lines);
    name_by(alloc, &recorded, machine)
}

fn name_by(alloc: Global, recorded: &Option<HeadName>, machine: &[u8]) -> Result<Name, AllocError>
    ensures { IfOk result (λ name. IsNameBy recorded.now machine.now name) }
{
    if let Some(name) = recorded
        && let Ok(name) = str::from_utf8(name.as_bytes())
    {
        return Name::new(alloc, name);
    }
    machine_name(alloc, machine)
}

fn machine_name(alloc: Global, machine: &[u8]) -> Result<Name, AllocError>
    ensures { IfOk result (λ name. name ≡ name_on machine.now) }
{
    let name = name_on(alloc, machine)?;
    Name::new(alloc, text_of(name.as_slice()))
}

// These bytes, where they are text.
fn text_of(bytes: &[u8]) -> &str
    ensures { IsUtf8 bytes.now → result.now ≡ bytes.now }
{
    match str::from_utf8(bytes) {
        Ok(text) => text,
        Err(_) => "",
    }
}

// The name in the head that these lines are: whether it suits the night is looked at later.
fn recorded_name(lines: &Option<FirstLines>) -> Option<HeadName>
    ensures { IsRecordedName (option_map (λ lines. lines.items) lines.now) result }
{
    match lines {
        Some(lines) => Some(RecordHead::read(lines.as_slice())?.name),
        None => None,
    }
}
