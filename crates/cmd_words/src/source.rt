ghost use Rattle.std.specs.Prelude.{◌≡◌, ◌≤◌, IfOk, filter, length, take};
ghost use Rattle.cmd_words.specs.Source.{behind_program, is_graphic, name_on, source_name};

use crate::job::Night;
use arrayvec::ArrayVec;
use std::alloc::{AllocError, Global};

/// The name of who sends, for people to read.
pub fn source_name(night: &Night) -> &str
    ensures { result.now ≡ source_name night.now.name }
{
    match &night.name {
        Some(name) => name.as_str(),
        None => "cueplayer",
    }
}

/// The name of who sends on the machine of this name, where none was given: so the two consoles of
/// a night are told apart. It is printable ASCII.
///
/// # Errors
///
/// If an allocation failed.
pub fn name_on(alloc: Global, machine: &[u8]) -> Result<ArrayVec<u8, 63>, AllocError>
    ensures { IfOk result (λ name. name.items ≡ name_on machine.now) }
{
    let seen = graphic(alloc, machine)?;
    Ok(behind_program(front(seen.as_slice())))
}

// What is seen of a machine's name.
fn graphic(alloc: Global, machine: &[u8]) -> Result<Vec<u8>, AllocError>
    ensures { IfOk result (λ seen. seen.items ≡ filter is_graphic machine.now) }
{
    machine
        .iter()
        .copied()
        .filter(|byte| is_graphic(*byte))
        .collect(alloc)
}

// As much of it as there is room for.
fn front(seen: &[u8]) -> &[u8]
    ensures front { result.now ≡ take 53 seen.now }
    ensures room { length result.now ≤ 53 }
{
    if seen.len() <= 53 {
        return seen;
    }
    let (front, _) = seen.split_at(53);
    front
}

fn is_graphic(byte: u8) -> bool
    ensures { result ≡ is_graphic byte }
{
    matches!(byte, b'!'..=b'~')
}

fn behind_program(machine: &[u8]) -> ArrayVec<u8, 63>
    requires { length machine.now ≤ 53 }
    ensures { result.items ≡ behind_program machine.now }
{
    let mut name = ArrayVec::new();
    let _ = name.try_extend_from_slice(b"cueplayer");
    if !machine.is_empty() {
        let _ = name.try_push(b' ');
        let _ = name.try_extend_from_slice(machine);
    }
    name
}
