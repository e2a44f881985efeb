ghost use Rattle.std.specs.Prelude.{◌≡◌, IfOk};
ghost use Rattle.hex.specs.Hex.{decode_of};
ghost use Rattle.cmd_listen.specs.Reading.{at_bytes, spelled_in};
ghost use Rattle.cmd_listen.specs.Spelled.{spelled_of};

use ascii_text::{Words, moment};
use hex::FromHexError;
use std::alloc::{AllocError, Global};

/// What a line spells.
#[derive(Debug, Drop)]
pub enum Line {
    /// Nothing: the line has no words.
    Blank,
    /// No form of a line fits the words.
    Malformed,
    /// A moment, and the datagram that came then: none where it is empty.
    At(u64, Vec<u8>),
}

// Reads a line without its LF. A `!` cuts the line.
pub fn read_line(alloc: Global, line: &[u8]) -> Result<Line, AllocError>
    ensures { IfOk result (λ read. spelled_of read ≡ spelled_in line.now) }
{
    let mut words = Words::new(line);
    let Some(first) = words.next() else {
        return Ok(Line::Blank);
    };
    let Some(moment) = moment(first) else {
        return Ok(Line::Malformed);
    };
    let Some(digits) = words.next() else {
        return Ok(Line::At(moment, Vec::new(alloc)));
    };
    if words.next().is_some() {
        return Ok(Line::Malformed);
    }
    read_datagram(alloc, moment, digits)
}

fn read_datagram(alloc: Global, moment: u64, digits: &[u8]) -> Result<Line, AllocError>
    ensures { IfOk result (λ read. spelled_of read ≡ at_bytes moment (decode_of digits.now)) }
{
    match hex::decode(alloc, digits) {
        Ok(datagram) => Ok(Line::At(moment, datagram)),
        Err(FromHexError::OutOfMemory) => Err(AllocError),
        Err(_) => Ok(Line::Malformed),
    }
}
