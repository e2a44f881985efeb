ghost use Rattle.std.specs.Prelude.{◌≡◌, ◌≤◌, IfOk, IfSome, length, take};
ghost use Rattle.std.specs.Io.KnownBytes.{Consumes, ReadConsumes};

use std::alloc::{AllocError, Global};
use std::io::{ErrorKind, Read};

const BLOCK: usize = 65536;

/// Why bytes are not read whole.
#[derive(Clone, Copy, Debug)]
pub enum Unread {
    /// A read failed, for the system's reason.
    Device(ErrorKind),
    /// An allocation failed.
    Memory,
}

impl From<ErrorKind> for Unread {
    fn from(kind: ErrorKind) -> Unread {
        Unread::Device(kind)
    }
}

impl From<AllocError> for Unread {
    fn from(_error: AllocError) -> Unread {
        Unread::Memory
    }
}

/// The first bytes of a reader, at most so many. The reader has those behind them still.
///
/// # Errors
///
/// `Device` where a read fails; `Memory` if an allocation failed.
pub fn first_bytes<R: Read>(alloc: Global, reader: &mut R, most: usize) -> Result<Vec<u8>, Unread>
    ensures most { IfOk result (λ bytes. length bytes.items ≤ most) }
    ensures first { IfOk result (λ bytes. IfSome (R.remaining reader.old)
        (λ left. bytes.items ≡ take most left)) }
    ensures rest { IfOk result (λ bytes.
        Consumes (R.remaining reader.old) (R.remaining reader.new) bytes.items) }
{
    let mut bytes = Vec::new(alloc);
    let mut block = [0u8; BLOCK];
    while bytes.len() < most {
        let room = BLOCK.min(most - bytes.len());
        let count = read_some(reader, &mut block[..room])?;
        if count == 0 {
            break;
        }
        bytes.extend_from_slice(&block[..count])?;
    }
    Ok(bytes)
}

/// The next bytes of a reader, put to the front of the block; none at its end. A read that a signal
/// interrupted is made again.
///
/// # Errors
///
/// The system's reason where a read fails.
pub fn read_some<R: Read>(reader: &mut R, block: &mut [u8]) -> Result<usize, ErrorKind>
    ensures within { IfOk result (λ count. count ≤ length block.old) }
    ensures bytes { ReadConsumes (R.remaining reader.old) (R.remaining reader.new) result
        block.new }
{
    for _ in 0..u64::MAX {
        match reader.read(block) {
            Ok(count) => return Ok(count),
            Err(error) if error.kind() == ErrorKind::Interrupted => {}
            Err(error) => return Err(error.kind()),
        }
    }
    Err(ErrorKind::Interrupted)
}
