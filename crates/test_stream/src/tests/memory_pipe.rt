//! A pipe over memory.

ghost use Rattle.std.specs.Prelude.{◌≡◌, ◌+◌, false};

use devices::memory::Faults;
use line_queue::Pipe;
use std::alloc::Global;
use std::io::ErrorKind;

/// It stops telling where memory for the bytes is refused, and where its calls or the milliseconds
/// given to it are more than 2^64 - 1.
#[derive(Drop)]
pub struct MemoryPipe {
    /// What it took.
    pub bytes: Vec<u8>,
    /// How many bytes it takes yet. A reader that frees some adds to them.
    pub room: usize,
    /// How often it was written to.
    pub writes: u64,
    // The most bytes of one write.
    step: usize,
    // The milliseconds that it was given, in all.
    wait: u64,
    // Its last answer was that it takes none.
    is_full: bool,
    // Why the last write failed, if it did.
    fault: Option<ErrorKind>,
    // Memory was refused, or a number is too large: it does not tell any more.
    is_lost: bool,
    // Why writes fail.
    kind: ErrorKind,
    faults: Faults,
}

impl MemoryPipe {
    /// A pipe with room for so many bytes, which takes at most `step` by a write. The first
    /// `passing` writes pass, and the next `failing` ones fail so.
    pub fn new(alloc: Global, room: usize, step: usize, faults: Faults, kind: ErrorKind) -> Self {
        MemoryPipe {
            bytes: Vec::new(alloc),
            room,
            writes: 0,
            step,
            wait: 0,
            is_full: false,
            fault: None,
            is_lost: false,
            kind,
            faults,
        }
    }
}

fn sum(a: u64, b: u64, is_lost: &mut bool) -> u64
    ensures sum { is_lost.new ≡ false → result ≡ a + b }
    ensures lost { is_lost.new ≡ false → is_lost.old ≡ false }
{
    match a.checked_add(b) {
        Some(sum) => sum,
        None => {
            *is_lost = true;
            a
        }
    }
}

impl Pipe for MemoryPipe {
    ghost tells = { λ m. m.is_lost ≡ false };

    ghost tape = { λ m. record {
      taken = m.bytes.items;
      writes = m.writes;
      wait = m.wait;
      is_full = m.is_full;
      fault = m.fault;
    } };

    fn takes_bytes(&mut self, milliseconds: u64) -> bool {
        self.wait = sum(self.wait, milliseconds, &mut self.is_lost);
        self.is_full = self.room == 0;
        self.room > 0
    }

    fn write(&mut self, bytes: &[u8]) -> Result<usize, ErrorKind> {
        self.writes = sum(self.writes, 1, &mut self.is_lost);
        if self.faults.count().is_err() {
            self.fault = Some(self.kind);
            return Err(self.kind);
        }
        let count = bytes.len().min(self.step).min(self.room);
        if self.bytes.extend_from_slice(&bytes[..count]).is_err() {
            self.is_lost = true;
        }
        self.room -= count;
        self.fault = None;
        Ok(count)
    }
}
