ghost use Rattle.std.specs.Prelude.{◌≡◌, ◌==◌, ◌&&◌, None, Some, false, not, true};
ghost use Rattle.std.specs.Prelude.{if◌then◌else◌};

use crate::output::JobOutput;
use crate::source::JobSource;
use devices::memory::{MemoryDatagrams, MemoryOutput};
use devices::{Datagrams, LinkFault, Output};
use std::io::ErrorKind;

/// An output over memory, whose failed calls have this reason.
#[derive(Debug, Drop)]
pub struct MemoryJobOutput {
    pub output: MemoryOutput,
    /// The reason that each failed call has.
    pub kind: ErrorKind,
    /// Nothing was written since it was flushed.
    pub is_handed_on: bool,
}

impl MemoryJobOutput {
    /// An output of which no call was made yet, and which holds all back until it is flushed.
    pub fn new(output: MemoryOutput, kind: ErrorKind) -> Self
        ensures output { result.output ≡ output }
        ensures kind { result.kind ≡ kind }
        ensures handed_on { result.is_handed_on ≡ false }
    {
        MemoryJobOutput {
            output,
            kind,
            is_handed_on: false,
        }
    }
}

impl Output for MemoryJobOutput {
    ghost tells = { λ m. m.output.full ≡ false };

    ghost tape = { λ m. record {
      items = m.output.bytes.items;
      failures = m.output.faults.failed;
    } };

    fn write(&mut self, bytes: &[u8]) -> Result<(), LinkFault> {
        self.is_handed_on = false;
        self.output.write(bytes)
    }
}

impl JobOutput for MemoryJobOutput {
    ghost reason = { λ m. if m.output.faults.failed == 0 then None else Some m.kind };

    ghost is_handed_on = { λ m. m.is_handed_on ≡ true };

    fn failure(&self) -> Option<ErrorKind> {
        if self.output.faults.failed == 0 {
            None
        } else {
            Some(self.kind)
        }
    }

    fn is_empty(&self) -> bool {
        self.output.bytes.is_empty()
    }

    fn flush(&mut self) -> Result<(), LinkFault> {
        self.is_handed_on = true;
        self.output.write(b"")
    }
}

/// A source of datagrams over memory, whose failed calls have this reason.
#[derive(Debug, Drop)]
pub struct MemoryJobSource<'a> {
    pub source: MemoryDatagrams<'a>,
    /// The reason that each failed call has.
    pub kind: ErrorKind,
}

impl<'a> MemoryJobSource<'a> {
    /// A source of which no call was made yet.
    pub fn new(source: MemoryDatagrams<'a>, kind: ErrorKind) -> Self
        ensures source { result.source ≡ source.entry }
        ensures kind { result.kind ≡ kind }
    {
        MemoryJobSource { source, kind }
    }
}

impl Datagrams for MemoryJobSource<'_> {
    ghost use Rattle.std.specs.Prelude.{map, take};

    ghost tells = { λ m. m.source.exhausted ≡ false };

    ghost tape = { λ m. record {
      items = map (λ d. take 1500 d.now) (take m.source.next m.source.datagrams.now);
      failures = m.source.faults.failed;
    } };

    fn receive(&mut self, buf: &mut [u8; 1500]) -> Result<usize, LinkFault> {
        self.source.receive(buf)
    }
}

impl JobSource for MemoryJobSource<'_> {
    ghost reason = { λ m. if m.source.faults.failed == 0 && not m.source.exhausted then None
        else Some m.kind };

    fn failure(&self) -> Option<ErrorKind> {
        if self.source.faults.failed == 0 && !self.source.exhausted {
            None
        } else {
            Some(self.kind)
        }
    }
}
