ghost use Rattle.std.specs.Prelude.{◌≤◌};

use crate::block_source::BlockSource;
use std::io::ErrorKind;

const ROOM: usize = 4096;

// The bytes of a text that were read, and not given yet.
#[derive(Drop)]
pub struct Ahead {
    block: [u8; ROOM],
    // So many bytes of the block came,
    came: usize,
    // and so many of these were given.
    given: usize,
    ghost ordered: { given ≤ came },
    ghost within: { came ≤ 4096 },
}

impl Ahead {
    ghost use Rattle.std.specs.Prelude.{◌≡◌, [], ◌∷◌, IfNone, IfSome, OnErr, OnOk};
    ghost use Rattle.std.specs.Io.KnownBytes.{IsAtEnd, Keeps, prepend_known};
    ghost use Rattle.byte_reading.specs.LinesLeft.{ahead_bytes};

    pub(crate) fn new() -> Self
        ensures { ahead_bytes result ≡ [] }
    {
        Ahead {
            block: [0; ROOM],
            came: 0,
            given: 0,
        }
    }

    // Reads the next block, once all bytes of the last one are given.
    pub(crate) fn fill<B: BlockSource>(&mut self, blocks: &mut B) -> Result<(), ErrorKind>
        ensures bytes { OnOk result (Keeps
            (prepend_known (ahead_bytes self.old) (B.left blocks.old))
            (prepend_known (ahead_bytes self.new) (B.left blocks.new))) }
        ensures end { OnOk result (ahead_bytes self.new ≡ [] → IsAtEnd (B.left blocks.new)) }
        ensures fault { OnErr result (B.may_fail blocks.old) }
        ensures same { B.may_fail blocks.new → B.may_fail blocks.old }
    {
        if self.given < self.came {
            return Ok(());
        }
        self.given = 0;
        self.came = 0;
        self.came = blocks.next_block(&mut self.block)?;
        Ok(())
    }

    pub(crate) fn take_byte(&mut self) -> Option<u8>
        ensures some { IfSome result
            (λ byte. ahead_bytes self.old ≡ byte ∷ ahead_bytes self.new) }
        ensures none { IfNone result (ahead_bytes self.old ≡ []) }
        ensures rest { IfNone result (ahead_bytes self.new ≡ []) }
    {
        if self.given >= self.came {
            return None;
        }
        let byte = self.block[self.given];
        self.given += 1;
        Some(byte)
    }
}
