ghost use Rattle.std.specs.Prelude.{◌≤◌, ℕ, List, Option, IfOk, OnErr, length};
ghost use Rattle.std.specs.Io.KnownBytes.{ReadConsumes};

use std::io::ErrorKind;

/// What a text is read from block by block, as a file.
pub trait BlockSource {
    /// The bytes that it has left, where contracts can see them.
    ghost left: { Self → Option (List ℕ) };

    /// A read of it may fail.
    ghost may_fail: { Self → Type 0 };

    /// Puts the next bytes to the front of the block: how many; none at the end.
    ///
    /// # Errors
    ///
    /// The system's reason.
    fn next_block(&mut self, block: &mut [u8]) -> Result<usize, ErrorKind>
        ensures within { IfOk result (λ count. count ≤ length block.old) }
        ensures bytes { ReadConsumes (left self.old) (left self.new) result block.new }
        ensures fault { OnErr result (may_fail self.old) }
        ensures same { may_fail self.new → may_fail self.old };
}
