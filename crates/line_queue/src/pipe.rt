ghost use Rattle.std.specs.Prelude.{◌≡◌, ◌≤◌, length, take, IfOk, IfErr, [], Some, None};
ghost use Rattle.line_queue.specs.Pipes.{PipeTape, after_question, after_write};

use std::io::ErrorKind;

/// Where the bytes of a queue go: a pipe, a terminal, a socket or a file, which takes some of them.
///
/// A pipe *tells* where contracts can see what it did. One that tells told before each call, too.
pub trait Pipe {
    /// Contracts can see what the pipe did.
    ghost tells: { Self → Type 0 };

    /// What it did so far.
    ghost tape: { Self → PipeTape };

    /// Answers whether the pipe takes bytes. It waits for that for so many milliseconds at most.
    fn takes_bytes(&mut self, milliseconds: u64) -> bool
        ensures told { tells self.new → tells self.old }
        ensures tape { tells self.new
            → tape self.new ≡ after_question (tape self.old) milliseconds result };

    /// Writes the first of these bytes, and answers how many. There are 1 to 256: an output that
    /// can be written takes so many without holding up who writes.
    ///
    /// # Errors
    ///
    /// The system's reason; nothing was written then.
    fn write(&mut self, bytes: &[u8]) -> Result<usize, ErrorKind>
        requires some { 1 ≤ length bytes.now }
        requires few { length bytes.now ≤ 256 }
        ensures told { tells self.new → tells self.old }
        ensures within { IfOk result (λ count. count ≤ length bytes.now) }
        ensures ok { IfOk result (λ count. tells self.new
            → tape self.new ≡ after_write (tape self.old) (take count bytes.now) None) }
        ensures err { IfErr result (λ kind. tells self.new
            → tape self.new ≡ after_write (tape self.old) [] (Some kind)) };
}
