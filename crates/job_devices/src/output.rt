ghost use Rattle.std.specs.Prelude.{◌≡◌, ◌==◌, is_none, length, OnOk, OnErr, Option};
ghost use Rattle.std.specs.declared.io.ErrorKind.{ErrorKind as KindOf};
ghost use Rattle.devices.specs.Tape.{with_failure};

use devices::{LinkFault, Output};
use std::io::ErrorKind;

/// Standard output, as a job prints to it. It may hold bytes back, and knows why the system refused
/// some.
pub trait JobOutput: Output {
    /// The system's reason where a call failed: that of the last.
    ghost reason: { Self → Option KindOf };

    /// It holds nothing back of what it took.
    ghost is_handed_on: { Self → Type 0 };

    /// The system's reason where a call failed: that of the last. There is one exactly where a call
    /// failed.
    fn failure(&self) -> Option<ErrorKind>
        ensures reason { result ≡ reason self.now }
        ensures none { Self.tells self.now
            → is_none result ≡ ((Self.tape self.now).failures == 0) };

    /// Whether it took no byte so far.
    fn is_empty(&self) -> bool
        ensures { Self.tells self.now → result ≡ (length (Self.tape self.now).items == 0) };

    /// Hands on what it holds back.
    fn flush(&mut self) -> Result<(), LinkFault>
        ensures told { Self.tells self.new → Self.tells self.old }
        ensures handed_on { OnOk result (Self.tells self.new → is_handed_on self.new) }
        ensures ok { OnOk result (Self.tells self.new
            → Self.tape self.new ≡ Self.tape self.old) }
        ensures err { OnErr result (Self.tells self.new → Self.tape self.new ≡ with_failure
            (Self.tape self.old)) };
}
