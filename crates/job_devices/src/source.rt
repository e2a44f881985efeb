ghost use Rattle.std.specs.Prelude.{◌≡◌, ◌==◌, is_none, Option};
ghost use Rattle.std.specs.declared.io.ErrorKind.{ErrorKind as KindOf};

use devices::Datagrams;
use std::io::ErrorKind;

/// A socket, as a job receives by it. It knows why the system gave nothing.
pub trait JobSource: Datagrams {
    /// The system's reason where a call failed: that of the last.
    ghost reason: { Self → Option KindOf };

    /// The system's reason where a call failed: that of the last. There is one exactly where a call
    /// failed.
    fn failure(&self) -> Option<ErrorKind>
        ensures reason { result ≡ reason self.now }
        ensures none { Self.tells self.now
            → is_none result ≡ ((Self.tape self.now).failures == 0) };
}
