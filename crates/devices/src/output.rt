ghost use Rattle.std.specs.Prelude.{◌≡◌, ℕ, [], OnOk, OnErr};
ghost use Rattle.devices.specs.Tape.{Tape, with_more, with_failure};

use thiserror::Error;

/// A call of a device failed: a file, a pipe, a terminal or a socket did not do what was asked.
/// Its name is of the link to the network; the other devices share it.
#[derive(Clone, Copy, Debug, PartialEq, Eq, Error)]
#[error("a device failed")]
pub struct LinkFault;

/// Where bytes are written.
///
/// A device *tells* where contracts can see what it took. A device that tells after a call told
/// before it, so one that stops telling never begins again. A device outside the program, as a
/// file or a socket, never tells, which is what an implementation says that says nothing; a device over memory tells as long as it keeps all that it took
/// ([`memory`](crate::memory)). What a clause says of a device is said where it tells at the end
/// of the call.
pub trait Output {
    /// Contracts can see what the device did.
    ghost tells: { Self → Type 0 } = { λ _. ⊥ };

    /// The bytes that the device took. A failed call adds none.
    ghost tape: { Self → Tape ℕ } = { λ _. record { items = []; failures = 0 } };

    /// Writes all of the bytes. At a fault it is not known outside how many of them went out.
    fn write(&mut self, bytes: &[u8]) -> Result<(), LinkFault>
        ensures told { tells self.new → tells self.old }
        ensures ok { OnOk result (tells self.new
            → tape self.new ≡ with_more (tape self.old) bytes.now) }
        ensures err { OnErr result (tells self.new → tape self.new ≡ with_failure
            (tape self.old)) };
}
