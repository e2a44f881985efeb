ghost use Rattle.std.specs.Prelude.{◌≡◌};
ghost use Rattle.live_machine.specs.Failure.{words_for};

use std::io::ErrorKind;

/// Why the system did not do what it was asked for, in words.
pub fn reason(kind: ErrorKind) -> &'static str
    ensures { result.now ≡ words_for kind }
{
    match kind {
        ErrorKind::NotFound => "there is no such file",
        ErrorKind::PermissionDenied => "the system does not permit it",
        ErrorKind::IsADirectory => "it is a directory",
        ErrorKind::NotADirectory => "a part of its path is no directory",
        ErrorKind::AddrInUse => "the address and port are in use",
        ErrorKind::AddrNotAvailable => "this machine does not have the address",
        ErrorKind::NetworkUnreachable => "no route leads to that network",
        ErrorKind::HostUnreachable => "the host is not reachable",
        ErrorKind::NetworkDown => "the network is down",
        ErrorKind::ConnectionRefused => "nobody listens there",
        ErrorKind::BrokenPipe => "its reader is gone",
        ErrorKind::StorageFull => "the disk is full",
        ErrorKind::ReadOnlyFilesystem => "the file system is read-only",
        ErrorKind::InvalidInput => "the system does not take it",
        _ => "the system refused",
    }
}
