use std::io::ErrorKind;

/// Why a socket cannot be had at an address of this machine: the system's reason.
#[derive(Clone, Copy, Debug)]
pub struct OpenFault {
    pub address: [u8; 4],
    pub kind: ErrorKind,
}
