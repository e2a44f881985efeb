use crate::bounded_output::{BoundedOutput, Names, open_output};
use crate::fault::DeviceFault;
use line_queue::{LineOutput, Notice};
use std::io::Stderr;

const NAMES: Names = Names {
    output: "standard error",
    pipe: "CUEPLAYER_ERROR_PIPE",
    notice: Notice {
        mark: "",
        lines: "messages",
    },
};

/// What a night tells on standard error, which may be closed.
pub type Messages = BoundedOutput<Stderr>;

/// Opens standard error, unless it is closed.
///
/// # Errors
///
/// As those of [`open_output`].
pub fn open_messages(rt: &HostRuntime, is_open: bool) -> Result<Messages, DeviceFault> {
    if is_open {
        open_output(rt, rt.stderr(), NAMES)
    } else {
        Ok(LineOutput::nowhere())
    }
}
