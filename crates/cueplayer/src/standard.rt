use crate::cards::open_network;
use cmd_words::Night;
use remarks::{Failure, JobFault, of_missing};
use std::fs::{File, OpenOptions};
use std::io::ErrorKind;
use std::os::fd::AsFd;
use system_devices::{Messages, Network, TypedInput, open_messages};

/// The descriptors that a live night was started with. Standard error may be closed.
#[derive(Drop)]
pub struct Standard<'a> {
    pub input: TypedInput<'a>,
    pub messages: Messages,
}

impl<'a> Standard<'a> {
    /// # Errors
    ///
    /// `Device` where standard output is closed, or standard input cannot be waited for; `Memory`
    /// if an allocation failed.
    pub fn open(rt: &'a HostRuntime) -> Result<Self, Failure> {
        if let Err(kind) = ask_for(&rt.stdout()) {
            return Err(Failure::of_device("standard output", kind));
        }
        let is_told = ask_for(&rt.stderr()).is_ok();
        let input = TypedInput::open(rt).map_err(|fault| of_missing(fault))?;
        let messages = open_messages(rt, is_told).map_err(|fault| of_missing(fault))?;
        Ok(Standard { input, messages })
    }
}

fn ask_for<F: AsFd>(file: &F) -> Result<(), ErrorKind> {
    let copied = file.as_fd().try_clone_to_owned();
    copied.map_err(|error| error.kind())?;
    Ok(())
}

const NOWHERE: &str = "/dev/null";

/// Files in the place of standard input, output and error where these are closed, so that no socket
/// gets their descriptors. Nothing is read of such an input, and nothing written to such an output.
#[derive(Drop)]
pub struct HeldStandard {
    _input: Option<File>,
    _output: Option<File>,
    _error: Option<File>,
}

impl HeldStandard {
    /// # Errors
    ///
    /// `Device` where one is closed, and nothing can be opened in its place.
    pub fn open(rt: &HostRuntime) -> Result<Self, Failure> {
        // A file gets the lowest descriptor that is free: these are in the order of theirs.
        Ok(HeldStandard {
            _input: hold(rt, &rt.stdin(), true)?,
            _output: hold(rt, &rt.stdout(), false)?,
            _error: hold(rt, &rt.stderr(), false)?,
        })
    }

    /// Opens the sockets of a night while these are held.
    ///
    /// # Errors
    ///
    /// As those of [`open_network`].
    pub fn open_network(&self, rt: &HostRuntime, night: &Night) -> Result<Network, JobFault> {
        open_network(rt, night, false)
    }
}

// An input is held by a file that is only written, and an output by one that is only read.
fn hold<F: AsFd>(rt: &HostRuntime, stream: &F, is_input: bool) -> Result<Option<File>, Failure> {
    if ask_for(stream).is_ok() {
        return Ok(None);
    }
    let mut way = OpenOptions::new();
    match way.read(!is_input).write(is_input).open(rt, NOWHERE) {
        Ok(file) => Ok(Some(file)),
        Err(error) => Err(Failure::of_device(NOWHERE, error.kind())),
    }
}
