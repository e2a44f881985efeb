use crate::way::kind_of;
use devices::{LinkFault, Output};
use job_devices::JobOutput;
use std::io::{ErrorKind, Write};

/// An output of the system: a file, a pipe or a terminal. It does not tell what it took.
#[derive(Drop)]
pub struct SystemOutput<W> {
    inner: W,
    // The system's reason for the last failure, if there was one.
    failure: Option<ErrorKind>,
    // It was handed no byte.
    is_empty: bool,
}

impl<W: Write> SystemOutput<W> {
    pub fn new(inner: W) -> Self {
        SystemOutput {
            inner,
            failure: None,
            is_empty: true,
        }
    }

    fn take_up(&mut self, answer: Result<(), ErrorKind>) -> Result<(), LinkFault> {
        match answer {
            Ok(()) => Ok(()),
            Err(reason) => {
                self.failure = Some(reason);
                Err(LinkFault)
            }
        }
    }
}

impl<W: Write> Output for SystemOutput<W> {
    fn write(&mut self, bytes: &[u8]) -> Result<(), LinkFault> {
        self.is_empty &= bytes.is_empty();
        let answer = self.inner.write_all(bytes).map_err(kind_of);
        self.take_up(answer)
    }
}

impl<W: Write> JobOutput for SystemOutput<W> {
    ghost reason = { λ out. out.failure };

    ghost is_handed_on = { λ _. ⊥ };

    fn failure(&self) -> Option<ErrorKind> {
        self.failure
    }

    fn is_empty(&self) -> bool {
        self.is_empty
    }

    fn flush(&mut self) -> Result<(), LinkFault> {
        let answer = self.inner.flush().map_err(kind_of);
        self.take_up(answer)
    }
}
