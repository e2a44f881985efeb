use crate::way::kind_of;
use mio::unix::SourceFd;
use mio::{Events, Interest, Poll, Token};
use std::io::{Error, ErrorKind, Result as IoResult};
use std::os::fd::RawFd;
use std::time::Duration;

const DESCRIPTOR: Token = Token(0);

/// Whether an open descriptor can be read, or written, without waiting.
#[derive(Drop)]
pub struct DescriptorPoll {
    poll: Poll,
    events: Events,
    descriptor: RawFd,
    interest: Interest,
    readiness: Readiness,
}

// Whether the system has to be asked if a descriptor is ready.
#[derive(Clone, Copy, PartialEq, Eq)]
enum Readiness {
    // A pipe, a terminal or a socket.
    Polled,
    // A file, or the null device, about which the system has no reports.
    Always,
    // It ended.
    Never,
}

impl DescriptorPoll {
    /// Opens the poll of an open descriptor.
    ///
    /// # Errors
    ///
    /// The system's, where the descriptor is closed or cannot be waited for; `OutOfMemory` if an
    /// allocation failed.
    pub fn open(rt: &HostRuntime, descriptor: RawFd, interest: Interest) -> IoResult<Self> {
        let poll = Poll::new(rt)?;
        let Ok(events) = Events::with_capacity(rt.alloc(), 1) else {
            return Err(Error::from(ErrorKind::OutOfMemory));
        };
        let mut source = SourceFd(&descriptor);
        let answer = poll.registry().register(&mut source, DESCRIPTOR, interest);
        let readiness = match answer {
            Ok(()) => Readiness::Polled,
            Err(error) if error.kind() == ErrorKind::PermissionDenied => Readiness::Always,
            Err(error) => return Err(error),
        };
        Ok(DescriptorPoll {
            poll,
            events,
            descriptor,
            interest,
            readiness,
        })
    }

    /// Returns whether it is ready, or becomes so within so many milliseconds. One that ended is
    /// waited for in vain.
    ///
    /// # Errors
    ///
    /// The system's, where it cannot be waited for.
    pub fn is_ready(&mut self, milliseconds: u64) -> Result<bool, ErrorKind> {
        match self.readiness {
            Readiness::Always => return Ok(true),
            Readiness::Never => {}
            Readiness::Polled => self.ask_again()?,
        }
        let most = Duration::from_millis(milliseconds);
        let answer = self.poll.poll(&mut self.events, Some(most));
        answer.map_err(kind_of)?;
        Ok(!self.events.is_empty())
    }

    // Asks for reports anew: so bytes and room that a call left behind are reported too.
    fn ask_again(&mut self) -> Result<(), ErrorKind> {
        let mut source = SourceFd(&self.descriptor);
        let registry = self.poll.registry();
        let answer = registry.reregister(&mut source, DESCRIPTOR, self.interest);
        answer.map_err(kind_of)
    }

    /// Takes up that it ended.
    pub fn end(&mut self) {
        if self.readiness == Readiness::Polled {
            let mut source = SourceFd(&self.descriptor);
            let _ = self.poll.registry().deregister(&mut source);
        }
        self.readiness = Readiness::Never;
    }
}
