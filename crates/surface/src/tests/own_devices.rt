//! An output, an input and a source of datagrams over memory, each of which fails at the call of a
//! given number. Each gives its trait's one call and no more, so it never tells.

use devices::{Datagrams, Feed, Output};
use sacn_source::LinkFault;
use std::alloc::Global;

/// Which call fails: so many pass before it. None fails where there is no number.
#[derive(Clone, Copy)]
pub struct Failing(pub Option<u32>);

impl Failing {
    fn count(&mut self) -> Result<(), LinkFault> {
        match self.0 {
            Some(0) => {
                self.0 = None;
                Err(LinkFault)
            }
            Some(left) => {
                self.0 = Some(left - 1);
                Ok(())
            }
            None => Ok(()),
        }
    }
}

/// An output over memory.
#[derive(Drop)]
pub struct TestOutput {
    pub text: Vec<u8>,
    /// How many writes passed.
    pub writes: u32,
    failing: Failing,
}

impl TestOutput {
    pub fn new(alloc: Global, failing: Failing) -> TestOutput {
        TestOutput {
            text: Vec::new(alloc),
            writes: 0,
            failing,
        }
    }

    /// Whether it took this and no more.
    pub fn has(&self, text: &[u8]) -> bool {
        self.text.as_slice() == text
    }
}

impl Output for TestOutput {
    fn write(&mut self, bytes: &[u8]) -> Result<(), LinkFault> {
        self.failing.count()?;
        self.writes = self.writes.saturating_add(1);
        match self.text.extend_from_slice(bytes) {
            Ok(()) => Ok(()),
            Err(_) => Err(LinkFault),
        }
    }
}

/// An input over memory, so many bytes by a call.
#[derive(Drop)]
pub struct TestFeed<'a> {
    rest: &'a [u8],
    step: usize,
    failing: Failing,
}

impl<'a> TestFeed<'a> {
    pub fn new(bytes: &'a [u8], step: usize, failing: Failing) -> TestFeed<'a> {
        TestFeed {
            rest: bytes,
            step,
            failing,
        }
    }
}

impl Feed for TestFeed<'_> {
    fn read(&mut self, buf: &mut [u8; 4096]) -> Result<usize, LinkFault> {
        self.failing.count()?;
        let count = self.rest.len().min(self.step).min(4096);
        buf[..count].copy_from_slice(&self.rest[..count]);
        self.rest = &self.rest[count..];
        Ok(count)
    }
}

/// An input of LF bytes without end.
#[derive(Drop)]
pub struct Endless;

impl Feed for Endless {
    fn read(&mut self, buf: &mut [u8; 4096]) -> Result<usize, LinkFault> {
        *buf = [b'\n'; 4096];
        Ok(4096)
    }
}

/// Datagrams over memory. Behind the last one each call fails.
#[derive(Drop)]
pub struct TestSource<'a> {
    datagrams: &'a [&'a [u8]],
    // How many of them were received.
    received: usize,
    failing: Failing,
}

impl<'a> TestSource<'a> {
    pub fn new(datagrams: &'a [&'a [u8]], failing: Failing) -> TestSource<'a> {
        TestSource {
            datagrams,
            received: 0,
            failing,
        }
    }
}

impl Datagrams for TestSource<'_> {
    fn receive(&mut self, buf: &mut [u8; 1500]) -> Result<usize, LinkFault> {
        self.failing.count()?;
        let Some(datagram) = self.datagrams.get(self.received) else {
            return Err(LinkFault);
        };
        let count = datagram.len().min(1500);
        buf[..count].copy_from_slice(&datagram[..count]);
        self.received = self.received.saturating_add(1);
        Ok(count)
    }
}
