//! A link over memory that fails at the send of a given number. It gives the trait's one call and
//! no more, so it never tells.

use sacn_source::{Link, LinkFault};
use std::alloc::Global;

/// One send that a link was offered.
#[derive(Debug, Drop)]
pub struct Sent {
    pub universe: u16,
    pub bytes: Vec<u8>,
    pub failed: bool,
}

impl Sent {
    /// The byte at an offset.
    pub fn at(&self, offset: usize) -> Option<u8> {
        self.bytes.get(offset).copied()
    }
}

/// A link over memory.
#[derive(Debug, Drop)]
pub struct TestLink {
    alloc: Global,
    pub sends: Vec<Sent>,
    // So many sends pass before one fails; none fails where there is no number.
    passing: Option<u32>,
}

impl TestLink {
    /// A link of which no send fails.
    pub fn new(alloc: Global) -> TestLink {
        TestLink {
            alloc,
            sends: Vec::new(alloc),
            passing: None,
        }
    }

    /// A link of which the send of this number, counted from 0, fails alone.
    pub fn failing(alloc: Global, number: u32) -> TestLink {
        TestLink {
            alloc,
            sends: Vec::new(alloc),
            passing: Some(number),
        }
    }

    /// Slot 1 of the packet of this number.
    pub fn slot(&self, number: usize) -> Option<u8> {
        self.sends.get(number)?.at(126)
    }

    /// The universe, sequence number and options of the packet of this number, and whether its
    /// send failed.
    pub fn packet(&self, number: usize) -> Option<(u16, u8, u8, bool)> {
        let sent = self.sends.get(number)?;
        Some((sent.universe, sent.at(111)?, sent.at(112)?, sent.failed))
    }

    fn keep(&mut self, universe: u16, bytes: &[u8], failed: bool) {
        if let Ok(bytes) = Vec::from_slice(self.alloc, bytes) {
            let _kept = self.sends.push(Sent {
                universe,
                bytes,
                failed,
            });
        }
    }
}

impl Link for TestLink {
    fn send(&mut self, universe: u16, bytes: &[u8]) -> Result<(), LinkFault> {
        let failed = self.passing == Some(0);
        self.keep(universe, bytes, failed);
        match self.passing {
            Some(0) => {
                self.passing = None;
                Err(LinkFault)
            }
            Some(left) => {
                self.passing = Some(left - 1);
                Ok(())
            }
            None => Ok(()),
        }
    }
}
