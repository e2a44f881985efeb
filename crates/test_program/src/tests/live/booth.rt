ghost use Rattle.cmd_live.specs.Booth.{HeardFits};

use cmd_live::{Booth, Heard};
use devices::memory::Faults;
use devices::{Link, LinkFault};
use live_input::Reason;
use std::alloc::Global;

// Milliseconds from one tick to the next.
const TICK: u64 = 25;

// What comes to the input of a night, at its moment.
#[derive(Clone, Copy)]
pub enum Coming<'a> {
    Typed(u64, &'a [u8]),
    Closed(u64, bool),
}

impl Coming<'_> {
    fn moment(&self) -> u64 {
        match self {
            Coming::Typed(moment, _) => *moment,
            Coming::Closed(moment, _) => *moment,
        }
    }

    // Of what is typed, as much as the block takes.
    fn hear(&self, block: &mut [u8; 4096]) -> Heard
        ensures { HeardFits result }
    {
        match self {
            Coming::Typed(_, bytes) => {
                let count = bytes.len().min(block.len());
                block[..count].copy_from_slice(&bytes[..count]);
                Heard::Bytes(count)
            }
            Coming::Closed(_, ends) => Heard::End(*ends),
        }
    }
}

// Which calls of a booth fail.
#[derive(Clone, Copy)]
pub struct BoothFaults {
    pub moment: Faults,
    pub wait: Faults,
    pub keep: Faults,
    pub show: Faults,
}

// A booth over memory. Its clock stands still but while it waits, and at the first looks at it.
#[derive(Drop)]
pub struct MemoryBooth<'a> {
    now: u64,
    // Behind so many looks a tick's time is over.
    pub late_looks: u64,
    coming: &'a [Coming<'a>],
    next: usize,
    pub faults: BoothFaults,
    // Lines that were recorded.
    pub lines: u64,
    // Whether they are kept, and not counted alone.
    pub keeps: bool,
    pub kept: Vec<u8>,
    pub shown: Vec<u8>,
    // What was told of typed lines, a line each.
    pub told: Vec<u8>,
    // Memory was refused: something is missing.
    pub full: bool,
}

impl<'a> MemoryBooth<'a> {
    pub fn new(alloc: Global, coming: &'a [Coming<'a>], faults: BoothFaults) -> Self {
        MemoryBooth {
            now: 0,
            late_looks: 0,
            coming,
            next: 0,
            faults,
            lines: 0,
            keeps: true,
            kept: Vec::new(alloc),
            shown: Vec::new(alloc),
            told: Vec::new(alloc),
            full: false,
        }
    }

    fn tell(&mut self, text: &[u8]) {
        self.full |= self.told.extend_from_slice(text).is_err();
    }

    fn go_to(&mut self, moment: u64) {
        self.now = self.now.max(moment);
    }
}

impl Booth for MemoryBooth<'_> {
    ghost use Rattle.std.specs.Prelude.{[]};

    ghost tells = { λ _. ⊥ };

    ghost state = { λ _. record {
      begun = [];
      happened = [];
      kept = record { items = []; failures = 0 };
      shown = record { items = []; failures = 0 };
      told = [];
      waited = [];
      faults = 0;
      deeds = [];
    } };

    fn begin(&mut self, moment: u64) {
        self.now = moment;
    }

    fn moment(&mut self) -> Result<u64, LinkFault> {
        self.faults.moment.count()?;
        let moment = self.now;
        if self.late_looks > 0 {
            self.late_looks -= 1;
            self.now = self.now.wrapping_add(TICK);
        }
        Ok(moment)
    }

    fn wait(&mut self, _moment: u64, due: u64, block: &mut [u8; 4096]) -> Result<Heard, LinkFault> {
        self.faults.wait.count()?;
        match self.coming.get(self.next) {
            Some(coming) if coming.moment() <= due => {
                self.next = self.next.wrapping_add(1);
                self.go_to(coming.moment());
                Ok(coming.hear(block))
            }
            _ => {
                self.go_to(due);
                Ok(Heard::Nothing)
            }
        }
    }

    fn keep<L: Link>(&mut self, line: &[u8], _link: &L) -> Result<(), LinkFault> {
        self.faults.keep.count()?;
        self.lines = self.lines.wrapping_add(1);
        if self.keeps {
            self.full |= self.kept.extend_from_slice(line).is_err();
        }
        Ok(())
    }

    fn show<L: Link>(&mut self, line: &[u8], _link: &L) -> Result<(), LinkFault> {
        self.faults.show.count()?;
        self.full |= self.shown.extend_from_slice(line).is_err();
        Ok(())
    }

    fn refuse(&mut self, text: &[u8], why: Reason) {
        self.tell(text);
        self.tell(b": ");
        self.tell(why.text().as_bytes());
        self.tell(b"\n");
    }

    fn ignore_keys(&mut self) {
        self.tell(b"keys\n");
    }
}
