ghost use Rattle.std.specs.Prelude.{◌≡◌, ◌+◌, ◌<◌, All, IfErr, IfOk, OnOk, length};
ghost use Rattle.std.specs.Prelude.{false};
ghost use Rattle.cmd_rehearse.specs.Script.{parts, no_parts, with_said, said_below, script_of};
ghost use Rattle.cmd_rehearse.specs.Script.{with_event, ExplainsScript, ExplainsLine, EventFits};
ghost use Rattle.cmd_rehearse.specs.Said.{is_of_no_form, is_nothing, stray_size};

use crate::said::{Said, read_line};
use ascii_text::{Line, Lines};
use std::alloc::{AllocError, Global};
use thiserror::Error;
use wire_world::{Happening, Occurrence, Setup};

/// A script: what a rehearsal is given.
#[derive(Debug, Drop)]
pub struct Script {
    /// The consoles, in their order.
    pub consoles: Vec<Setup>,
    /// The universe of each receiver, 1 to 63999, in their order.
    pub receivers: Vec<u16>,
    /// The events, in their order.
    pub events: Vec<Happening>,
    /// The bytes of all strays; each stray names its range of them.
    pub strays: Vec<u8>,
    /// Of each event the number of its line, counted from 1.
    pub lines: Vec<u32>,
}

/// Why a text gives no script.
#[derive(Clone, Copy, Debug, PartialEq, Eq, Error)]
pub enum ScriptFault {
    /// The line of this number, counted from 1, is malformed, and none above it.
    #[error("line {0} is malformed")]
    Line(u32),
    /// An allocation failed.
    #[error("out of memory")]
    Memory,
}

impl Script {
    fn new(alloc: Global) -> Script
        ensures { parts result ≡ no_parts }
    {
        Script {
            consoles: Vec::new(alloc),
            receivers: Vec::new(alloc),
            events: Vec::new(alloc),
            strays: Vec::new(alloc),
            lines: Vec::new(alloc),
        }
    }

    fn push_event(&mut self, line: u32, event: Happening) -> Result<(), AllocError>
        ensures { OnOk result (parts self.new ≡ with_event (parts self.old) line event) }
    {
        self.events.push(event)?;
        self.lines.push(line)?;
        Ok(())
    }

    // Carries out what the line of this number says.
    fn add(&mut self, alloc: Global, line: u32, said: Said<'_>) -> Result<(), AllocError>
        requires { length self.old.strays.items + stray_size said < 4294967296 }
        ensures more { OnOk result (parts self.new ≡ with_said (parts self.old) line said.entry) }
        ensures grows { IfErr result (λ _. is_nothing said.entry ≡ false) }
    {
        match said {
            Said::Nothing | Said::Malformed => {}
            Said::Console(line) => self.consoles.push(line.setup())?,
            Said::Receiver(universe) => self.receivers.push(universe)?,
            Said::Happens(event) => self.push_event(line, event)?,
            Said::Stray {
                moment,
                receiver,
                bytes,
            } => {
                let from = self.strays.len() as u32;
                bytes.append_to(alloc, &mut self.strays)?;
                let to = self.strays.len() as u32;
                let what = Occurrence::Stray { receiver, from, to };
                self.push_event(line, Happening { moment, what })?;
            }
        }
        Ok(())
    }

    // Takes the next line.
    fn take(&mut self, alloc: Global, line: Line<'_>) -> Result<(), ScriptFault>
        requires { length self.old.strays.items + length line.bytes.now < 4294967296 }
        ensures sound { OnOk result
            (is_of_no_form (said_below (parts self.old) line.entry.bytes.now) ≡ false) }
        ensures more { OnOk result (parts self.new ≡ with_said (parts self.old) line.entry.number
            (said_below (parts self.old) line.entry.bytes.now)) }
        ensures fault { IfErr result
            (ExplainsLine (parts self.old) line.entry.number line.entry.bytes.now) }
    {
        let said = read_line(!self.events.is_empty(), line.bytes);
        if said.is_malformed() {
            return Err(ScriptFault::Line(line.number));
        }
        match self.add(alloc, line.number, said) {
            Ok(()) => Ok(()),
            Err(_) => Err(ScriptFault::Memory),
        }
    }
}

/// Reads a script whole. The text has less than 2^32 bytes.
///
/// Its lines and words are those of `ascii_text`, and a `!` cuts a line; ASCII case is ignored. A
/// header line, `console BASE PRIORITY UUID` or `receiver U`, stands above all events. An event is
/// `MOMENT do C COMMAND`, `MOMENT tick C`, `MOMENT deliver R C U K`, `MOMENT stray R [HEX]` or
/// `MOMENT slots R`. Each stray's range is one of the bytes of the strays.
///
/// # Errors
///
/// `Line` with the number of the first malformed line. `Memory` is answered only if an allocation
/// failed; a text whose first line with words is malformed, or that has no words, is never
/// answered so.
pub fn read_script(alloc: Global, text: &[u8]) -> Result<Script, ScriptFault>
    requires { length text.now < 4294967296 }
    ensures script { IfOk result (λ script. script_of text.now ≡ Ok (parts script)) }
    ensures strays { IfOk result
        (λ script. All (EventFits (length script.strays.items)) script.events.items) }
    ensures lines { IfOk result
        (λ script. length script.lines.items ≡ length script.events.items) }
    ensures fault { IfErr result (ExplainsScript text.now) }
{
    let mut script = Script::new(alloc);
    for line in Lines::new(text) {
        script.take(alloc, line)?;
    }
    Ok(script)
}
