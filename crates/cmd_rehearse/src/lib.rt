//! `rehearse`: a script, rehearsed over a show, and printed.
//!
//! The show is read first, then the script, then the setup is looked at: of their faults the first
//! decides, and nothing is printed. Else each event has its reply, behind the number of its line,
//! and each receiver's slots stand at the end.
//!
//! [`read_script`] reads a script whole, or refuses it by the number of its first malformed line.
//! Which events then are skipped, since they name nothing that is there, the rehearsal says.
//!
//! ```
//! let show = b"CUE 1\nCHAN 1@FL\nPATCH 1 1<1@FL\nENDDATA\n";
//! let script = b"console 1 100 c0ffee00-0000-4000-8000-00000000e131\nreceiver 1\n0 do 0 go\n";
//! let mut out = MemoryOutput::new(rt.alloc(), 0, 0);
//! let answer = rehearse_text::<StepFader, _>(rt.alloc(), show, script, &mut out);
//! // out.bytes begins with "3 ok\n".
//! ```
#![tactic(auto)]

mod console_line;
mod hex_bytes;
mod lines;
mod night;
mod reply;
mod run;
mod said;
mod script;
mod script_input;

pub use run::rehearse_text;
pub use script::{Script, ScriptFault, read_script};
pub use script_input::LONGEST_SCRIPT;
