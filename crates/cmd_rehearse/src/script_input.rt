ghost use Rattle.std.specs.Prelude.{◌≡◌, ◌≤◌, length, IfOk, IfErr, Ok, IsTrue};
ghost use Rattle.cmd_rehearse.specs.Script.{parts, script_of};
ghost use Rattle.wire_world.specs.Refusing.{are_within};
ghost use Rattle.cmd_rehearse.specs.Begins.{longest_script, LeavesScript};

use crate::script::{Script, ScriptFault, read_script};
use cmd_faults::RunFault;
use std::alloc::Global;

/// The most bytes that a script has: 16 MiB.
pub const LONGEST_SCRIPT: usize = 16_777_216;

// Reads a script whole, its size first.
pub(crate) fn script_in(alloc: Global, text: &[u8]) -> Result<Script, RunFault>
    ensures short { IfOk result (λ _. length text.now ≤ longest_script) }
    ensures script { IfOk result (λ script. script_of text.now ≡ Ok (parts script)) }
    ensures strays { IfOk result (λ script.
        IsTrue (are_within (length script.strays.items) script.events.items)) }
    ensures lines { IfOk result (λ script.
        length script.lines.items ≡ length script.events.items) }
    ensures fault { IfErr result (LeavesScript text.now) }
{
    if text.len() > LONGEST_SCRIPT {
        return Err(RunFault::Script);
    }
    match read_script(alloc, text) {
        Ok(script) => Ok(script),
        Err(ScriptFault::Line(line)) => Err(RunFault::Line(line)),
        Err(ScriptFault::Memory) => Err(RunFault::Memory),
    }
}
