ghost use Rattle.std.specs.Prelude.{◌≤◌, length, None, OnOk, IfOk, IfErr};
ghost use Rattle.cmd_rehearse.specs.Begins.{IsSetUp, Prevents};
ghost use Rattle.cmd_rehearse.specs.Printed.{AreLinesOf};
ghost use Rattle.cmd_rehearse.specs.Texts.{rehearsal_lines};

use crate::script_input::script_in;
use cmd_faults::RunFault;
use fade_core::Fader;
use show_reader::read_show;
use std::alloc::Global;
use wire_world::{CompactReport, rehearse_compactly};

// What came of a script.
#[derive(Debug, Drop)]
pub(crate) struct Rehearsed {
    // Of each event the number of its line.
    pub numbers: Vec<u32>,
    pub report: CompactReport,
}

// Rehearses a script over a show.
pub(crate) fn rehearse_script<F: Fader>(
    alloc: Global,
    show: &[u8],
    script: &[u8],
) -> Result<Rehearsed, RunFault>
    ensures set_up { OnOk result (IsSetUp show.now script.now None) }
    ensures lines { IfOk result (λ rehearsed. AreLinesOf show.now script.now (rehearsal_lines
        rehearsed.numbers.items rehearsed.report.replies rehearsed.report.last)) }
    ensures few { IfOk result (λ rehearsed. length rehearsed.report.last ≤ 8) }
    ensures fault { IfErr result (Prevents show.now script.now) }
{
    let loaded = read_show(alloc, show)?;
    let script = script_in(alloc, script)?;
    let shows = [loaded.show];
    let report = rehearse_compactly::<F>(
        alloc,
        &shows,
        script.consoles.as_slice(),
        script.receivers.as_slice(),
        script.events.as_slice(),
        script.strays.as_slice(),
    )?;
    Ok(Rehearsed {
        numbers: script.lines,
        report,
    })
}
