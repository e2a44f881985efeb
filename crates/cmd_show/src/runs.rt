ghost use Rattle.std.specs.Prelude.{◌≡◌, true, OnOk};
ghost use Rattle.show_line.specs.Said.{desk_limits};
ghost use Rattle.show_line.specs.declared.statement.Record.TheVariants.{Cue};
ghost use Rattle.show_reader.specs.Meaning.{is_record_there};
ghost use Rattle.show_reader.specs.Text.{statements_of};
ghost use Rattle.cmd_show.specs.Faults.{CheckFails, LookFails, ReadsFirst};
ghost use Rattle.cmd_show.specs.Prints.{IsCheckOf, IsLookOf, PrintsTo};

use crate::texts::{check_text, look_text};
use cmd_faults::RunFault;
use devices::Output;
use show_reader::read_show;
use std::alloc::Global;

/// Reads a show text and prints its counts: the lines that were read, the cues, submasters and
/// groups, the dimmers that are patched, and the lines that were skipped.
///
/// All of the text goes out by one write, and only after all memory was taken.
///
/// # Errors
///
/// The text's fault; `Memory` if an allocation failed; `Device` where the write failed.
pub fn check<W: Output>(alloc: Global, show: &[u8], out: &mut W) -> Result<(), RunFault>
    ensures prints { PrintsTo W.tells W.tape out.old out.new result (IsCheckOf show.now) }
    ensures reads { ReadsFirst show.now (CheckFails show.now) result }
{
    let loaded = read_show(alloc, show)?;
    let text = check_text(alloc, &loaded)?;
    out.write(text.as_str().as_bytes())?;
    Ok(())
}

/// Prints the packets of a cue at full: for each universe of the show, ascending from universe 1,
/// the E1.31 data packet in lower case hex, in a line of its own.
///
/// The cue number is in thousandths. The packets have the CID, the source name `cueplayer`,
/// priority 100, sequence number 0 and options 0; the slots are those of the cue alone with the
/// grand master at 255. All of the text goes out by one write, and only after all memory was taken.
///
/// # Errors
///
/// The text's fault; `NoCue` where the show has no such cue; `Memory` if an allocation failed;
/// `Device` where the write failed.
pub fn look<W: Output>(
    alloc: Global,
    show: &[u8],
    cue: u32,
    cid: [u8; 16],
    out: &mut W,
) -> Result<(), RunFault>
    ensures prints { PrintsTo W.tells W.tape out.old out.new result (IsLookOf show.now cue cid) }
    ensures reads { ReadsFirst show.now (LookFails show.now cue) result }
    ensures there { OnOk result
        (is_record_there (Cue cue) (statements_of desk_limits show.now) ≡ true) }
{
    let loaded = read_show(alloc, show)?;
    let Some(look) = loaded.show.cue(cue) else {
        return Err(RunFault::NoCue);
    };
    let text = look_text(alloc, &loaded.show, &look, cid)?;
    out.write(text.as_slice())?;
    Ok(())
}
