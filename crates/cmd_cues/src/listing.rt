ghost use Rattle.std.specs.Prelude.{◌≡◌, ◌<◌, ◌^◌, IfOk, length, reverse, take};
ghost use Rattle.ascii_text.specs.Text.{lines_of};
ghost use Rattle.cmd_show.specs.Faults.{CheckFails, ReadsFirst};
ghost use Rattle.cmd_show.specs.Prints.{PrintsTo};
ghost use Rattle.cmd_cues.specs.Json.{json_text};
ghost use Rattle.cmd_cues.specs.Labels.{label_after};
ghost use Rattle.cmd_cues.specs.Prints.{IsCueJson, IsCueTable};
ghost use Rattle.cmd_cues.specs.Table.{table_text};

use crate::json::json_text;
use crate::labels::Labels;
use crate::table::table_text;
use cmd_faults::RunFault;
use devices::Output;
use show_reader::{Loaded, read_show};
use std::alloc::{AllocError, Global};

/// Prints the cue list of a show as a table: its cues, ascending, and then its submasters, groups
/// and universes.
///
/// A cue has its number, its times, delays and follow-on time in seconds, as it is played, how many
/// channels it lists, and its label; of a label the first 80 bytes are shown. Universes are counted
/// from 1. All of the text goes out by one write, and only after all memory was taken.
///
/// # Errors
///
/// The text's fault; `Memory` if an allocation failed; `Device` where the write failed.
pub fn cues<W: Output>(alloc: Global, show: &[u8], out: &mut W) -> Result<(), RunFault>
    ensures prints { PrintsTo W.tells W.tape out.old out.new result (IsCueTable show.now) }
    ensures reads { ReadsFirst show.now (CheckFails show.now) result }
{
    let loaded = read_show(alloc, show)?;
    let text = table_of(alloc, show, &loaded)?;
    out.write(text.as_slice())?;
    Ok(())
}

/// Prints the cue list of a show as JSON (RFC 8259): one object with the arrays `cues`,
/// `submasters`, `groups`, `universes` and `patch`, in which the numbers ascend.
///
/// It has what the table of [`cues`] has, whole labels, and each patched dimmer with its channel,
/// 1 to 4096, and the level byte that full means. A byte of a label that is no printable ASCII is
/// the character of its number. All of the text goes out by one write, and only after all memory
/// was taken.
///
/// # Errors
///
/// The text's fault; `Memory` if an allocation failed; `Device` where the write failed.
pub fn cues_json<W: Output>(alloc: Global, show: &[u8], out: &mut W) -> Result<(), RunFault>
    ensures prints { PrintsTo W.tells W.tape out.old out.new result (IsCueJson show.now) }
    ensures reads { ReadsFirst show.now (CheckFails show.now) result }
{
    let loaded = read_show(alloc, show)?;
    let text = json_of(alloc, show, &loaded)?;
    out.write(text.as_slice())?;
    Ok(())
}

// The table of a show that was read, with the labels of its text.
fn table_of(alloc: Global, show: &[u8], loaded: &Loaded) -> Result<Vec<u8>, AllocError>
    requires { length show.now < 2 ^ 32 }
    ensures { IfOk result (λ text. text.items ≡ table_text
        (label_after (reverse (take loaded.now.lines (lines_of show.now)))) loaded.now.show) }
{
    let labels = Labels::read(alloc, show, loaded.lines)?;
    table_text(alloc, &loaded.show, &labels)
}

fn json_of(alloc: Global, show: &[u8], loaded: &Loaded) -> Result<Vec<u8>, AllocError>
    requires { length show.now < 2 ^ 32 }
    ensures { IfOk result (λ text. text.items ≡ json_text
        (label_after (reverse (take loaded.now.lines (lines_of show.now)))) loaded.now.show) }
{
    let labels = Labels::read(alloc, show, loaded.lines)?;
    json_text(alloc, &loaded.show, &labels)
}
