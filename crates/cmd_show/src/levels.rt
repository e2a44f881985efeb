ghost use Rattle.std.specs.Prelude.{◌≡◌, ◌<◌, ◌++◌, All, IfOk, OnOk, IfErr, length};
ghost use Rattle.show_reader.specs.declared.fault.ShowFault.TheVariants as show_fault;
ghost use Rattle.show_reader.specs.Reading.{longest_text};
ghost use Rattle.cmd_show.specs.Prints.{PrintsTo};
ghost use Rattle.cmd_show.specs.Slots.{universe_lines, ordinal_lines, slots_text};
ghost use Rattle.cmd_show.specs.Slots.{IsSlotsOf, HasCue, HasNumbers, SlotsFails};
ghost use Rattle.std.specs.Prelude.{flat_map};

use cmd_faults::RunFault;
use devices::Output;
use itoa::Buffer;
use patch_core::has_numbers;
use sacn_receiver::slots_line;
use show_core::{Cue, Frame, Show};
use show_reader::read_show;
use std::alloc::{AllocError, Global};

/// Prints the levels of a cue at full: for each universe of the show, ascending, a line with its
/// number, and a line with each of its slots that is not 0.
///
/// The cue number is in thousandths. The slots are those of the cue alone with the grand master at
/// 255; dimmers 1 to 512 are in the universe of the number `base`. All of the text goes out by one
/// write, and only after all memory was taken.
///
/// # Errors
///
/// The text's fault; `NoCue` where the show has no such cue; `Base` where `base`, or the number of
/// a universe of the show, is not 1 to 63,999; `Memory` if an allocation failed; `Device` where
/// the write failed.
pub fn slots<W: Output>(
    alloc: Global,
    show: &[u8],
    cue: u32,
    base: u16,
    out: &mut W,
) -> Result<(), RunFault>
    ensures prints { PrintsTo W.tells W.tape out.old out.new result (IsSlotsOf show.now cue base) }
    ensures there { OnOk result (HasCue show.now cue) }
    ensures numbered { OnOk result (HasNumbers show.now base) }
    ensures fault { IfErr result (SlotsFails show.now cue base) }
    ensures too_long { longest_text < length show.now → result ≡ Err
        (RunFault.Show show_fault.TooLong) }
{
    let loaded = read_show(alloc, show)?;
    let Some(look) = loaded.show.cue(cue) else {
        return Err(RunFault::NoCue);
    };
    if !has_numbers(&loaded.show, base) {
        return Err(RunFault::Base);
    }
    let text = slots_text(alloc, &loaded.show, &look, base)?;
    out.write(text.as_slice())?;
    Ok(())
}

fn slots_text(alloc: Global, show: &Show, look: &Cue<'_>, base: u16) -> Result<Vec<u8>, AllocError>
    ensures { IfOk result (λ text.
        text.items ≡ slots_text look.now.levels show.now.patch base) }
{
    universes_text(alloc, show, look, base, show.universes().as_slice())
}

fn universes_text(
    alloc: Global,
    show: &Show,
    look: &Cue<'_>,
    base: u16,
    ordinals: &[u16],
) -> Result<Vec<u8>, AllocError>
    requires { All (λ ordinal. ordinal < 16) ordinals.now }
    ensures { IfOk result (λ text.
        text.items ≡ flat_map (ordinal_lines look.now.levels show.now.patch base) ordinals.now) }
{
    let mut text = Vec::new(alloc);
    for ordinal in ordinals {
        let universe = u32::from(base) + u32::from(*ordinal);
        push_universe(&mut text, universe, &show.cue_slots(look, *ordinal))?;
    }
    Ok(text)
}

fn push_universe(text: &mut Vec<u8>, universe: u32, slots: &Frame) -> Result<(), AllocError>
    ensures { OnOk result (text.new.items ≡ text.old.items ++ universe_lines universe slots.now) }
{
    text.extend_from_slice(b"universe ")?;
    text.extend_from_slice(Buffer::new().format(universe).as_bytes())?;
    text.extend_from_slice(b"\n")?;
    text.extend_from_slice(slots_line(slots).as_str().as_bytes())
}
