ghost use Rattle.std.specs.Prelude.{◌≡◌, ◌<◌, length, true, false, Err, IfOk, IfErr};
ghost use Rattle.cmd_play.specs.Play.{PlayBegins, Plays, has_begun};
ghost use Rattle.show_reader.specs.ItsShow.{OfItsShow};
ghost use Rattle.show_reader.specs.Reading.{longest_text};
ghost use Rattle.show_reader.specs.declared.fault.ShowFault.TheVariants as show_fault;
ghost use Rattle.cmd_play.specs.Opened.{IsOpened, Refuses};
ghost use Rattle.cmd_play.specs.Run.{emission};

use crate::fault::PlayFault;
use crate::lines::play_lines;
use cmd_faults::RunFault;
use console::Console;
use devices::{Feed, Link, Output};
use fade_core::Fader;
use patch_core::RigFault;
use sacn_source::Identity;
use show_reader::read_show;
use std::alloc::Global;

/// Plays the lines of an input: opens the console, then carries out each line as it comes, and
/// prints its answer by one write behind its offers.
///
/// Only the show and the console take memory, the lines none.
///
/// # Errors
///
/// `Show`, `Base` or `Memory` before anything was read, offered or printed. Then `Line` of the
/// first line that is malformed or longer than 200 bytes, or of line 10,000,001; `Device` where a
/// read or a write failed; and `Lost`, with their number, where the whole input was carried out and
/// packets were lost.
pub fn play<F: Fader, R: Feed, L: Link, W: Output>(
    alloc: Global,
    show: &[u8],
    identity: Identity,
    base: u16,
    input: &mut R,
    link: &mut L,
    out: &mut W,
) -> Result<(), RunFault>
    ensures begins { PlayBegins result show.now base }
    ensures too_long { longest_text < length show.now → result ≡ Err
        (RunFault.Show show_fault.TooLong) }
    ensures plays { has_begun result ≡ true
        → R.tells input.new → L.tells link.new → W.tells out.new
        → OfItsShow show.now (λ s. Plays
        (record { show = s; base = base; source = identity }) result
        (R.ended input.new) (R.tape input.old) (R.tape input.new)
        (emission (L.offered link.old) (W.tape out.old))
        (emission (L.offered link.new) (W.tape out.new))) }

    // Else nothing was read, offered or printed.
    ensures unread { has_begun result ≡ false → R.tells input.new
        → R.tape input.new ≡ R.tape input.old }
    ensures unoffered { has_begun result ≡ false → L.tells link.new
        → L.offered link.new ≡ L.offered link.old }
    ensures unprinted { has_begun result ≡ false → W.tells out.new
        → W.tape out.new ≡ W.tape out.old }

    ensures told_input { R.tells input.new → R.tells input.old }
    ensures told_link { L.tells link.new → L.tells link.old }
    ensures told_output { W.tells out.new → W.tells out.old }
{
    let console: Console<F> = open(alloc, show, identity, base)?;
    match play_lines(console, input, link, out) {
        Ok(0) => Ok(()),
        Ok(lost) => Err(RunFault::Lost(lost)),
        Err(PlayFault::Line(line)) => Err(RunFault::Line(line)),
        Err(PlayFault::Device) => Err(RunFault::Device),
    }
}

/// A console for the show of a text, with `base` as the universe number of ordinal 0 and `identity`
/// as who sends, that has done nothing yet. It has a copy of the show: what was read is let go.
///
/// # Errors
///
/// `Show` with the show's first fault; `Base` where a universe would have no number; `Memory` if
/// an allocation failed.
pub fn open<F: Fader>(
    alloc: Global,
    show: &[u8],
    identity: Identity,
    base: u16,
) -> Result<Console<F>, RunFault>
    ensures opened { IfOk result (λ console. IsOpened F.stands_for console show.now base identity) }
    ensures refused { IfErr result (λ fault. Refuses fault show.now base) }
    ensures too_long { longest_text < length show.now → result ≡ Err
        (RunFault.Show show_fault.TooLong) }
{
    let loaded = read_show(alloc, show)?;
    match Console::open(alloc, &loaded.show, base, identity) {
        Ok(console) => Ok(console),
        Err(RigFault::Universe) => Err(RunFault::Base),
        Err(RigFault::Memory) => Err(RunFault::Memory),
    }
}
