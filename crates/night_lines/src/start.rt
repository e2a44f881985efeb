ghost use Rattle.std.specs.Prelude.{◌≡◌, ◌≤◌, ◌++◌, ◌∷◌, [], false, length, map, IfOk, IfSome};
ghost use Rattle.std.specs.Option.{option_to_list};
ghost use Rattle.night_lines.specs.Lines.{lines_of};
ghost use Rattle.night_lines.specs.Sends.{sends_line};
ghost use Rattle.night_lines.specs.Starts as spec;
ghost use Rattle.night_lines.specs.Targets.{target_line};

use crate::contents::contents_line;
use crate::ending::ending_line;
use crate::follow::{MainNight, main_line, take_line};
use crate::lines::Lines;
use crate::record::{Recording, no_record_line, record_line};
use crate::sends::{Transmission, sends_line};
use crate::start_network::{StartNetwork, push_network};
use crate::target_lines::{sole_target, target_line};
use show_core::Counts;
use std::alloc::{AllocError, Global};
use targets::{Target, Targets};

/// What is told of a show at the start of a night.
#[derive(Clone, Copy)]
pub struct StartShow<'a> {
    pub counts: Counts,
    /// So many of its lines are skipped.
    pub skipped: u32,
    /// So many notes of weight there are on it.
    pub notes: u64,
    /// The line, with its LF, of what its file seems to be, where that is no text. It is told where
    /// the show has no cue.
    pub seeming: Option<&'a [u8]>,
}

/// What is told at the start of a night.
#[derive(Clone, Copy)]
pub struct NightStart<'a> {
    pub show: StartShow<'a>,
    pub sends: Transmission<'a>,
    pub network: StartNetwork<'a>,
    /// Where the night is recorded, if it is.
    pub recording: Option<Recording<'a>>,
    /// The main that it follows, if it does.
    pub main: Option<MainNight<'a>>,
    /// Control-C ends the night.
    pub is_interruptible: bool,
}

/// The lines of what a night plays, what it sends and where, how its packets leave this machine,
/// where it is recorded, and whom it follows or what ends it. The names of files are shown in at
/// most 256 bytes.
///
/// # Errors
///
/// If an allocation failed.
pub fn start_lines(alloc: Global, start: &NightStart<'_>) -> Result<Lines, AllocError>
    requires recording { IfSome start.now.recording (λ one. length one.file.now ≤ 256) }
    requires main { IfSome start.now.main (λ one. length one.file.now ≤ 256) }
    ensures { IfOk result (λ lines. lines_of lines ≡ spec.start_lines start.now) }
{
    let mut lines = Lines::new(alloc);
    push_start(&mut lines, start);
    lines.whole()
}

fn push_start(lines: &mut Lines, start: &NightStart<'_>)
    requires recording { IfSome start.now.recording (λ one. length one.file.now ≤ 256) }
    requires main { IfSome start.now.main (λ one. length one.file.now ≤ 256) }
    ensures told { lines.new.is_full ≡ false → lines.old.is_full ≡ false }
    ensures lines { lines.new.is_full ≡ false
        → lines_of lines.new ≡ lines_of lines.old ++ spec.start_lines start.now }
{
    push_show(lines, &start.show);
    push_sends(lines, &start.sends);
    push_network(lines, &start.network);
    push_record(lines, &start.recording);
    push_end(lines, &start.main, start.is_interruptible);
}

fn push_show(lines: &mut Lines, show: &StartShow<'_>)
    ensures told { lines.new.is_full ≡ false → lines.old.is_full ≡ false }
    ensures lines { lines.new.is_full ≡ false
        → lines_of lines.new ≡ lines_of lines.old ++ spec.show_lines show.now }
{
    let contents = contents_line(show.counts, show.skipped, show.notes);
    lines.push(contents.as_str().as_bytes());
    if let Some(line) = show.seeming
        && show.counts.cues == 0
    {
        lines.push(line);
    }
}

fn push_sends(lines: &mut Lines, sends: &Transmission<'_>)
    ensures told { lines.new.is_full ≡ false → lines.old.is_full ≡ false }
    ensures lines { lines.new.is_full ≡ false
        → lines_of lines.new ≡ lines_of lines.old ++ spec.sends_lines sends.now }
{
    push_sends_line(lines, sends);
    push_targets(lines, sends.targets);
}

fn push_sends_line(lines: &mut Lines, sends: &Transmission<'_>)
    ensures told { lines.new.is_full ≡ false → lines.old.is_full ≡ false }
    ensures line { lines.new.is_full ≡ false
        → lines_of lines.new ≡ lines_of lines.old ++ option_to_list (sends_line sends.now) }
{
    if let Some(line) = sends_line(sends) {
        lines.push(line.as_str().as_bytes());
    }
}

fn push_targets(lines: &mut Lines, targets: &Targets)
    ensures told { lines.new.is_full ≡ false → lines.old.is_full ≡ false }
    ensures lines { lines.new.is_full ≡ false
        → lines_of lines.new ≡ lines_of lines.old ++ spec.target_lines targets.now }
{
    if sole_target(targets).is_none() {
        push_each_target(lines, targets.as_slice());
    }
}

fn push_each_target(lines: &mut Lines, targets: &[Target])
    ensures told { lines.new.is_full ≡ false → lines.old.is_full ≡ false }
    ensures lines { lines.new.is_full ≡ false
        → lines_of lines.new ≡ lines_of lines.old ++ map target_line targets.now }
{
    for target in targets {
        lines.push(target_line(target).as_str().as_bytes());
    }
}

fn push_record(lines: &mut Lines, recording: &Option<Recording<'_>>)
    requires { IfSome recording.now (λ one. length one.file.now ≤ 256) }
    ensures told { lines.new.is_full ≡ false → lines.old.is_full ≡ false }
    ensures line { lines.new.is_full ≡ false
        → lines_of lines.new ≡ lines_of lines.old ++ spec.record_told recording.now ∷ [] }
{
    match recording {
        Some(recording) => lines.push(record_line(recording).as_str().as_bytes()),
        None => lines.push(no_record_line().as_bytes()),
    }
}

// Whom the night follows, and how it takes over from there; or what ends it.
fn push_end(lines: &mut Lines, main: &Option<MainNight<'_>>, is_interruptible: bool)
    requires { IfSome main.now (λ one. length one.file.now ≤ 256) }
    ensures told { lines.new.is_full ≡ false → lines.old.is_full ≡ false }
    ensures lines { lines.new.is_full ≡ false
        → lines_of lines.new ≡ lines_of lines.old ++ spec.closing_lines main.now is_interruptible }
{
    match main {
        Some(main) => {
            lines.push(main_line(main).as_str().as_bytes());
            lines.push(take_line().as_bytes());
        }
        None => lines.push(ending_line(is_interruptible).as_bytes()),
    }
}
