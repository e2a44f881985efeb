ghost use Rattle.std.specs.Prelude.{◌≡◌, ◌≤◌, length, option_map};
ghost use Rattle.std.specs.Prelude.{IfErr, IfOk, IfSome};
ghost use Rattle.night_lines.specs.Lines.{lines_of};
ghost use Rattle.night_lines.specs.Starts.{start_lines};
ghost use Rattle.night_lines.specs.declared.start.NightStart.{NightStart as StartOf};
ghost use Rattle.night_opening.specs.NightStarts as spec;
ghost use Rattle.night_opening.specs.NightStarts.{AreShownTexts, IsShowAtStart, IsShownMain};
ghost use Rattle.night_opening.specs.NightStarts.{IsShownRecord, IsStartOf, IsStartWith};
ghost use Rattle.night_opening.specs.NightStarts.{IsTransmissionOf, IsUntold};
ghost use Rattle.show_line.specs.Said.{desk_limits};
ghost use Rattle.show_reader.specs.Reading.{lines_skipped};

use arrayvec::ArrayVec;
use cmd_explain::{Weight, seems, weigh};
use cmd_faults::RunFault;
use cmd_words::{Night, source_name};
use night_lines::{
    FoundNetwork, Lines, MainNight, NightStart, Recording, StartNetwork, StartShow, Transmission,
    start_lines,
};
use packet_paths::Path;
use patch_core::has_numbers;
use remarks::{NameText, of_name, seeming_line};
use show_reader::{Loaded, read_show};
use std::alloc::{AllocError, Global};

/// What is known of a night as it starts.
#[derive(Clone, Copy)]
pub struct NightAtStart<'a> {
    pub night: &'a Night,
    /// The text of its show.
    pub show: &'a [u8],
    /// The ways to the hosts that they go to.
    pub paths: &'a [Path],
    /// Where it is recorded, if it is.
    pub recording: Option<Recording<'a>>,
    /// The main that it follows, if it does.
    pub main: Option<MainNight<'a>>,
    /// Control-C ends it.
    pub is_interruptible: bool,
}

/// The lines of what a night plays, where it is sent, where it is recorded, whom it follows and
/// what ends it, with what was found of its network.
///
/// # Errors
///
/// `Show`, `Base` or `Memory`.
pub fn night_start_lines(
    alloc: Global,
    night: &NightAtStart<'_>,
    found: &FoundNetwork,
) -> Result<Lines, RunFault>
    ensures start { IfOk result (λ lines. (start : StartOf) × IsStartOf night.now found.now start
        × (lines_of lines ≡ start_lines start)) }
    ensures fault { IfErr result (λ fault. IsUntold night.now fault) }
{
    let known = known_show(alloc, night)?;
    let shown = shown_texts(night, &known.loaded);
    match start_lines(alloc, &night_start(night, &known, found, &shown)) {
        Ok(lines) => Ok(lines),
        Err(AllocError) => Err(RunFault::Memory),
    }
}

// A show that was read, and how many notes of weight there are on it.
#[derive(Drop)]
struct KnownShow {
    loaded: Loaded,
    weight: Weight,
}

fn known_show(alloc: Global, night: &NightAtStart<'_>) -> Result<KnownShow, RunFault>
    ensures known { IfOk result (λ known. IsShowAtStart night.now.show.now night.now.night.now.base
        known.loaded.show known.weight) }
    ensures skipped { IfOk result (λ known.
        known.loaded.skipped ≡ lines_skipped desk_limits night.now.show.now) }
    ensures fault { IfErr result (λ fault. IsUntold night.now fault) }
{
    let loaded = read_show(alloc, night.show)?;
    if !has_numbers(&loaded.show, night.night.base) {
        return Err(RunFault::Base);
    }
    let weight = weigh(alloc, night.show, &loaded)?;
    Ok(KnownShow { loaded, weight })
}

// What the lines of a start borrow.
#[derive(Drop)]
struct ShownTexts {
    universes: ArrayVec<u16, 16>,
    seeming: Option<SeemingLine>,
    record_name: NameText,
    main_name: NameText,
}

// The line of what a file seems to be.
type SeemingLine = ArrayVec<u8, 513>;

fn shown_texts(night: &NightAtStart<'_>, loaded: &Loaded) -> ShownTexts
    ensures { AreShownTexts night.now loaded.now.show result }
{
    ShownTexts {
        universes: loaded.show.universes(),
        seeming: seeming_of(night.show),
        record_name: record_name(&night.recording),
        main_name: main_name(&night.main),
    }
}

fn night_start<'a>(
    night: &'a NightAtStart<'_>,
    known: &KnownShow,
    found: &'a FoundNetwork,
    shown: &'a ShownTexts,
) -> NightStart<'a>
    requires { AreShownTexts night.now known.now.loaded.show shown.now }
    ensures start { IsStartWith night.now known.now.loaded.show known.now.loaded.skipped
        known.now.weight.notes found.now result }
    ensures recording { IfSome result.recording (λ one. length one.file.now ≤ 256) }
    ensures main { IfSome result.main (λ one. length one.file.now ≤ 256) }
{
    NightStart {
        show: StartShow {
            counts: known.loaded.show.counts(),
            skipped: known.loaded.skipped,
            notes: known.weight.notes,
            seeming: text_of(&shown.seeming),
        },
        sends: transmission(night.night, &shown.universes),
        network: StartNetwork {
            sources: &found.sources,
            paths: night.paths,
            cards: &found.cards,
            is_named: night.night.interface.is_some(),
        },
        recording: shown_record(&night.recording, shown.record_name.as_str()),
        main: shown_main(&night.main, shown.main_name.as_str()),
        is_interruptible: night.is_interruptible,
    }
}

fn seeming_of(show: &[u8]) -> Option<SeemingLine>
    ensures { option_map spec.seeming_seen result ≡ spec.seeming_of show.now }
{
    Some(seeming_line(seems(show)?))
}

fn text_of<'a>(line: &'a Option<SeemingLine>) -> Option<&'a [u8]>
    ensures { option_map (λ text. text.now) result ≡ option_map spec.seeming_seen line.now }
{
    match line {
        Some(line) => Some(line.as_slice()),
        None => None,
    }
}

fn transmission<'a>(night: &'a Night, universes: &'a ArrayVec<u16, 16>) -> Transmission<'a>
    ensures { IsTransmissionOf night.now universes.now.items result }
{
    Transmission {
        base: night.base,
        ordinals: universes,
        targets: &night.targets,
        priority: night.priority,
        cid: night.cid,
        name: source_name(night),
    }
}

// The name of a record's file, as it is shown.
fn record_name(recording: &Option<Recording<'_>>) -> NameText
    ensures name { result.bytes ≡ spec.record_name recording.now }
    ensures room { length result.bytes ≤ 200 }
{
    match recording {
        Some(recording) => of_name(recording.file),
        None => NameText::new(),
    }
}

// Where the night is recorded, under this name.
fn shown_record<'a>(recording: &Option<Recording<'_>>, name: &'a str) -> Option<Recording<'a>>
    requires name { name.now ≡ spec.record_name recording.now }
    requires room { length name.now ≤ 200 }
    ensures room { IfSome result (λ one. length one.file.now ≤ 256) }
    ensures shown { IsShownRecord recording.now result }
{
    match recording {
        Some(recording) => Some(Recording {
            file: name,
            resumes: recording.resumes,
            place: recording.place,
            is_cut: recording.is_cut,
        }),
        None => None,
    }
}

// The name of a main's record, as it is shown.
fn main_name(main: &Option<MainNight<'_>>) -> NameText
    ensures name { result.bytes ≡ spec.main_name main.now }
    ensures room { length result.bytes ≤ 200 }
{
    match main {
        Some(main) => of_name(main.file),
        None => NameText::new(),
    }
}

// The main that the night follows, under this name.
fn shown_main<'a>(main: &Option<MainNight<'_>>, name: &'a str) -> Option<MainNight<'a>>
    requires name { name.now ≡ spec.main_name main.now }
    requires room { length name.now ≤ 200 }
    ensures room { IfSome result (λ one. length one.file.now ≤ 256) }
    ensures shown { IsShownMain main.now result }
{
    match main {
        Some(main) => Some(MainNight {
            file: name,
            cid: main.cid,
            priority: main.priority,
            place: main.place,
        }),
        None => None,
    }
}
