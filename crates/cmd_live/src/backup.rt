ghost use Rattle.std.specs.Prelude.{◌≡◌, ◌<◌, ◌∷◌, ◌+◌, ◌++◌, [], length, map, Some, None, true};
ghost use Rattle.std.specs.Prelude.{false};
ghost use Rattle.std.specs.Prelude.{if◌then◌else◌, ◌≤◌, List};
ghost use Rattle.cmd_live.specs.declared.main_watch.MainEvent.{MainEvent};
ghost use Rattle.ascii_text.specs.Text.{words_of};
ghost use Rattle.night_record.specs.Asked.{asked_by};
ghost use Rattle.cmd_live.specs.declared.main_console.Led.TheVariants.{End, Line};
ghost use Rattle.cmd_live.specs.Backup.{AreDone, EndsBy, IsTypedFirst, LedTo, NoneIsLeft};
ghost use Rattle.cmd_live.specs.Backup.{deeds_for, ending_words, is_comment, told_by_main};
ghost use Rattle.cmd_live.specs.declared.backup.Ending.TheVariants as ending;
ghost use Rattle.cmd_live.specs.declared.main_watch.MainEvent.TheVariants as event;

use crate::main_console::{Led, MainConsole};
use crate::main_watch::MainWatch;
use live_machine::Came;
use night_record::{Asked, LineFront, is_silent};

/// Why a night follows its main no more.
#[derive(Clone, Copy, Debug, PartialEq, Eq)]
pub enum Ending {
    /// `take` was typed.
    Taken,
    /// No line came for the main's patience; or the lines that stood there at the start are
    /// through; or the clock cannot be read.
    Silent,
    /// The main's record is gone, or cannot be read; or what is typed cannot be waited for.
    Gone,
}

impl Ending {
    /// Why a night goes on by itself, in words.
    pub fn words(self) -> &'static str
        ensures words { result.now ≡ ending_words self }
        ensures room { length result.now ≤ 40 }
    {
        match self {
            Ending::Taken => "the following was ended",
            Ending::Silent => "the main is silent",
            Ending::Gone => "the main's record is gone",
        }
    }
}

/// A main that a night follows.
#[derive(Debug, Drop)]
pub struct Backup<W> {
    pub watch: W,
    /// How long the main may be silent, in milliseconds.
    pub patience: u32,
    /// Why the newest end came.
    pub ending: Ending,
}

impl<W: MainWatch> Backup<W> {
    /// A main that may be silent for so long, in milliseconds.
    pub fn new(watch: W, patience: u32) -> Self
        ensures { result ≡ record { watch = watch; patience = patience; ending = ending.Silent } }
    {
        Backup {
            watch,
            patience,
            ending: Ending::Silent,
        }
    }

    // What a turn leads to. What was typed comes before lines of the record: so both are answered
    // in time.
    fn turn(&mut self) -> Option<Led>
        ensures told { W.tells self.new.watch → W.tells self.old.watch }
        ensures led { W.tells self.new.watch → LedTo self.old.patience result self.new.ending
            (W.left self.new.watch) (W.events self.old.watch) (W.events self.new.watch) }
        ensures more { W.tells self.new.watch
            → length (W.events self.old.watch) < length (W.events self.new.watch) }
        ensures few { W.tells self.new.watch
            → length (W.events self.old.watch) + 1 < 18446744073709551615 }
        ensures same { self.new.patience ≡ self.old.patience }
    {
        if let Some(line) = self.watch.typed_line() {
            self.led_by_typed(&line)
        } else if let Some(line) = self.watch.next_line() {
            self.led_by(line)
        } else {
            self.led_by_none()
        }
    }

    fn end(&mut self, ending: Ending) -> Option<Led>
        ensures end { result ≡ Some End }
        ensures why { self.new ≡ record self.old { ending = ending } }
    {
        self.ending = ending;
        Some(Led::End)
    }

    // What a typed line asks for. None moves the light.
    fn led_by_typed(&mut self, line: &LineFront) -> Option<Led>
        ensures told { W.tells self.new.watch → W.tells self.old.watch }
        ensures led { W.tells self.new.watch → (older : List MainEvent)
            → W.events self.old.watch ≡ event.Typed line.now ∷ older
            → LedTo self.old.patience result self.new.ending (W.left self.new.watch) older
            (W.events self.new.watch) }
        ensures more { W.tells self.new.watch
            → length (W.events self.old.watch) ≤ length (W.events self.new.watch) }
        ensures same { self.new.patience ≡ self.old.patience }
    {
        match Asked::of(line.as_slice())? {
            Asked::Take => return self.end(Ending::Taken),
            Asked::Where => return Some(Led::Where),
            Asked::Help => self.watch.help(),
            Asked::Other => self.watch.refuse(line),
        }
        None
    }

    // A line of the record, unless it is a comment.
    fn led_by(&mut self, line: LineFront) -> Option<Led>
        ensures told { W.tells self.new.watch → W.tells self.old.watch }
        ensures led { result ≡ (if is_comment line.items then None else Some (Line line)) }
        ensures does { W.tells self.new.watch → W.events self.new.watch
            ≡ map event.Did (deeds_for (event.Came line)) ++ W.events self.old.watch }
        ensures same { (self.new.patience ≡ self.old.patience)
            × (self.new.ending ≡ self.old.ending) }
    {
        if is_comment(line.as_slice()) {
            self.watch.tell_missing(&line);
            return None;
        }
        self.watch.keep(&line);
        Some(Led::Line(line))
    }

    // Looks for more of the record, or waits for what is typed.
    fn led_by_none(&mut self) -> Option<Led>
        ensures told { W.tells self.new.watch → W.tells self.old.watch }
        ensures led { W.tells self.new.watch → W.left self.old.watch ≡ []
            → LedTo self.old.patience result self.new.ending (W.left self.new.watch)
            (W.events self.old.watch) (W.events self.new.watch) }
        ensures more { W.tells self.new.watch
            → length (W.events self.old.watch) < length (W.events self.new.watch) }
        ensures same { self.new.patience ≡ self.old.patience }
    {
        match self.watch.look() {
            Err(_) => return self.end(Ending::Gone),
            Ok(true) => return None,
            Ok(false) => {}
        }
        if !self.watch.has_begun() {
            return self.end(Ending::Silent);
        }
        if !self.watch.is_there() {
            return self.end(Ending::Gone);
        }
        if self.is_silent() {
            return self.end(Ending::Silent);
        }
        match self.watch.wait() {
            Ok(Came::TypedEnd) => self.watch.remind(),
            Ok(Came::Bytes(_) | Came::Nothing | Came::End) => {}
            Err(_) => return self.end(Ending::Gone),
        }
        None
    }

    // A clock that cannot be read ends the following, and then the night.
    fn is_silent(&mut self) -> bool
        ensures told { W.tells self.new.watch → W.tells self.old.watch }
        ensures silent { result ≡ true → W.tells self.new.watch
            → LedTo self.old.patience (Some End) ending.Silent []
            (W.events self.old.watch) (W.events self.new.watch) }
        ensures quiet { result ≡ false → W.tells self.new.watch
            → LedTo self.old.patience None ending.Silent []
            (W.events self.old.watch) (W.events self.new.watch) }
        ensures same { (self.new.patience ≡ self.old.patience)
            × (self.new.ending ≡ self.old.ending) }
        ensures more { W.tells self.new.watch
            → length (W.events self.new.watch) ≡ length (W.events self.old.watch) + 1 }
        ensures left { W.tells self.new.watch
            → W.left self.new.watch ≡ W.left self.old.watch }
    {
        match self.watch.time_passed() {
            Ok(passed) => is_silent(passed, self.patience),
            Err(_) => true,
        }
    }
}

impl<W: MainWatch> MainConsole for Backup<W> {
    ghost tells = { λ f. W.tells f.watch };

    ghost given = { λ f. told_by_main f.patience (W.events f.watch) };

    fn next(&mut self) -> Led
        ensures told { W.tells self.new.watch → W.tells self.old.watch }
        ensures gives { W.tells self.new.watch
            → told_by_main self.new.patience (W.events self.new.watch)
            ≡ result ∷ told_by_main self.old.patience (W.events self.old.watch) }
        ensures led { W.tells self.new.watch → LedTo self.old.patience (Some result)
            self.new.ending (W.left self.new.watch) (W.events self.old.watch)
            (W.events self.new.watch) }
        ensures same { self.new.patience ≡ self.old.patience }
    {
        // One turn a nanosecond would last for 584 years.
        for _turn in 0..u64::MAX {
            if let Some(led) = self.turn() {
                return led;
            }
        }
        Led::End
    }
}

// Whether a line of a record is a comment.
fn is_comment(line: &[u8]) -> bool
    ensures { result ≡ is_comment line.now }
{
    match line {
        [first, ..] => *first == b'!',
        [] => false,
    }
}
