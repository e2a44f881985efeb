ghost use Rattle.std.specs.Prelude.{◌≡◌, ◌≤◌, ◌<◌, ◌^◌, ℕ, List, [], ◌∷◌, length, IfNone, IfSome};
ghost use Rattle.live_input.specs.Night.{Happening, came, closed, asked, answer_to, answers};
ghost use Rattle.live_input.specs.Night.{ignored_keys, is_over, now};
ghost use Rattle.live_input.specs.Recall.{IsRecalled, typed_again};
ghost use Rattle.live_input.specs.Stands.{Leads, Recalls, StandsFor};
ghost use Rattle.live_input.specs.Told.{Tells};
ghost use Rattle.live_input.specs.declared.given.Given.TheVariants.{Until};

use crate::given::{Given, GivenLine, with_end};
use crate::keys::has_keys;
use crate::progress::Progress;
use crate::typed::TypedLines;
use console::{Call, Reading, read_call};
use desk_core::{Command, Instruction, MOMENTS};
use itoa::Buffer;
use std::marker::Model;

// The last moment that a desk takes.
const LATEST: u64 = MOMENTS - 1;

/// The input of a live night: it is told which bytes came, and asked what is next.
///
/// A line that is typed is a command without its moment; it is given with the moment at which it is
/// asked for. Moments are in milliseconds from the start of the night; they never
/// fall, whatever the clock says.
///
/// Nothing takes memory.
#[derive(Debug, Drop)]
pub struct LiveInput {
    // The bytes that came and are in no line that was answered.
    typed: TypedLines,
    // Whether the night ends with its input, which ended.
    ends: bool,
    // The latest moment that the clock told.
    now: u64,
    // Whether keys were left out of the line that was answered last.
    keys: bool,
    // What the answers so far leave to come.
    progress: Progress,
}

impl Model for LiveInput {
    ghost use Rattle.live_input.specs.Kept.{InputState};

    ghost Value = { InputState };

    ghost use Rattle.std.specs.Prelude.{◌<◌, ◌^◌};
    ghost use Rattle.live_input.specs.Inside.{live_view};

    ghost view = { live_view };

    ghost invariant = { λ live. live.now < 2 ^ 48 };
}

impl Default for LiveInput {
    ghost use Rattle.std.specs.Prelude.{[]};
    ghost use Rattle.live_input.specs.Stands.{StandsFor};

    ghost is_default = { λ live. StandsFor live [] };

    fn default() -> Self {
        LiveInput::new()
    }
}

impl LiveInput {
    /// The input at the start of a night.
    pub fn new() -> Self
        ensures stands { StandsFor result [] }
        ensures empty { result.typed.unread ≡ [] }
    {
        LiveInput {
            typed: TypedLines::new(),
            ends: false,
            now: 0,
            keys: false,
            progress: Progress::new(),
        }
    }

    /// Takes bytes that came, at most 4,096. The condition holds at first, and wherever the last
    /// answer was `Until`.
    #[tactic(auto, using(crate::proofs::TypedLemmas::more_typed))]
    pub fn take_bytes(&mut self, bytes: &[u8])
        requires taken { self.old.typed.unread ≡ [] }
        requires short { length bytes.now ≤ 4096 }
        ensures { Leads (came bytes.now) self.old self.new }
    {
        self.typed.extend(bytes);
    }

    /// Takes the end of the input: a last line without LF is a line too. The night ends with it
    /// where it is told to; else the light holds.
    #[tactic(auto, using(crate::proofs::TypedLemmas::more_typed))]
    pub fn close(&mut self, ends: bool)
        requires taken { self.old.typed.unread ≡ [] }
        ensures { Leads (closed ends) self.old self.new }
    {
        self.typed.extend(b"\n");
        self.ends = ends || self.ends;
    }

    /// What is next, at a moment of the clock: a tick that is due, where the answer before was no
    /// tick; else the answer to the next line that was typed; else what ends a night that ends with
    /// its input, or a tick.
    pub fn next(&mut self, moment: u64) -> Given
        ensures tells { (happenings : List Happening) → StandsFor self.old happenings
            → Tells result (answer_to happenings moment) }
        ensures stands { Leads (asked moment) self.old self.new }
        ensures taken { (until : ℕ) → result ≡ Until until → self.new.typed.unread ≡ [] }
    {
        self.now = self.now.max(moment.min(LATEST));
        if self.progress.is_over() {
            return Given::Over;
        }
        self.keys = false;
        if let Some(given) = self.progress.before_lines(self.now) {
            return given;
        }
        match self.typed.next_line() {
            Some(line) => {
                let line = line.as_slice();
                self.keys = has_keys(line);
                self.progress.answer(self.now, line)
            }
            None => self.progress.by_itself(self.now, self.ends),
        }
    }

    /// Whether keys were left out of the line that the last answer answers: those, as arrows, that
    /// send a sequence and no text.
    pub fn ignored_keys(&self) -> bool
        ensures { (happenings : List Happening) → StandsFor self.entry.now happenings
            → result ≡ ignored_keys (answers happenings) }
    {
        self.keys
    }

    /// Gives a line of a record again, without its LF: types its words, and asks at its moment what
    /// is next. None where that is not this very line, or where a typed line is left; then the
    /// input is of no use any more.
    pub fn recall(&mut self, line: &[u8]) -> Option<GivenLine>
        requires taken { self.old.typed.unread ≡ [] }
        ensures recalls { IfSome result (λ given. (happened : List Happening)
            → StandsFor self.old happened
            → Recalls self.old self.new line.now given happened) }
        ensures other { IfNone result ((happened : List Happening)
            → StandsFor self.old happened → IsRecalled line.now happened → ⊥) }
        ensures drained { IfSome result (λ given. self.new.typed.unread ≡ []) }
    {
        if line.len() > 200 {
            return None;
        }
        let Reading::At(moment, call) = read_call(line) else {
            return None;
        };
        let whole = with_end(line);
        self.type_again(moment, call, whole.as_slice());
        let Given::Line(given) = self.next(moment) else {
            return None;
        };
        if given.text.as_slice() != whole.as_slice() {
            return None;
        }
        if self.typed.next_line().is_some() {
            return None;
        }
        Some(given)
    }

    // Types the words of a call again, which stand in a line behind its moment.
    fn type_again(&mut self, moment: u64, call: Call, line: &[u8])
        requires taken { self.old.typed.unread ≡ [] }
        requires short { length line.now ≤ 4096 }
        ensures { (happened : List Happening) → StandsFor self.old happened
            → StandsFor self.new (typed_again moment call line.now happened) }
    {
        match call {
            Call::Tick => {}
            Call::Order(Instruction::Plain(Command::End)) => self.take_bytes(b"leave\n"),
            Call::Order(_) => {
                let words = line.len().min(Buffer::new().format(moment).len() + 1);
                self.take_bytes(&line[words..]);
            }
        }
    }

    /// The moment of the last look at the clock, in milliseconds; 0 before the first.
    pub fn moment(&self) -> u64
        ensures value { (happened : List Happening) → StandsFor self.entry.now happened
            → result ≡ now happened }
        ensures below { result < 2 ^ 48 }
    {
        self.now
    }

    /// Whether nothing comes any more.
    pub fn is_over(&self) -> bool
        ensures { (happened : List Happening) → StandsFor self.entry.now happened
            → result ≡ is_over (answers happened) }
    {
        self.progress.is_over()
    }
}
