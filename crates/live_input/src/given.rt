ghost use Rattle.std.specs.Prelude.{◌≡◌, ◌≤◌, ◌<◌, ◌^◌, [], ◌∷◌, ◌++◌, nat_le, length, Some};
ghost use Rattle.ascii_text.specs.Text.{words_of};
ghost use Rattle.console.specs.Spelling.{call_of};
ghost use Rattle.live_input.specs.Night.{behind_moment};
ghost use Rattle.live_input.specs.Night as night;
ghost use Rattle.live_input.specs.Told.{IsGiven};

use crate::reason::Reason;
use arrayvec::ArrayVec;
use console::Call;
use itoa::Buffer;

/// The text of a line, with its LF: a moment and the words of a call.
pub type InputLine = ArrayVec<u8, 201>;

/// What is shown of a line that was refused: its first 200 bytes, each that is no printable ASCII
/// as `?`.
pub type RefusedText = ArrayVec<u8, 200>;

/// A line for the console: a call at a moment, and the text that spells both.
#[derive(Debug, Drop)]
pub struct GivenLine {
    /// In milliseconds from the start of the night.
    pub moment: u64,
    pub call: Call,
    pub text: InputLine,
}

/// What a live input gives when it is asked.
#[derive(Debug, Drop)]
pub enum Given {
    /// A line for the console.
    Line(GivenLine),
    /// Where the night is was asked, at this moment in milliseconds.
    Where(u64),
    /// Which commands there are was asked.
    Help,
    /// What to show of a line that was refused, and why it was.
    Refused(RefusedText, Reason),
    /// Nothing is due before this moment, in milliseconds, unless bytes come.
    Until(u64),
    /// Nothing comes any more.
    Over,
}

// Whether a line has room for these words behind a moment.
pub fn fits(moment: u64, words: &[u8]) -> bool
    ensures { result ≡ nat_le (length (behind_moment moment words.now)) 200 }
{
    Buffer::new().format(moment).len() + 1 + words.len() <= 200
}

// The line of a call at a moment, in the words that spell it.
pub fn given_line(moment: u64, call: Call, words: &[u8]) -> GivenLine
    requires below { moment < 2 ^ 48 }
    requires short { length (behind_moment moment words.now) ≤ 200 }
    requires spells { call_of (words_of words.now) ≡ Some call }
    ensures { IsGiven result (behind_moment moment words.now) }
{
    GivenLine {
        moment,
        call,
        text: input_line(moment, words),
    }
}

fn input_line(moment: u64, words: &[u8]) -> InputLine
    requires { length (behind_moment moment words.now) ≤ 200 }
    ensures { result.items ≡ behind_moment moment words.now ++ 10 ∷ [] }
{
    let mut line = InputLine::new();
    line.try_extend_from_slice(Buffer::new().format(moment).as_bytes())
        .unwrap();
    line.push(b' ');
    line.try_extend_from_slice(words).unwrap();
    line.push(b'\n');
    line
}

pub fn refused_text(line: &[u8]) -> RefusedText
    ensures { result.items ≡ night.refused_front line.now }
{
    let mut text = RefusedText::new();
    let looked = &line[..line.len().min(200)];
    for byte in looked {
        text.push(printable(*byte));
    }
    text
}

fn printable(byte: u8) -> u8
    ensures { result ≡ night.printable byte }
{
    if (b' '..=b'~').contains(&byte) {
        byte
    } else {
        b'?'
    }
}

// A line with its LF.
pub fn with_end(line: &[u8]) -> InputLine
    requires { length line.now ≤ 200 }
    ensures { result.items ≡ line.now ++ 10 ∷ [] }
{
    let mut whole = InputLine::new();
    whole.try_extend_from_slice(line).unwrap();
    whole.push(b'\n');
    whole
}
