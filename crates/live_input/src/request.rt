ghost use Rattle.std.specs.Prelude.{◌≡◌};
ghost use Rattle.ascii_text.specs.Text.{words_of};
ghost use Rattle.live_input.specs.Keys.{without_keys};
ghost use Rattle.live_input.specs.Night as night;

use crate::given::fits;
use crate::reason::{Reason, reason_of};
use ascii_text::{Words, same_word};
use console::instruction_in;
use desk_core::{Command, Instruction};

/// What a typed line asks for.
#[derive(Clone, Copy, Debug)]
pub enum Request {
    Nothing(Reason),
    /// To tell where the night is.
    Where,
    /// To list the commands.
    Help,
    /// The end of the night, with the light as it is.
    Leave,
    /// The end of the night, dark.
    Finish,
    /// Any other instruction.
    Order(Instruction),
}

// What a line asks for at this moment, by its text without keys; commands are taken where the night
// is on.
pub fn request_of(on: bool, moment: u64, line: &[u8], text: &[u8]) -> Request
    requires { text.now ≡ without_keys line.now }
    ensures { result ≡ night.request_of on moment line.now }
{
    if fits(moment, line) {
        words_asked(on, text)
    } else {
        Request::Nothing(Reason::Long)
    }
}

fn words_asked(on: bool, text: &[u8]) -> Request
    ensures { result ≡ night.words_asked on (words_of text.now) }
{
    if is_only(b"where", text) {
        Request::Where
    } else if is_only(b"help", text) || is_only(b"?", text) {
        Request::Help
    } else if on {
        order_asked(text)
    } else {
        Request::Nothing(Reason::Ending)
    }
}

fn order_asked(text: &[u8]) -> Request
    ensures { result ≡ night.order_asked (words_of text.now) }
{
    if is_only(b"leave", text) {
        return Request::Leave;
    }
    match instruction_in(&mut Words::new(text)) {
        None => Request::Nothing(reason_of(text)),
        Some(Instruction::Plain(Command::End)) => Request::Finish,
        Some(instruction) => Request::Order(instruction),
    }
}

// Whether this word is all that a text says.
fn is_only(word: &[u8], text: &[u8]) -> bool
    ensures { result ≡ night.is_only word.now (words_of text.now) }
{
    let mut words = Words::new(text);
    match words.next() {
        Some(first) => words.next().is_none() && same_word(first, word),
        None => false,
    }
}
