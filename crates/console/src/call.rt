ghost use Rattle.std.specs.Prelude.{◌≡◌, drop};
ghost use Rattle.console.specs.Spelling.{call_of, instruction_of, instruction_with, words_behind};
ghost use Rattle.console.specs.Spelling.{with_none, with_one, with_two, with_three};

use ascii_text::{Words, cue_number, level, same_word, time, whole};
use desk_core::{Command, Instruction};

/// A call of a console, without its moment.
#[derive(Clone, Copy, Debug, PartialEq, Eq)]
pub enum Call {
    /// An instruction of the operator.
    Order(Instruction),
    /// A tick.
    Tick,
}

/// The instruction that the words spell, to their end: `go`, `back`, `goto N`, `goto N in TIME`,
/// `sub N L`, `group N L`, `master L` or `end`, without regard to ASCII case. N of `goto` is a cue
/// number, that of `sub` and `group` a number up to 65535, L a level, and TIME a time as behind
/// `UP` in a show. At most the first five words are taken.
pub fn instruction_in(words: &mut Words<'_>) -> Option<Instruction>
    ensures instruction { result ≡ instruction_of words.old }
    ensures left { words.new ≡ drop 5 words.old }
{
    let keyword = words.next()?;
    instruction_with(keyword, words)
}

/// The call that the words spell, to their end: an instruction, or `tick`. At most the first five
/// words are taken, and behind `tick` one.
pub fn call_in(words: &mut Words<'_>) -> Option<Call>
    ensures call { result ≡ call_of words.old }
    ensures left { words.new ≡ words_behind words.old }
{
    let keyword = words.next()?;
    if same_word(keyword, b"tick") {
        return if words.next().is_some() {
            None
        } else {
            Some(Call::Tick)
        };
    }
    let instruction = instruction_with(keyword, words)?;
    Some(Call::Order(instruction))
}

fn instruction_with(keyword: &[u8], operands: &mut Words<'_>) -> Option<Instruction>
    ensures instruction { result ≡ instruction_with keyword.now operands.old }
    ensures left { operands.new ≡ drop 4 operands.old }
{
    let Some(first) = operands.next() else {
        return with_none(keyword).map(Instruction::Plain);
    };
    let Some(second) = operands.next() else {
        return with_one(keyword, first).map(Instruction::Plain);
    };
    let Some(third) = operands.next() else {
        return with_two(keyword, first, second).map(Instruction::Plain);
    };
    if operands.next().is_some() {
        return None;
    }
    with_three(keyword, first, second, third)
}

fn with_none(keyword: &[u8]) -> Option<Command>
    ensures { result ≡ with_none keyword.now }
{
    if same_word(keyword, b"go") {
        Some(Command::Go)
    } else if same_word(keyword, b"back") {
        Some(Command::Back)
    } else if same_word(keyword, b"end") {
        Some(Command::End)
    } else {
        None
    }
}

fn with_one(keyword: &[u8], operand: &[u8]) -> Option<Command>
    ensures { result ≡ with_one keyword.now operand.now }
{
    if same_word(keyword, b"goto") {
        let cue = cue_number(operand)?;
        Some(Command::Goto(cue))
    } else if same_word(keyword, b"master") {
        let byte = level(operand)?;
        Some(Command::Master(byte))
    } else {
        None
    }
}

fn with_two(keyword: &[u8], number: &[u8], operand: &[u8]) -> Option<Command>
    ensures { result ≡ with_two keyword.now number.now operand.now }
{
    if same_word(keyword, b"sub") {
        let number = whole(number, 65535)?;
        let byte = level(operand)?;
        Some(Command::Sub(number as u16, byte))
    } else if same_word(keyword, b"group") {
        let number = whole(number, 65535)?;
        let byte = level(operand)?;
        Some(Command::Group(number as u16, byte))
    } else {
        None
    }
}

fn with_three(keyword: &[u8], number: &[u8], link: &[u8], operand: &[u8]) -> Option<Instruction>
    ensures { result ≡ with_three keyword.now number.now link.now operand.now }
{
    if same_word(keyword, b"goto") && same_word(link, b"in") {
        let cue = cue_number(number)?;
        let time = time(operand)?;
        Some(Instruction::GotoIn { cue, time })
    } else {
        None
    }
}
