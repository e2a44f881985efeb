ghost use Rattle.std.specs.Prelude.{◌≡◌};
ghost use Rattle.ascii_text.specs.Text.{words_of};
ghost use Rattle.uuid.specs.Text.{parsed};
ghost use Rattle.cmd_rehearse.specs.Forms.{universe_of, place_of};
ghost use Rattle.cmd_rehearse.specs.Said.{console_with, receiver_with};
ghost use Rattle.cmd_rehearse.specs.Said.{order_with, tick_with, deliver_with, stray_with};
ghost use Rattle.cmd_rehearse.specs.Said.{show_with, event_with, form_with, script_line};
ghost use Rattle.cmd_rehearse.specs.Said.{delivery_with};

use crate::console_line::ConsoleLine;
use crate::hex_bytes::HexBytes;
use ascii_text::{Words, moment, same_word, whole};
use console::instruction_in;
use sacn_packet::TOP_UNIVERSE;
use uuid::Uuid;
use wire_world::{Happening, Occurrence};

// What a line says.
#[derive(Debug, Drop)]
pub enum Said<'a> {
    // It has no words.
    Nothing,
    // There is one more console.
    Console(ConsoleLine),
    // There is one more receiver, of this universe.
    Receiver(u16),
    // An event that is not a stray.
    Happens(Happening),
    // A datagram of these bytes reaches a receiver.
    Stray {
        moment: u64,
        receiver: u16,
        bytes: HexBytes<'a>,
    },
    // No form fits it.
    Malformed,
}

impl<'a> Said<'a> {
    ghost use Rattle.cmd_rehearse.specs.Said.{is_of_no_form};

    pub fn is_malformed(&self) -> bool
        ensures { result ≡ is_of_no_form self.now }
    {
        matches!(self, Said::Malformed)
    }
}

// What a line says, without its LF; `below` tells whether an event stands above.
pub fn read_line<'a>(below: bool, line: &'a [u8]) -> Said<'a>
    ensures { result ≡ script_line below (words_of line.now) }
{
    let mut words = Words::new(line);
    let Some(first) = words.next() else {
        return Said::Nothing;
    };
    match form_with(below, first, words.rest()) {
        Some(said) => said,
        None => Said::Malformed,
    }
}

fn form_with<'a>(below: bool, first: &[u8], rest: &'a [u8]) -> Option<Said<'a>>
    ensures { result ≡ form_with below first.now (words_of rest.now) }
{
    if same_word(first, b"console") {
        if below { None } else { console(rest) }
    } else if same_word(first, b"receiver") {
        if below { None } else { receiver(rest) }
    } else {
        let moment = moment(first)?;
        event(moment, rest)
    }
}

fn console<'a>(operands: &'a [u8]) -> Option<Said<'a>>
    ensures { result ≡ console_with (words_of operands.now) }
{
    let mut words = Words::new(operands);
    let base = words.next()?;
    let priority = words.next()?;
    let cid = words.next()?;
    if words.next().is_some() {
        return None;
    }
    let base = universe(base)?;
    let priority = whole(priority, 200)?;
    let cid = cid_of(cid)?;
    Some(Said::Console(ConsoleLine {
        base,
        priority: priority as u8,
        cid,
    }))
}

fn receiver<'a>(operands: &'a [u8]) -> Option<Said<'a>>
    ensures { result ≡ receiver_with (words_of operands.now) }
{
    let mut words = Words::new(operands);
    let word = words.next()?;
    if words.next().is_some() {
        return None;
    }
    let universe = universe(word)?;
    Some(Said::Receiver(universe))
}

fn event<'a>(moment: u64, rest: &'a [u8]) -> Option<Said<'a>>
    ensures { result ≡ event_with moment (words_of rest.now) }
{
    let mut words = Words::new(rest);
    let keyword = words.next()?;
    let operands = words.rest();
    if same_word(keyword, b"do") {
        order(moment, operands)
    } else if same_word(keyword, b"tick") {
        tick(moment, operands)
    } else if same_word(keyword, b"deliver") {
        deliver(moment, operands)
    } else if same_word(keyword, b"stray") {
        stray(moment, operands)
    } else if same_word(keyword, b"slots") {
        slots(moment, operands)
    } else {
        None
    }
}

fn order<'a>(moment: u64, operands: &'a [u8]) -> Option<Said<'a>>
    ensures { result ≡ order_with moment (words_of operands.now) }
{
    let mut words = Words::new(operands);
    let console = place(words.next()?)?;
    let instruction = instruction_in(&mut words)?;
    Some(Said::Happens(Happening {
        moment,
        what: Occurrence::Order(console, instruction),
    }))
}

fn tick<'a>(moment: u64, operands: &'a [u8]) -> Option<Said<'a>>
    ensures { result ≡ tick_with moment (words_of operands.now) }
{
    let mut words = Words::new(operands);
    let word = words.next()?;
    if words.next().is_some() {
        return None;
    }
    let console = place(word)?;
    Some(Said::Happens(Happening {
        moment,
        what: Occurrence::Tick(console),
    }))
}

fn deliver<'a>(moment: u64, operands: &'a [u8]) -> Option<Said<'a>>
    ensures { result ≡ deliver_with moment (words_of operands.now) }
{
    let mut words = Words::new(operands);
    let receiver = words.next()?;
    let console = words.next()?;
    let universe = words.next()?;
    let k = words.next()?;
    if words.next().is_some() {
        return None;
    }
    let what = delivery_with(receiver, console, universe, k)?;
    Some(Said::Happens(Happening { moment, what }))
}

fn delivery_with(receiver: &[u8], console: &[u8], universe: &[u8], k: &[u8]) -> Option<Occurrence>
    ensures { result ≡ delivery_with receiver.now console.now universe.now k.now }
{
    let receiver = place(receiver)?;
    let console = place(console)?;
    let universe = place(universe)?;
    let k = moment(k)?;
    Some(Occurrence::Deliver {
        receiver,
        console,
        universe,
        k,
    })
}

fn stray<'a>(moment: u64, operands: &'a [u8]) -> Option<Said<'a>>
    ensures { result ≡ stray_with moment (words_of operands.now) }
{
    let mut words = Words::new(operands);
    let receiver = place(words.next()?)?;
    let digits = match words.next() {
        Some(digits) => digits,
        None => &[],
    };
    if words.next().is_some() {
        return None;
    }
    let bytes = HexBytes::new(digits)?;
    Some(Said::Stray {
        moment,
        receiver,
        bytes,
    })
}

fn slots<'a>(moment: u64, operands: &'a [u8]) -> Option<Said<'a>>
    ensures { result ≡ show_with moment (words_of operands.now) }
{
    let mut words = Words::new(operands);
    let word = words.next()?;
    if words.next().is_some() {
        return None;
    }
    let receiver = place(word)?;
    Some(Said::Happens(Happening {
        moment,
        what: Occurrence::Show(receiver),
    }))
}

fn universe(word: &[u8]) -> Option<u16>
    ensures { result ≡ universe_of word.now }
{
    let number = whole(word, u32::from(TOP_UNIVERSE))?;
    if number == 0 {
        return None;
    }
    Some(number as u16)
}

fn place(word: &[u8]) -> Option<u16>
    ensures { result ≡ place_of word.now }
{
    let number = whole(word, 65535)?;
    Some(number as u16)
}

fn cid_of(word: &[u8]) -> Option<[u8; 16]>
    ensures { result ≡ parsed word.now }
{
    match Uuid::try_parse_ascii(word) {
        Ok(cid) => Some(cid.into_bytes()),
        Err(_) => None,
    }
}
