ghost use Rattle.std.specs.Prelude.{◌≡◌, ◌++◌, [], None, MatchResult};
ghost use Rattle.std.specs.Iterator.{YieldsFirst, item_count};
ghost use Rattle.ascii_text.specs.LinesLeft.{words_left};
ghost use Rattle.ascii_text.specs.Text.{words_of};
ghost use Rattle.show_line.specs.Faults.{lower};
ghost use Rattle.show_line.specs.Pairs.{desk_limits, triple_fault, triples_in};

use crate::fault::{LineFault, level_fault, lower, number_fault, number_in};
use arrayvec::ArrayVec;
use ascii_text::{Words, level, number};
use show_core::{CHANNELS, DIMMERS};
use std::marker::Model;

// How many triples of a line are kept from the first reading of its words. Most lines have fewer.
const KEPT: usize = 8;

/// A triple of a PATCH line: the channel, from 0 (which leaves the dimmer unpatched) to 4096, the
/// dimmer, from 1 to 8192, and the level byte.
#[derive(Clone, Copy, Debug, Default, PartialEq, Eq)]
pub struct Triple {
    pub channel: u16,
    pub dimmer: u16,
    pub level: u8,
}

/// The triples of a PATCH line that are left, in the order of the line. Its words have no fault.
#[derive(Drop)]
#[derive_where(Debug)]
pub struct Triples<'a> {
    // The first triples, and how many of these were handed out; the others are read again.
    kept: ArrayVec<Triple, KEPT>,
    given: usize,
    #[derive_where(skip)]
    words: Words<'a>,
}

impl<'a> Model for Triples<'a> {
    ghost use Rattle.std.specs.Prelude.{◌≡◌, ◌≤◌, ◌++◌, List, None, drop, length};
    ghost use Rattle.ascii_text.specs.LinesLeft.{words_left};
    ghost use Rattle.show_line.specs.declared.triples.Triple.{Triple};
    ghost use Rattle.show_line.specs.Pairs.{desk_limits, triple_fault, triples_in};

    ghost Value = { List Triple };

    ghost view = { λ triples.
        drop triples.given triples.kept.items ++ triples_in (words_left triples.words) };

    ghost invariant = { λ triples. (triples.given ≤ length triples.kept.items)
        × (triple_fault desk_limits (words_left triples.words) ≡ None) };
}

impl<'a> Triples<'a> {
    /// The triples of the words behind PATCH and its page, or the lowest fault of these.
    pub(crate) fn new(operands: &'a [u8]) -> Result<Triples<'a>, LineFault>
        ensures { MatchResult result
            (λ triples. (triple_fault desk_limits (words_of operands.now) ≡ None)
            × (triples ≡ triples_in (words_of operands.now)))
            (λ fault. triple_fault desk_limits (words_of operands.now) ≡ Some fault) }
    {
        let mut words = Words::new(operands);
        let mut kept = ArrayVec::new();
        let of_first = keep_triples(&mut words, &mut kept);
        match lower(of_first, triple_fault(Words::new(words.rest()))) {
            Some(fault) => Err(fault),
            None => Ok(Triples {
                kept,
                given: 0,
                words,
            }),
        }
    }
}

impl<'a> Iterator for Triples<'a> {
    type Item = Triple;

    ghost next_gives = { YieldsFirst (λ triples. triples) };

    ghost remaining = { item_count (λ triples. triples) };

    fn next(&mut self) -> Option<Triple> {
        if self.given < self.kept.len() {
            let triple = self.kept[self.given];
            self.given += 1;
            return Some(triple);
        }
        let channel = self.words.next()?;
        let dimmer = self.words.next()?;
        let byte = self.words.next()?;
        Some(Triple {
            channel: number(channel).unwrap_or(0) as u16,
            dimmer: number(dimmer).unwrap_or(0) as u16,
            level: level(byte).unwrap_or(0),
        })
    }
}

// Keeps the first triples of the words behind the page, up to one with a fault, and answers that
// fault. The words behind are left.
#[tactic(auto, using(crate::proofs::Lowest::lower_assoc, crate::proofs::Lowest::lower_none))]
fn keep_triples(words: &mut Words<'_>, kept: &mut ArrayVec<Triple, KEPT>) -> Option<LineFault>
    requires { kept.old.items ≡ [] }
    ensures fault { triple_fault desk_limits (words_left words.old)
        ≡ lower result (triple_fault desk_limits (words_left words.new)) }
    ensures triples { result ≡ None
        → triples_in (words_left words.old) ≡ kept.new.items ++ triples_in (words_left words.new) }
{
    while !kept.is_full() {
        let channel = number_in(words.next()?, 0, CHANNELS);
        let Some(dimmer) = words.next() else {
            return lower(channel.err(), Some(LineFault::HalfTriple));
        };
        let dimmer = number_in(dimmer, 1, DIMMERS);
        let Some(byte) = words.next() else {
            return lower(
                lower(channel.err(), dimmer.err()),
                Some(LineFault::HalfTriple),
            );
        };
        let (channel, dimmer) = match (channel, dimmer) {
            (Ok(channel), Ok(dimmer)) => (channel, dimmer),
            (channel, dimmer) => {
                return lower(lower(channel.err(), dimmer.err()), level_fault(byte));
            }
        };
        let Some(level) = level(byte) else {
            return Some(LineFault::BadLevel);
        };
        kept.push(Triple {
            channel,
            dimmer,
            level,
        });
    }
    None
}

// The lowest fault of the words behind the page.
#[tactic(auto, using(crate::proofs::Lowest::lower_assoc, crate::proofs::Lowest::lower_none))]
fn triple_fault(mut words: Words<'_>) -> Option<LineFault>
    ensures { result ≡ triple_fault desk_limits (words_left words.entry) }
{
    let mut lowest = None;
    while let Some(channel) = words.next() {
        let of_channel = number_fault(channel, 0, CHANNELS);
        let of_dimmer = match words.next() {
            Some(dimmer) => number_fault(dimmer, 1, DIMMERS),
            None => Some(LineFault::HalfTriple),
        };
        let of_level = match words.next() {
            Some(level) => level_fault(level),
            None => Some(LineFault::HalfTriple),
        };
        lowest = lower(lowest, lower(lower(of_channel, of_dimmer), of_level));
    }
    lowest
}
