ghost use Rattle.std.specs.Prelude.{◌≡◌, ◌++◌, [], None, MatchResult, OnOk, OnErr, IsOk, drop};
ghost use Rattle.std.specs.Iterator.{YieldsFirst, item_count};
ghost use Rattle.ascii_text.specs.LinesLeft.{words_left};
ghost use Rattle.ascii_text.specs.Text.{words_of};
ghost use Rattle.show_line.specs.Faults.{lower};
ghost use Rattle.show_line.specs.Pairs.{desk_limits, pair_fault, pairs_in};

use crate::fault::{LineFault, level_fault, lower, number_fault, number_in};
use arrayvec::ArrayVec;
use ascii_text::{Words, level, number};
use show_core::CHANNELS;
use std::alloc::AllocError;
use std::marker::Model;

// How many pairs of a line are kept from the first reading of its words. Most lines have fewer.
const KEPT: usize = 16;

/// The pairs of a CHAN line that are left: channel, from 1 to 4096, and level byte, in the order of
/// the line. Its words have no fault.
#[derive(Drop)]
#[derive_where(Debug)]
pub struct Pairs<'a> {
    // The first pairs, and how many of these were handed out; the others are read again.
    kept: ArrayVec<(u16, u8), KEPT>,
    given: usize,
    #[derive_where(skip)]
    words: Words<'a>,
}

impl<'a> Model for Pairs<'a> {
    ghost use Rattle.std.specs.Prelude.{◌≡◌, ◌≤◌, ◌++◌, ℕ, List, None, drop, length};
    ghost use Rattle.ascii_text.specs.LinesLeft.{words_left};
    ghost use Rattle.show_line.specs.Pairs.{desk_limits, pair_fault, pairs_in};

    ghost Value = { List (ℕ × ℕ) };

    ghost view = { λ pairs.
        drop pairs.given pairs.kept.items ++ pairs_in (words_left pairs.words) };

    ghost invariant = { λ pairs. (pairs.given ≤ length pairs.kept.items)
        × (pair_fault desk_limits (words_left pairs.words) ≡ None) };
}

impl<'a> Pairs<'a> {
    /// The pairs of the words behind CHAN, or the lowest fault of these.
    pub(crate) fn new(operands: &'a [u8]) -> Result<Pairs<'a>, LineFault>
        ensures { MatchResult result
            (λ pairs. (pair_fault desk_limits (words_of operands.now) ≡ None)
            × (pairs ≡ pairs_in (words_of operands.now)))
            (λ fault. pair_fault desk_limits (words_of operands.now) ≡ Some fault) }
    {
        let mut words = Words::new(operands);
        let mut kept = ArrayVec::new();
        let of_first = keep_pairs(&mut words, &mut kept);
        match lower(of_first, pair_fault(Words::new(words.rest()))) {
            Some(fault) => Err(fault),
            None => Ok(Pairs {
                kept,
                given: 0,
                words,
            }),
        }
    }

    /// Puts the pairs behind those of a list.
    ///
    /// # Errors
    ///
    /// If an allocation failed; then none of them stands there.
    pub fn append_to(mut self, list: &mut Vec<(u16, u8)>) -> Result<(), AllocError>
        ensures ok { OnOk result (list.new.items ≡ list.old.items ++ self.entry) }
        ensures unchanged { OnErr result (list.new.items ≡ list.old.items) }
        ensures sure { self.entry ≡ [] → IsOk result }
    {
        let before = list.len();
        list.extend_from_slice(&self.kept[self.given..])?;
        self.given = self.kept.len();
        for pair in self {
            if list.push(pair).is_err() {
                list.truncate(before);
                return Err(AllocError);
            }
        }
        Ok(())
    }
}

impl<'a> Iterator for Pairs<'a> {
    type Item = (u16, u8);

    ghost next_gives = { YieldsFirst (λ pairs. pairs) };

    ghost remaining = { item_count (λ pairs. pairs) };

    fn next(&mut self) -> Option<(u16, u8)> {
        if self.given < self.kept.len() {
            let pair = self.kept[self.given];
            self.given += 1;
            return Some(pair);
        }
        let channel = self.words.next()?;
        let byte = self.words.next()?;
        Some((
            number(channel).unwrap_or(0) as u16,
            level(byte).unwrap_or(0),
        ))
    }
}

// Keeps the first pairs of the words of CHAN, up to one with a fault, and answers that fault. The
// words behind are left.
fn keep_pairs(words: &mut Words<'_>, kept: &mut ArrayVec<(u16, u8), KEPT>) -> Option<LineFault>
    requires { kept.old.items ≡ [] }
    ensures fault { pair_fault desk_limits (words_left words.old)
        ≡ lower result (pair_fault desk_limits (words_left words.new)) }
    ensures pairs { result ≡ None
        → pairs_in (words_left words.old) ≡ kept.new.items ++ pairs_in (words_left words.new) }
{
    while !kept.is_full() {
        // Read before the next word is looked for: the processor then still foresees its length.
        let channel = number_in(words.next()?, 1, CHANNELS);
        let Some(byte) = words.next() else {
            return lower(channel.err(), Some(LineFault::HalfPair));
        };
        let channel = match channel {
            Ok(channel) => channel,
            Err(fault) => return lower(Some(fault), level_fault(byte)),
        };
        let Some(byte) = level(byte) else {
            return Some(LineFault::BadLevel);
        };
        kept.push((channel, byte));
    }
    None
}

// The lowest fault of the words of CHAN.
#[tactic(auto, using(crate::proofs::Lowest::lower_assoc, crate::proofs::Lowest::lower_none))]
fn pair_fault(mut words: Words<'_>) -> Option<LineFault>
    ensures { result ≡ pair_fault desk_limits (words_left words.entry) }
{
    let mut lowest = None;
    while let Some(channel) = words.next() {
        let of_channel = number_fault(channel, 1, CHANNELS);
        let of_level = match words.next() {
            Some(level) => level_fault(level),
            None => Some(LineFault::HalfPair),
        };
        lowest = lower(lowest, lower(of_channel, of_level));
    }
    lowest
}
