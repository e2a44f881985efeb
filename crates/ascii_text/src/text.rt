ghost use Rattle.std.specs.Prelude.{◌≡◌, ◌+◌, ◌<◌, ◌^◌, List, ℕ, length};
ghost use Rattle.std.specs.Iterator.{YieldsFirstBy, item_count};
ghost use Rattle.ascii_text.specs.Text.{lines_of, words_of, numbered_from};

use crate::scan::{position_or_len, separators, word_end};
use std::marker::Model;

/// A line of a text: its number from 1, and its bytes without the LF.
#[derive(Clone, Copy, Debug)]
pub struct Line<'a> {
    pub number: u32,
    pub bytes: &'a [u8],
}

/// The lines of a text that are left: each LF ends one, and bytes after the last LF are one more.
#[derive(Clone, Debug, Drop)]
pub struct Lines<'a> {
    rest: &'a [u8],
    number: u32,
}

impl<'a> Model for Lines<'a> {
    ghost Value = { List (ℕ × List ℕ) };

    ghost view = { λ s. numbered_from (s.number + 1) (lines_of s.rest.now) };

    ghost invariant = { λ s. s.number + length s.rest.now < 2 ^ 32 };
}

impl<'a> Lines<'a> {
    /// All lines of a text below 2^32 bytes, also those past ENDDATA, numbered from 1.
    pub fn new(text: &'a [u8]) -> Self
        requires { length text.now < 2 ^ 32 }
        ensures { result ≡ numbered_from 1 (lines_of text.now) }
    {
        Lines {
            rest: text,
            number: 0,
        }
    }
}

impl<'a> Iterator for Lines<'a> {
    type Item = Line<'a>;

    ghost use Rattle.std.specs.Iterator.{YieldsFirstBy, item_count};
    ghost use Rattle.ascii_text.specs.LinesLeft.{lines_left, line_seen};

    ghost next_gives = { YieldsFirstBy line_seen lines_left };

    ghost remaining = { item_count lines_left };

    fn next(&mut self) -> Option<Line<'a>> {
        if self.rest.is_empty() {
            return None;
        }
        let end = position_or_len(self.rest, b'\n');
        let after = if end < self.rest.len() { end + 1 } else { end };
        let bytes = &self.rest[..end];
        self.rest = &self.rest[after..];
        self.number += 1;
        Some(Line {
            number: self.number,
            bytes,
        })
    }
}

/// The words of a line that are left: the slices between separators, before the first `!`.
#[derive(Clone, Debug, Drop)]
pub struct Words<'a> {
    rest: &'a [u8],
}

impl<'a> Model for Words<'a> {
    ghost Value = { List (List ℕ) };

    ghost view = { λ s. words_of s.rest.now };
}

impl<'a> Words<'a> {
    /// All words of the line.
    pub fn new(line: &'a [u8]) -> Self
        ensures { result ≡ words_of line.now }
    {
        Words { rest: line }
    }

    /// The bytes of the line that have the words that are left.
    pub fn rest(&self) -> &'a [u8]
        ensures { words_of result.now ≡ self.now }
    {
        let bytes = self.rest;
        bytes
    }
}

impl<'a> Iterator for Words<'a> {
    type Item = &'a [u8];

    ghost use Rattle.std.specs.Iterator.{YieldsFirstBy, item_count};
    ghost use Rattle.ascii_text.specs.LinesLeft.{words_left};

    ghost next_gives = { YieldsFirstBy (λ w. w.now) words_left };

    ghost remaining = { item_count words_left };

    fn next(&mut self) -> Option<&'a [u8]> {
        let trimmed = &self.rest[separators(self.rest)..];
        let (word, rest) = trimmed.split_at(word_end(trimmed));
        self.rest = rest;
        if word.is_empty() {
            return None;
        }
        Some(word)
    }
}
