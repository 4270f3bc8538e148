//! The words of a line.

ghost use Rattle.std.specs.Prelude.{◌≡◌, ◌≤◌, ◌<◌, ◌∷◌, length, drop, take, slice_index, false};
ghost use Rattle.std.specs.Iterator.{YieldsFirstBy, item_count};
ghost use Rattle.tt_text.specs.Line.{words_of, is_blank};

use std::marker::Model;

/// The words of a line, parted by spaces and tabs: contracts see the list of those still to come.
#[derive(Drop)]
pub struct Words<'a> {
    line: &'a [u8],
}

impl<'a> Model for Words<'a> {
    ghost use Rattle.std.specs.Prelude.{List, ℕ};
    ghost use Rattle.tt_text.specs.Line.{words_of};

    ghost Value = { List (List ℕ) };

    ghost view = { λ w. words_of w.line.now };
}

impl<'a> Words<'a> {
    /// All words of the line.
    pub fn new(line: &'a [u8]) -> Words<'a>
        ensures { result ≡ words_of line.now }
    {
        Words { line }
    }
}

// Whether a byte is a space or a tab.
fn is_space(c: u8) -> bool
    ensures { result ≡ is_blank c }
{
    c == b' ' || c == b'\t'
}

// The line without the blanks at its front.
fn without_blanks(line: &[u8]) -> &[u8]
    ensures words { words_of result.now ≡ words_of line.now }
    ensures begins { 0 < length result.now → is_blank (slice_index result.now 0) ≡ false }
{
    for (i, c) in line.iter().enumerate() {
        if !is_space(*c) {
            return &line[i..];
        }
    }
    &line[line.len()..]
}

// How many bytes the word at the front has.
fn word_len(line: &[u8]) -> usize
    requires some { 0 < length line.now }
    requires begins { is_blank (slice_index line.now 0) ≡ false }
    ensures within { result ≤ length line.now }
    ensures first { words_of line.now ≡ take result line.now ∷ words_of (drop result line.now) }
{
    for (i, c) in line.iter().enumerate() {
        if is_space(*c) {
            return i;
        }
    }
    line.len()
}

impl<'a> Iterator for Words<'a> {
    type Item = &'a [u8];

    ghost next_gives = { YieldsFirstBy (λ word. word.now) (λ words. words) };

    ghost remaining = { item_count (λ words. words) };

    fn next(&mut self) -> Option<&'a [u8]> {
        let line = without_blanks(self.line);
        if line.is_empty() {
            self.line = line;
            return None;
        }
        let (word, rest) = line.split_at(word_len(line));
        self.line = rest;
        Some(word)
    }
}
