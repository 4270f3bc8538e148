//! Sets of weeks.
#![tactic(auto, using(tt_base::proofs::SetLemmas::set_words))]

ghost use Rattle.std.specs.Prelude.{ℕ, ◌≡◌, ◌<◌, ◌≤◌, ◌^◌, ◌==◌, ◌&&◌, IfOk, IfSome, nat_lt, slice_index, string_bytes};
ghost use Rattle.std.specs.Option.{option_map};
ghost use Rattle.tt_base.specs.Sets.{has, share, within, first, count, read_set};

use crate::reading::{read_bits, word_bits};
use crate::words::BitWord;
use crate::writing::set_text;
use std::alloc::{AllocError, Global};

/// A set of weeks of the term that is not empty. Week 0 is the first week, and 128 is the most
/// that a set has.
#[derive(Clone, Copy, Debug, PartialEq, Eq)]
pub struct Weeks {
    bits: u128,
    ghost not_empty: { 0 < bits },
    ghost in_range: { bits < 2 ^ 128 },
}

impl Weeks {
    ghost use Rattle.tt_bits.specs.Sets.{week_set, set_text, weeks_text, weeks_word};
    ghost use Rattle.tt_bits.specs.BitWords.{word_set};

    /// The weeks of a text of `n` characters 0 and 1, as in the format of ITC 2019: the leftmost
    /// is for week 0, and a 1 says that the week is in the set. `None` where the length is
    /// another, a character is another, or no 1 stands in it.
    pub fn read(text: &str, n: u8) -> Option<Weeks>
        requires { n ≤ 128 }
        ensures set { option_map week_set result ≡ read_set text.now n }
        ensures weeks { result ≡ weeks_text text.now n }
        // A week is in the set exactly where its character is 1.
        ensures places { IfSome result
            (λ weeks. (week : ℕ) → has (week_set weeks) week ≡ (slice_index text.now week == 49)) }
        ensures in_range { IfSome result (λ weeks. week_set weeks < 2 ^ n) }
    {
        let bits = read_bits(text, n)?;
        Some(Weeks { bits })
    }

    /// The weeks of a word of `n` characters, its first for week 0. `None` where it has another number
    /// of characters, or none of them is a 1.
    pub fn of_word(word: BitWord, n: u8) -> Option<Weeks>
        requires { n ≤ 128 }
        ensures set { option_map week_set result ≡ word_set word n }
        ensures weeks { result ≡ weeks_word word n }
        // A week is in the set exactly where it is below n and its character is 1.
        ensures places { IfSome result (λ weeks.
            (week : ℕ) → has (week_set weeks) week ≡ (nat_lt week n && has word.bits week)) }
        ensures in_range { IfSome result (λ weeks. week_set weeks < 2 ^ n) }
    {
        let bits = word_bits(word, n)?;
        Some(Weeks { bits })
    }

    /// The set as bits: bit i is 1 where week i is in the set.
    pub fn bits(&self) -> u128
        ensures { result ≡ week_set self.now }
    {
        self.bits
    }

    /// Whether the week is in the set.
    pub fn has(&self, week: u8) -> bool
        requires { week < 128 }
        ensures { result ≡ has (week_set self.now) week }
    {
        (self.bits >> week) & 1 == 1
    }

    /// Whether some week is in both sets.
    pub fn share(&self, other: Weeks) -> bool
        ensures { result ≡ share (week_set self.now) (week_set other) }
    {
        self.bits & other.bits != 0
    }

    /// Whether each week of this set is in the other.
    pub fn within(&self, other: Weeks) -> bool
        ensures { result ≡ within (week_set self.now) (week_set other) }
    {
        self.bits & other.bits == self.bits
    }

    /// The first week of the set.
    pub fn first(&self) -> u8
        ensures first { result ≡ first (week_set self.now) }
        ensures in_range { result < 128 }
    {
        self.bits.trailing_zeros() as u8
    }

    /// How many weeks are in the set.
    pub fn count(&self) -> u8
        ensures count { result ≡ count (week_set self.now) }
        ensures not_empty { 1 ≤ result }
        ensures in_range { result ≤ 128 }
    {
        self.bits.count_ones() as u8
    }

    /// The text of `n` weeks, a 1 for each that is in the set, the leftmost for week 0.
    pub fn text(&self, alloc: Global, n: u8) -> Result<String, AllocError>
        requires { n ≤ 128 }
        ensures { IfOk result (λ text. string_bytes text ≡ set_text n (week_set self.now)) }
    {
        set_text(alloc, self.bits, n)
    }
}
