//! Flags by number. `count` is how many are set, and `nth` the number of the one at a place among
//! those that are set, found in few steps.
#![tactic(auto)]

ghost use Rattle.std.specs.Prelude.{◌≡◌, ◌-◌, ◌<◌, ◌^◌, length, replicate, slice_get, slice_set, IfOk, false};
ghost use Rattle.std.specs.List.{filter, range_with_len};
ghost use Rattle.tt_flags.specs.Places.{is_set, set_places};

use std::alloc::{AllocError, Global};
use std::marker::Model;

/// A list of flags, with the number of those that are set in each block of 128. A change costs a few
/// sums, and a look-up a step for each block and for each flag of one block.
#[derive(Drop)]
pub struct Flags {
    flags: Vec<bool>,
    counts: Vec<u32>,
    count: u32,
}

impl Model for Flags {
    ghost use Rattle.std.specs.Prelude.{List, Bool};
    ghost use Rattle.tt_flags.specs.Counted.{FlagsAreCounted};

    ghost Value = { List Bool };

    ghost view = { λ f. f.flags.items };

    ghost invariant = { λ f. FlagsAreCounted f.flags.items f.counts.items f.count };
}

// The number of the flag at a place among those that are set from one flag on.
fn nth_from(flags: &[bool], first: usize, place: u64) -> Option<u32>
    requires few { length flags.now < 2 ^ 32 }
    ensures number { result
        ≡ slice_get (filter (is_set flags.now) (range_with_len first (length flags.now - first)))
        place }
{
    let mut left = place;
    for number in first..flags.len() {
        if flags[number] {
            if left == 0 {
                return Some(number as u32);
            }
            left -= 1;
        }
    }
    None
}

impl Flags {
    /// So many flags, none of which is set.
    pub fn new(alloc: Global, len: u32) -> Result<Flags, AllocError>
        ensures flags { IfOk result (λ f. f ≡ replicate len false) }
    {
        let flags = vec![in alloc; false; len as usize]?;
        let counts = vec![in alloc; 0; len as usize / 128 + 1]?;
        Ok(Flags {
            flags,
            counts,
            count: 0,
        })
    }

    /// How many are set.
    pub fn count(&self) -> u32
        ensures count { result ≡ length (set_places self.now) }
    {
        self.count
    }

    /// Sets a flag or clears it.
    pub fn set(&mut self, number: u32, flag: bool)
        requires number { number < length self.old }
        ensures flags { self.new ≡ slice_set self.old number flag }
    {
        let number = number as usize;
        let block = number / 128;
        let less = u32::from(self.flags[number]);
        let more = u32::from(flag);
        self.counts[block] = self.counts[block] - less + more;
        self.count = self.count - less + more;
        self.flags[number] = flag;
    }

    /// The number of the flag at a place among those that are set, in their order and counted from 0;
    /// none where fewer are set.
    pub fn nth(&self, place: u64) -> Option<u32>
        ensures number { result ≡ slice_get (set_places self.now) place }
    {
        let mut left = place;
        let mut first = 0;
        for count in &self.counts {
            if left < u64::from(*count) {
                return nth_from(&self.flags, first, left);
            }
            left -= u64::from(*count);
            first += 128;
        }
        None
    }
}
