//! A choice with few pairs, found by exchanges: what the search for the fewest begins with.

ghost use Rattle.std.specs.Prelude.{◌≡◌, ℕ, ◌≤◌, ◌<◌, ◌^◌, All, IfSome, true, length, slice_get, take};
ghost use Rattle.tt_problem.specs.Spans.{is_in};
ghost use Rattle.tt_least.specs.Choices.{IsChoice};
ghost use Rattle.tt_least.specs.Judged.{IsIn, IsSized, IsTable};
ghost use Rattle.tt_least.specs.Limits.{most_pairs};
ghost use Rattle.tt_least.specs.Results.{IsReady, IsWithin};

use crate::leaf::{is_within, keep, pairs_of};
use crate::scratch::Scratch;
use crate::table::Table;
use rand_core::Rng;
use rand_pcg::Lcg64Xsh32;

// How often a choice is disturbed and descends again, in how many subparts, and how often at most
// a descent goes over all subparts.
const TIMES: u32 = 50;

const DISTURBED: u32 = 6;

const ROUNDS: u32 = 8;

// What a class of a subpart adds to the classes that a choice has of the others.
fn added(table: &Table, choice: &[u32], part: usize, class: u32) -> u64
    requires sized { IsSized table.now }
    requires choice { All (IsIn table.now) choice.now }
    requires class { IsIn table.now class }
{
    let mut pairs = table.weight(class);
    for other in 0..choice.len() {
        if other != part && table.conflict(class, choice[other]) {
            pairs = pairs.saturating_add(1);
        }
    }
    pairs
}

// The class left of a subpart that adds the fewest pairs to the others of a choice: the one that
// the choice has where none adds fewer.
fn cheapest(table: &Table, left: &[bool], choice: &[u32], part: usize) -> u32
    requires table { IsTable table.now }
    requires left { length left.now ≡ table.now.size }
    requires choice { IsChoice table.now.subparts.now choice.now }
    requires part { part < length table.now.subparts.now }
    ensures { IfSome (slice_get table.now.subparts.now part) (λ s. is_in result s ≡ true) }
{
    let span = table.subparts[part];
    let mut best = choice[part];
    let mut fewest = added(table, choice, part, best);
    for class in span.first..span.after {
        if table.has(left, class) {
            let pairs = added(table, choice, part, class);
            if pairs < fewest {
                fewest = pairs;
                best = class;
            }
        }
    }
    best
}

// Takes the cheapest class of each subpart in turn; whether any is another one.
fn descend_once(table: &Table, left: &[bool], choice: &mut [u32]) -> bool
    requires table { IsTable table.now }
    requires left { length left.now ≡ table.now.size }
    requires choice { IsChoice table.now.subparts.now choice.old }
    ensures { IsChoice table.now.subparts.now choice.new }
{
    let mut is_changed = false;
    for part in 0..table.subparts.len() {
        let class = cheapest(table, left, choice, part);
        is_changed = is_changed || class != choice[part];
        choice[part] = class;
    }
    is_changed
}

// The same again and again, as long as a class is another one.
fn descend(table: &Table, left: &[bool], choice: &mut [u32])
    requires table { IsTable table.now }
    requires left { length left.now ≡ table.now.size }
    requires choice { IsChoice table.now.subparts.now choice.old }
    ensures { IsChoice table.now.subparts.now choice.new }
{
    for _ in 0..ROUNDS {
        if !descend_once(table, left, choice) {
            return;
        }
    }
}

// Takes any class left of any subpart, a few times.
fn disturb(table: &Table, left: &[bool], choice: &mut [u32], random: &mut Lcg64Xsh32)
    requires table { IsTable table.now }
    requires left { length left.now ≡ table.now.size }
    requires choice { IsChoice table.now.subparts.now choice.old }
    requires some { 0 < length table.now.subparts.now }
    ensures { IsChoice table.now.subparts.now choice.new }
{
    for _ in 0..DISTURBED {
        let part = random.next_u32() as usize % table.subparts.len();
        let span = table.subparts[part];
        if span.first < span.after {
            let class = span.first + random.next_u32() % (span.after - span.first);
            if table.has(left, class) {
                choice[part] = class;
            }
        }
    }
}

// Writes at the front of a buffer what is reached from a choice that is disturbed.
fn write_reached(
    table: &Table,
    left: &[bool],
    choice: &[u32],
    random: &mut Lcg64Xsh32,
    front: &mut [u32],
)
    requires table { IsTable table.now }
    requires left { length left.now ≡ table.now.size }
    requires choice { IsChoice table.now.subparts.now choice.now }
    requires some { 0 < length table.now.subparts.now }
    requires front { length choice.now ≤ length front.old }
    ensures { IsChoice table.now.subparts.now (take (length choice.now) front.new) }
{
    let reached = &mut front[..choice.len()];
    reached.copy_from_slice(choice);
    disturb(table, left, reached, random);
    descend(table, left, reached);
}

// Disturbs the best choice and descends from there. Where the choice reached has no more pairs and
// may be chosen, it is the best; how many pairs the best has at most.
fn exchange_once(
    table: &Table,
    scratch: &mut Scratch,
    left: &[bool],
    random: &mut Lcg64Xsh32,
    fewest: u64,
) -> u64
    requires table { IsTable table.now }
    requires ready { IsReady table.now scratch.old }
    requires left { length left.now ≡ table.now.size }
    requires few { fewest < most_pairs }
    requires some { 0 < length table.now.subparts.now }
    requires found { IsWithin table.now left.now fewest
        (take (length table.now.subparts.now) scratch.old.best.items) }
    ensures ready { IsReady table.now scratch.new }
    ensures fewer { result ≤ fewest }
    ensures found { IsWithin table.now left.now result
        (take (length table.now.subparts.now) scratch.new.best.items) }
{
    let parts = table.subparts.len();
    let best = &scratch.best.as_slice()[..parts];
    write_reached(table, left, best, random, scratch.front.as_mut_slice());
    let reached = &scratch.front.as_slice()[..parts];
    if !is_within(table, left, reached, fewest) {
        return fewest;
    }
    keep(reached, scratch.best.as_mut_slice());
    pairs_of(table, reached)
}

/// Finds a choice with so many pairs or fewer by exchanges, from one that is found already; how
/// many it has at most. It stands at the front of the buffer of the best.
pub(crate) fn exchange(table: &Table, scratch: &mut Scratch, left: &[bool], most: u64) -> u64
    requires table { IsTable table.now }
    requires ready { IsReady table.now scratch.old }
    requires left { length left.now ≡ table.now.size }
    requires few { most < most_pairs }
    requires found { IsWithin table.now left.now most
        (take (length table.now.subparts.now) scratch.old.best.items) }
    ensures ready { IsReady table.now scratch.new }
    ensures fewer { result ≤ most }
    ensures found { IsWithin table.now left.now result
        (take (length table.now.subparts.now) scratch.new.best.items) }
{
    let mut fewest = most;
    if table.subparts.is_empty() {
        return fewest;
    }
    let mut random = Lcg64Xsh32::new(1, 1);
    for _ in 0..TIMES {
        fewest = exchange_once(table, scratch, left, &mut random, fewest);
    }
    fewest
}
