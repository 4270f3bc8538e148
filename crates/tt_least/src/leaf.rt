//! The one choice of a node all of whose classes are chosen.

ghost use Rattle.std.specs.Prelude.{◌≡◌, ◌≢◌, ℕ, ◌<◌, ◌≤◌, All, true, false, min, count_by, length, slice_index_or, take};
ghost use Rattle.std.specs.List.{list_all};
ghost use Rattle.tt_least.specs.Choices.{IsChoice};
ghost use Rattle.tt_least.specs.Judged.{IsTable, IsIn, IsSized, conflict_in, has_parent, is_allowed, is_flagged, pairs_in};
ghost use Rattle.tt_least.specs.Limits.{most_pairs};
ghost use Rattle.tt_least.specs.Nodes.{HasPlaces, IsLeft, IsNode};
ghost use Rattle.tt_least.specs.Results.{IsInVain, IsReady, IsWithin};

use crate::level::Level;
use crate::scratch::Scratch;
use crate::table::Table;

// How many classes of a choice conflict with a class.
fn conflicts_with(table: &Table, class: u32, choice: &[u32]) -> u64
    requires sized { IsSized table.now }
    requires class { IsIn table.now class }
    requires choice { All (IsIn table.now) choice.now }
    ensures { result ≡ count_by (conflict_in table.now class) choice.now }
{
    choice
        .iter()
        .filter(|other| table.conflict(class, **other))
        .count() as u64
}

// How many pairs a choice has, or less where a number can't be so large.
pub(crate) fn pairs_of(table: &Table, choice: &[u32]) -> u64
    requires sized { IsSized table.now }
    requires choice { All (IsIn table.now) choice.now }
    ensures { result ≡ min (pairs_in table.now choice.now) u64.MAX }
{
    let mut pairs: u64 = 0;
    for place in 0..choice.len() {
        let class = choice[place];
        pairs = pairs
            .saturating_add(table.weight(class))
            .saturating_add(conflicts_with(table, class, &choice[place + 1..]));
    }
    pairs
}

// Whether a class has no parent, or its parent is in a choice.
#[tactic(auto, using(tt_base::proofs::ListLemmas::listed_turned))]
fn has_parent(table: &Table, choice: &[u32], class: u32) -> bool
    requires sized { IsSized table.now }
    requires class { IsIn table.now class }
    ensures { result ≡ has_parent table.now choice.now class }
{
    match table.parent(class) {
        None => true,
        Some(parent) => choice.contains(&parent),
    }
}

// Whether each class of a choice has its parent.
fn is_allowed(table: &Table, choice: &[u32]) -> bool
    requires sized { IsSized table.now }
    requires choice { All (IsIn table.now) choice.now }
    ensures { result ≡ is_allowed table.now choice.now }
{
    choice.iter().all(|class| has_parent(table, choice, *class))
}

// Whether each class of a choice is left.
fn are_left(table: &Table, left: &[bool], choice: &[u32]) -> bool
    requires sized { IsSized table.now }
    requires left { length left.now ≡ table.now.size }
    requires choice { All (IsIn table.now) choice.now }
    ensures { result ≡ list_all (is_flagged table.now left.now) choice.now }
{
    choice.iter().all(|class| table.has(left, *class))
}

// Writes the classes that are chosen.
fn write_front(level: &Level, front: &mut [u32], parts: usize)
    requires chosen { parts ≤ length level.now.chosen.items }
    requires front { parts ≤ length front.old }
    requires all { (k : ℕ) → k < parts
        → slice_index_or level.now.chosen.items k None ≢ None }
    ensures { (k : ℕ) → k < parts
        → slice_index_or level.now.chosen.items k None ≡ Some (slice_index_or front.new k 0) }
{
    for part in 0..parts {
        if let Some(class) = level.chosen[part] {
            front[part] = class;
        }
    }
}

/// Whether a choice is of what is left, allowed, and has so many pairs or fewer.
pub(crate) fn is_within(table: &Table, left: &[bool], choice: &[u32], limit: u64) -> bool
    requires table { IsTable table.now }
    requires left { length left.now ≡ table.now.size }
    requires choice { IsChoice table.now.subparts.now choice.now }
    requires few { limit < most_pairs }
    ensures yes { result ≡ true → IsWithin table.now left.now limit choice.now }
    ensures no { result ≡ false → IsLeft table.now left.now choice.now
        → is_allowed table.now choice.now ≡ true → limit < pairs_in table.now choice.now }
{
    are_left(table, left, choice) && pairs_of(table, choice) <= limit && is_allowed(table, choice)
}

/// Writes a choice at the front of a buffer.
pub(crate) fn keep(choice: &[u32], best: &mut [u32])
    requires { length choice.now ≤ length best.old }
    ensures { take (length choice.now) best.new ≡ choice.now }
{
    best[..choice.len()].copy_from_slice(choice);
}

/// Keeps the one choice of a node all of whose classes are chosen, where it is allowed and has so
/// many pairs or fewer.
pub(crate) fn keep_choice(table: &Table, scratch: &mut Scratch, level: &Level, limit: u64) -> bool
    requires table { IsTable table.now }
    requires ready { IsReady table.now scratch.old }
    requires places { HasPlaces table.now.size level.now }
    requires few { limit < most_pairs }
    requires chosen { (k : ℕ) → k < length table.now.subparts.now
        → slice_index_or level.now.chosen.items k None ≢ None }
    requires node { IsNode table.now level.now }
    ensures ready { IsReady table.now scratch.new }
    ensures some { result ≡ true
        → IsWithin table.now level.now.left.items limit
        (take (length table.now.subparts.now) scratch.new.best.items) }
    ensures none { result ≡ false
        → IsInVain table.now level.now limit }
    ensures best { result ≡ false → scratch.new.best.items ≡ scratch.old.best.items }
{
    let parts = table.subparts.len();
    write_front(level, scratch.front.as_mut_slice(), parts);
    let choice = &scratch.front.as_slice()[..parts];
    if !is_within(table, level.left.as_slice(), choice, limit) {
        return false;
    }
    keep(choice, scratch.best.as_mut_slice());
    true
}
