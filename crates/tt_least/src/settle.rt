//! The least choice.

ghost use Rattle.std.specs.Prelude.{◌≡◌, ℕ, ◌+◌, ◌<◌, ◌≤◌, List, IfSome, true, false, length, slice_get, slice_index_or};
ghost use Rattle.tt_problem.specs.Spans.{is_in};
ghost use Rattle.tt_least.specs.Judged.{IsTable, is_allowed, pairs_in};
ghost use Rattle.tt_least.specs.Limits.{most_pairs};
ghost use Rattle.tt_least.specs.Nodes.{IsLeft};
ghost use Rattle.tt_least.specs.Prices.{AreGroups, HasRoomForGroups};
ghost use Rattle.tt_least.specs.Results.{IsLeast, IsWithin, NoneWithin};
ghost use Rattle.tt_least.specs.Searches.{HasRoomToSearch, IsAlone, IsReadyToSearch, IsSettled, found_in};

use crate::exchange::exchange;
use crate::gather::{gather_from_first, gather_from_last, gather_round_fewest, list_names};
use crate::groups::Groups;
use crate::search::{Search, exists};
use crate::table::Table;
use tt_problem::Span;

// Leaves of a span a class alone.
fn leave_alone(left: &mut [bool], first: u32, span: Span, class: u32)
    requires from { first ≤ span.first }
    requires within { span.after ≤ first + length left.old }
    requires class { is_in class span ≡ true }
    ensures { IsAlone first span class left.old left.new }
{
    for place in (span.first - first) as usize..(span.after - first) as usize {
        if place != (class - first) as usize {
            left[place] = false;
        }
    }
}

// Whether a choice of what is left with a class of a subpart has so many pairs or fewer.
fn exists_with(table: &Table, search: &mut Search, part: usize, class: u32, limit: u64) -> bool
    requires table { IsTable table.now }
    requires ready { IsReadyToSearch table.now search.old }
    requires few { limit < most_pairs }
    requires part { part < length table.now.subparts.now }
    requires class { IfSome (slice_get table.now.subparts.now part) (λ s. is_in class s ≡ true) }
    ensures ready { IsReadyToSearch table.now search.new }
    ensures left { search.new.left.items ≡ search.old.left.items }
    ensures some { result ≡ true
        → IsWithin table.now search.old.left.items limit (found_in table.now search.new) }
    ensures with { result ≡ true
        → slice_index_or search.new.scratch.best.items part 0 ≡ class }
    ensures none { result ≡ false
        → (choice : List ℕ)
        → IsLeft table.now search.old.left.items choice
        → slice_index_or choice part 0 ≡ class
        → is_allowed table.now choice ≡ true
        → limit < pairs_in table.now choice }
    ensures best { result ≡ false
        → search.new.scratch.best.items ≡ search.old.scratch.best.items }
{
    if !table.has(search.left.as_slice(), class) {
        return false;
    }
    let trial = search.trial.as_mut_slice();
    trial.copy_from_slice(search.left.as_slice());
    leave_alone(trial, table.first, table.subparts[part], class);
    exists(
        table,
        &mut search.scratch,
        search.levels.as_mut_slice(),
        search.trial.as_slice(),
        limit,
    )
}

// Finds a choice of what is left with so many pairs or fewer that has the first class of a subpart
// that such a choice can have. One such choice is found already.
fn seek_first(table: &Table, search: &mut Search, part: usize, limit: u64)
    requires table { IsTable table.now }
    requires ready { IsReadyToSearch table.now search.old }
    requires few { limit < most_pairs }
    requires part { part < length table.now.subparts.now }
    requires found { IsWithin table.now search.old.left.items limit
        (found_in table.now search.old) }
    ensures ready { IsReadyToSearch table.now search.new }
    ensures left { search.new.left.items ≡ search.old.left.items }
    ensures found { IsWithin table.now search.old.left.items limit (found_in table.now search.new) }
    ensures first { (choice : List ℕ) → IsWithin table.now search.old.left.items limit choice
        → slice_index_or search.new.scratch.best.items part 0 ≤ slice_index_or choice part 0 }
{
    let found = search.scratch.best[part];
    for class in table.subparts[part].first..found {
        if exists_with(table, search, part, class, limit) {
            return;
        }
    }
}

// Finds such a choice, and leaves its class of the subpart alone there.
fn settle(table: &Table, search: &mut Search, part: usize, limit: u64)
    requires table { IsTable table.now }
    requires ready { IsReadyToSearch table.now search.old }
    requires few { limit < most_pairs }
    requires part { part < length table.now.subparts.now }
    requires found { IsWithin table.now search.old.left.items limit
        (found_in table.now search.old) }
    ensures ready { IsReadyToSearch table.now search.new }
    ensures found { IsWithin table.now search.new.left.items limit (found_in table.now search.new) }
    ensures settled { IsSettled table.now part limit search.old search.new }
{
    seek_first(table, search, part, limit);
    let class = search.scratch.best[part];
    leave_alone(
        search.left.as_mut_slice(),
        table.first,
        table.subparts[part],
        class,
    );
}

// Settles each subpart, in their order. The choice that is found at last is the first of those with
// the fewest pairs, of which one is found already.
fn settle_all(table: &Table, search: &mut Search, limit: u64)
    requires table { IsTable table.now }
    requires ready { IsReadyToSearch table.now search.old }
    requires few { limit < most_pairs }
    requires found { IsWithin table.now search.old.left.items limit
        (found_in table.now search.old) }
    requires fewest { (choice : List ℕ) → IsLeft table.now search.old.left.items choice
        → is_allowed table.now choice ≡ true → limit ≤ pairs_in table.now choice }
    ensures ready { IsReadyToSearch table.now search.new }
    ensures least { IsLeast table.now search.old.left.items (found_in table.now search.new) }
    ensures pairs { limit ≡ pairs_in table.now (found_in table.now search.new) }
{
    for part in 0..table.subparts.len() {
        settle(table, search, part, limit);
    }
}

// The fewest pairs of a choice of what is left, of which one is found already. What exchanges find
// has mostly the fewest, so that limits just below are asked first.
fn fewest(table: &Table, search: &mut Search, most: u64) -> u64
    requires table { IsTable table.now }
    requires ready { IsReadyToSearch table.now search.old }
    requires few { most < most_pairs }
    requires found { IsWithin table.now search.old.left.items most (found_in table.now search.old) }
    ensures ready { IsReadyToSearch table.now search.new }
    ensures left { search.new.left.items ≡ search.old.left.items }
    ensures few { result ≤ most }
    ensures found { IsWithin table.now search.old.left.items result
        (found_in table.now search.new) }
    ensures fewest { (choice : List ℕ) → IsLeft table.now search.old.left.items choice
        → is_allowed table.now choice ≡ true → result ≤ pairs_in table.now choice }
{
    let mut low = 0;
    let mut high = exchange(table, &mut search.scratch, search.left.as_slice(), most);
    let mut step: u64 = 1;
    while low < high {
        let middle = (low + (high - low) / 2).max(high.saturating_sub(step));
        if exists(
            table,
            &mut search.scratch,
            search.levels.as_mut_slice(),
            search.left.as_slice(),
            middle,
        ) {
            high = middle;
            step = step.saturating_mul(2);
        } else {
            low = middle + 1;
        }
    }
    high
}

/// The fewest pairs of an allowed choice of what is left, if one has so many or fewer. The first
/// with the fewest then stands at the front of the buffer of the best.
pub fn least(table: &Table, search: &mut Search, most: u64) -> Option<u64>
    requires table { IsTable table.now }
    requires room { HasRoomToSearch table.now.size (length table.now.subparts.now) search.old }
    requires few { most < most_pairs }
    ensures room { HasRoomToSearch table.now.size (length table.now.subparts.now) search.new }
    ensures least { IfSome result
        (λ pairs. IsLeast table.now search.old.left.items (found_in table.now search.new)) }
    ensures pairs { IfSome result
        (λ pairs. pairs ≡ pairs_in table.now (found_in table.now search.new)) }
    ensures most { IfSome result (λ pairs. pairs ≤ most) }
    ensures none { result ≡ None → NoneWithin table.now search.old.left.items most }
{
    gather(table, search);
    if !exists(
        table,
        &mut search.scratch,
        search.levels.as_mut_slice(),
        search.left.as_slice(),
        most,
    ) {
        return None;
    }
    let pairs = fewest(table, search, most);
    settle_all(table, search, pairs);
    Some(pairs)
}

// Gathers the classes into groups, in as many ways as there are tables of groups.
fn gather(table: &Table, search: &mut Search)
    requires table { IsTable table.now }
    requires room { HasRoomToSearch table.now.size (length table.now.subparts.now) search.old }
    ensures ready { IsReadyToSearch table.now search.new }
    ensures left { search.new.left.items ≡ search.old.left.items }
{
    for place in 0..search.scratch.groups.len() {
        gather_at(
            table,
            &mut search.scratch.groups[place],
            search.trial.as_mut_slice(),
            place,
        );
    }
}

// The same in the way of the table of groups at a place.
fn gather_at(table: &Table, groups: &mut Groups, waiting: &mut [bool], place: usize)
    requires table { IsTable table.now }
    requires room { HasRoomForGroups table.now.size groups.old }
    requires waiting { length waiting.old ≡ table.now.size }
    ensures { AreGroups table.now groups.new }
{
    match place {
        0 => gather_round_fewest(table, groups, waiting),
        1 => gather_from_last(table, groups),
        _ => gather_from_first(table, groups),
    }
    list_names(table, groups);
}
