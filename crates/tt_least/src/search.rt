//! Whether a choice has so many pairs or fewer.

ghost use Rattle.std.specs.Prelude.{◌≡◌, ◌≢◌, ℕ, suc, ◌+◌, ◌^◌, ◌<◌, ◌≤◌, All, List, IfOk, IfSome, None, true, false, length, slice_get, slice_index_or, take};
ghost use Rattle.tt_problem.specs.Spans.{is_in};
ghost use Rattle.tt_least.specs.Judged.{IsIn, IsTable, is_allowed, pairs_in};
ghost use Rattle.tt_least.specs.Limits.{most_pairs, most_searched};
ghost use Rattle.tt_least.specs.Nodes.{HasPlaces, IsNode, IsOf, count_to_come};
ghost use Rattle.tt_least.specs.Prices.{HasRoomForGroups};
ghost use Rattle.tt_least.specs.Results.{IsInVain, IsReady, IsWithin, NoneWithin};
ghost use Rattle.tt_least.specs.Searches.{HasRoomToSearch};

use crate::bound::write_costs;
use crate::choose::choose;
use crate::dominate::drop_dominated;
use crate::groups::Groups;
use crate::leaf::keep_choice;
use crate::level::{Level, start};
use crate::narrow::narrow;
use crate::scratch::Scratch;
use crate::table::Table;
use std::alloc::{AllocError, Global};
use tt_problem::Span;

/// What a search works in: a level for each subpart and one more, and which classes may be chosen.
#[derive(Drop)]
pub struct Search {
    pub levels: Vec<Level>,
    pub scratch: Scratch,
    pub left: Vec<bool>,
    pub trial: Vec<bool>,
}

// How many classes are left of a subpart, and how far they are from the cheapest, all together.
#[derive(Clone, Copy)]
struct Spread {
    count: u64,
    above: u64,
}

// What is left of the classes of a span.
fn spread_of(table: &Table, level: &Level, costs: &[u64], span: Span) -> Spread
    requires level { HasPlaces table.now.size level.now }
    requires costs { length costs.now ≡ table.now.size }
    requires from { table.now.first ≤ span.first }
    requires within { span.after ≤ table.now.first + table.now.size }
{
    let mut count: u64 = 0;
    let mut least = u64::MAX;
    let mut sum: u64 = 0;
    for class in span.first..span.after {
        let place = (class - table.first) as usize;
        if level.left[place] {
            count = count.saturating_add(1);
            sum = sum.saturating_add(costs[place]);
            least = least.min(costs[place]);
        }
    }
    Spread {
        count,
        above: sum.saturating_sub(count.saturating_mul(least)),
    }
}

// The subpart whose class is chosen next, where each class costs so much: of those still to come
// the one with the fewest classes left, of equal ones the one whose classes are farthest from the
// cheapest.
fn next_part(table: &Table, level: &Level, costs: &[u64]) -> Option<usize>
    requires table { IsTable table.now }
    requires level { HasPlaces table.now.size level.now }
    requires costs { length costs.now ≡ table.now.size }
    ensures some { IfSome result (λ k. k < length table.now.subparts.now) }
    ensures come { IfSome result (λ k. slice_index_or level.now.chosen.items k None ≡ None) }
    ensures none { result ≡ None → (k : ℕ) → k < length table.now.subparts.now
        → slice_index_or level.now.chosen.items k None ≢ None }
{
    let mut best = None;
    let mut next = Spread { count: 0, above: 0 };
    for part in 0..table.subparts.len() {
        if level.chosen[part].is_none() {
            let spread = spread_of(table, level, costs, table.subparts[part]);
            if best.is_none()
                || spread.count < next.count
                || (spread.count == next.count && spread.above > next.above)
            {
                best = Some(part);
                next = spread;
            }
        }
    }
    best
}

// Writes what each class costs, with the prices of the first table of groups.
fn write_first(table: &Table, scratch: &mut Scratch, level: &Level)
    requires table { IsTable table.now }
    requires ready { IsReady table.now scratch.old }
    requires level { HasPlaces table.now.size level.now }
    requires node { IsNode table.now level.now }
    ensures ready { IsReady table.now scratch.new }
    ensures best { scratch.new.best.items ≡ scratch.old.best.items }
{
    if let Some(groups) = scratch.groups.first() {
        let costs = scratch.costs.as_mut_slice();
        write_costs(table, groups, level, costs, scratch.leasts.as_mut_slice());
    }
}

// Whether an allowed choice of a node has so many pairs or fewer; it then stands at the front of
// the buffer of the best.
#[cycle(seeking)]
fn seek(
    table: &Table,
    scratch: &mut Scratch,
    level: &mut Level,
    deeper: &mut [Level],
    limit: u64,
) -> bool
    requires table { IsTable table.now }
    requires few { limit < most_pairs }
    requires ready { IsReady table.now scratch.old }
    requires places { HasPlaces table.now.size level.old }
    requires node { IsNode table.now level.old }
    requires deeper { All (HasPlaces table.now.size) deeper.old }
    requires room { count_to_come table.now level.old ≤ length deeper.old }
    ensures ready { IsReady table.now scratch.new }
    ensures places { HasPlaces table.now.size level.new }
    ensures deeper { All (HasPlaces table.now.size) deeper.new }
    ensures some { result ≡ true
        → IsWithin table.now level.old.left.items limit
        (take (length table.now.subparts.now) scratch.new.best.items) }
    ensures none { result ≡ false
        → IsInVain table.now level.old limit }
    ensures best { result ≡ false → scratch.new.best.items ≡ scratch.old.best.items }
{
    if !narrow(table, scratch, level, limit) {
        return false;
    }
    write_first(table, scratch, level);
    match next_part(table, level, scratch.costs.as_slice()) {
        None => keep_choice(table, scratch, level, limit),
        Some(part) => seek_below(table, scratch, level, deeper, part, limit),
    }
}

// The same for a node with a subpart whose class is still to come.
#[cycle(seeking)]
fn seek_below(
    table: &Table,
    scratch: &mut Scratch,
    level: &Level,
    deeper: &mut [Level],
    part: usize,
    limit: u64,
) -> bool
    requires table { IsTable table.now }
    requires few { limit < most_pairs }
    requires ready { IsReady table.now scratch.old }
    requires places { HasPlaces table.now.size level.now }
    requires node { IsNode table.now level.now }
    requires part { part < length table.now.subparts.now }
    requires come { slice_index_or level.now.chosen.items part None ≡ None }
    requires deeper { All (HasPlaces table.now.size) deeper.old }
    requires room { count_to_come table.now level.now ≤ length deeper.old }
    ensures ready { IsReady table.now scratch.new }
    ensures deeper { All (HasPlaces table.now.size) deeper.new }
    ensures some { result ≡ true
        → IsWithin table.now level.now.left.items limit
        (take (length table.now.subparts.now) scratch.new.best.items) }
    ensures none { result ≡ false
        → IsInVain table.now level.now limit }
    ensures best { result ≡ false → scratch.new.best.items ≡ scratch.old.best.items }
{
    let Some((child, rest)) = deeper.split_first_mut() else {
        return false;
    };
    let span = table.subparts[part];
    for class in span.first..span.after {
        if seek_with(table, scratch, level, child, rest, part, class, limit) {
            return true;
        }
    }
    false
}

// Whether an allowed choice of a node with a class of that subpart has so many pairs or fewer; it
// then stands there too.
#[cycle(seeking)]
fn seek_with(
    table: &Table,
    scratch: &mut Scratch,
    level: &Level,
    child: &mut Level,
    rest: &mut [Level],
    part: usize,
    class: u32,
    limit: u64,
) -> bool
    requires table { IsTable table.now }
    requires few { limit < most_pairs }
    requires ready { IsReady table.now scratch.old }
    requires places { HasPlaces table.now.size level.now }
    requires node { IsNode table.now level.now }
    requires part { part < length table.now.subparts.now }
    requires come { slice_index_or level.now.chosen.items part None ≡ None }
    requires class { IfSome (slice_get table.now.subparts.now part)
        (λ s. is_in class s ≡ true) }
    requires child { HasPlaces table.now.size child.old }
    requires rest { All (HasPlaces table.now.size) rest.old }
    requires room { count_to_come table.now level.now ≤ suc (length rest.old) }
    ensures ready { IsReady table.now scratch.new }
    ensures child { HasPlaces table.now.size child.new }
    ensures rest { All (HasPlaces table.now.size) rest.new }
    ensures some { result ≡ true
        → IsWithin table.now level.now.left.items limit
        (take (length table.now.subparts.now) scratch.new.best.items) }
    ensures none { result ≡ false → (choice : List ℕ) → IsOf table.now level.now choice
        → slice_index_or choice part 0 ≡ class → is_allowed table.now choice ≡ true
        → limit < pairs_in table.now choice }
    ensures best { result ≡ false → scratch.new.best.items ≡ scratch.old.best.items }
{
    if !table.has(level.left.as_slice(), class) {
        return false;
    }
    choose(table, level, child, part, class);
    seek(table, scratch, child, rest, limit)
}

/// Whether an allowed choice of the classes that are left has so many pairs or fewer; it then
/// stands at the front of the buffer of the best.
pub(crate) fn exists(
    table: &Table,
    scratch: &mut Scratch,
    levels: &mut [Level],
    left: &[bool],
    limit: u64,
) -> bool
    requires table { IsTable table.now }
    requires few { limit < most_pairs }
    requires ready { IsReady table.now scratch.old }
    requires levels { All (HasPlaces table.now.size) levels.old }
    requires room { length table.now.subparts.now < length levels.old }
    requires left { length left.now ≡ table.now.size }
    ensures ready { IsReady table.now scratch.new }
    ensures levels { All (HasPlaces table.now.size) levels.new }
    ensures some { result ≡ true
        → IsWithin table.now left.now limit
        (take (length table.now.subparts.now) scratch.new.best.items) }
    ensures none { result ≡ false
        → NoneWithin table.now left.now limit }
    ensures best { result ≡ false → scratch.new.best.items ≡ scratch.old.best.items }
{
    let Some((root, deeper)) = levels.split_first_mut() else {
        return false;
    };
    start(table, root, left);
    drop_dominated(table, root.left.as_mut_slice());
    seek(table, scratch, root, deeper, limit)
}

// A level with a place for so many classes.
fn new_level(alloc: Global, size: usize) -> Result<Level, AllocError>
    ensures { IfOk result (HasPlaces size) }
{
    Ok(Level {
        left: vec![in alloc; false; size]?,
        to_come: vec![in alloc; false; size]?,
        weights: vec![in alloc; 0; size]?,
        chosen: vec![in alloc; None; size]?,
        pairs: 0,
    })
}

// Groups with a place for so many classes.
fn new_groups(alloc: Global, size: usize) -> Result<Groups, AllocError>
    ensures { IfOk result (HasRoomForGroups size) }
{
    Ok(Groups {
        group_of: vec![in alloc; 0; size]?,
        names: vec![in alloc; 0; size]?,
        count: 0,
        prices: vec![in alloc; 0; size]?,
        owed: 0,
        alone: vec![in alloc; 0; size]?,
        among: vec![in alloc; 0; size]?,
    })
}

// A level for each of so many subparts, and one more.
fn new_levels(alloc: Global, size: usize, parts: usize) -> Result<Vec<Level>, AllocError>
    requires { parts < 2 ^ 32 }
    ensures places { IfOk result (λ levels. All (HasPlaces size) levels.items) }
    ensures deep { IfOk result (λ levels. length levels.items ≡ parts + 1) }
{
    let mut levels = Vec::with_capacity(alloc, parts + 1)?;
    for _ in 0..parts + 1 {
        levels.push(new_level(alloc, size)?)?;
    }
    Ok(levels)
}

impl Search {
    /// Room for configurations of so many classes and so many subparts.
    pub fn new(alloc: Global, size: usize, parts: usize) -> Result<Search, AllocError>
        requires size { size ≤ most_searched }
        requires parts { parts < 2 ^ 32 }
        ensures { IfOk result (HasRoomToSearch size parts) }
    {
        let mut groups = Vec::with_capacity(alloc, 3)?;
        groups.push(new_groups(alloc, size)?)?;
        groups.push(new_groups(alloc, size)?)?;
        groups.push(new_groups(alloc, size)?)?;
        Ok(Search {
            levels: new_levels(alloc, size, parts)?,
            scratch: Scratch {
                groups,
                costs: vec![in alloc; 0; size]?,
                leasts: vec![in alloc; 0; size]?,
                front: vec![in alloc; 0; size]?,
                best: vec![in alloc; 0; size]?,
            },
            left: vec![in alloc; false; size]?,
            trial: vec![in alloc; false; size]?,
        })
    }
}
