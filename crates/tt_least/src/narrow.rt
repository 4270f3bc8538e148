//! What is left of a node once classes are taken out with which no choice has few enough pairs.

ghost use Rattle.std.specs.Prelude.{◌≡◌, ℕ, ◌+◌, ◌<◌, ◌≤◌, None, true, false, List, length, slice_index_or};
ghost use Rattle.tt_base.specs.Lists.{is_listed};
ghost use Rattle.tt_least.specs.Judged.{IsIn, IsTable, is_allowed};
ghost use Rattle.tt_least.specs.Limits.{most_pairs};
ghost use Rattle.tt_least.specs.Nodes.{HasPlaces, IsNode, IsOf};
ghost use Rattle.tt_least.specs.Prices.{AreGroups, IsBound};
ghost use Rattle.tt_least.specs.Results.{IsInVain, IsNarrowed, IsReady};

use crate::bound::write_costs;
use crate::change::change_price;
use crate::groups::Groups;
use crate::level::Level;
use crate::scratch::Scratch;
use crate::table::Table;

// How often the prices of a table of groups are changed at a node.
const CHANGES: u32 = 4;

// Whether the parent of a class isn't left.
fn is_orphan(table: &Table, level: &Level, class: u32) -> bool
    requires table { IsTable table.now }
    requires places { HasPlaces table.now.size level.now }
    requires class { IsIn table.now class }
    ensures { result ≡ true → (choice : List ℕ) → IsOf table.now level.now choice
        → is_allowed table.now choice ≡ true → is_listed class choice ≡ false }
{
    match table.parent(class) {
        Some(parent) => !table.is_left(level.left.as_slice(), parent),
        None => false,
    }
}

// Takes out the classes whose parent isn't left.
fn drop_orphans(table: &Table, level: &mut Level)
    requires table { IsTable table.now }
    requires places { HasPlaces table.now.size level.old }
    ensures { (limit : ℕ) → IsNarrowed table.now limit level.old level.new }
{
    for class in table.first..table.first + table.count {
        if is_orphan(table, level, class) {
            level.left[(class - table.first) as usize] = false;
        }
    }
}

/// What the choices of a node cost at least: what each class costs, the cheapest class of each
/// subpart that is still to come, their sum with the pairs that are counted, and what of it is owed
/// for prices.
#[derive(Clone, Copy)]
pub(crate) struct Bound<'a> {
    pub costs: &'a [u64],
    pub leasts: &'a [u64],
    pub sum: u64,
    pub owed: u64,
}

// Takes out of a subpart that is still to come the classes that cost so much more than the cheapest
// that each choice with them costs more than the limit.
fn drop_dear_of(
    table: &Table,
    groups: &Groups,
    level: &mut Level,
    bound: Bound,
    part: usize,
    limit: u64,
)
    requires table { IsTable table.now }
    requires groups { AreGroups table.now groups.now }
    requires places { HasPlaces table.now.size level.old }
    requires node { IsNode table.now level.old }
    requires bound { IsBound table.now groups.now level.old bound }
    requires above { bound.sum ≤ limit + bound.owed }
    requires few { limit < most_pairs }
    requires part { part < length table.now.subparts.now }
    requires come { slice_index_or level.old.chosen.items part None ≡ None }
    ensures narrowed { IsNarrowed table.now limit level.old level.new }
    ensures bound { IsBound table.now groups.now level.new bound.entry }
{
    let span = table.subparts[part];
    let least = bound.leasts[part];
    let spare = limit + bound.owed - bound.sum;
    for class in span.first..span.after {
        let place = (class - table.first) as usize;
        if bound.costs[place].saturating_sub(least) > spare {
            level.left[place] = false;
        }
    }
}

// Takes out of each subpart that is still to come the classes with which each choice costs more
// than the limit.
fn drop_dear(table: &Table, groups: &Groups, level: &mut Level, bound: Bound, limit: u64)
    requires table { IsTable table.now }
    requires groups { AreGroups table.now groups.now }
    requires places { HasPlaces table.now.size level.old }
    requires node { IsNode table.now level.old }
    requires bound { IsBound table.now groups.now level.old bound }
    requires above { bound.sum ≤ limit + bound.owed }
    requires few { limit < most_pairs }
    ensures { IsNarrowed table.now limit level.old level.new }
{
    for part in 0..table.subparts.len() {
        if level.chosen[part].is_none() {
            drop_dear_of(table, groups, level, bound, part, limit);
        }
    }
}

// Takes out classes by the prices of one table of groups; `false` where no choice of the node has
// so few pairs.
fn narrow_by(
    table: &Table,
    groups: &Groups,
    level: &mut Level,
    costs: &mut [u64],
    leasts: &mut [u64],
    limit: u64,
) -> bool
    requires table { IsTable table.now }
    requires groups { AreGroups table.now groups.now }
    requires places { HasPlaces table.now.size level.old }
    requires node { IsNode table.now level.old }
    requires costs { length costs.old ≡ table.now.size }
    requires leasts { length leasts.old ≡ table.now.size }
    requires few { limit < most_pairs }
    ensures costs { length costs.new ≡ table.now.size }
    ensures leasts { length leasts.new ≡ table.now.size }
    ensures narrowed { IsNarrowed table.now limit level.old level.new }
    ensures none { result ≡ false
        → IsInVain table.now level.old limit }
{
    let sum = write_costs(table, groups, level, costs, leasts);
    let owed = groups.owed;
    if sum > limit + owed {
        return false;
    }
    let bound = Bound {
        costs,
        leasts,
        sum,
        owed,
    };
    drop_dear(table, groups, level, bound, limit);
    true
}

// The same again and again, as often as prices are changed and the bound rises.
fn narrow_often(
    table: &Table,
    groups: &mut Groups,
    level: &mut Level,
    costs: &mut [u64],
    leasts: &mut [u64],
    limit: u64,
) -> bool
    requires table { IsTable table.now }
    requires groups { AreGroups table.now groups.old }
    requires places { HasPlaces table.now.size level.old }
    requires node { IsNode table.now level.old }
    requires costs { length costs.old ≡ table.now.size }
    requires leasts { length leasts.old ≡ table.now.size }
    requires few { limit < most_pairs }
    ensures groups { AreGroups table.now groups.new }
    ensures narrowed { IsNarrowed table.now limit level.old level.new }
    ensures none { result ≡ false
        → IsInVain table.now level.old limit }
{
    for _ in 0..CHANGES {
        if !narrow_by(table, groups, level, costs, leasts, limit) {
            return false;
        }
        if !change_price(table, groups, level, costs, leasts) {
            return true;
        }
    }
    true
}

/// Takes out classes of a node with which no allowed choice has so few pairs; `false` where none of
/// the node has.
pub(crate) fn narrow(table: &Table, scratch: &mut Scratch, level: &mut Level, limit: u64) -> bool
    requires table { IsTable table.now }
    requires ready { IsReady table.now scratch.old }
    requires places { HasPlaces table.now.size level.old }
    requires node { IsNode table.now level.old }
    requires few { limit < most_pairs }
    ensures ready { IsReady table.now scratch.new }
    ensures best { scratch.new.best.items ≡ scratch.old.best.items }
    ensures narrowed { IsNarrowed table.now limit level.old level.new }
    ensures none { result ≡ false
        → IsInVain table.now level.old limit }
{
    drop_orphans(table, level);
    let costs = scratch.costs.as_mut_slice();
    let leasts = scratch.leasts.as_mut_slice();
    let groups = scratch.groups.as_mut_slice();
    for place in 0..groups.len() {
        if !narrow_often(table, &mut groups[place], level, costs, leasts, limit) {
            return false;
        }
    }
    true
}
