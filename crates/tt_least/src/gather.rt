//! How classes that all conflict with one another are gathered into groups.

ghost use Rattle.std.specs.Prelude.{◌≡◌, ℕ, ◌<◌, true, length, IfSome};
ghost use Rattle.tt_least.specs.Judged.{IsIn, IsMutual, IsSized, conflict_in};
ghost use Rattle.tt_least.specs.Prices.{AreGroups, HasRoomForGroups, group_in};

use crate::change::owed;
use crate::groups::Groups;
use crate::table::Table;

// Puts each class into a group of its own, with price 0.
fn part_all(table: &Table, groups: &mut Groups)
    requires sized { IsSized table.now }
    requires both_ways { IsMutual table.now }
    requires room { HasRoomForGroups table.now.size groups.old }
    ensures { AreGroups table.now groups.new }
{
    groups.prices.as_mut_slice().fill(0);
    groups.owed = owed(groups.prices.as_slice());
    groups.count = 0;
    for place in 0..table.size {
        groups.group_of[place as usize] = place;
        groups.names[place as usize] = place;
    }
}

// Whether a class conflicts with each class of a group.
fn fits(table: &Table, groups: &Groups, class: u32, group: u32) -> bool
    requires sized { IsSized table.now }
    requires groups { AreGroups table.now groups.now }
    requires class { IsIn table.now class }
    ensures { result ≡ true → (d : ℕ) → IsIn table.now d
        → group_in table.now groups.now d ≡ group → conflict_in table.now class d ≡ true }
{
    let row = table.row(class);
    for place in 0..table.count as usize {
        if groups.group_of[place] == group && !row[place] {
            return false;
        }
    }
    true
}

// Puts a class into a group, where it conflicts with each class of it; whether it does.
fn join(table: &Table, groups: &mut Groups, class: u32, group: u32) -> bool
    requires sized { IsSized table.now }
    requires both_ways { IsMutual table.now }
    requires groups { AreGroups table.now groups.old }
    requires class { IsIn table.now class }
    requires group { group < table.now.size }
    ensures { AreGroups table.now groups.new }
{
    let is_joined = fits(table, groups, class, group);
    if is_joined {
        groups.group_of[(class - table.first) as usize] = group;
    }
    is_joined
}

// Whether a class is the one round which a group is gathered.
fn is_seed(groups: &Groups, place: u32) -> bool
    requires { place < length groups.now.group_of.items }
{
    groups.group_of[place as usize] == place
}

/// Lists the groups by their names.
pub(crate) fn list_names(table: &Table, groups: &mut Groups)
    requires groups { AreGroups table.now groups.old }
    ensures { AreGroups table.now groups.new }
{
    let mut count = 0;
    for place in 0..table.size {
        if is_seed(groups, place) {
            groups.names[count] = place;
            count += 1;
        }
    }
    groups.count = count;
}

// Puts a class into the group of the last class behind it with all of which it conflicts, if there
// is one.
fn join_behind(table: &Table, groups: &mut Groups, place: u32)
    requires sized { IsSized table.now }
    requires both_ways { IsMutual table.now }
    requires groups { AreGroups table.now groups.old }
    requires place { place < table.now.count }
    ensures { AreGroups table.now groups.new }
{
    let mut seed = table.count;
    while seed > place + 1 {
        seed -= 1;
        if is_seed(groups, seed) && join(table, groups, table.first + place, seed) {
            return;
        }
    }
}

/// Gathers groups from the last class on: each class goes into the first group with all of which it
/// conflicts, the groups of later classes first.
pub(crate) fn gather_from_last(table: &Table, groups: &mut Groups)
    requires sized { IsSized table.now }
    requires both_ways { IsMutual table.now }
    requires room { HasRoomForGroups table.now.size groups.old }
    ensures { AreGroups table.now groups.new }
{
    part_all(table, groups);
    let mut place = table.count;
    while place > 0 {
        place -= 1;
        join_behind(table, groups, place);
    }
}

// Puts a class into the group of the first class before it with all of which it conflicts, if there
// is one.
fn join_before(table: &Table, groups: &mut Groups, place: u32)
    requires sized { IsSized table.now }
    requires both_ways { IsMutual table.now }
    requires groups { AreGroups table.now groups.old }
    requires place { place < table.now.count }
    ensures { AreGroups table.now groups.new }
{
    for seed in 0..place {
        if is_seed(groups, seed) && join(table, groups, table.first + place, seed) {
            return;
        }
    }
}

/// Gathers groups from the first class on: each class goes into the first group with all of which
/// it conflicts, the groups of earlier classes first.
pub(crate) fn gather_from_first(table: &Table, groups: &mut Groups)
    requires sized { IsSized table.now }
    requires both_ways { IsMutual table.now }
    requires room { HasRoomForGroups table.now.size groups.old }
    ensures { AreGroups table.now groups.new }
{
    part_all(table, groups);
    for place in 0..table.count {
        join_before(table, groups, place);
    }
}

// How many classes that are waiting for a group conflict with a class.
fn conflicts_waiting(table: &Table, waiting: &[bool], class: u32) -> usize
    requires sized { IsSized table.now }
    requires waiting { length waiting.now ≡ table.now.size }
    requires class { IsIn table.now class }
{
    let row = table.row(class);
    row.iter()
        .zip(waiting)
        .filter(|(conflicts, waits)| **conflicts && **waits)
        .count()
}

// The class waiting for a group that conflicts with the fewest others that wait, and the first of
// equal ones, if any waits.
fn next_seed(table: &Table, waiting: &[bool]) -> Option<u32>
    requires sized { IsSized table.now }
    requires waiting { length waiting.now ≡ table.now.size }
    ensures { IfSome result (λ place. place < table.now.count) }
{
    let mut best = None;
    let mut fewest = usize::MAX;
    for place in 0..table.count {
        if waiting[place as usize] {
            let conflicts = conflicts_waiting(table, waiting, table.first + place);
            if conflicts < fewest {
                fewest = conflicts;
                best = Some(place);
            }
        }
    }
    best
}

// Gathers a group round a class: each class that waits and conflicts with all of the group so far.
fn gather_round(table: &Table, groups: &mut Groups, waiting: &mut [bool], seed: u32)
    requires sized { IsSized table.now }
    requires both_ways { IsMutual table.now }
    requires groups { AreGroups table.now groups.old }
    requires waiting { length waiting.old ≡ table.now.size }
    requires seed { seed < table.now.count }
    ensures { AreGroups table.now groups.new }
{
    waiting[seed as usize] = false;
    for place in 0..table.count {
        if waiting[place as usize] && join(table, groups, table.first + place, seed) {
            waiting[place as usize] = false;
        }
    }
}

/// Gathers groups round the class that conflicts with the fewest that are left, again and again.
pub(crate) fn gather_round_fewest(table: &Table, groups: &mut Groups, waiting: &mut [bool])
    requires sized { IsSized table.now }
    requires both_ways { IsMutual table.now }
    requires room { HasRoomForGroups table.now.size groups.old }
    requires waiting { length waiting.old ≡ table.now.size }
    ensures { AreGroups table.now groups.new }
{
    part_all(table, groups);
    waiting.fill(true);
    for _ in 0..table.count {
        let Some(seed) = next_seed(table, waiting) else {
            return;
        };
        gather_round(table, groups, waiting, seed);
    }
}
