//! What the choices of a node cost at least, by prices of groups of classes that all conflict.

ghost use Rattle.std.specs.Prelude.{◌≡◌, ℕ, ◌+◌, ◌-◌, ◌<◌, ◌≤◌, true, length, slice_index_or, sum, take};
ghost use Rattle.tt_least.specs.Judged.{IsTable, is_flagged};
ghost use Rattle.tt_least.specs.Nodes.{HasPlaces, IsNode};
ghost use Rattle.tt_least.specs.Prices.{AreCosts, AreGroups, AreLeast, priced_at};

use crate::groups::Groups;
use crate::level::Level;
use crate::table::Table;
use tt_problem::Span;

// Writes what each class costs that is left of a span, the price of its group added, or less where
// a number can't be so large, and the most that there is for the others. Gives what the cheapest
// costs.
fn write_span(table: &Table, groups: &Groups, level: &Level, costs: &mut [u64], span: Span) -> u64
    requires table { IsTable table.now }
    requires groups { AreGroups table.now groups.now }
    requires level { HasPlaces table.now.size level.now }
    requires costs { length costs.old ≡ table.now.size }
    requires first { table.now.first ≤ span.first }
    requires after { span.after ≤ table.now.first + table.now.count }
    requires come { (c : ℕ) → span.first ≤ c → c < span.after
        → is_flagged table.now level.now.to_come.items c ≡ true }
    ensures costs { (c : ℕ) → span.first ≤ c → c < span.after
        → is_flagged table.now level.now.left.items c ≡ true
        → slice_index_or costs.new (c - table.now.first) 0
        ≤ priced_at table.now groups.now level.now c }
    ensures before { (k : ℕ) → k < span.first - table.now.first
        → slice_index_or costs.new k 0 ≡ slice_index_or costs.old k 0 }
    ensures least { (c : ℕ) → span.first ≤ c → c < span.after
        → is_flagged table.now level.now.left.items c ≡ true
        → result ≤ priced_at table.now groups.now level.now c }
{
    let mut least = u64::MAX;
    for class in span.first..span.after {
        let place = (class - table.first) as usize;
        let cost = if level.left[place] {
            level.weights[place].saturating_add(groups.prices[groups.group_of[place] as usize])
        } else {
            u64::MAX
        };
        costs[place] = cost;
        least = least.min(cost);
    }
    least
}

// Writes what each class costs of the subparts whose class is still to come, and the cheapest of
// each. Gives the sum of these with the pairs that are counted, or less where a number can't be so
// large.
pub(crate) fn write_costs(
    table: &Table,
    groups: &Groups,
    level: &Level,
    costs: &mut [u64],
    leasts: &mut [u64],
) -> u64
    requires table { IsTable table.now }
    requires groups { AreGroups table.now groups.now }
    requires level { HasPlaces table.now.size level.now }
    requires node { IsNode table.now level.now }
    requires costs { length costs.old ≡ table.now.size }
    requires leasts { length leasts.old ≡ table.now.size }
    ensures costs { AreCosts table.now groups.now level.now costs.new }
    ensures leasts { AreLeast table.now groups.now level.now leasts.new }
    ensures sum { result
        ≤ level.now.pairs + sum (take (length table.now.subparts.now) leasts.new) }
{
    let mut sum = level.pairs;
    for part in 0..table.subparts.len() {
        let least = match level.chosen[part] {
            Some(_) => 0,
            None => write_span(table, groups, level, costs, table.subparts[part]),
        };
        leasts[part] = least;
        sum = sum.saturating_add(least);
    }
    sum
}
