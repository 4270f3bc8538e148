//! The change of one price by which the bound rises most.

ghost use Rattle.std.specs.Prelude.{◌≡◌, ◌<◌, ◌≤◌, length, All, IfSome};
ghost use Rattle.tt_least.specs.Judged.{IsTable};
ghost use Rattle.tt_least.specs.Limits.{most_price, most_searched};
ghost use Rattle.tt_least.specs.Nodes.{HasPlaces};
ghost use Rattle.tt_least.specs.Prices.{AreGroups, numbers_up_to, owed_of};

use crate::groups::Groups;
use crate::level::Level;
use crate::table::Table;

// No price rises above this one.
const MOST_PRICE: u64 = 65535;

// What is owed for the price of one group.
fn owed_for(price: u64) -> u64
    requires { price ≤ most_price }
    ensures { result ≡ numbers_up_to price }
{
    price * (price + 1) / 2
}

// What is owed for the prices of groups.
pub(crate) fn owed(prices: &[u64]) -> u64
    requires few { All (λ price. price ≤ most_price) prices.now }
    requires short { length prices.now ≤ most_searched }
    ensures { result ≡ owed_of prices.now }
{
    let mut owed = 0;
    for price in prices {
        owed += owed_for(*price);
    }
    owed
}

// Which groups the cheapest classes of a subpart are of: the first of them, and whether it is the
// only one.
#[derive(Clone, Copy)]
struct Cheapest {
    group: u32,
    is_only: bool,
}

// Notes in which groups the cheapest classes of a subpart are.
fn note(table: &Table, groups: &mut Groups, costs: &[u64], part: usize, least: u64)
    requires table { IsTable table.now }
    requires groups { AreGroups table.now groups.old }
    requires costs { length costs.now ≡ table.now.size }
    requires part { part < length table.now.subparts.now }
    ensures groups { AreGroups table.now groups.new }
{
    let span = table.subparts[part];
    let mut found: Option<Cheapest> = None;
    for place in (span.first - table.first) as usize..(span.after - table.first) as usize {
        if costs[place] == least {
            let group = groups.group_of[place];
            let among = groups.among[group as usize];
            groups.among[group as usize] = among.saturating_add(1);
            found = Some(match found {
                None => Cheapest {
                    group,
                    is_only: true,
                },
                Some(first) => Cheapest {
                    group: first.group,
                    is_only: first.is_only && first.group == group,
                },
            });
        }
    }
    if let Some(first) = found {
        if first.is_only {
            let alone = groups.alone[first.group as usize];
            groups.alone[first.group as usize] = alone.saturating_add(1);
        }
    }
}

// A price and by how much the bound rises with it.
#[derive(Clone, Copy)]
struct Change {
    group: usize,
    price: u64,
    gain: u64,
}

// The price of a group with which the bound rises, if there is one.
fn change_of(groups: &Groups, group: usize) -> Option<Change>
    requires prices { group < length groups.now.prices.items }
    requires alone { group < length groups.now.alone.items }
    requires among { group < length groups.now.among.items }
    ensures place { IfSome result (λ change. change.group ≡ group) }
    ensures few { All (λ price. price ≤ most_price) groups.now.prices.items
        → IfSome result (λ change. change.price ≤ most_price) }
{
    let price = groups.prices[group];
    let alone = groups.alone[group];
    let among = groups.among[group];
    if alone > price.saturating_add(1) && price < MOST_PRICE {
        return Some(Change {
            group,
            price: price + 1,
            gain: alone - price - 1,
        });
    }
    if among < price {
        return Some(Change {
            group,
            price: price - 1,
            gain: price - among,
        });
    }
    None
}

// The change of a price by which the bound rises most, and the first of equal ones.
fn best_change(groups: &Groups) -> Option<Change>
    requires alone { length groups.now.alone.items ≡ length groups.now.prices.items }
    requires among { length groups.now.among.items ≡ length groups.now.prices.items }
    requires count { groups.now.count ≤ length groups.now.names.items }
    requires names { All (λ name. name < length groups.now.prices.items) groups.now.names.items }
    requires few { All (λ price. price ≤ most_price) groups.now.prices.items }
    ensures place { IfSome result (λ change. change.group < length groups.now.prices.items) }
    ensures few { IfSome result (λ change. change.price ≤ most_price) }
{
    let mut best: Option<Change> = None;
    for name in &groups.names.as_slice()[..groups.count] {
        if let Some(change) = change_of(groups, *name as usize) {
            best = match best {
                Some(before) if before.gain >= change.gain => Some(before),
                _ => Some(change),
            };
        }
    }
    best
}

// Gives a group another price.
fn set_price(groups: &mut Groups, change: Change)
    requires group { change.group < length groups.old.prices.items }
    requires price { change.price ≤ most_price }
    requires few { All (λ price. price ≤ most_price) groups.old.prices.items }
    requires short { length groups.old.prices.items ≤ most_searched }
    requires owed { groups.old.owed ≡ owed_of groups.old.prices.items }
    ensures few { All (λ price. price ≤ most_price) groups.new.prices.items }
    ensures long { length groups.new.prices.items ≡ length groups.old.prices.items }
    ensures owed { groups.new.owed ≡ owed_of groups.new.prices.items }
    ensures groups { groups.new.group_of ≡ groups.old.group_of }
    ensures names { groups.new.names ≡ groups.old.names }
    ensures count { groups.new.count ≡ groups.old.count }
    ensures alone { groups.new.alone ≡ groups.old.alone }
    ensures among { groups.new.among ≡ groups.old.among }
{
    let before = groups.prices[change.group];
    groups.owed = groups.owed - owed_for(before) + owed_for(change.price);
    groups.prices[change.group] = change.price;
}

// Changes the one price by which the bound rises most, where each class costs so much and the
// cheapest of each subpart that; whether it rises by any.
pub(crate) fn change_price(
    table: &Table,
    groups: &mut Groups,
    level: &Level,
    costs: &[u64],
    leasts: &[u64],
) -> bool
    requires table { IsTable table.now }
    requires groups { AreGroups table.now groups.old }
    requires level { HasPlaces table.now.size level.now }
    requires costs { length costs.now ≡ table.now.size }
    requires leasts { length leasts.now ≡ table.now.size }
    ensures groups { AreGroups table.now groups.new }
{
    groups.alone.as_mut_slice().fill(0);
    groups.among.as_mut_slice().fill(0);
    for part in 0..table.subparts.len() {
        if level.chosen[part].is_none() {
            note(table, groups, costs, part, leasts[part]);
        }
    }
    let Some(change) = best_change(groups) else {
        return false;
    };
    set_price(groups, change);
    true
}
