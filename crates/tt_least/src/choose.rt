//! From a node to the one in which a class is chosen.

ghost use Rattle.std.specs.Prelude.{◌≡◌, ℕ, ◌+◌, ◌-◌, ◌<◌, ◌≤◌, true, false, cond, length, slice_get, slice_index_or, IfSome};
ghost use Rattle.tt_problem.specs.Spans.{is_in};
ghost use Rattle.tt_least.specs.Judged.{IsTable, is_flagged};
ghost use Rattle.tt_least.specs.Nodes.{HasPlaces, IsChild};

use crate::level::Level;
use crate::table::Table;
use tt_problem::Span;

// Takes the classes of a span out of flags by class from a first one on.
fn clear(flags: &mut [bool], first: u32, span: Span)
    requires from { first ≤ span.first }
    requires ordered { span.first ≤ span.after }
    requires within { span.after ≤ first + length flags.old }
    ensures none { (c : ℕ) → is_in c span ≡ true
        → slice_index_or flags.new (c - first) false ≡ false }
    ensures others { (c : ℕ) → first ≤ c → is_in c span ≡ false
        → slice_index_or flags.new (c - first) false
        ≡ slice_index_or flags.old (c - first) false }
{
    flags[(span.first - first) as usize..(span.after - first) as usize].fill(false);
}

// Writes what each class that is still to come costs with one more that is chosen, and 0 for the
// others.
fn weigh(weights: &mut [u64], to_come: &[bool], row: &[bool], before: &[u64])
    requires to_come { length to_come.now ≡ length weights.old }
    requires row { length row.now ≡ length weights.old }
    requires before { length before.now ≡ length weights.old }
    ensures { (k : ℕ) → k < length row.now → slice_index_or weights.new k 0
        ≤ cond (slice_index_or to_come.now k false)
        (slice_index_or before.now k 0 + cond (slice_index_or row.now k false) 1 0) 0 }
{
    for place in 0..row.len() {
        weights[place] = if to_come[place] {
            before[place].saturating_add(u64::from(row[place]))
        } else {
            0
        };
    }
}

/// Goes on to the node in which a class of a subpart that is still to come is chosen.
pub(crate) fn choose(table: &Table, level: &Level, child: &mut Level, part: usize, class: u32)
    requires table { IsTable table.now }
    requires level { HasPlaces table.now.size level.now }
    requires child { HasPlaces table.now.size child.old }
    requires part { part < length table.now.subparts.now }
    requires class { IfSome (slice_get table.now.subparts.now part)
        (λ s. is_in class s ≡ true) }
    requires left { is_flagged table.now level.now.left.items class ≡ true }
    ensures child { IfSome (slice_get table.now.subparts.now part)
        (λ s. IsChild table.now level.now part s class child.new) }
    ensures places { HasPlaces table.now.size child.new }
{
    let span = table.subparts[part];
    let place = (class - table.first) as usize;
    let left = child.left.as_mut_slice();
    left.copy_from_slice(level.left.as_slice());
    clear(left, table.first, span);
    left[place] = true;
    let to_come = child.to_come.as_mut_slice();
    to_come.copy_from_slice(level.to_come.as_slice());
    clear(to_come, table.first, span);
    weigh(
        child.weights.as_mut_slice(),
        child.to_come.as_slice(),
        table.row(class),
        level.weights.as_slice(),
    );
    let chosen = child.chosen.as_mut_slice();
    chosen.copy_from_slice(level.chosen.as_slice());
    chosen[part] = Some(class);
    child.pairs = level.pairs.saturating_add(level.weights[place]);
}
