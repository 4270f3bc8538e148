//! Classes that another one of their subpart can stand for.

ghost use Rattle.std.specs.Prelude.{◌≡◌, ℕ, ◌+◌, ◌<◌, ◌≤◌, List, true, false, length};
ghost use Rattle.tt_problem.specs.Spans.{is_in};
ghost use Rattle.tt_least.specs.Judged.{IsTable, IsIn, IsSized, conflict_in, is_flagged};
ghost use Rattle.tt_least.specs.Nodes.{IsLeft};
ghost use Rattle.tt_least.specs.Results.{NoneWithin};
ghost use Rattle.tt_least.specs.Dominates.{Dominates, IsDominated, IsNoParent};

use crate::table::Table;
use tt_problem::Span;

// Whether a class is no class's parent.
fn is_no_parent(table: &Table, class: u32) -> bool
    requires sized { IsSized table.now }
    ensures { result ≡ true → IsNoParent table.now class }
{
    for other in table.first..table.first + table.count {
        if table.parent(other) == Some(class) {
            return false;
        }
    }
    true
}

// Whether each class left outside of a span that conflicts with the one conflicts with the other.
fn has_no_more(table: &Table, left: &[bool], span: Span, one: u32, other: u32) -> bool
    requires sized { IsSized table.now }
    requires left { length left.now ≡ table.now.size }
    requires one { IsIn table.now one }
    requires other { IsIn table.now other }
    ensures { result ≡ true → (d : ℕ) → IsIn table.now d → is_in d span ≡ false
        → is_flagged table.now left.now d ≡ true → conflict_in table.now one d ≡ true
        → conflict_in table.now other d ≡ true }
{
    let mine = table.row(one);
    let others = table.row(other);
    for place in 0..table.count as usize {
        let class = table.first + place as u32;
        let is_outside = class < span.first || span.after <= class;
        if left[place] && is_outside && mine[place] && !others[place] {
            return false;
        }
    }
    true
}

// Whether the one class can stand for the other one of its subpart in each choice of what is left.
fn dominates(table: &Table, left: &[bool], span: Span, one: u32, other: u32) -> bool
    requires sized { IsSized table.now }
    requires left { length left.now ≡ table.now.size }
    requires one { IsIn table.now one }
    requires other { IsIn table.now other }
    ensures { result ≡ true → Dominates table.now left.now span one other }
{
    one != other
        && table.has(left, one)
        && table.parent(one).is_none()
        && table.weight(one) <= table.weight(other)
        && has_no_more(table, left, span, one, other)
}

// Whether a class of a span is left for which another one can stand in each choice of what is left.
fn is_dominated(table: &Table, left: &[bool], span: Span, class: u32) -> bool
    requires sized { IsSized table.now }
    requires left { length left.now ≡ table.now.size }
    requires first { table.now.first ≤ span.first }
    requires after { span.after ≤ table.now.first + table.now.count }
    requires class { IsIn table.now class }
    ensures { result ≡ true → IsDominated table.now left.now span class }
{
    if !table.has(left, class) || !is_no_parent(table, class) {
        return false;
    }
    for other in span.first..span.after {
        if dominates(table, left, span, other, class) {
            return true;
        }
    }
    false
}

// Takes out of a subpart the classes for which another one of it can stand.
fn drop_dominated_of(table: &Table, left: &mut [bool], part: usize)
    requires table { IsTable table.now }
    requires left { length left.old ≡ table.now.size }
    requires part { part < length table.now.subparts.now }
    ensures within { (choice : List ℕ) → IsLeft table.now left.new choice
        → IsLeft table.now left.old choice }
    ensures none { (limit : ℕ) → NoneWithin table.now left.new limit
        → NoneWithin table.now left.old limit }
{
    let span = table.subparts[part];
    for class in span.first..span.after {
        if is_dominated(table, left, span, class) {
            left[(class - table.first) as usize] = false;
        }
    }
}

/// Takes out of each subpart the classes for which another one of it can stand.
pub(crate) fn drop_dominated(table: &Table, left: &mut [bool])
    requires table { IsTable table.now }
    requires left { length left.old ≡ table.now.size }
    ensures within { (choice : List ℕ) → IsLeft table.now left.new choice
        → IsLeft table.now left.old choice }
    ensures none { (limit : ℕ) → NoneWithin table.now left.new limit
        → NoneWithin table.now left.old limit }
{
    for part in 0..table.subparts.len() {
        drop_dominated_of(table, left, part);
    }
}
