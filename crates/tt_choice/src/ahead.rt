//! What is sure of the subparts still to come: classes that may come, and pairs that do.

ghost use Rattle.std.specs.Prelude.{◌≡◌, ◌+◌, ◌<◌, ◌≤◌, length};
ghost use Rattle.std.specs.List.{list_any};
ghost use Rattle.tt_problem.specs.Spans.{is_in};
ghost use Rattle.tt_base.specs.Limits.{most_classes};
ghost use Rattle.tt_choice.specs.Limits.{most_across};
ghost use Rattle.tt_choice.specs.Ahead.{AreSure, IsAcross, IsLeastOf, IsLeastWith, IsSureOf};
ghost use Rattle.tt_choice.specs.Pieces.{places_between};
ghost use Rattle.tt_choice.specs.Open.{can_all_be_filled, may_come, may_have_parent};
ghost use Rattle.tt_choice.specs.Standings.{situation_in};

use crate::standing::Standing;
use tt_problem::Span;

// The fewest subparts for which looking ahead takes less than it spares.
const WORTH_A_LOOK: usize = 3;

// Whether a class is one of some spans.
fn is_among(spans: &[Span], class: u32) -> bool
    ensures { result ≡ list_any (is_in class) spans.now }
{
    spans
        .iter()
        .any(|span| span.first <= class && class < span.after)
}

// Whether the parent of a class, where it has one, is in a front, already taken or a class of the
// subparts that are still to come.
#[tactic(auto, using(tt_base::proofs::ListLemmas::listed_turned))]
fn may_have_parent(standing: &Standing, front: &[u32], rest: &[Span], class: u32) -> bool
    ensures { result ≡ may_have_parent (situation_in standing.now) front.now rest.now class }
{
    match standing.parent_of(class) {
        None => true,
        Some(parent) => {
            front.contains(&parent) || standing.already.contains(&parent) || is_among(rest, parent)
        }
    }
}

// Whether a class has a seat, and its parent may come too.
pub(crate) fn may_come(standing: &Standing, front: &[u32], rest: &[Span], class: u32) -> bool
    ensures { result ≡ may_come (situation_in standing.now) front.now rest.now class }
{
    standing.has_seat(class) && may_have_parent(standing, front, rest, class)
}

// Whether a subpart has a class that may come.
fn can_be_filled(standing: &Standing, front: &[u32], rest: &[Span], span: Span) -> bool
    ensures { result
        ≡ list_any (may_come (situation_in standing.now) front.now rest.now)
        (places_between span.first span.after) }
{
    for class in span.first..span.after {
        if may_come(standing, front, rest, class) {
            return true;
        }
    }
    false
}

// Whether each of the subparts that are still to come has a class that may come.
pub(crate) fn can_all_be_filled(standing: &Standing, front: &[u32], rest: &[Span]) -> bool
    ensures { result ≡ can_all_be_filled (situation_in standing.now) front.now rest.now }
{
    rest.iter()
        .all(|span| can_be_filled(standing, front, rest, *span))
}

// The fewest classes of a front that a class of a span with a seat conflicts with.
fn least_with(standing: &Standing, front: &[u32], span: Span) -> u64
    ensures least { IsLeastWith (situation_in standing.now) front.now span result }
    ensures few { result ≤ length front.now }
{
    let mut least = front.len() as u64;
    for class in span.first..span.after {
        if standing.has_seat(class) {
            let pairs = standing.pairs_with(front, class) as u64;
            if pairs == 0 {
                return 0;
            }
            if pairs < least {
                least = pairs;
            }
        }
    }
    least
}

// How many pairs of a front and the classes of later subparts are sure to come.
pub(crate) fn sure_across(standing: &Standing, front: &[u32], rest: &[Span]) -> u64
    requires few_front { length front.now ≤ most_classes }
    requires few_rest { length rest.now ≤ most_classes }
    ensures across { IsAcross (situation_in standing.now) front.now rest.now result }
    ensures few { result ≤ most_across }
{
    let mut pairs = 0;
    for span in rest {
        pairs += least_with(standing, front, *span);
    }
    pairs
}

// The lesser of a number and the pairs that a class is sure to have with those already taken and
// with those of later subparts. A class without a seat lessens nothing.
fn lessened(standing: &Standing, class: u32, rest: &[Span], least: u64) -> u64
    requires few_rest { length rest.now ≤ most_classes }
    ensures sure { IsSureOf (situation_in standing.now) class rest.now result }
    ensures less { result ≤ least }
{
    if !standing.has_seat(class) {
        return least;
    }
    let front = [class];
    let across = sure_across(standing, &front, rest);
    least.min(standing.pairs_with_already(class) as u64 + across)
}

// The fewest pairs that a class of a span with a seat is sure to have with those already taken and
// with those of later subparts.
fn least_pairs(standing: &Standing, span: Span, rest: &[Span]) -> u64
    requires few_rest { length rest.now ≤ most_classes }
    ensures least { IsLeastOf (situation_in standing.now) span rest.now result }
    ensures few { result ≤ length standing.now.already.now + length rest.now }
{
    let mut least = (standing.already.len() + rest.len()) as u64;
    for class in span.first..span.after {
        least = lessened(standing, class, rest, least);
        if least == 0 {
            return 0;
        }
    }
    least
}

// Writes how many pairs are sure to come, from each subpart on: pairs with the classes already taken,
// and pairs among the classes that come. Of few subparts it says that none are.
pub(crate) fn look_ahead(standing: &Standing, subparts: &[Span], ahead: &mut [u64])
    requires few { length subparts.now ≤ most_classes }
    requires long { length subparts.now < length ahead.old }
    ensures { AreSure (situation_in standing.now) subparts.now ahead.new }
{
    if subparts.len() < WORTH_A_LOOK {
        ahead[..subparts.len() + 1].fill(0);
        return;
    }
    let mut place = subparts.len();
    ahead[place] = 0;
    while place > 0 {
        let sure = ahead[place];
        let rest = &subparts[place..];
        place -= 1;
        ahead[place] = least_pairs(standing, subparts[place], rest) + sure;
    }
}
