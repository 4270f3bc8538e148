//! Why a spot is blocked for a class.

ghost use Rattle.std.specs.Prelude.{◌≡◌, ◌<◌, length, IfSome};
ghost use Rattle.std.specs.List.{list_any};
ghost use Rattle.tt_bits.specs.Times.{overlaps};
ghost use Rattle.tt_bits.specs.Spots.{IsBelow};
ghost use Rattle.tt_problem.specs.Alone.{exceeds_alone};
ghost use Rattle.tt_clash.specs.Blocked.{is_closed, blocked_by};

use crate::Block;
use crate::closures::Closures;
use crate::rules::{is_required_group, rules_of};
use tt_bits::{Spot, Time};
use tt_problem::{DistKind, Problem};

/// Why the spot is blocked for the class, if it is.
pub fn blocked(problem: &Problem, closures: &Closures, class: u32, spot: Spot) -> Option<Block>
    requires class { class < length problem.now.classes }
    requires room { IfSome spot.room (λ room. room < length problem.now.rooms) }
    requires weeks { IsBelow problem.now.nr_weeks spot }
    ensures { result ≡ blocked_by problem.now closures.now class spot }
{
    if closed(problem, closures, spot) {
        return Some(Block::Closed);
    }
    for with in rules_of(problem, class) {
        let rule = problem.rule(with.rule);
        if is_required_group(rule) && exceeds_alone(rule.kind, &spot) {
            return Some(Block::Rule(with.rule));
        }
    }
    None
}

// Whether one class alone at the spot is more than a group type allows. A call of its own, since else
// its days and weeks are counted at each value, and few rules ask.
#[inline(never)]
fn exceeds_alone(kind: DistKind, spot: &Spot) -> bool
    ensures { result ≡ exceeds_alone kind spot.now }
{
    kind.exceeds_alone(*spot)
}

/// Whether the spot's room is closed at an overlapping time, by the file or by a closure that isn't
/// lifted. False where the spot has no room.
#[tactic(auto, unfolding(crate::specs::Blocked::is_closed))]
pub fn closed(problem: &Problem, closures: &Closures, spot: Spot) -> bool
    requires room { IfSome spot.room (λ room. room < length problem.now.rooms) }
    ensures { result ≡ is_closed problem.now closures.now spot }
{
    match spot.room {
        Some(room) => {
            overlaps_some(problem.room(room).closed.as_slice(), spot.time)
                || closures.has_closed(room, spot.time)
        }
        None => false,
    }
}

// Whether the time overlaps one of some times.
fn overlaps_some(times: &[Time], time: Time) -> bool
    ensures { result ≡ list_any (overlaps time) times.now }
{
    times.iter().any(|other| time.overlaps(other))
}
