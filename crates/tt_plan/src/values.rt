//! The domain of a class, and what each value stands for.

ghost use Rattle.std.specs.Prelude.{◌≡◌, ◌<◌, ◌≤◌, Some, IfSome, length, max, slice_get};
ghost use Rattle.tt_base.specs.Limits.{most_penalty, most_values};
ghost use Rattle.tt_plan.specs.Domain.{IsOfDomain, IsSpotOf, domain_of, values_per_time, spot_at_value, time_penalty, room_penalty};

use tt_bits::{Spot, Value};
use tt_problem::{ClassPart, Problem};

// How many values a class has at each of its times: one for each of its rooms, and one where it
// needs none.
fn values_per_time(part: &ClassPart) -> u32
    requires { length part.now.rooms ≤ 1000 }
    ensures count { result ≡ values_per_time part.now }
    ensures some { 1 ≤ result }
    ensures few { result ≤ 1000 }
{
    (part.rooms.len() as u32).max(1)
}

/// How many values the class at a place has, at most 1,000,000.
#[tactic(auto, using(crate::proofs::DomainLemmas::length_of_values), unfolding(crate::specs::Domain::domain_of))]
pub fn domain_size(problem: &Problem, class: u32) -> u32
    requires { class < length problem.now.classes }
    ensures size { result ≡ length (domain_of problem.now class) }
    ensures small { result ≤ most_values }
{
    let part = problem.class(class);
    part.times.len() as u32 * values_per_time(part)
}

/// The value at place `k` of the domain of the class at a place.
#[tactic(auto, unfolding(crate::specs::Domain::domain_of))]
pub fn value_at(problem: &Problem, class: u32, k: u32) -> Value
    requires class { class < length problem.now.classes }
    requires within { k < length (domain_of problem.now class) }
    ensures value { slice_get (domain_of problem.now class) k ≡ Some result }
    ensures of_domain { IsOfDomain problem.now class result }
{
    let count = values_per_time(problem.class(class));
    Value {
        time: (k / count) as u16,
        room: (k % count) as u16,
    }
}

/// The time and the room of a value.
#[tactic(auto, unfolding(crate::specs::Domain::spot_at_value))]
pub fn spot(problem: &Problem, class: u32, value: Value) -> Spot
    requires { IsOfDomain problem.now class value }
    ensures spot { spot_at_value problem.now class value ≡ Some result }
    ensures fits { IsSpotOf problem.now result }
{
    problem.validity();
    let part = problem.class(class);
    let time = part.times.as_slice()[value.time as usize].time;
    let rooms = part.rooms.as_slice();
    let room = if rooms.is_empty() {
        None
    } else {
        Some(rooms[value.room as usize].room)
    };
    Spot { time, room }
}

/// The penalty of a value's time, 0 to 1,000,000.
#[tactic(auto, unfolding(crate::specs::Domain::time_penalty))]
pub fn time_penalty(problem: &Problem, class: u32, value: Value) -> u32
    requires { IsOfDomain problem.now class value }
    ensures penalty { result ≡ time_penalty problem.now class value }
    ensures small { result ≤ most_penalty }
{
    let part = problem.class(class);
    part.times.as_slice()[value.time as usize].penalty
}

/// The penalty of a value's room, 0 to 1,000,000, and 0 where the class needs none.
#[tactic(auto, unfolding(crate::specs::Domain::room_penalty))]
pub fn room_penalty(problem: &Problem, class: u32, value: Value) -> u32
    requires { IsOfDomain problem.now class value }
    ensures penalty { result ≡ room_penalty problem.now class value }
    ensures small { result ≤ most_penalty }
{
    let part = problem.class(class);
    let rooms = part.rooms.as_slice();
    if rooms.is_empty() {
        0
    } else {
        rooms[value.room as usize].penalty
    }
}
