//! What is wrong with classes: no value, more students than seats, or a closed room.

ghost use Rattle.std.specs.Prelude.{◌≡◌, ◌++◌, ◌<◌, IfSome, OnOk, length};
ghost use Rattle.std.specs.List.{flat_map, list_any, range_with_len};
ghost use Rattle.tt_bits.specs.Times.{overlaps};
ghost use Rattle.tt_clash.specs.Blocked.{is_closed};
ghost use Rattle.tt_score.specs.Members.{AreSpotsOf};
ghost use Rattle.tt_published.specs.Timetable.{IsTimetableOf};
ghost use Rattle.tt_verify.specs.Counts.{limit_faults_by};
ghost use Rattle.tt_verify.specs.Violations.{class_fault, closed_fault, limit_fault};

use crate::violation::Violation;
use std::alloc::AllocError;
use tt_bits::{Spot, Time, Value};
use tt_clash::Closures;
use tt_problem::Problem;
use tt_published::Published;

// Adds a class that isn't listed, or is listed and has no value.
#[tactic(auto, unfolding(crate::specs::Violations::class_fault))]
fn add_class_fault(
    published: &Published,
    plan: &[Option<Value>],
    class: u32,
    found: &mut Vec<Violation>,
) -> Result<(), AllocError>
    requires listed { class < length published.now.classes }
    requires planned { class < length plan.now }
    ensures { OnOk result
        (found.new.items ≡ found.old.items ++ class_fault published.now plan.now class) }
{
    if !published.has(class) {
        found.push(Violation::Missing { class })?;
    } else if plan[class as usize].is_none() {
        found.push(Violation::Outside { class })?;
    }
    Ok(())
}

/// Adds each class that isn't listed, or is listed and has no value.
#[tactic(auto, using(crate::proofs::WalkLemmas::pieces_more, std::proofs::Common::append_assoc))]
pub fn add_class_faults(
    problem: &Problem,
    published: &Published,
    plan: &[Option<Value>],
    found: &mut Vec<Violation>,
) -> Result<(), AllocError>
    requires belongs { IsTimetableOf problem.now published.now }
    requires whole { length plan.now ≡ length problem.now.classes }
    ensures { OnOk result (found.new.items
        ≡ found.old.items
        ++ flat_map (class_fault published.now plan.now)
        (range_with_len 0 (length problem.now.classes))) }
{
    for class in 0..problem.class_count() {
        add_class_fault(published, plan, class, found)?;
    }
    Ok(())
}

// Adds a class that so many students have, where they are more than its limit.
#[tactic(auto, unfolding(crate::specs::Violations::limit_fault))]
fn add_limit_fault(
    problem: &Problem,
    class: u32,
    students: u32,
    found: &mut Vec<Violation>,
) -> Result<(), AllocError>
    requires { class < length problem.now.classes }
    ensures { OnOk result
        (found.new.items ≡ found.old.items ++ limit_fault problem.now class students) }
{
    if let Some(limit) = problem.class(class).limit
        && students > limit
    {
        found.push(Violation::Over { class, students })?;
    }
    Ok(())
}

/// Adds each class that more students have than its limit allows, by how many have each class.
#[tactic(auto, using(crate::proofs::WalkLemmas::pieces_more, std::proofs::Common::append_assoc))]
pub fn add_limit_faults(
    problem: &Problem,
    counts: &[u32],
    found: &mut Vec<Violation>,
) -> Result<(), AllocError>
    requires { length counts.now ≡ length problem.now.classes }
    ensures { OnOk result
        (found.new.items ≡ found.old.items ++ limit_faults_by problem.now counts.now) }
{
    for class in 0..problem.class_count() {
        add_limit_fault(problem, class, counts[class as usize], found)?;
    }
    Ok(())
}

// Whether the time overlaps one of some times.
fn overlaps_some(times: &[Time], time: Time) -> bool
    ensures { result ≡ list_any (λ t. overlaps time t) times.now }
{
    times.iter().any(|other| time.overlaps(other))
}

// Whether the room of a spot is closed at an overlapping time, by the file or by a closure.
#[tactic(auto, unfolding(tt_clash::specs::Blocked::is_closed))]
fn is_closed(problem: &Problem, closures: &Closures, spot: &Spot) -> bool
    requires { IfSome spot.now.room (λ room. room < length problem.now.rooms) }
    ensures { result ≡ is_closed problem.now closures.now spot.now }
{
    match spot.room {
        Some(room) => {
            overlaps_some(problem.room(room).closed.as_slice(), spot.time)
                || closures.has_closed(room, spot.time)
        }
        None => false,
    }
}

// Adds a class that is placed and whose room is closed then.
#[tactic(auto, unfolding(crate::specs::Violations::closed_fault))]
fn add_closed_fault(
    problem: &Problem,
    closures: &Closures,
    spots: &[Option<Spot>],
    class: u32,
    found: &mut Vec<Violation>,
) -> Result<(), AllocError>
    requires class { class < length spots.now }
    requires fit { AreSpotsOf problem.now spots.now }
    ensures { OnOk result (found.new.items
        ≡ found.old.items ++ closed_fault problem.now closures.now spots.now class) }
{
    if let Some(spot) = &spots[class as usize]
        && is_closed(problem, closures, spot)
    {
        found.push(Violation::Closed { class })?;
    }
    Ok(())
}

/// Adds each class that is placed and whose room is closed then.
#[tactic(auto, using(crate::proofs::WalkLemmas::pieces_more, std::proofs::Common::append_assoc))]
pub fn add_closed_faults(
    problem: &Problem,
    closures: &Closures,
    spots: &[Option<Spot>],
    found: &mut Vec<Violation>,
) -> Result<(), AllocError>
    requires whole { length spots.now ≡ length problem.now.classes }
    requires fit { AreSpotsOf problem.now spots.now }
    ensures { OnOk result (found.new.items
        ≡ found.old.items
        ++ flat_map (closed_fault problem.now closures.now spots.now)
        (range_with_len 0 (length problem.now.classes))) }
{
    for class in 0..problem.class_count() {
        add_closed_fault(problem, closures, spots, class, found)?;
    }
    Ok(())
}
