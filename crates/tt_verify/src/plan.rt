//! The plan of a published timetable, and the spot of each class.

ghost use Rattle.std.specs.Prelude.{◌≡◌, ◌<◌, IfOk, IfSome, length, option_and_then};
ghost use Rattle.tt_plan.specs.Domain.{IsOfDomain, IsSpotOf, spot_at_value, spots_of};
ghost use Rattle.tt_score.specs.Members.{AreSpotsOf};
ghost use Rattle.tt_score.specs.Plans.{IsPlanOf};
ghost use Rattle.tt_published.specs.Published.{published_plan};
ghost use Rattle.tt_published.specs.Timetable.{IsTimetableOf};

use std::alloc::{AllocError, Global};
use tt_bits::{Spot, Value};
use tt_plan::spot;
use tt_problem::Problem;
use tt_published::{Published, published_value};

/// The value of each class with which it meets as published, or none.
pub fn published_plan(
    alloc: Global,
    problem: &Problem,
    published: &Published,
) -> Result<Vec<Option<Value>>, AllocError>
    requires { IsTimetableOf problem.now published.now }
    ensures plan { IfOk result (λ plan. plan.items ≡ published_plan problem.now published.now) }
    ensures domain { IfOk result (λ plan. IsPlanOf problem.now plan.items) }
{
    let mut plan = Vec::with_capacity(alloc, problem.class_count() as usize)?;
    for class in 0..problem.class_count() {
        plan.push(published_value(problem, published, class))?;
    }
    Ok(plan)
}

// The spot of a class with this value, or without one.
fn spot_of(problem: &Problem, class: u32, value: Option<Value>) -> Option<Spot>
    requires { IfSome value (λ v. IsOfDomain problem.now class v) }
    ensures spot { result ≡ option_and_then (spot_at_value problem.now class) value }
    ensures fits { IfSome result (λ x. IsSpotOf problem.now x) }
{
    match value {
        None => None,
        Some(value) => Some(spot(problem, class, value)),
    }
}

/// The spot of each class of a plan, or none.
#[tactic(auto, using(crate::proofs::PlanLemmas::spots_done))]
pub fn spots_of(
    alloc: Global,
    problem: &Problem,
    plan: &[Option<Value>],
) -> Result<Vec<Option<Spot>>, AllocError>
    requires { IsPlanOf problem.now plan.now }
    ensures spots { IfOk result (λ spots. spots.items ≡ spots_of problem.now plan.now) }
    ensures whole { IfOk result (λ spots. length spots.items ≡ length problem.now.classes) }
    ensures fit { IfOk result (λ spots. AreSpotsOf problem.now spots.items) }
{
    problem.validity();
    let mut spots = Vec::with_capacity(alloc, plan.len())?;
    for (class, value) in plan.iter().enumerate() {
        spots.push(spot_of(problem, class as u32, *value))?;
    }
    Ok(spots)
}
