//! The four sums of a timetable, and their total.

ghost use Rattle.std.specs.Prelude.{[], ◌≡◌, ◌*◌, ◌/◌, ◌<◌, ◌≤◌, ◌^◌, IfOk, length};
ghost use Rattle.tt_base.specs.Limits.{most_classes, most_penalty};
ghost use Rattle.tt_plan.specs.Domain.{room_penalty, spots_of, time_penalty};
ghost use Rattle.tt_problem.specs.Valid.{AreValidWeights};
ghost use Rattle.tt_score.specs.Amounts.{cost_sum, kind_cost};
ghost use Rattle.tt_score.specs.Members.{AreSpotsOf};
ghost use Rattle.tt_score.specs.Placed.{over_placed};
ghost use Rattle.tt_score.specs.Plans.{IsPlanOf};
ghost use Rattle.tt_score.specs.Weighted.{weighted};
ghost use Rattle.tt_published.specs.Timetable.{IsTimetableOf};
ghost use Rattle.tt_score.specs.Totals.{totals_of};
ghost use Rattle.tt_verify.specs.Costs.{cost_at};
ghost use Rattle.tt_verify.specs.Found.{sums_of};

use crate::amounts::rule_amount;
use crate::students::student_conflicts;
use std::alloc::{AllocError, Global};
use tt_bits::{Spot, Value};
use tt_plan::{room_penalty, time_penalty};
use tt_problem::{DistKind, Problem, Rule, Weights};
use tt_published::Published;
use tt_score::Penalties;

/// The penalties of a plan and of the lists of the students, and their total.
#[derive(Clone, Copy)]
pub struct Sums {
    pub penalties: Penalties,
    pub total: u128,
}

// The penalties of the times of the placed classes.
#[tactic(auto, using(tt_base::proofs::Ranges::sum_range_more), unfolding(tt_score::specs::Placed::over_placed))]
fn time_sum(problem: &Problem, plan: &[Option<Value>]) -> u64
    requires { IsPlanOf problem.now plan.now }
    ensures sum { result ≡ over_placed (time_penalty problem.now) plan.now }
    ensures small { result ≤ most_classes * most_penalty }
{
    let mut sum = 0;
    for class in 0..problem.class_count() {
        if let Some(value) = plan[class as usize] {
            sum += u64::from(time_penalty(problem, class, value));
        }
    }
    sum
}

// The penalties of the rooms of the placed classes.
#[tactic(auto, using(tt_base::proofs::Ranges::sum_range_more), unfolding(tt_score::specs::Placed::over_placed))]
fn room_sum(problem: &Problem, plan: &[Option<Value>]) -> u64
    requires { IsPlanOf problem.now plan.now }
    ensures sum { result ≡ over_placed (room_penalty problem.now) plan.now }
    ensures small { result ≤ most_classes * most_penalty }
{
    let mut sum = 0;
    for class in 0..problem.class_count() {
        if let Some(value) = plan[class as usize] {
            sum += u64::from(room_penalty(problem, class, value));
        }
    }
    sum
}

// The whole part of a cost divided by the weeks.
#[tactic(auto, using(tt_score::proofs::AmountLemmas::few_shares))]
fn per_week(cost: u128, weeks: u8) -> u128
    requires { 1 ≤ weeks }
    ensures share { result ≡ cost / weeks }
    ensures small { result ≤ cost }
{
    cost / u128::from(weeks)
}

// The cost of a rule that has this amount.
fn cost_of(problem: &Problem, rule: &Rule, amount: u64) -> u128
    requires { rule.now.penalty ≤ most_penalty }
    ensures cost { result ≡ kind_cost rule.now.kind problem.now.nr_weeks rule.now.penalty amount }
    ensures small { result ≤ most_penalty * amount }
{
    let cost = u128::from(rule.penalty) * u128::from(amount);
    match rule.kind {
        DistKind::Pair { .. } | DistKind::MaxDays { .. } | DistKind::MaxWeeks { .. } => cost,
        DistKind::MaxDayLoad { .. } | DistKind::MaxBreaks { .. } | DistKind::MaxBlock { .. } =>
            per_week(cost, problem.nr_weeks()),
    }
}

// The cost of the rule at a place, 0 where it is required.
#[tactic(auto, unfolding(crate::specs::Costs::cost_at, tt_score::specs::Amounts::cost_of))]
fn rule_cost(
    alloc: Global,
    problem: &Problem,
    spots: &[Option<Spot>],
    place: u32,
) -> Result<u128, AllocError>
    requires place { place < length problem.now.rules }
    requires whole { length spots.now ≡ length problem.now.classes }
    requires fit { AreSpotsOf problem.now spots.now }
    ensures cost { IfOk result (λ n. n ≡ cost_at problem.now spots.now place) }
    ensures small { IfOk result (λ n. n ≤ most_penalty * 2 ^ 62) }
{
    let rule = problem.rule(place);
    if rule.required {
        return Ok(0);
    }
    let amount = rule_amount(alloc, problem, spots, rule)?;
    Ok(cost_of(problem, rule, amount))
}

// The costs of the soft rules together.
#[tactic(auto, using(tt_base::proofs::Ranges::sum_range_more, crate::proofs::PairLemmas::costs_by_place))]
fn cost_sum(alloc: Global, problem: &Problem, spots: &[Option<Spot>]) -> Result<u128, AllocError>
    requires whole { length spots.now ≡ length problem.now.classes }
    requires fit { AreSpotsOf problem.now spots.now }
    ensures sum { IfOk result (λ n. n ≡ cost_sum problem.now spots.now) }
    ensures small { IfOk result (λ n. n ≤ most_classes * (most_penalty * 2 ^ 62)) }
{
    let mut sum = 0;
    for place in 0..problem.rule_count() {
        sum += rule_cost(alloc, problem, spots, place)?;
    }
    Ok(sum)
}

// The four penalties together, each times its weight.
fn weighted(weights: Weights, penalties: Penalties) -> u128
    requires weights { AreValidWeights weights }
    requires few_costs { penalties.distribution < 2 ^ 100 }
    ensures { result ≡ weighted weights penalties }
{
    u128::from(weights.time) * u128::from(penalties.time)
        + u128::from(weights.room) * u128::from(penalties.room)
        + u128::from(weights.distribution) * penalties.distribution
        + u128::from(weights.student) * u128::from(penalties.student)
}

/// The penalties of a plan and of the published lists, and their total.
pub fn sums_of(
    alloc: Global,
    problem: &Problem,
    published: &Published,
    plan: &[Option<Value>],
    spots: &[Option<Spot>],
) -> Result<Sums, AllocError>
    requires belongs { IsTimetableOf problem.now published.now }
    requires plan { IsPlanOf problem.now plan.now }
    requires spots { spots.now ≡ spots_of problem.now plan.now }
    requires whole { length spots.now ≡ length problem.now.classes }
    requires fit { AreSpotsOf problem.now spots.now }
    ensures { IfOk result
        (λ s. s ≡ sums_of (totals_of problem.now [] plan.now published.now.lists)) }
{
    let penalties = Penalties {
        time: time_sum(problem, plan),
        room: room_sum(problem, plan),
        distribution: cost_sum(alloc, problem, spots)?,
        student: student_conflicts(problem, published, spots),
    };
    Ok(Sums {
        penalties,
        total: weighted(problem.weights(), penalties),
    })
}
