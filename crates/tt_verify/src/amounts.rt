//! The amount of a rule, counted from the spots of its members.

ghost use Rattle.std.specs.Prelude.{◌≡◌, ◌-◌, ◌*◌, ◌<◌, ◌≤◌, ◌^◌, All, IfOk, count_by, filter, length, map, sum_by, vec_len};
ghost use Rattle.std.specs.List.{list_any};
ghost use Rattle.tt_base.specs.Among.{pairs_among};
ghost use Rattle.tt_base.specs.Limits.{most_members, most_slot};
ghost use Rattle.tt_base.specs.Sets.{has, places};
ghost use Rattle.tt_bits.specs.Sets.{day_set, week_set};
ghost use Rattle.tt_bits.specs.Spots.{placed, spot_at};
ghost use Rattle.tt_measure.specs.Cells.{load_of, over_cells, seven_days, stands_in};
ghost use Rattle.tt_measure.specs.Limits.{most_weeks};
ghost use Rattle.tt_pair.specs.ViolatedPairs.{is_violated};
ghost use Rattle.tt_problem.specs.Valid.{IsValidRule};
ghost use Rattle.tt_score.specs.Amounts.{rule_amount};
ghost use Rattle.tt_score.specs.Members.{AreSpotsOf};
ghost use Rattle.tt_travel.specs.Table.{IsRoomOf};

use crate::blocks::{breaks_over, long_blocks};
use std::alloc::{AllocError, Global};
use tt_bits::{PairKind, Spot, holds_between};
use tt_problem::{DistKind, Problem, Rule};
use tt_travel::Travel;

// The spots of the placed members of a rule, in member order.
fn placed_members(
    alloc: Global,
    spots: &[Option<Spot>],
    members: &[u32],
) -> Result<Vec<Spot>, AllocError>
    requires { All (λ class. class < length spots.now) members.now }
    ensures placed { IfOk result (λ v. v.items ≡ placed (map (spot_at spots.now) members.now)) }
    ensures few { IfOk result (λ v. vec_len v ≤ length members.now) }
{
    let mut placed = Vec::new(alloc);
    for class in members {
        if let Some(spot) = spots[*class as usize] {
            placed.push(spot)?;
        }
    }
    Ok(placed)
}

/// Whether two spots break a rule on pairs, `a` that of the member listed earlier.
#[tactic(auto, unfolding(tt_pair::specs::ViolatedPairs::is_violated))]
pub fn is_violated(kind: PairKind, travel: &Travel, a: &Spot, b: &Spot) -> bool
    requires from { IsRoomOf travel.now a.now.room }
    requires to { IsRoomOf travel.now b.now.room }
    ensures { result ≡ is_violated kind travel.now a.now b.now }
{
    !holds_between(kind, a, b, travel.between(a.room, b.room))
}

// How many later spots break a rule on pairs with a spot.
fn violated_with(kind: PairKind, travel: &Travel, spot: &Spot, later: &[Spot]) -> u64
    requires room { IsRoomOf travel.now spot.now.room }
    requires rooms { All (λ x. IsRoomOf travel.now x.room) later.now }
    ensures count { result ≡ count_by (is_violated kind travel.now spot.now) later.now }
    ensures few { result ≤ length later.now }
{
    let mut count = 0;
    for other in later {
        if is_violated(kind, travel, spot, other) {
            count += 1;
        }
    }
    count
}

// How many pairs of spots break a rule on pairs.
#[tactic(auto, using(crate::proofs::PairLemmas::few_pairs))]
fn violated_pairs(kind: PairKind, travel: &Travel, spots: &[Spot]) -> u64
    requires few { length spots.now ≤ most_members }
    requires rooms { All (λ x. IsRoomOf travel.now x.room) spots.now }
    ensures pairs { result ≡ pairs_among (is_violated kind travel.now) spots.now }
    ensures few { result ≤ 4000000 }
{
    let mut count = 0;
    for (place, spot) in spots.iter().enumerate() {
        count += violated_with(kind, travel, spot, &spots[place + 1..]);
    }
    count
}

// Whether some spot has a day.
fn is_used(spots: &[Spot], day: u8) -> bool
    requires { day < 7 }
    ensures { result ≡ list_any (λ x. has (day_set x.time.days) day) spots.now }
{
    spots.iter().any(|spot| spot.time.days.has(day))
}

// The days that some spot has, above the most that are allowed.
#[tactic(auto, using(tt_base::proofs::Ranges::count_range_more), unfolding(tt_measure::specs::Cells::seven_days))]
fn days_over(most: u16, spots: &[Spot]) -> u64
    ensures days { result
        ≡ count_by (λ day. list_any (λ x. has (day_set x.time.days) day) spots.now) seven_days
        - most }
    ensures few { result ≤ 7 }
{
    let mut days: u16 = 0;
    for day in 0..7 {
        if is_used(spots, day) {
            days += 1;
        }
    }
    u64::from(days.saturating_sub(most))
}

// Whether some spot has a week.
fn meets_in(spots: &[Spot], week: u8) -> bool
    requires { week < 128 }
    ensures { result ≡ list_any (λ x. has (week_set x.time.weeks) week) spots.now }
{
    spots.iter().any(|spot| spot.time.weeks.has(week))
}

// The weeks that some spot has, above the most that are allowed.
#[tactic(auto, using(tt_base::proofs::Ranges::count_range_more))]
fn weeks_over(most: u16, spots: &[Spot]) -> u64
    ensures weeks { result
        ≡ count_by (λ week. list_any (λ x. has (week_set x.time.weeks) week) spots.now) places
        - most }
    ensures few { result ≤ 128 }
{
    let mut weeks: u16 = 0;
    for week in 0..128 {
        if meets_in(spots, week) {
            weeks += 1;
        }
    }
    u64::from(weeks.saturating_sub(most))
}

/// Whether a spot meets in a week on a day.
pub fn stands_in(week: u8, day: u8, spot: &Spot) -> bool
    requires week { week < most_weeks }
    requires day { day < 7 }
    ensures { result ≡ stands_in week day spot.now }
{
    spot.time.weeks.has(week) && spot.time.days.has(day)
}

// The slots that the spots of a cell take together.
fn load_in(spots: &[Spot], week: u8, day: u8) -> u64
    requires few { length spots.now ≤ most_members }
    requires week { week < most_weeks }
    requires day { day < 7 }
    ensures load { result ≡ load_of (filter (stands_in week day) spots.now) }
    ensures small { result ≤ most_members * most_slot }
{
    let mut load = 0;
    for spot in spots {
        if stands_in(week, day, spot) {
            load += u64::from(spot.time.length);
        }
    }
    load
}

// The slots above the most that are allowed in a cell, over the days of a week.
#[tactic(auto, using(tt_base::proofs::Ranges::sum_range_more), unfolding(tt_measure::specs::Cells::seven_days))]
fn load_over_in(most: u16, spots: &[Spot], week: u8) -> u64
    requires few { length spots.now ≤ most_members }
    requires week { week < most_weeks }
    ensures load { result
        ≡ sum_by (λ day. load_of (filter (stands_in week day) spots.now) - most) seven_days }
    ensures small { result ≤ 7 * most_members * most_slot }
{
    let mut sum = 0;
    for day in 0..7 {
        sum += load_in(spots, week, day).saturating_sub(u64::from(most));
    }
    sum
}

// The slots above the most that are allowed in a cell, over all cells.
#[tactic(auto, using(tt_base::proofs::Ranges::sum_range_more))]
fn load_over(most: u16, weeks: u8, spots: &[Spot]) -> u64
    requires few { length spots.now ≤ most_members }
    requires weeks { weeks ≤ most_weeks }
    ensures load { result
        ≡ over_cells weeks (λ week day. load_of (filter (stands_in week day) spots.now) - most) }
    ensures small { result ≤ 128 * (7 * most_members * most_slot) }
{
    let mut sum = 0;
    for week in 0..weeks {
        sum += load_over_in(most, spots, week);
    }
    sum
}

/// The amount of a rule, counted from the spots of all classes.
#[tactic(auto, unfolding(tt_score::specs::Amounts::rule_amount))]
pub fn rule_amount(
    alloc: Global,
    problem: &Problem,
    spots: &[Option<Spot>],
    rule: &Rule,
) -> Result<u64, AllocError>
    requires rule { IsValidRule problem.now rule.now }
    requires whole { length spots.now ≡ length problem.now.classes }
    requires fit { AreSpotsOf problem.now spots.now }
    ensures amount { IfOk result (λ n. n ≡ rule_amount problem.now spots.now rule.now) }
    ensures small { IfOk result (λ n. n < 2 ^ 62) }
{
    problem.validity();
    let travel = problem.travel();
    let weeks = problem.nr_weeks();
    let placed = placed_members(alloc, spots, rule.members.as_slice())?;
    match rule.kind {
        DistKind::Pair { kind } => Ok(violated_pairs(kind, travel, &placed)),
        DistKind::MaxDays { most } => Ok(days_over(most, &placed)),
        DistKind::MaxWeeks { most } => Ok(weeks_over(most, &placed)),
        DistKind::MaxDayLoad { most } => Ok(load_over(most, weeks, &placed)),
        DistKind::MaxBreaks { breaks, gap } => breaks_over(alloc, breaks, gap, weeks, placed),
        DistKind::MaxBlock { most, gap } => long_blocks(alloc, most, gap, weeks, placed),
    }
}
