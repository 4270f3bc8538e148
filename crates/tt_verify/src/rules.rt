//! What is wrong with the required rules.

ghost use Rattle.std.specs.Prelude.{◌≡◌, ◌++◌, ◌<◌, ℕ, All, IfSome, OnOk, length};
ghost use Rattle.std.specs.List.{flat_map, range_with_len};
ghost use Rattle.tt_bits.specs.Spots.{spot_at};
ghost use Rattle.tt_pair.specs.ViolatedPairs.{is_violated};
ghost use Rattle.tt_problem.specs.Valid.{IsValidRule};
ghost use Rattle.tt_score.specs.Amounts.{rule_amount};
ghost use Rattle.tt_score.specs.Members.{AreSpotsOf};
ghost use Rattle.tt_travel.specs.Table.{IsRoomOf};
ghost use Rattle.tt_verify.specs.Pairs.{are_related, pairs_with, related_pairs};
ghost use Rattle.tt_verify.specs.Violations.{rule_faults_at};
ghost use Rattle.tt_verify.specs.Found.{amount_faults, pair_faults};

use crate::amounts::{is_violated, rule_amount};
use crate::violation::Violation;
use std::alloc::{AllocError, Global};
use tt_bits::{PairKind, Spot};
use tt_problem::{DistKind, Problem, Rule};
use tt_travel::Travel;

// A required rule on pairs, and its place in the problem.
#[derive(Clone, Copy)]
struct PairRule {
    place: u32,
    kind: PairKind,
}

// Whether two classes are placed, and their spots break a rule on pairs, the first that of the
// member listed earlier.
#[tactic(auto, unfolding(crate::specs::Pairs::are_related))]
fn breaks(travel: &Travel, spots: &[Option<Spot>], kind: PairKind, class: u32, other: u32) -> bool
    requires rooms { (c : ℕ) → IfSome (spot_at spots.now c) (λ x. IsRoomOf travel.now x.room) }
    requires class { class < length spots.now }
    requires other { other < length spots.now }
    ensures { result ≡ are_related (is_violated kind travel.now) spots.now class other }
{
    match (&spots[class as usize], &spots[other as usize]) {
        (Some(spot), Some(there)) => is_violated(kind, travel, spot, there),
        _ => false,
    }
}

// Adds the pairs of a member and of those of some others that break a rule on pairs with it.
#[tactic(auto, using(crate::proofs::PairLemmas::pair_faults_yes, crate::proofs::PairLemmas::pair_faults_no, std::proofs::Common::append_assoc))]
fn add_pairs_of(
    travel: &Travel,
    spots: &[Option<Spot>],
    rule: PairRule,
    class: u32,
    later: &[u32],
    found: &mut Vec<Violation>,
) -> Result<(), AllocError>
    requires rooms { (c : ℕ) → IfSome (spot_at spots.now c) (λ x. IsRoomOf travel.now x.room) }
    requires class { class < length spots.now }
    requires within { All (λ class. class < length spots.now) later.now }
    ensures { OnOk result (found.new.items
        ≡ found.old.items
        ++ pair_faults rule.place (pairs_with
        (are_related (is_violated rule.kind travel.now) spots.now) class later.now)) }
{
    for other in later {
        if breaks(travel, spots, rule.kind, class, *other) {
            found.push(Violation::Pair {
                rule: rule.place,
                class,
                other: *other,
            })?;
        }
    }
    Ok(())
}

// Adds the pairs of members that break a rule on pairs.
fn add_pairs(
    travel: &Travel,
    spots: &[Option<Spot>],
    rule: PairRule,
    members: &[u32],
    found: &mut Vec<Violation>,
) -> Result<(), AllocError>
    requires rooms { (c : ℕ) → IfSome (spot_at spots.now c) (λ x. IsRoomOf travel.now x.room) }
    requires within { All (λ class. class < length spots.now) members.now }
    ensures { OnOk result (found.new.items
        ≡ found.old.items
        ++ pair_faults rule.place (related_pairs
        (are_related (is_violated rule.kind travel.now) spots.now) members.now)) }
{
    for (place, class) in members.iter().enumerate() {
        let class = *class;
        let later = &members[place + 1..];
        add_pairs_of(travel, spots, rule, class, later, found)?;
    }
    Ok(())
}

// Adds the amount of a rule that speaks of all members together, where it is above 0.
#[tactic(auto, unfolding(crate::specs::Found::amount_faults))]
fn add_amount(
    alloc: Global,
    problem: &Problem,
    spots: &[Option<Spot>],
    place: u32,
    rule: &Rule,
    found: &mut Vec<Violation>,
) -> Result<(), AllocError>
    requires rule { IsValidRule problem.now rule.now }
    requires whole { length spots.now ≡ length problem.now.classes }
    requires fit { AreSpotsOf problem.now spots.now }
    ensures { OnOk result (found.new.items
        ≡ found.old.items ++ amount_faults place (rule_amount problem.now spots.now rule.now)) }
{
    let amount = rule_amount(alloc, problem, spots, rule)?;
    if amount != 0 {
        found.push(Violation::Amount {
            rule: place,
            amount,
        })?;
    }
    Ok(())
}

// Adds what is wrong with a rule; nothing where it isn't required.
#[tactic(auto, unfolding(crate::specs::Violations::rule_faults_at, crate::specs::Violations::rule_faults, crate::specs::Violations::kind_faults, crate::specs::Found::pair_faults, crate::specs::Found::amount_faults))]
fn add_rule_faults(
    alloc: Global,
    problem: &Problem,
    spots: &[Option<Spot>],
    place: u32,
    found: &mut Vec<Violation>,
) -> Result<(), AllocError>
    requires place { place < length problem.now.rules }
    requires whole { length spots.now ≡ length problem.now.classes }
    requires fit { AreSpotsOf problem.now spots.now }
    ensures { OnOk result
        (found.new.items ≡ found.old.items ++ rule_faults_at problem.now spots.now place) }
{
    problem.validity();
    let travel = problem.travel();
    let rule = problem.rule(place);
    if !rule.required {
        return Ok(());
    }
    match rule.kind {
        DistKind::Pair { kind } => {
            let members = rule.members.as_slice();
            add_pairs(travel, spots, PairRule { place, kind }, members, found)
        }
        DistKind::MaxDays { .. }
        | DistKind::MaxWeeks { .. }
        | DistKind::MaxDayLoad { .. }
        | DistKind::MaxBreaks { .. }
        | DistKind::MaxBlock { .. } => add_amount(alloc, problem, spots, place, rule, found),
    }
}

/// Adds what is wrong with the required rules.
#[tactic(auto, using(crate::proofs::WalkLemmas::pieces_more, std::proofs::Common::append_assoc))]
pub fn add_all_rule_faults(
    alloc: Global,
    problem: &Problem,
    spots: &[Option<Spot>],
    found: &mut Vec<Violation>,
) -> Result<(), AllocError>
    requires whole { length spots.now ≡ length problem.now.classes }
    requires fit { AreSpotsOf problem.now spots.now }
    ensures { OnOk result (found.new.items
        ≡ found.old.items
        ++ flat_map (rule_faults_at problem.now spots.now)
        (range_with_len 0 (length problem.now.rules))) }
{
    for place in 0..problem.rule_count() {
        add_rule_faults(alloc, problem, spots, place, found)?;
    }
    Ok(())
}
