//! The lines of `costs`: the soft rules and the classes from which the total comes.

ghost use Rattle.std.specs.Prelude.{◌≡◌, ◌++◌, ◌<◌, ◌+◌, [], OnOk, if◌then◌else◌, length, nat_lt};
ghost use Rattle.std.specs.List.{flat_map};
ghost use Rattle.tt_plan.specs.Domain.{spots_of};
ghost use Rattle.tt_score.specs.Totals.{totals_of};
ghost use Rattle.tt_explain.specs.Explain.{line_at, pair_count};
ghost use Rattle.tt_explain.specs.Costs.{AddUp, class_cost_line, class_costs, costs_lines, is_costly_class, costly_classes, costly_rules, is_costly_rule};

use crate::now::value_in;
use crate::pairs::pair_counts;
use crate::rule_lines::add_rule_line;
use std::alloc::{AllocError, Global};
use tt_plan::{room_penalty, time_penalty};
use tt_problem::Problem;
use tt_state::State;
use tt_text::Reply;

/// What a class costs: the penalties of its time and of its room, and in how many conflicting pairs
/// it is.
#[derive(Clone, Copy, Debug, PartialEq, Eq)]
pub struct ClassCosts {
    pub time: u32,
    pub room: u32,
    pub conflicts: u64,
}

impl ClassCosts {
    // Whether one of them is above 0.
    fn costs_something(&self) -> bool
        ensures { result ≡ nat_lt 0 (self.now.time + self.now.room + self.now.conflicts) }
    {
        self.time > 0 || self.room > 0 || self.conflicts > 0
    }
}

// Appends the line on the rule at a place, where it is soft and its amount is above 0.
#[tactic(auto, unfolding(crate::specs::Explain::line_at, crate::specs::Explain::rule_line, crate::specs::Costs::is_costly_rule))]
fn add_costly_rule(out: &mut Reply, state: &State, place: u32) -> Result<(), AllocError>
    requires { place < length state.now.problem.rules }
    ensures { OnOk result (out.new
        ≡ out.old
        ++ (if is_costly_rule state.now.problem
        (spots_of state.now.problem state.now.present.plan) place
        then line_at state.now.problem (spots_of state.now.problem state.now.present.plan)
        place
        else [])) }
{
    if state.problem().rule(place).required {
        return Ok(());
    }
    add_rule_line(out, state, place)
}

// Appends a line for each soft rule with an amount above 0.
fn add_costly_rules(out: &mut Reply, state: &State) -> Result<(), AllocError>
    ensures { OnOk result (out.new
        ≡ out.old
        ++ flat_map
        (line_at state.now.problem (spots_of state.now.problem state.now.present.plan))
        (costly_rules state.now.problem (spots_of state.now.problem state.now.present.plan))) }
{
    for place in 0..state.problem().rule_count() {
        add_costly_rule(out, state, place)?;
    }
    Ok(())
}

// What a class costs that is in so many conflicting pairs.
#[tactic(auto, unfolding(crate::specs::Costs::class_costs))]
fn class_costs(state: &State, class: u32, pairs: u64) -> ClassCosts
    requires { pairs ≡ pair_count state.now.problem state.now.present class }
    ensures { result ≡ class_costs state.now.problem state.now.present class }
{
    match value_in(state, class) {
        None => ClassCosts {
            time: 0,
            room: 0,
            conflicts: pairs,
        },
        Some(value) => ClassCosts {
            time: time_penalty(state.problem(), class, value),
            room: room_penalty(state.problem(), class, value),
            conflicts: pairs,
        },
    }
}

// Appends the line on what a class costs.
#[tactic(auto, using(std::proofs::Common::append_assoc), unfolding(crate::specs::Costs::class_cost_line))]
fn add_class_cost_line(
    out: &mut Reply,
    problem: &Problem,
    class: u32,
    costs: ClassCosts,
) -> Result<(), AllocError>
    ensures { OnOk result (out.new ≡ out.old ++ class_cost_line problem.now class costs) }
{
    out.field("class ", u128::from(problem.class_id(class)))?;
    out.field(" time ", u128::from(costs.time))?;
    out.field(" room ", u128::from(costs.room))?;
    out.field(" conflicts ", u128::from(costs.conflicts))?;
    out.text("\n")
}

// Appends the line on what a class costs that is in so many conflicting pairs, where that is something.
fn add_costly_class(
    out: &mut Reply,
    state: &State,
    class: u32,
    pairs: u64,
) -> Result<(), AllocError>
    requires { pairs ≡ pair_count state.now.problem state.now.present class }
    ensures { OnOk result (out.new
        ≡ out.old
        ++ (if is_costly_class state.now.problem state.now.present class
        then class_cost_line state.now.problem class
        (class_costs state.now.problem state.now.present class)
        else [])) }
{
    let costs = class_costs(state, class, pairs);
    if costs.costs_something() {
        add_class_cost_line(out, state.problem(), class, costs)
    } else {
        Ok(())
    }
}

// Appends a line for each class that costs something.
fn add_costly_classes(alloc: Global, state: &State, out: &mut Reply) -> Result<(), AllocError>
    ensures { OnOk result (out.new
        ≡ out.old
        ++ flat_map
        (λ class.
        class_cost_line state.now.problem class
        (class_costs state.now.problem state.now.present class))
        (costly_classes state.now.problem state.now.present)) }
{
    let pairs = pair_counts(alloc, state)?;
    for class in 0..state.problem().class_count() {
        add_costly_class(out, state, class, pairs[class as usize])?;
    }
    Ok(())
}

// What costs something adds up to the totals.
fn costs_add_up(state: &State)
    ensures { AddUp state.now.problem state.now.present (totals_of state.now.problem
        state.now.present.closures state.now.present.plan state.now.present.lists) }
{
    state.problem().validity();
    state.soundness();
    let _ = state.score();
}

/// Appends the lines on where the total comes from: each soft rule with an amount above 0, and each
/// class whose time, room or students cost something. What they say adds up to the sums of the line
/// of totals, where each pair of classes is counted at both. It takes memory for a number a class, and
/// goes once over the lists of the students. Where memory is wanting, some of the lines may have been
/// appended.
#[tactic(auto, using(std::proofs::Common::append_assoc), unfolding(crate::specs::Costs::costs_lines))]
pub fn costs(alloc: Global, state: &State, out: &mut Reply) -> Result<(), AllocError>
    ensures lines { OnOk result
        (out.new ≡ out.old ++ costs_lines state.now.problem state.now.present) }
    ensures sums { AddUp state.now.problem state.now.present (totals_of state.now.problem
        state.now.present.closures state.now.present.plan state.now.present.lists) }
{
    costs_add_up(state);
    add_costly_rules(out, state)?;
    add_costly_classes(alloc, state, out)
}
