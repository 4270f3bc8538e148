//! Rounds on classes: a class gets the best of its free values.

ghost use Rattle.std.specs.Prelude.{◌≡◌, ◌↔◌, ◌<◌, ◌≤◌, [], IsTrue, None, Some, IfOk, IfSome, OnOk, if◌then◌else◌, false, length};
ghost use Rattle.std.specs.Option.{option_map};
ghost use Rattle.tt_plan.specs.Placements.{IsPlacement};
ghost use Rattle.tt_state.specs.History.{IsWithinStep, earlier, with_taken};
ghost use Rattle.tt_state.specs.Snapshots.{value_in, with_value};
ghost use Rattle.tt_state.specs.Values.{total_with, without_of};
ghost use Rattle.tt_improve.specs.Classes.{is_free, total_of};
ghost use Rattle.tt_improve.specs.Changed.{changed_class};
ghost use Rattle.tt_improve.specs.Below.{lower_of};
ghost use Rattle.tt_improve.specs.Standing.{IsLower, IsMovable, IsNoWorse};

use std::alloc::AllocError;
use tt_bits::Value;
use tt_plan::{Placement, domain_size, value_at};
use tt_score::Without;
use tt_state::State;

// The best value so far, if there is one, and its total. Only a total below this is better.
#[derive(Clone, Copy, Debug, PartialEq, Eq)]
struct Best {
    total: u128,
    value: Option<Value>,
}

// Whether a class has this value.
fn has_value(state: &State, class: u32, value: Value) -> bool
    ensures { IsTrue result ↔ (value_in state.now.present class ≡ Some value) }
{
    state.score().value(class) == Some(value)
}

// The best once a value was looked at. `without` is what the total has without the class. With
// the value that the class has the total is the present one, so this is left out. Whether the value is
// blocked, and then its conflict set, is asked for only where the total is lower.
#[tactic(auto, using(crate::proofs::ClassLemmas::none_within))]
fn look_at(state: &mut State, placement: &Placement, without: Without, best: Best) -> Best
    requires placement { IsPlacement state.old.problem placement.now }
    requires without { without
        ≡ without_of state.old.problem state.old.present placement.now.class }
    requires low { best.total ≤ total_of state.old.problem state.old.present }
    ensures problem { state.new.problem ≡ state.old.problem }
    ensures present { state.new.present ≡ state.old.present }
    ensures entries { state.new.entries ≡ state.old.entries }
    ensures better { result
        ≡ lower_of (is_free state.old.problem state.old.present placement.now.class)
        (total_with state.old.problem state.old.present placement.now.class) best
        placement.now.value }
{
    if has_value(state, placement.class, placement.value) {
        return best;
    }
    let Some(total) = state.trial_below(placement, without, best.total) else {
        return best;
    };
    if state.blocked(placement).is_some() {
        return best;
    }
    if state.find_conflict_set_within(placement, 0) {
        Best {
            total,
            value: Some(placement.value),
        }
    } else {
        best
    }
}

// The first of a class's free values with the least total, where that is below the present total.
fn lower_value(state: &mut State, class: u32) -> Option<Value>
    requires { class < length state.old.problem.classes }
    ensures problem { state.new.problem ≡ state.old.problem }
    ensures present { state.new.present ≡ state.old.present }
    ensures entries { state.new.entries ≡ state.old.entries }
    ensures value { changed_class state.old.problem state.old.present class
        ≡ option_map (λ v. with_value state.old.present class (Some v)) result }
    ensures lower { IfSome result (IsLower state.old.problem state.old.present class) }
{
    let mut best = Best {
        total: state.totals().total,
        value: None,
    };
    let without = state.without(class);
    for k in 0..domain_size(state.problem(), class) {
        let value = value_at(state.problem(), class, k);
        let placement = state.placement(class, value);
        best = look_at(state, &placement, without, best);
    }
    best.value
}

// A round on a class, in the last step: it gets the best of its free values, where the total falls.
// Whether it does.
pub(crate) fn change_class(state: &mut State, class: u32) -> Result<bool, AllocError>
    requires class { IsMovable state.old.problem state.old.present class }
    requires step { 0 < length (earlier state.old) }
    ensures step { IsWithinStep (with_taken state.old []) (with_taken state.new []) }
    ensures changes { IfOk result (λ changes.
        changed_class state.old.problem state.old.present class
        ≡ (if changes then Some state.new.present else None)) }
    ensures same { IfOk result
        (λ changes. changes ≡ false → state.new.present ≡ state.old.present) }
    ensures no_worse { OnOk result
        (IsNoWorse state.old.problem state.old.present state.new.present) }
{
    state.problem().validity();
    state.soundness();
    match lower_value(state, class) {
        None => Ok(false),
        Some(value) => {
            state.place_step(class, Some(value))?;
            Ok(true)
        }
    }
}
