//! Whether a class has a value, and whether a value is free.

ghost use Rattle.std.specs.Prelude.{◌≡◌};
ghost use Rattle.tt_plan.specs.Placements.{IsPlacement};
ghost use Rattle.tt_improve.specs.Classes.{is_free};
ghost use Rattle.tt_deluge.specs.ClassRounds.{has_value};

use tt_bits::Value;
use tt_plan::Placement;
use tt_state::State;

// Whether a class has this value.
pub(crate) fn has_value(state: &State, class: u32, value: Value) -> bool
    ensures { result ≡ has_value state.now.present class value }
{
    match state.score().value(class) {
        None => false,
        Some(now) => now.time == value.time && now.room == value.room,
    }
}

// Whether a value of a class is free: it isn't blocked, and pushes no class out.
#[tactic(auto, using(tt_improve::proofs::ClassLemmas::none_within))]
pub(crate) fn is_free(state: &mut State, placement: &Placement) -> bool
    requires { IsPlacement state.old.problem placement.now }
    ensures free { result
        ≡ is_free state.old.problem state.old.present placement.now.class placement.now.value }
    ensures problem { state.new.problem ≡ state.old.problem }
    ensures present { state.new.present ≡ state.old.present }
    ensures entries { state.new.entries ≡ state.old.entries }
{
    state.blocked(placement).is_none() && state.find_conflict_set_within(placement, 0)
}
