//! A turn: the class that is drawn, and the value of the least price.

ghost use Rattle.std.specs.Prelude.{◌≡◌, ◌+◌, ◌<◌, ◌≤◌, ◌∷◌, ◌++◌, [], All, List, IfSome, length, vec_capacity};
ghost use Rattle.std.specs.List.{filter};
ghost use Rattle.std.specs.Option.{option_map};
ghost use Rattle.tt_published.specs.Aim.{IsAimOf};
ghost use Rattle.tt_plan.specs.Domain.{IsOfDomain};
ghost use Rattle.tt_search.specs.Turns.{available_values, chosen_value, is_available, turn_of};
ghost use Rattle.tt_search.specs.Drawing.{AreCandidates};
ghost use Rattle.tt_search.specs.LeastNow.{AreLightest, HasRoomForValues, IsPlacementOf};
ghost use Rattle.tt_search.specs.Numbers.{IsAvailable, MayMake, after_making, prices_of};

use crate::drawing::Candidates;
use crate::least::LeastValues;
use crate::offer::may_be_offered;
use crate::price::{Price, is_stray};
use tt_bits::Value;
use tt_plan::{domain_size, value_at};
use tt_published::Aim;
use tt_state::State;

// The class of a turn, and the value that it is forced to, if it has an available one.
#[derive(Clone, Copy, Debug, PartialEq, Eq)]
pub(crate) struct Turn {
    pub class: u32,
    pub value: Option<Value>,
}

// Looks at a value of a class, which is passed over where something stands in its way or its conflict
// set alone weighs more than the least so far.
fn look_at(state: &mut State, aim: &Aim, class: u32, value: Value, least: &mut LeastValues)
    requires belongs { IsAimOf state.old.problem aim.now }
    requires value { IsOfDomain state.old.problem class value }
    requires room { length least.old.values.items < vec_capacity least.old.values }
    ensures problem { state.new.problem ≡ state.old.problem }
    ensures present { state.new.present ≡ state.old.present }
    ensures entries { state.new.entries ≡ state.old.entries }
    ensures room { vec_capacity least.old.values ≤ vec_capacity least.new.values }
    ensures few { length least.new.values.items ≤ length least.old.values.items + 1 }
    ensures lightest { (xs : List Value)
        → AreLightest (prices_of state.old.problem aim.now state.old.present class) xs least.old
        → AreLightest (prices_of state.old.problem aim.now state.old.present class)
        (xs ++ filter (is_available state.old.problem state.old.present class) (value ∷ []))
        least.new }
    ensures placements { All (IsPlacementOf state.old.problem class) least.old.values.items
        → All (IsPlacementOf state.old.problem class) least.new.values.items }
{
    let placement = state.placement(class, value);
    if !may_be_offered(state, &placement, least.price()) {
        return;
    }
    let weight = state.tolls(class, value);
    let strays = is_stray(state.problem(), aim, class, value);
    least.take(&placement, Price { weight, strays });
}

// Finds the available values of a class that have the least price.
fn find_lightest(state: &mut State, aim: &Aim, class: u32, least: &mut LeastValues)
    requires belongs { IsAimOf state.old.problem aim.now }
    requires class { class < length state.old.problem.classes }
    requires room { HasRoomForValues state.old.problem least.old }
    ensures problem { state.new.problem ≡ state.old.problem }
    ensures present { state.new.present ≡ state.old.present }
    ensures entries { state.new.entries ≡ state.old.entries }
    ensures room { HasRoomForValues state.old.problem least.new }
    ensures lightest { AreLightest (prices_of state.old.problem aim.now state.old.present class)
        (available_values state.old.problem state.old.present class) least.new }
    ensures placements { All (IsPlacementOf state.old.problem class) least.new.values.items }
{
    least.clear();
    for k in 0..domain_size(state.problem(), class) {
        let value = value_at(state.problem(), class, k);
        look_at(state, aim, class, value, least);
    }
}

// The value chosen for a class, the first of its available values with the least price and total.
fn best_value(state: &mut State, aim: &Aim, class: u32, least: &mut LeastValues) -> Option<Value>
    requires belongs { IsAimOf state.old.problem aim.now }
    requires class { class < length state.old.problem.classes }
    requires room { HasRoomForValues state.old.problem least.old }
    ensures problem { state.new.problem ≡ state.old.problem }
    ensures present { state.new.present ≡ state.old.present }
    ensures entries { state.new.entries ≡ state.old.entries }
    ensures room { HasRoomForValues state.old.problem least.new }
    ensures value { result ≡ chosen_value state.old.problem aim.now state.old.present class }
    ensures available { IfSome result (IsAvailable state.old.problem state.old.present class) }
{
    find_lightest(state, aim, class, least);
    least.keep_least(state, class);
    least.first()
}

// The class of the turn with a random word and the value that it is forced to, if it has an available
// one. None where there is no candidate.
#[tactic(auto, unfolding(crate::specs::Turns::turn_of))]
pub(crate) fn next_turn(
    state: &mut State,
    aim: &Aim,
    candidates: &Candidates,
    least: &mut LeastValues,
    word: u32,
) -> Option<Turn>
    requires belongs { IsAimOf state.old.problem aim.now }
    requires candidates { AreCandidates state.old.problem state.old.present candidates.now [] }
    requires room { HasRoomForValues state.old.problem least.old }
    ensures room { HasRoomForValues state.old.problem least.new }
    ensures problem { state.new.problem ≡ state.old.problem }
    ensures present { state.new.present ≡ state.old.present }
    ensures entries { state.new.entries ≡ state.old.entries }
    ensures turn { turn_of state.old.problem aim.now word state.old.present
        ≡ option_map (after_making state.old.problem state.old.present) result }
    ensures may { IfSome result (MayMake state.old.problem state.old.present) }
{
    let class = candidates.drawn(word)?;
    let value = best_value(state, aim, class, least);
    Some(Turn { class, value })
}
