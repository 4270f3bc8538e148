//! How hard each class is: what it weighs in `place`.

ghost use Rattle.std.specs.Prelude.{◌≡◌, ◌+◌, ◌<◌, ◌≤◌, ◌^◌, ◌∷◌, ◌++◌, [], ℕ, All, List, IfOk, count_by, length, nat_eq, slice_index_or, vec_capacity};
ghost use Rattle.tt_base.specs.Limits.{most_classes, most_values};
ghost use Rattle.std.specs.List.{filter, sum_by};
ghost use Rattle.tt_plan.specs.Domain.{IsOfDomain};
ghost use Rattle.tt_search.specs.Turns.{available_values, is_available};
ghost use Rattle.tt_search.specs.LeastNow.{AreLightest, HasRoomForValues, IsPlacementOf};
ghost use Rattle.tt_search.specs.PlacingNow.{CountsOuts, prices_by, taken_by, weight_by};

use crate::least::LeastValues;
use crate::offer::may_be_offered;
use crate::price::Price;
use crate::turn::Turn;
use std::alloc::{AllocError, Global};
use tt_bits::Value;
use tt_plan::{domain_size, value_at};
use tt_state::State;

// How hard each class is: how often the turns so far took it out. It weighs 1 more than that.
#[derive(Drop)]
pub(crate) struct ClassWeights {
    outs: Vec<u64>,
}

impl ClassWeights {
    // No class was taken out.
    pub(crate) fn new(alloc: Global, state: &State) -> Result<ClassWeights, AllocError>
        ensures { IfOk result (CountsOuts state.now.problem []) }
    {
        let count = state.problem().class_count();
        let outs = vec![in alloc; 0; count as usize]?;
        Ok(ClassWeights { outs })
    }

    // What the conflict set found last weighs.
    pub(crate) fn of_taken(&self, state: &State) -> u128
        requires { length self.now.outs.items ≡ length state.now.problem.classes }
        ensures { result ≡ sum_by (weight_by self.now.outs.items) state.now.taken }
    {
        state.problem().validity();
        let mut weight = 0;
        for class in state.taken() {
            weight += 1 + u128::from(self.outs[*class as usize]);
        }
        weight
    }

    // Counts the classes of the conflict set found last.
    fn count_taken(&mut self, state: &State)
        requires whole { length self.old.outs.items ≡ length state.now.problem.classes }
        requires room { (class : ℕ) → slice_index_or self.old.outs.items class 0 ≤ 2 ^ 63 }
        ensures whole { length self.new.outs.items ≡ length self.old.outs.items }
        ensures counts { (class : ℕ)
            → slice_index_or self.new.outs.items class 0
            ≡ slice_index_or self.old.outs.items class 0
            + count_by (nat_eq class) state.now.taken }
        ensures few { length state.now.taken ≤ most_classes }
    {
        state.problem().validity();
        for class in state.taken() {
            self.outs[*class as usize] += 1;
        }
    }

    // Counts the classes that a turn has taken out, which are those found last. Where it forced
    // nothing, there is none.
    pub(crate) fn count_out(&mut self, state: &State, made: Turn)
        requires whole { length self.old.outs.items ≡ length state.now.problem.classes }
        requires room { (class : ℕ) → slice_index_or self.old.outs.items class 0 ≤ 2 ^ 63 }
        ensures whole { length self.new.outs.items ≡ length self.old.outs.items }
        ensures counts { (class : ℕ)
            → slice_index_or self.new.outs.items class 0
            ≡ slice_index_or self.old.outs.items class 0
            + count_by (nat_eq class) (taken_by made state.now.taken) }
        ensures few { length (taken_by made state.now.taken) ≤ most_classes }
    {
        if made.value.is_some() {
            self.count_taken(state);
        }
    }

    // Looks at a value of a class, which is passed over where something stands in its way or its conflict
    // set has more classes than the least so far weigh.
    fn look_at(&self, state: &mut State, class: u32, value: Value, least: &mut LeastValues)
        requires whole { length self.now.outs.items ≡ length state.old.problem.classes }
        requires value { IsOfDomain state.old.problem class value }
        requires room { length least.old.values.items < vec_capacity least.old.values }
        ensures problem { state.new.problem ≡ state.old.problem }
        ensures present { state.new.present ≡ state.old.present }
        ensures entries { state.new.entries ≡ state.old.entries }
        ensures room { vec_capacity least.old.values ≤ vec_capacity least.new.values }
        ensures few { length least.new.values.items ≤ length least.old.values.items + 1 }
        ensures lightest { (xs : List Value)
            → AreLightest
            (prices_by state.old.problem state.old.present self.now.outs.items class) xs least.old
            → AreLightest
            (prices_by state.old.problem state.old.present self.now.outs.items class)
            (xs ++ filter (is_available state.old.problem state.old.present class) (value ∷ []))
            least.new }
        ensures placements { All (IsPlacementOf state.old.problem class) least.old.values.items
            → All (IsPlacementOf state.old.problem class) least.new.values.items }
    {
        let placement = state.placement(class, value);
        if !may_be_offered(state, &placement, least.price()) {
            return;
        }
        let weight = self.of_taken(state);
        let price = Price {
            weight,
            strays: false,
        };
        least.take(&placement, price);
    }

    // Finds the available values of a class that have the least price.
    pub(crate) fn find_lightest(&self, state: &mut State, class: u32, least: &mut LeastValues)
        requires whole { length self.now.outs.items ≡ length state.old.problem.classes }
        requires class { class < length state.old.problem.classes }
        requires room { HasRoomForValues state.old.problem least.old }
        ensures problem { state.new.problem ≡ state.old.problem }
        ensures present { state.new.present ≡ state.old.present }
        ensures entries { state.new.entries ≡ state.old.entries }
        ensures room { HasRoomForValues state.old.problem least.new }
        ensures few { length least.new.values.items ≤ most_values }
        ensures lightest { AreLightest
            (prices_by state.old.problem state.old.present self.now.outs.items class)
            (available_values state.old.problem state.old.present class) least.new }
        ensures placements { All (IsPlacementOf state.old.problem class) least.new.values.items }
    {
        least.clear();
        for k in 0..domain_size(state.problem(), class) {
            let value = value_at(state.problem(), class, k);
            self.look_at(state, class, value, least);
        }
    }
}
