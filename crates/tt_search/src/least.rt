//! The values of a class that are least: by their price, and then by the total with the class there.

ghost use Rattle.std.specs.Prelude.{◌≡◌, ◌+◌, ◌<◌, ◌≤◌, ◌∷◌, ◌++◌, [], ℕ, All, List, None, Some, IfNone, IfOk, IfSome, drop, length, slice_get, vec_capacity};
ghost use Rattle.tt_base.specs.Limits.{most_values};
ghost use Rattle.tt_draw.specs.Draws.{drawn};
ghost use Rattle.tt_plan.specs.Domain.{domain_of};
ghost use Rattle.tt_plan.specs.Placements.{IsPlacement};
ghost use Rattle.tt_problem.specs.declared.parts.Parts.{Parts};
ghost use Rattle.tt_state.specs.Values.{total_with, without_of};
ghost use Rattle.tt_search.specs.Numbers.{price_numbers};
ghost use Rattle.tt_search.specs.PlaceTurns.{all_least};
ghost use Rattle.tt_search.specs.LeastNow.{AreKept, AreLightest, HasRoomForValues, IsPlacementOf, total_numbers, values_of};

use crate::price::Price;
use std::alloc::{AllocError, Global};
use tt_bits::Value;
use tt_draw::draw;
use tt_plan::{Placement, domain_size};
use tt_problem::Problem;
use tt_score::Without;
use tt_state::State;

// The values of a class with the least price so far, in the order of its domain, each with its spot, and
// this price. There is room for the values of each class.
#[derive(Drop)]
pub(crate) struct LeastValues {
    price: Option<Price>,
    values: Vec<Placement>,
}

// How many values with the least total so far were kept, and this total.
#[derive(Clone, Copy, Debug, PartialEq, Eq)]
struct Kept {
    count: usize,
    total: Option<u128>,
}

impl Kept {
    // How many stay before a value whose total isn't above theirs: none where it is below.
    fn staying(&self, total: u128) -> usize
        ensures none { IfNone self.now.total (result ≡ 0) }
        ensures below { IfSome self.now.total (λ least. total < least → result ≡ 0) }
        ensures same { IfSome self.now.total (λ least. total ≡ least → result ≡ self.now.count) }
    {
        match self.total {
            Some(least) if total == least => self.count,
            _ => 0,
        }
    }
}

// How many values the largest domain has.
fn largest_domain(problem: &Problem) -> u32
    ensures { (class : ℕ)
        → class < length problem.now.classes
        → length (domain_of problem.now class) ≤ result }
{
    let mut most = 0;
    for class in 0..problem.class_count() {
        most = domain_size(problem, class).max(most);
    }
    most
}

// The total with a class at a value, and none where it is above the least so far. `without` is what it
// has without the class.
fn total_up_to(
    state: &mut State,
    placement: &Placement,
    without: Without,
    least: Option<u128>,
) -> Option<u128>
    requires placement { IsPlacement state.old.problem placement.now }
    requires without { without
        ≡ without_of state.old.problem state.old.present placement.now.class }
    ensures same { state.new ≡ state.old }
    ensures total { IfSome result
        (λ total. total
        ≡ total_with state.old.problem state.old.present placement.now.class
        placement.now.value) }
    ensures most { IfSome result (λ total. IfSome least (λ lowest. total ≤ lowest)) }
    ensures none { IfNone result (IfNone least ⊥) }
    ensures above { IfNone result (IfSome least
        (λ lowest. lowest
        < total_with state.old.problem state.old.present placement.now.class
        placement.now.value)) }
{
    match least.and_then(|total| total.checked_add(1)) {
        None => Some(state.trial(placement.class, placement.value)),
        Some(bound) => state.trial_below(placement, without, bound),
    }
}

impl LeastValues {
    // No value.
    pub(crate) fn new(alloc: Global, state: &State) -> Result<LeastValues, AllocError>
        ensures { IfOk result (HasRoomForValues state.now.problem) }
    {
        let most = largest_domain(state.problem());
        let values = Vec::with_capacity(alloc, most as usize)?;
        Ok(LeastValues {
            price: None,
            values,
        })
    }

    // Forgets the values.
    pub(crate) fn clear(&mut self)
        ensures price { self.new.price ≡ None }
        ensures values { self.new.values.items ≡ [] }
        ensures room { vec_capacity self.new.values ≡ vec_capacity self.old.values }
    {
        self.price = None;
        self.values.clear();
    }

    // The price of the values.
    pub(crate) fn price(&self) -> Option<Price>
        ensures { result ≡ self.now.price }
    {
        self.price
    }

    // Has this value alone.
    fn set(&mut self, placement: Placement, price: Price)
        requires room { 0 < vec_capacity self.old.values }
        ensures price { self.new.price ≡ Some price }
        ensures values { self.new.values.items ≡ placement ∷ [] }
        ensures room { vec_capacity self.old.values ≤ vec_capacity self.new.values }
    {
        self.price = Some(price);
        self.values.clear();
        self.values.push(placement).unwrap();
    }

    // Takes in a value: it is passed over where its price is above that of the others, which go where it
    // is below.
    pub(crate) fn take(&mut self, placement: &Placement, price: Price)
        requires room { length self.old.values.items < vec_capacity self.old.values }
        ensures room { vec_capacity self.old.values ≤ vec_capacity self.new.values }
        ensures few { length self.new.values.items ≤ length self.old.values.items + 1 }
        ensures lightest { (prices : Value → List ℕ) (xs : List Value)
            → prices placement.now.value ≡ price_numbers price
            → AreLightest prices xs self.old
            → AreLightest prices (xs ++ placement.now.value ∷ []) self.new }
        ensures placements { (p : Parts) (class : ℕ)
            → IsPlacementOf p class placement.now
            → All (IsPlacementOf p class) self.old.values.items
            → All (IsPlacementOf p class) self.new.values.items }
    {
        let Some(least) = self.price else {
            return self.set(*placement, price);
        };
        if price.is_below(&least) {
            return self.set(*placement, price);
        }
        if !least.is_below(&price) {
            self.values.push(*placement).unwrap();
        }
    }

    // Keeps a value behind those kept so far, unless its total is above theirs. Where it is below, they
    // go. `without` is what the total has without the class.
    fn keep(
        &mut self,
        state: &mut State,
        without: Without,
        placement: Placement,
        kept: Kept,
    ) -> Kept
        requires placement { IsPlacement state.old.problem placement }
        requires without { without
            ≡ without_of state.old.problem state.old.present placement.class }
        requires within { kept.count < length self.old.values.items }
        ensures same { state.new ≡ state.old }
        ensures room { vec_capacity self.new.values ≡ vec_capacity self.old.values }
        ensures len { length self.new.values.items ≡ length self.old.values.items }
        ensures few { result.count ≤ kept.count + 1 }
        ensures rest { (k : ℕ)
            → kept.count < k
            → drop k self.new.values.items ≡ drop k self.old.values.items }
        ensures least { (xs : List Value)
            → AreKept (total_numbers state.old.problem state.old.present placement.class) xs
            (values_of self.old.values.items) kept
            → AreKept (total_numbers state.old.problem state.old.present placement.class)
            (xs ++ placement.value ∷ []) (values_of self.new.values.items) result }
    {
        let Some(total) = total_up_to(state, &placement, without, kept.total) else {
            return kept;
        };
        let count = kept.staying(total);
        self.values[count] = placement;
        Kept {
            count: count + 1,
            total: Some(total),
        }
    }

    // Keeps of the values those with the least total. No total is asked for where there are fewer than
    // two.
    pub(crate) fn keep_least(&mut self, state: &mut State, class: u32)
        requires class { class < length state.old.problem.classes }
        requires placements { All (IsPlacementOf state.old.problem class) self.old.values.items }
        ensures same { state.new ≡ state.old }
        ensures room { vec_capacity self.new.values ≡ vec_capacity self.old.values }
        ensures few { length self.new.values.items ≤ length self.old.values.items }
        ensures least { values_of self.new.values.items
            ≡ all_least (total_numbers state.old.problem state.old.present class)
            (values_of self.old.values.items) }
    {
        if self.values.len() < 2 {
            return;
        }
        let without = state.without(class);
        let mut kept = Kept {
            count: 0,
            total: None,
        };
        for place in 0..self.values.len() {
            let placement = self.values[place];
            kept = self.keep(state, without, placement, kept);
        }
        self.values.truncate(kept.count);
    }

    // The first of the values.
    pub(crate) fn first(&self) -> Option<Value>
        ensures { result ≡ slice_get (values_of self.now.values.items) 0 }
    {
        self.values.first().map(|placement| placement.value)
    }

    // The value that a random word draws.
    pub(crate) fn drawn(&self, word: u32) -> Option<Value>
        requires { length self.now.values.items ≤ most_values }
        ensures { result ≡ drawn word (values_of self.now.values.items) }
    {
        let place = draw(word, self.values.len() as u64);
        self.values
            .get(place as usize)
            .map(|placement| placement.value)
    }
}
