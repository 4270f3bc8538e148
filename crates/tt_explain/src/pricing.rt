//! The lines of `values`: what each value of a class would cost.

ghost use Rattle.std.specs.Prelude.{◌≡◌, ◌++◌, ◌<◌, [], OnOk, length};
ghost use Rattle.tt_bits.specs.declared.times.Value.{Value};
ghost use Rattle.tt_plan.specs.Domain.{IsOfDomain};
ghost use Rattle.tt_state.specs.History.{with_taken};
ghost use Rattle.tt_state.specs.Values.{conflict_set_of};
ghost use Rattle.tt_explain.specs.Values.{IsToldByWhy, costs_text, price_text, priced_line, value_costs, values_lines};

use crate::ids::add_value;
use crate::trying::add_obstacle;
use std::alloc::AllocError;
use tt_bits::Value;
use tt_plan::{domain_size, value_at};
use tt_state::State;
use tt_text::Reply;

/// What a class at a value would cost: how many classes it pushes out, their tolls, and the total.
#[derive(Clone, Copy, Debug, PartialEq, Eq)]
pub struct ValueCosts {
    pub out: u32,
    pub tolls: u128,
    pub total: u128,
}

// What a class at a value would cost, whose conflict set was found last. Nothing is changed.
#[tactic(auto, unfolding(crate::specs::Values::value_costs))]
fn value_costs(state: &mut State, class: u32, value: Value) -> ValueCosts
    requires value { IsOfDomain state.old.problem class value }
    requires taken { state.old.taken
        ≡ conflict_set_of state.old.problem state.old.present class value }
    ensures costs { result ≡ value_costs state.old.problem state.old.present class value }
    ensures same { state.new ≡ state.old }
{
    state.problem().validity();
    let out = state.taken().len() as u32;
    let tolls = state.tolls(class, value);
    let total = state.trial(class, value);
    ValueCosts { out, tolls, total }
}

// Appends what a class at a value would cost.
#[tactic(auto, using(std::proofs::Common::append_assoc), unfolding(crate::specs::Values::costs_text))]
fn add_costs(out: &mut Reply, costs: ValueCosts) -> Result<(), AllocError>
    ensures { OnOk result (out.new ≡ out.old ++ costs_text costs) }
{
    out.field("out ", u128::from(costs.out))?;
    out.field(" weight ", costs.tolls)?;
    out.field(" trial ", costs.total)
}

// Appends what stands in the way of a value, or what the class would cost there.
#[tactic(auto, using(tt_state::proofs::ObstacleLemmas::not_blocked), unfolding(crate::specs::Values::price_text))]
fn add_price(out: &mut Reply, state: &mut State, class: u32, value: Value) -> Result<(), AllocError>
    requires { IsOfDomain state.old.problem class value }
    ensures lines { OnOk result
        (out.new ≡ out.old ++ price_text state.old.problem state.old.present class value) }
    ensures same { with_taken state.new [] ≡ with_taken state.old [] }
{
    match state.find_obstacle(class, value) {
        Some(obstacle) => add_obstacle(out, state.problem(), obstacle),
        None => {
            let costs = value_costs(state, class, value);
            add_costs(out, costs)
        }
    }
}

// Appends the line on a value of a class.
#[tactic(auto, using(std::proofs::Common::append_assoc), unfolding(crate::specs::Values::priced_line))]
fn add_priced_line(
    out: &mut Reply,
    state: &mut State,
    class: u32,
    value: Value,
) -> Result<(), AllocError>
    requires { IsOfDomain state.old.problem class value }
    ensures lines { OnOk result
        (out.new ≡ out.old ++ priced_line state.old.problem state.old.present class value) }
    ensures same { with_taken state.new [] ≡ with_taken state.old [] }
{
    out.text("value ")?;
    add_value(out, state.problem(), class, value)?;
    out.text(" ")?;
    add_price(out, state, class, value)?;
    out.text("\n")
}

/// Appends a line for each value of a class, in the order of its domain: what stands in its way, or
/// how many classes would have to go, what they weigh (each 1, and how often it had to go for the
/// class at the value from the value that it has), and the total with the class at the value and all
/// else as it is. `why` tells the same of a value (`why`). No memory is taken but the reply's. The
/// snapshot, the steps and the trail stay; the conflict set found last may be another. Where memory
/// is wanting, some of the lines may have been appended.
pub fn values(state: &mut State, class: u32, out: &mut Reply) -> Result<(), AllocError>
    requires { class < length state.old.problem.classes }
    ensures lines { OnOk result
        (out.new ≡ out.old ++ values_lines state.old.problem state.old.present class) }
    ensures same { with_taken state.new [] ≡ with_taken state.old [] }
    ensures why { (v : Value) → IsToldByWhy state.old.problem state.old.present class v }
{
    for k in 0..domain_size(state.problem(), class) {
        let value = value_at(state.problem(), class, k);
        add_priced_line(out, state, class, value)?;
    }
    Ok(())
}
