//! The changes of the last step that lead from a node to its child.

ghost use Rattle.std.specs.Prelude.{◌≡◌, ◌+◌, ◌<◌, ◌≤◌, All, IfOk, OnOk, None, Some, false, length};
ghost use Rattle.tt_plan.specs.Domain.{IsOfDomain};
ghost use Rattle.tt_published.specs.Published.{moved_in};
ghost use Rattle.tt_published.specs.Aim.{IsAimOf};
ghost use Rattle.tt_state.specs.History.{earlier};
ghost use Rattle.tt_state.specs.Snapshots.{is_locked_in, with_value};
ghost use Rattle.tt_state.specs.Values.{MayHave, conflict_set_of};
ghost use Rattle.tt_suggest.specs.Tree.{child_by};
ghost use Rattle.tt_suggest.specs.Walks.{emptied, node_of, IsBranchOf, HasGoneOn};

use crate::branch::Branch;
use crate::moved::moved_with;
use std::alloc::{AllocError, Global};
use tt_bits::Value;
use tt_published::Aim;
use tt_state::State;

// Gives a class a value, or none where it isn't locked, in the last step. The answer is how many
// published classes are moved then.
fn place(
    state: &mut State,
    aim: &Aim,
    moved: u32,
    class: u32,
    value: Option<Value>,
) -> Result<u32, AllocError>
    requires belongs { IsAimOf state.old.problem aim.now }
    requires may { MayHave state.old.problem class value }
    requires free { value ≡ None → is_locked_in state.old.present class ≡ false }
    requires moved { moved ≡ moved_in state.old.problem aim.now state.old.present.plan }
    requires step { 0 < length (earlier state.old) }
    ensures moved { IfOk result
        (λ moved. moved ≡ moved_in state.old.problem aim.now state.new.present.plan) }
    ensures present { OnOk result (state.new.present ≡ with_value state.old.present class value) }
    ensures on { HasGoneOn state.old state.new }
{
    let moved = moved_with(state, aim, moved, class, value);
    state.place_step(class, value)?;
    Ok(moved)
}

// Takes their values from some classes that aren't locked, in the last step. The answer is how many
// published classes are moved then.
fn empty(state: &mut State, aim: &Aim, moved: u32, classes: &[u32]) -> Result<u32, AllocError>
    requires belongs { IsAimOf state.old.problem aim.now }
    requires classes { All (λ class. class < length state.old.problem.classes) classes.now }
    requires free { All (λ class. is_locked_in state.old.present class ≡ false) classes.now }
    requires moved { moved ≡ moved_in state.old.problem aim.now state.old.present.plan }
    requires step { 0 < length (earlier state.old) }
    ensures moved { IfOk result
        (λ moved. moved ≡ moved_in state.old.problem aim.now state.new.present.plan) }
    ensures present { OnOk result (state.new.present ≡ emptied state.old.present classes.now) }
    ensures on { HasGoneOn state.old state.new }
{
    let mut moved = moved;
    for class in classes {
        moved = place(state, aim, moved, *class, None)?;
    }
    Ok(moved)
}

// Takes some classes out, none of which is locked, and gives another a value, in the last step. The
// answer is how many published classes are moved then.
fn exchange(
    state: &mut State,
    aim: &Aim,
    moved: u32,
    conflicts: &[u32],
    class: u32,
    value: Value,
) -> Result<u32, AllocError>
    requires belongs { IsAimOf state.old.problem aim.now }
    requires value { IsOfDomain state.old.problem class value }
    requires conflicts { conflicts.now
        ≡ conflict_set_of state.old.problem state.old.present class value }
    requires classes { All (λ class. class < length state.old.problem.classes) conflicts.now }
    requires free { All (λ class. is_locked_in state.old.present class ≡ false) conflicts.now }
    requires moved { moved ≡ moved_in state.old.problem aim.now state.old.present.plan }
    requires step { 0 < length (earlier state.old) }
    ensures moved { IfOk result
        (λ moved. moved ≡ moved_in state.old.problem aim.now state.new.present.plan) }
    ensures present { OnOk result
        (state.new.present
        ≡ with_value (emptied state.old.present conflicts.now) class (Some value)) }
    ensures on { HasGoneOn state.old state.new }
{
    let moved = empty(state, aim, moved, conflicts)?;
    place(state, aim, moved, class, Some(value))
}

// Goes to the child of a branch by its class at a value, in the last step. A class waits there.
pub(crate) fn go_on(
    alloc: Global,
    state: &mut State,
    aim: &Aim,
    branch: &Branch,
    value: Value,
) -> Result<Branch, AllocError>
    requires belongs { IsAimOf state.old.problem aim.now }
    requires value { IsOfDomain state.old.problem branch.now.class value }
    requires branch { IsBranchOf state.old.problem aim.now state.old.present branch.now }
    requires taken { state.old.taken
        ≡ conflict_set_of state.old.problem state.old.present branch.now.class value }
    requires free { All (λ class. is_locked_in state.old.present class ≡ false) state.old.taken }
    requires some { 0 < length branch.now.others.items + length state.old.taken }
    requires few { length branch.now.others.items + length state.old.taken ≤ branch.now.spare }
    requires step { 0 < length (earlier state.old) }
    ensures node { IfOk result (λ next.
        node_of state.new.present next
        ≡ child_by state.old.problem (node_of state.old.present branch.now) branch.now.class
        branch.now.others.items value) }
    ensures spare { IfOk result (λ next. next.spare + 1 ≡ branch.now.spare) }
    ensures branch { IfOk result (IsBranchOf state.old.problem aim.now state.new.present) }
    ensures on { HasGoneOn state.old state.new }
{
    let mut waiting = branch.waiting_with(alloc, state.taken())?;
    let path = branch.path_with(alloc, value)?;
    let moved = exchange(
        state,
        aim,
        branch.moved,
        &waiting[branch.others.len()..],
        branch.class,
        value,
    )?;
    let class = waiting.remove(0);
    Ok(Branch {
        path,
        class,
        others: waiting,
        spare: branch.spare - 1,
        moved,
    })
}
