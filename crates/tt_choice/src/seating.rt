//! The change of a student's list to another that the student may get.

ghost use Rattle.std.specs.Prelude.{◌≡◌, ◌<◌, OnOk, OnErr, length};
ghost use Rattle.tt_state.specs.History.{IsWithinStep, earlier};
ghost use Rattle.tt_state.specs.Snapshots.{classes_in_order, with_list};
ghost use Rattle.tt_choice.specs.Seating.{MayGet};

use std::alloc::AllocError;
use tt_state::State;

/// Gives a student classes that the student may get, in place of those that the student has, in the
/// last step.
pub fn seat(state: &mut State, student: u32, classes: &[u32]) -> Result<(), AllocError>
    requires student { student < length state.old.problem.students }
    requires may { MayGet state.old.problem state.old.present.lists student classes.now }
    requires step { 0 < length (earlier state.old) }
    ensures now { OnOk result
        (state.new.present ≡ with_list state.old.present student (classes_in_order classes.now)) }
    ensures step { IsWithinStep state.old state.new }
    ensures err { OnErr result (state.new ≡ state.old) }
{
    state.section_step(student, classes)
}
