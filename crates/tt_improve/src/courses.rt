//! Rounds on students: the least choice of a course replaces a student's own.

ghost use Rattle.std.specs.Prelude.{◌≡◌, ◌<◌, ◌≤◌, ◌++◌, None, Some, IfOk, IfSome, OnOk, if◌then◌else◌, false, length, take};
ghost use Rattle.std.specs.Option.{option_map};
ghost use Rattle.tt_state.specs.History.{IsWithinStep, earlier};
ghost use Rattle.tt_state.specs.Snapshots.{classes_in_order, list_in, with_list};
ghost use Rattle.tt_choice.specs.Ready.{HasRoomToChoose};
ghost use Rattle.tt_choice.specs.Seating.{MayGet};
ghost use Rattle.tt_improve.specs.Courses.{own_of, replaced_by, rest_of};
ghost use Rattle.tt_improve.specs.Changed.{changed_student};
ghost use Rattle.tt_improve.specs.Standing.{IsNoWorse, IsSeatedIn};

use crate::pairs::{has_pair, is_of_course};
use std::alloc::{AllocError, Global};
use tt_choice::{ChoiceBuffers, least_of_course, pairs_of, seat};
use tt_state::State;

// The list of a student: the student's own classes of a course, and the rest.
#[derive(Drop)]
struct StudentList {
    own: Vec<u32>,
    rest: Vec<u32>,
}

impl StudentList {
    // The list of a student, parted by a course.
    fn by_course(
        alloc: Global,
        state: &State,
        student: u32,
        course: u32,
    ) -> Result<StudentList, AllocError>
        requires { student < length state.now.problem.students }
        ensures own { IfOk result (λ list.
            list.own.items ≡ own_of state.now.problem course (list_in state.now.present student)) }
        ensures rest { IfOk result (λ list.
            list.rest.items
            ≡ rest_of state.now.problem course (list_in state.now.present student)) }
    {
        state.soundness();
        let mut own = Vec::new(alloc);
        let mut rest = Vec::new(alloc);
        for class in state.classes_of(student) {
            if is_of_course(state.problem(), course, class) {
                own.push(class)?;
            } else {
                rest.push(class)?;
            }
        }
        Ok(StudentList { own, rest })
    }
}

// The least choice of a course that may replace a student's own classes of it beside the rest of the
// list, where it adds fewer pairs than these: how many classes it has, which then stand at the front
// of the buffer of the best.
fn fewer_pairs(
    state: &State,
    student: u32,
    course: u32,
    rest: &[u32],
    own: &[u32],
    buffers: &mut ChoiceBuffers,
) -> Option<usize>
    requires target { IsSeatedIn state.now.problem state.now.present student course }
    requires rest { rest.now
        ≡ rest_of state.now.problem course (list_in state.now.present student) }
    requires own { own.now ≡ own_of state.now.problem course (list_in state.now.present student) }
    requires room { HasRoomToChoose state.now.problem buffers.old }
    ensures room { HasRoomToChoose state.now.problem buffers.new }
    ensures within { IfSome result (λ size. size ≤ length buffers.new.best.items) }
    ensures choice { replaced_by state.now.problem state.now.present student course rest.now own.now
        ≡ option_map
        (λ size.
        with_list state.now.present student
        (classes_in_order (rest.now ++ take size buffers.new.best.items))) result }
    ensures may { IfSome result (λ size.
        MayGet state.now.problem state.now.present.lists student
        (rest.now ++ take size buffers.new.best.items)) }
    ensures no_worse { IfSome result (λ size.
        IsNoWorse state.now.problem state.now.present (with_list state.now.present student
        (classes_in_order (rest.now ++ take size buffers.new.best.items)))) }
{
    state.soundness();
    state.problem().validity();
    let Some(size) = least_of_course(state, student, course, rest, rest, buffers) else {
        return None;
    };
    let had = pairs_of(state, student, rest, own);
    if pairs_of(state, student, rest, &buffers.best.as_slice()[..size]) < had {
        Some(size)
    } else {
        None
    }
}

// A round on a course of a student, in the last step: the least choice of the course that may replace
// the student's own classes of it does so, where it adds fewer conflicting pairs. Whether it does.
// Most students have no pair with a course, and nothing is fewer: this is found out without memory.
pub(crate) fn change_student(
    alloc: Global,
    state: &mut State,
    student: u32,
    course: u32,
    buffers: &mut ChoiceBuffers,
) -> Result<bool, AllocError>
    requires target { IsSeatedIn state.old.problem state.old.present student course }
    requires step { 0 < length (earlier state.old) }
    requires room { HasRoomToChoose state.old.problem buffers.old }
    ensures room { HasRoomToChoose state.old.problem buffers.new }
    ensures step { IsWithinStep state.old state.new }
    ensures changes { IfOk result (λ changes.
        changed_student state.old.problem state.old.present student course
        ≡ (if changes then Some state.new.present else None)) }
    ensures same { IfOk result
        (λ changes. changes ≡ false → state.new.present ≡ state.old.present) }
    ensures no_worse { OnOk result
        (IsNoWorse state.old.problem state.old.present state.new.present) }
{
    if !has_pair(state, student, course) {
        return Ok(false);
    }
    let StudentList { own, mut rest } = StudentList::by_course(alloc, state, student, course)?;
    match fewer_pairs(
        state,
        student,
        course,
        rest.as_slice(),
        own.as_slice(),
        buffers,
    ) {
        None => Ok(false),
        Some(size) => {
            rest.extend_from_slice(&buffers.best.as_slice()[..size])?;
            seat(state, student, rest.as_slice())?;
            Ok(true)
        }
    }
}
