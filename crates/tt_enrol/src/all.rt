//! The enrolment of all students who have a course and no class.

ghost use Rattle.std.specs.Prelude.{◌≡◌, ◌+◌, ◌<◌, ◌≤◌, ℕ, None, Some, IfOk, IsSome, OnOk, OnErr, if◌then◌else◌, false, true, length};
ghost use Rattle.tt_state.specs.Desk.{stepped};
ghost use Rattle.tt_state.specs.History.{IsWithinStep, desk_of, earlier};
ghost use Rattle.tt_state.specs.Snapshots.{StaysLocked};
ghost use Rattle.tt_state.specs.Sound.{lacks_classes};
ghost use Rattle.tt_enrol.specs.Enrolled.{enrolled, all_enrolled, with_student};
ghost use Rattle.tt_enrol.specs.Ready.{HasRoomToEnrol};
ghost use Rattle.tt_enrol.specs.Steps.{with_counts};

use crate::enrolling::{Buffers, find};
use std::alloc::{AllocError, Global};
use tt_choice::seat;
use tt_state::State;
use tt_watch::{Progress, Watcher};

/// How many students got an enrolment, and how many were left as they were.
#[derive(Clone, Copy, Debug, PartialEq, Eq)]
pub struct Enrolled {
    pub enrolled: u32,
    pub left: u32,
}

// Enrols a student, in the last step, where there is an enrolment; whether there
// is one. Want of memory comes only where there is one.
fn enrol_one(state: &mut State, buffers: &mut Buffers, student: u32) -> Result<bool, AllocError>
    requires student { student < length state.old.problem.students }
    requires step { 0 < length (earlier state.old) }
    requires room { HasRoomToEnrol state.old.problem buffers.old }
    ensures now { IfOk result (λ found.
        enrolled state.old.problem state.old.present student
        ≡ (if found then Some state.new.present else None)) }
    ensures same { IfOk result (λ found. found ≡ false → state.new.present ≡ state.old.present) }
    ensures room { HasRoomToEnrol state.old.problem buffers.new }
    ensures step { IsWithinStep state.old state.new }
    ensures memory { OnErr result (IsSome (enrolled state.old.problem state.old.present student)) }
    ensures err { OnErr result (state.new ≡ state.old) }
{
    state.problem().validity();
    match find(state, student, buffers) {
        None => Ok(false),
        Some(count) => {
            let classes = &buffers.already.as_slice()[..count];
            seat(state, student, classes)?;
            Ok(true)
        }
    }
}

// Enrols the student at a place, in the last step, where the student has a course and no class and
// there is an enrolment. `so_far` has how many of the students before got one. Want of memory comes
// only where one is enrolled.
fn enrol_next(
    state: &mut State,
    buffers: &mut Buffers,
    student: u32,
    so_far: Enrolled,
) -> Result<Enrolled, AllocError>
    requires student { student < length state.old.problem.students }
    requires step { 0 < length (earlier state.old) }
    requires room { HasRoomToEnrol state.old.problem buffers.old }
    requires few { so_far.enrolled + so_far.left ≤ student }
    ensures next { IfOk result (λ n.
        with_counts state.new.present n.enrolled n.left
        ≡ with_student state.old.problem
        (with_counts state.old.present so_far.enrolled so_far.left) student) }
    ensures few { IfOk result (λ n. n.enrolled + n.left ≤ student + 1) }
    ensures room { HasRoomToEnrol state.old.problem buffers.new }
    ensures step { IsWithinStep state.old state.new }
    ensures lacking { OnErr result
        (lacks_classes state.old.problem state.old.present student ≡ true) }
    ensures memory { OnErr result (IsSome (enrolled state.old.problem state.old.present student)) }
{
    state.problem().validity();
    if !state.lacks_classes(student) {
        return Ok(so_far);
    }
    if enrol_one(state, buffers, student)? {
        Ok(Enrolled {
            enrolled: so_far.enrolled + 1,
            left: so_far.left,
        })
    } else {
        Ok(Enrolled {
            enrolled: so_far.enrolled,
            left: so_far.left + 1,
        })
    }
}

// Enrols each student who has a course and no class, in the last step, where there is an enrolment.
// The watcher is told of each student. Want of memory comes only where some student gets one.
fn enrol_each<W: Watcher>(
    state: &mut State,
    buffers: &mut Buffers,
    watcher: &mut W,
) -> Result<Enrolled, AllocError>
    requires step { 0 < length (earlier state.old) }
    requires room { HasRoomToEnrol state.old.problem buffers.old }
    ensures all { IfOk result (λ n.
        with_counts state.new.present n.enrolled n.left
        ≡ all_enrolled state.old.problem state.old.present) }
    ensures step { IsWithinStep state.old state.new }
    ensures memory { OnErr result
        (0 < (all_enrolled state.old.problem state.old.present).enrolled) }
{
    let mut so_far = Enrolled {
        enrolled: 0,
        left: 0,
    };
    let students = state.problem().student_count();
    for student in 0..students {
        so_far = enrol_next(state, buffers, student, so_far)?;
        watcher.tell(Progress::Students {
            done: student + 1,
            of: students,
        });
    }
    Ok(so_far)
}

/// Gives each student who has a course and no class the least enrolment, in the problem's order and
/// all as one step. A student for whom there is none is left without. No class moves, and the locks
/// stay. The watcher is told of each student.
pub fn enrol_all<W: Watcher>(
    alloc: Global,
    state: &mut State,
    watcher: &mut W,
) -> Result<Enrolled, AllocError>
    ensures desk { OnOk result (desk_of state.new
        ≡ stepped (desk_of state.old) (all_enrolled state.old.problem state.old.present).snapshot) }
    ensures enrolled { IfOk result
        (λ n. n.enrolled ≡ (all_enrolled state.old.problem state.old.present).enrolled) }
    ensures left { IfOk result
        (λ n. n.left ≡ (all_enrolled state.old.problem state.old.present).left) }
    ensures locked { OnOk result
        ((class : ℕ) → StaysLocked state.old.present state.new.present class) }
    ensures taken { OnOk result (state.new.taken ≡ state.old.taken) }
    ensures err { OnErr result (state.new ≡ state.old) }
{
    let mut buffers = Buffers::new(alloc, state.problem())?;
    state.begin()?;
    match enrol_each(state, &mut buffers, watcher) {
        Ok(counts) => Ok(counts),
        Err(error) => {
            state.take_back();
            Err(error)
        }
    }
}
