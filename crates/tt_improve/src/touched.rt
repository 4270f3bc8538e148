//! The stage of the last change that touched each class, each student and each course.

ghost use Rattle.std.specs.Prelude.{◌≡◌, ℕ, ◌<◌, if◌then◌else◌, IfOk, length, slice_index};
ghost use Rattle.std.specs.List.{AllByRecursion};
ghost use Rattle.tt_base.specs.Lists.{is_listed};
ghost use Rattle.tt_problem.specs.Places.{course_of};
ghost use Rattle.tt_improve.specs.Standing.{IsTargetOf};
ghost use Rattle.tt_improve.specs.Touched.{IsNoted, IsTableOf, last_of};

use crate::targets::Target;
use std::alloc::{AllocError, Global};
use tt_pool::Items;
use tt_problem::Problem;
use tt_roster::Attendance;
use tt_state::State;

// Notes a stage for each of some classes.
fn note_classes(table: &mut [u32], places: Attendance<'_>, stage: u32)
    requires { AllByRecursion (λ place. place < length table.old) places }
    ensures whole { length table.new ≡ length table.old }
    ensures stages { (place : ℕ)
        → slice_index table.new place
        ≡ (if is_listed place places.entry then stage else slice_index table.old place) }
{
    for place in places {
        table[place as usize] = stage;
    }
}

// Notes a stage for each of the students of a class.
fn note_students(table: &mut [u32], places: Items<'_>, stage: u32)
    requires { AllByRecursion (λ place. place < length table.old) places }
    ensures whole { length table.new ≡ length table.old }
    ensures stages { (place : ℕ)
        → slice_index table.new place
        ≡ (if is_listed place places.entry then stage else slice_index table.old place) }
{
    for place in places {
        table[place as usize] = stage;
    }
}

// For each class, student and course the stage whose end was the last change that touched it, and the
// stage of the last change of any class; 0 where there is none.
#[derive(Drop)]
pub(crate) struct Touched {
    any_class: u32,
    classes: Vec<u32>,
    students: Vec<u32>,
    courses: Vec<u32>,
}

impl Touched {
    // Before the first change.
    pub(crate) fn new(alloc: Global, problem: &Problem) -> Result<Touched, AllocError>
        ensures { IfOk result (IsTableOf problem.now) }
    {
        Ok(Touched {
            any_class: 0,
            classes: vec![in alloc; 0; problem.class_count() as usize]?,
            students: vec![in alloc; 0; problem.student_count() as usize]?,
            courses: vec![in alloc; 0; problem.course_count() as usize]?,
        })
    }

    // The stage of the last change that touched a target.
    pub(crate) fn last(&self, state: &State, target: Target) -> u32
        requires whole { IsTableOf state.now.problem self.now }
        requires target { IsTargetOf state.now.problem state.now.present target }
        ensures { result ≡ last_of state.now.problem self.now target }
    {
        state.problem().validity();
        state.soundness();
        match target {
            Target::Class { class } => {
                let course = state.problem().course_of(class);
                let listed = self.classes[class as usize].max(self.courses[course as usize]);
                self.any_class.max(listed)
            }
            Target::Course { student, course } => {
                self.students[student as usize].max(self.courses[course as usize])
            }
        }
    }

    // Notes in a stage that a class got another value. This touches the classes, the students who have
    // it, and its course.
    fn note_class(&mut self, state: &State, class: u32, stage: u32)
        requires whole { IsTableOf state.now.problem self.old }
        requires class { class < length state.now.problem.classes }
        ensures whole { IsTableOf state.now.problem self.new }
        ensures noted { IsNoted state.now.problem state.now.present self.old self.new
            (Target.Class class) stage }
    {
        state.soundness();
        let course = state.problem().course_of(class);
        self.any_class = stage;
        self.courses[course as usize] = stage;
        let students = state.score().roster().attendees(class);
        note_students(self.students.as_mut_slice(), students, stage);
    }

    // Notes in a stage that a student got other classes of a course. This touches the student, the
    // classes that the student has, and the course.
    fn note_student(&mut self, state: &State, student: u32, course: u32, stage: u32)
        requires whole { IsTableOf state.now.problem self.old }
        requires student { student < length state.now.problem.students }
        requires course { course < length state.now.problem.courses }
        ensures whole { IsTableOf state.now.problem self.new }
        ensures noted { IsNoted state.now.problem state.now.present self.old self.new
            (Target.Course student course) stage }
    {
        state.soundness();
        self.students[student as usize] = stage;
        self.courses[course as usize] = stage;
        note_classes(
            self.classes.as_mut_slice(),
            state.classes_of(student),
            stage,
        );
    }

    // Notes in a stage that a target was changed.
    pub(crate) fn note(&mut self, state: &State, target: Target, stage: u32)
        requires whole { IsTableOf state.now.problem self.old }
        requires target { IsTargetOf state.now.problem state.now.present target }
        ensures whole { IsTableOf state.now.problem self.new }
        ensures noted { IsNoted state.now.problem state.now.present self.old self.new target stage }
    {
        state.problem().validity();
        state.soundness();
        match target {
            Target::Class { class } => self.note_class(state, class, stage),
            Target::Course { student, course } => self.note_student(state, student, course, stage),
        }
    }
}
