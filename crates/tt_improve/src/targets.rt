//! What a round looks at, and the stage in which it was last looked at.

ghost use Rattle.std.specs.Prelude.{◌≡◌, ◌↔◌, ◌<◌, ◌≤◌, ◌++◌, ◌^◌, [], None, is_some, IfNone, IfOk, IfSome, IsTrue, OnOk, Some, length, map, slice_get, slice_index, slice_set};
ghost use Rattle.tt_state.specs.Snapshots.{list_in, may_lock, value_in};
ghost use Rattle.tt_draw.specs.Draws.{drawn, drawn_place};
ghost use Rattle.tt_improve.specs.declared.touched.Touched.{Touched};
ghost use Rattle.tt_improve.specs.Idle.{KnowsIdle, targets_in, stages_in, unlooked};
ghost use Rattle.tt_improve.specs.Targets.{courses_with, movable_classes, targets_of, seated_courses};

use std::alloc::{AllocError, Global};
use tt_draw::draw;
use tt_state::State;

/// What a round looks at: a placed class that isn't locked, or a course of a student who has classes.
#[derive(Clone, Copy, Debug, PartialEq, Eq)]
pub enum Target {
    Class { class: u32 },
    Course { student: u32, course: u32 },
}

// Whether a class has a value.
fn is_placed(state: &State, class: u32) -> bool
    ensures { result ≡ is_some (value_in state.now.present class) }
{
    match state.score().plan().get(class as usize) {
        None => false,
        Some(value) => value.is_some(),
    }
}

// Whether a class has a value and isn't locked.
fn is_movable(state: &State, class: u32) -> bool
    ensures { result ≡ may_lock state.now.present class }
{
    is_placed(state, class) && !state.is_locked(class)
}

// Adds the placed classes that aren't locked, in the problem's order.
fn add_classes(state: &State, targets: &mut Vec<Target>) -> Result<(), AllocError>
    ensures { OnOk result (targets.new.items
        ≡ targets.old.items
        ++ map (λ class. Target.Class class)
        (movable_classes state.now.problem state.now.present)) }
{
    for class in 0..state.problem().class_count() {
        if is_movable(state, class) {
            targets.push(Target::Class { class })?;
        }
    }
    Ok(())
}

// Whether a student has no class.
fn has_no_class(state: &State, student: u32) -> bool
    requires { student < length state.now.problem.students }
    ensures { IsTrue result ↔ (list_in state.now.present student ≡ []) }
{
    state.classes_of(student).next().is_none()
}

// Adds the courses of a student who has classes.
fn add_courses_of(state: &State, student: u32, targets: &mut Vec<Target>) -> Result<(), AllocError>
    requires { student < length state.now.problem.students }
    ensures { OnOk result (targets.new.items
        ≡ targets.old.items
        ++ courses_with state.now.problem student (list_in state.now.present student)) }
{
    if has_no_class(state, student) {
        return Ok(());
    }
    for course in state.problem().student(student).courses.as_slice() {
        targets.push(Target::Course {
            student,
            course: *course,
        })?;
    }
    Ok(())
}

// Adds the courses of each student who has classes, in order.
fn add_courses(state: &State, targets: &mut Vec<Target>) -> Result<(), AllocError>
    ensures { OnOk result (targets.new.items
        ≡ targets.old.items ++ seated_courses state.now.problem state.now.present) }
{
    for student in 0..state.problem().student_count() {
        add_courses_of(state, student, targets)?;
    }
    Ok(())
}

/// The targets of the present snapshot: the placed classes that aren't locked, and then the courses of
/// each student who has classes.
pub fn targets_of(alloc: Global, state: &State) -> Result<Vec<Target>, AllocError>
    ensures targets { IfOk result
        (λ targets. targets.items ≡ targets_of state.now.problem state.now.present) }
    ensures few { IfOk result (λ targets. length targets.items ≤ 2 ^ 32) }
{
    state.problem().validity();
    let mut targets = Vec::new(alloc);
    add_classes(state, &mut targets)?;
    add_courses(state, &mut targets)?;
    Ok(targets)
}

// A target, and the stage in which a round was last made on it, 0 where none was.
#[derive(Clone, Copy, Debug, PartialEq, Eq)]
pub(crate) struct Looked {
    pub(crate) target: Target,
    pub(crate) stage: u32,
}

// The targets, on which no round was made.
fn unlooked(alloc: Global, targets: &[Target]) -> Result<Vec<Looked>, AllocError>
    ensures { IfOk result (λ table. table.items ≡ map unlooked targets.now) }
{
    targets
        .iter()
        .map(|target| Looked {
            target: *target,
            stage: 0,
        })
        .collect(alloc)
}

// The targets of a descent. The stages are counted from 1, and one ends where a round changes
// something. So a round on a target whose stage is later than the last one whose end touched it changes
// nothing.
#[derive(Drop)]
pub(crate) struct Targets {
    table: Vec<Looked>,
}

impl Targets {
    // The targets of the present snapshot, before the first round.
    pub(crate) fn new(alloc: Global, state: &State) -> Result<Targets, AllocError>
        ensures targets { IfOk result
            (λ targets. targets_in targets ≡ targets_of state.now.problem state.now.present) }
        ensures few { IfOk result (λ targets. length (targets_in targets) ≤ 2 ^ 32) }
        ensures idle { IfOk result (λ targets.
            (touched : Touched)
            → KnowsIdle state.now.problem state.now.present targets touched 1) }
    {
        let targets = targets_of(alloc, state)?;
        let table = unlooked(alloc, targets.as_slice())?;
        Ok(Targets { table })
    }

    // How many targets there are.
    #[tactic(auto, using(crate::proofs::TableLemmas::length_in))]
    fn len(&self) -> usize
        ensures { result ≡ length (targets_in self.now) }
    {
        self.table.len()
    }

    // The place of the target that a random word draws, none where there is no target.
    pub(crate) fn draw(&self, word: u32) -> Option<usize>
        requires { length (targets_in self.now) ≤ 2 ^ 32 }
        ensures place { IfSome result
            (λ place. place ≡ drawn_place word (length (targets_in self.now))) }
        ensures within { IfSome result (λ place. place < length (targets_in self.now)) }
        ensures none { IfNone result (drawn word (targets_in self.now) ≡ None) }
    {
        let place = draw(word, self.len() as u64) as usize;
        if place < self.len() {
            Some(place)
        } else {
            None
        }
    }

    // The target at a place, and the stage in which a round was last made on it.
    pub(crate) fn at(&self, place: usize) -> Looked
        requires { place < length (targets_in self.now) }
        ensures target { slice_get (targets_in self.now) place ≡ Some result.target }
        ensures stage { slice_index (stages_in self.now) place ≡ result.stage }
    {
        self.table[place]
    }

    // Notes that a round was made in a stage on the target at a place.
    pub(crate) fn note(&mut self, place: usize, stage: u32)
        requires { place < length (targets_in self.old) }
        ensures targets { targets_in self.new ≡ targets_in self.old }
        ensures stages { stages_in self.new ≡ slice_set (stages_in self.old) place stage }
    {
        self.table[place].stage = stage;
    }
}
