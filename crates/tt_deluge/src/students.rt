//! Rounds on students: a drawn choice of a course replaces a student's own.

ghost use Rattle.std.specs.Prelude.{◌≡◌, ◌<◌, ◌≤◌, ◌++◌, [], All, None, Some, IfNone, IfOk, IfSome, OnOk, if◌then◌else◌, false, length, nat_le, slice_get};
ghost use Rattle.tt_base.specs.Limits.{most_classes};
ghost use Rattle.rand_core.specs.Stream.{next_u32};
ghost use Rattle.tt_problem.specs.ListLengths.{spans_at};
ghost use Rattle.tt_problem.specs.Spans.{IsSpanWithin};
ghost use Rattle.tt_state.specs.History.{IsWithinStep, earlier, trail};
ghost use Rattle.tt_state.specs.Snapshots.{classes_in_order, list_in, with_list};
ghost use Rattle.tt_draw.specs.Draws.{drawn};
ghost use Rattle.tt_choice.specs.Choices.{configurations_of};
ghost use Rattle.tt_improve.specs.Classes.{total_of};
ghost use Rattle.tt_improve.specs.Courses.{is_of_course, own_of, rest_of};
ghost use Rattle.tt_improve.specs.Standing.{IsSeatedIn};
ghost use Rattle.tt_improve.specs.declared.targets.Target.TheVariants.{Course};
ghost use Rattle.tt_deluge.specs.Reading.{random_of};
ghost use Rattle.tt_deluge.specs.Standing.{BeginsWith, StandsAs};
ghost use Rattle.tt_deluge.specs.StudentRounds.{choice_drawn, drawn_choice, replaced};
ghost use Rattle.tt_deluge.specs.Pieces.{made_within, fits_beside, fitting};

use crate::drawing::draw_below;
use crate::targets::Choice;
use rand_pcg::Lcg64Xsh32;
use std::alloc::{AllocError, Global};
use tt_choice::pairs_of;
use tt_problem::{Problem, Span};
use tt_state::State;

// Whether a class is of a course.
fn is_of_course(problem: &Problem, course: u32, class: u32) -> bool
    requires { class < length problem.now.classes }
    ensures { result ≡ is_of_course problem.now course class }
{
    course == problem.course_of(class)
}

// Whether a class fits beside the rest of a student's list and the choice so far: it has no parent, or
// its parent is one of these.
#[tactic(auto, unfolding(tt_struct::specs::Enrolments::has_parent, tt_struct::specs::Enrolments::has_parent_of))]
fn fits_beside(problem: &Problem, rest: &[u32], so_far: &[u32], class: u32) -> bool
    requires { class < length problem.now.classes }
    ensures { result ≡ fits_beside problem.now (rest.now ++ so_far.now) class }
{
    match problem.class(class).parent {
        None => true,
        Some(parent) => so_far.contains(&parent) || rest.contains(&parent),
    }
}

// How many classes of a subpart fit.
fn fitting_count(problem: &Problem, rest: &[u32], so_far: &[u32], subpart: Span) -> u32
    requires { IsSpanWithin (length problem.now.classes) subpart }
    ensures { result ≡ length (fitting problem.now (rest.now ++ so_far.now) subpart) }
{
    let mut count = 0;
    for class in subpart.first..subpart.after {
        if fits_beside(problem, rest, so_far, class) {
            count += 1;
        }
    }
    count
}

// The class at a place among those of a subpart that fit.
fn fitting_at(
    problem: &Problem,
    rest: &[u32],
    so_far: &[u32],
    subpart: Span,
    place: u64,
) -> Option<u32>
    requires { IsSpanWithin (length problem.now.classes) subpart }
    ensures class { result
        ≡ slice_get (fitting problem.now (rest.now ++ so_far.now) subpart) place }
    ensures below { IfSome result (λ class. class < length problem.now.classes) }
{
    let mut before = place;
    for class in subpart.first..subpart.after {
        if fits_beside(problem, rest, so_far, class) {
            if before == 0 {
                return Some(class);
            }
            before -= 1;
        }
    }
    None
}

// A class of a subpart, drawn among those that fit. Where none fits no word is drawn.
fn draw_class(
    problem: &Problem,
    rest: &[u32],
    so_far: &[u32],
    subpart: Span,
    random: &mut Lcg64Xsh32,
) -> Option<u32>
    requires { IsSpanWithin (length problem.now.classes) subpart }
    ensures class { result
        ≡ drawn (next_u32 (random_of random.old)).0
        (fitting problem.now (rest.now ++ so_far.now) subpart) }
    ensures below { IfSome result (λ class. class < length problem.now.classes) }
    ensures next { IfSome result
        (λ class. random_of random.new ≡ (next_u32 (random_of random.old)).1) }
    ensures same { IfNone result (random_of random.new ≡ random_of random.old) }
{
    let count = fitting_count(problem, rest, so_far, subpart);
    if count == 0 {
        return None;
    }
    let place = draw_below(random, u64::from(count));
    fitting_at(problem, rest, so_far, subpart, place)
}

// Draws a class of each subpart of a configuration, among those that fit beside the rest of a student's
// list and the choice so far. Whether there is one of each.
fn draw_classes(
    problem: &Problem,
    config: Span,
    rest: &[u32],
    choice: &mut Vec<u32>,
    random: &mut Lcg64Xsh32,
) -> Result<bool, AllocError>
    requires { IsSpanWithin (length problem.now.subparts) config }
    ensures choice { IfOk result (λ found.
        drawn_choice problem.now rest.now [] (spans_at problem.now.subparts config)
        (random_of random.old)
        ≡ ((if found then Some choice.new.items else None), random_of random.new)) }
    ensures below { OnOk result
        (All (λ class. class < length problem.now.classes) choice.new.items) }
    ensures few { OnOk result (length choice.new.items ≤ most_classes) }
{
    problem.validity();
    choice.clear();
    for place in config.first..config.after {
        let subpart = problem.subpart(place);
        match draw_class(problem, rest, choice.as_slice(), subpart, random) {
            None => return Ok(false),
            Some(class) => choice.push(class)?,
        }
    }
    Ok(true)
}

// The configuration of a course that the next random word draws.
fn draw_config(problem: &Problem, course: u32, random: &mut Lcg64Xsh32) -> Span
    requires { course < length problem.now.courses }
    ensures config { drawn (next_u32 (random_of random.old)).0
        (configurations_of problem.now course)
        ≡ Some (spans_at problem.now.subparts result) }
    ensures within { IsSpanWithin (length problem.now.subparts) result }
    ensures random { random_of random.new ≡ (next_u32 (random_of random.old)).1 }
{
    let configs = problem.course(course).configs;
    let place = draw_below(random, u64::from(configs.after - configs.first)) as u32;
    problem.config(configs.first + place)
}

// Room for the rounds on students: a student's own classes of a course, the rest of the list, and the
// drawn choice. It is used again in each round.
#[derive(Drop)]
pub(crate) struct StudentBuffers {
    own: Vec<u32>,
    rest: Vec<u32>,
    choice: Vec<u32>,
}

impl StudentBuffers {
    // No classes yet.
    pub(crate) fn new(alloc: Global) -> StudentBuffers {
        StudentBuffers {
            own: Vec::new(alloc),
            rest: Vec::new(alloc),
            choice: Vec::new(alloc),
        }
    }

    // Parts the list of a student by a course.
    fn part(&mut self, state: &State, student: u32, course: u32) -> Result<(), AllocError>
        requires { student < length state.now.problem.students }
        ensures own { OnOk result (self.new.own.items
            ≡ own_of state.now.problem course (list_in state.now.present student)) }
        ensures rest { OnOk result (self.new.rest.items
            ≡ rest_of state.now.problem course (list_in state.now.present student)) }
    {
        state.soundness();
        self.own.clear();
        self.rest.clear();
        for class in state.classes_of(student) {
            if is_of_course(state.problem(), course, class) {
                self.own.push(class)?;
            } else {
                self.rest.push(class)?;
            }
        }
        Ok(())
    }
}

// Whether the total is at most a level once a choice replaces a student's own classes of a course. Only
// the pairs of the student change.
fn is_within(
    state: &State,
    student: u32,
    course: u32,
    buffers: &StudentBuffers,
    level: u128,
) -> bool
    requires target { IsSeatedIn state.now.problem state.now.present student course }
    requires own { buffers.now.own.items
        ≡ own_of state.now.problem course (list_in state.now.present student) }
    requires rest { buffers.now.rest.items
        ≡ rest_of state.now.problem course (list_in state.now.present student) }
    requires few { length buffers.now.choice.items ≤ most_classes }
    ensures { result
        ≡ nat_le
        (total_of state.now.problem (with_list state.now.present student
        (classes_in_order (buffers.now.rest.items ++ buffers.now.choice.items)))) level }
{
    state.soundness();
    state.problem().validity();
    let weight = u128::from(state.problem().weights().student);
    let rest = buffers.rest.as_slice();
    let adds = weight * u128::from(pairs_of(state, student, rest, buffers.choice.as_slice()));
    if level < adds {
        return false;
    }
    let total = state.totals().total;
    if total <= level - adds {
        return true;
    }
    let had = weight * u128::from(pairs_of(state, student, rest, buffers.own.as_slice()));
    total - had <= level - adds
}

// Replaces a student's own classes of a course by the drawn choice, in the last step, where it differs
// from them, the student may get it, and the total is then at most a level. Whether it does.
fn replace(
    state: &mut State,
    student: u32,
    course: u32,
    buffers: &mut StudentBuffers,
    level: u128,
) -> Result<bool, AllocError>
    requires target { IsSeatedIn state.old.problem state.old.present student course }
    requires own { buffers.old.own.items
        ≡ own_of state.old.problem course (list_in state.old.present student) }
    requires rest { buffers.old.rest.items
        ≡ rest_of state.old.problem course (list_in state.old.present student) }
    requires below { All (λ class. class < length state.old.problem.classes)
        buffers.old.choice.items }
    requires few { length buffers.old.choice.items ≤ most_classes }
    requires step { 0 < length (earlier state.old) }
    ensures step { IsWithinStep state.old state.new }
    ensures made { IfOk result (λ made.
        made_within state.old.problem level (replaced state.old.problem state.old.present student
        buffers.old.rest.items buffers.old.own.items buffers.old.choice.items)
        ≡ (if made then Some state.new.present else None)) }
    ensures same { IfOk result (λ made. made ≡ false → state.new.present ≡ state.old.present) }
    ensures trail { OnOk result (BeginsWith (trail state.old) (trail state.new)) }
    ensures stands { OnOk result (StandsAs state.old.problem state.old.present state.new.present) }
{
    state.soundness();
    state.problem().validity();
    if buffers.choice == buffers.own {
        return Ok(false);
    }
    if !is_within(state, student, course, buffers, level) {
        return Ok(false);
    }
    buffers.rest.extend_from_slice(buffers.choice.as_slice())?;
    if state
        .section_fault(student, buffers.rest.as_slice())
        .is_some()
    {
        return Ok(false);
    }
    state.section_step(student, buffers.rest.as_slice())?;
    Ok(true)
}

// A round on a course of a student, in the last step: a choice of its classes is drawn, and replaces
// the student's own where it differs from them, the student may get it, and the total is then at most
// the level. Whether it does.
pub(crate) fn student_round(
    state: &mut State,
    choice: Choice,
    random: &mut Lcg64Xsh32,
    level: u128,
    buffers: &mut StudentBuffers,
) -> Result<bool, AllocError>
    requires target { IsSeatedIn state.old.problem state.old.present choice.student choice.course }
    requires step { 0 < length (earlier state.old) }
    ensures step { IsWithinStep state.old state.new }
    ensures random { OnOk result (random_of random.new
        ≡ (choice_drawn state.old.problem state.old.present (Course choice.student choice.course)
        (random_of random.old)).1) }
    ensures made { IfOk result (λ made.
        made_within state.old.problem level (choice_drawn state.old.problem state.old.present
        (Course choice.student choice.course) (random_of random.old)).0
        ≡ (if made then Some state.new.present else None)) }
    ensures same { IfOk result (λ made. made ≡ false → state.new.present ≡ state.old.present) }
    ensures trail { OnOk result (BeginsWith (trail state.old) (trail state.new)) }
    ensures stands { OnOk result (StandsAs state.old.problem state.old.present state.new.present) }
{
    let Choice { student, course } = choice;
    state.soundness();
    state.problem().validity();
    buffers.part(state, student, course)?;
    let config = draw_config(state.problem(), course, random);
    let rest = buffers.rest.as_slice();
    if !draw_classes(state.problem(), config, rest, &mut buffers.choice, random)? {
        return Ok(false);
    }
    replace(state, student, course, buffers, level)
}
