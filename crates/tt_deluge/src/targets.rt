//! What rounds are made over: placed classes, and courses of students with a choice.

ghost use Rattle.std.specs.Prelude.{◌≡◌, ◌<◌, ◌≤◌, ◌++◌, ◌^◌, ◌∷◌, [], IfOk, OnOk, length, map, nat_le};
ghost use Rattle.std.specs.List.{filter, list_all};
ghost use Rattle.tt_problem.specs.ListLengths.{span_length, spans_at};
ghost use Rattle.tt_problem.specs.Spans.{IsSpanWithin};
ghost use Rattle.tt_deluge.specs.StudentRounds.{is_choice};
ghost use Rattle.tt_deluge.specs.Views.{AreFlagsOf, IsCourseWithin, class_of, target_of, targets_in};
ghost use Rattle.tt_deluge.specs.Pieces.{targets_at, has_choice};

use std::alloc::{AllocError, Global};
use tt_improve::{Target, targets_of};
use tt_problem::{Problem, Span};
use tt_state::State;

// Whether each subpart of a configuration has at most one class.
fn is_single(problem: &Problem, config: Span) -> bool
    requires { IsSpanWithin (length problem.now.subparts) config }
    ensures { result
        ≡ list_all (λ subpart. nat_le (span_length subpart) 1)
        (spans_at problem.now.subparts config) }
{
    for place in config.first..config.after {
        let subpart = problem.subpart(place);
        if subpart.after - subpart.first > 1 {
            return false;
        }
    }
    true
}

// Whether a student has a choice of classes of a course: it has a second configuration, or a subpart
// with a second class.
fn has_choice(problem: &Problem, course: u32) -> bool
    requires { course < length problem.now.courses }
    ensures { result ≡ has_choice problem.now course }
{
    problem.validity();
    let configs = problem.course(course).configs;
    configs.after - configs.first > 1 || !is_single(problem, problem.config(configs.first))
}

// For each course, whether a student has a choice of classes of it.
fn choice_flags(alloc: Global, problem: &Problem) -> Result<Vec<bool>, AllocError>
    ensures { IfOk result (λ flags. AreFlagsOf problem.now flags.items) }
{
    let mut flags = Vec::new(alloc);
    for course in 0..problem.course_count() {
        flags.push(has_choice(problem, course))?;
    }
    Ok(flags)
}

// A course of a student with a choice of classes.
#[derive(Clone, Copy, Debug, PartialEq, Eq)]
pub(crate) struct Choice {
    pub student: u32,
    pub course: u32,
}

// What rounds are made over: the placed classes that aren't locked, and the courses with a choice of
// each student who has classes.
#[derive(Drop)]
pub(crate) struct Targets {
    pub classes: Vec<u32>,
    pub choices: Vec<Choice>,
}

impl Targets {
    // Adds a target, but no course without a choice.
    fn add(&mut self, problem: &Problem, flags: &[bool], target: Target) -> Result<(), AllocError>
        requires flags { AreFlagsOf problem.now flags.now }
        requires within { IsCourseWithin problem.now target }
        ensures classes { OnOk result
            (self.new.classes.items ≡ self.old.classes.items ++ class_of target) }
        ensures choices { OnOk result (map target_of self.new.choices.items
            ≡ map target_of self.old.choices.items
            ++ filter (is_choice problem.now) (target ∷ [])) }
    {
        match target {
            Target::Class { class } => self.classes.push(class)?,
            Target::Course { student, course } => {
                if flags[course as usize] {
                    self.choices.push(Choice { student, course })?;
                }
            }
        }
        Ok(())
    }

    // The targets of the present snapshot.
    pub(crate) fn new(alloc: Global, state: &State) -> Result<Targets, AllocError>
        ensures targets { IfOk result
            (λ targets. targets_in targets ≡ targets_at state.now.problem state.now.present) }
        ensures few_classes { IfOk result (λ targets. length targets.classes.items ≤ 2 ^ 32) }
        ensures few_choices { IfOk result (λ targets. length targets.choices.items ≤ 2 ^ 32) }
    {
        state.soundness();
        state.problem().validity();
        let flags = choice_flags(alloc, state.problem())?;
        let all = targets_of(alloc, state)?;
        let mut targets = Targets {
            classes: Vec::new(alloc),
            choices: Vec::new(alloc),
        };
        for target in all.as_slice() {
            targets.add(state.problem(), flags.as_slice(), *target)?;
        }
        Ok(targets)
    }
}
