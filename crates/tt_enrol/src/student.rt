//! The least choices of a student's courses, course after course.

ghost use Rattle.std.specs.Prelude.{◌≡◌, ◌+◌, ◌*◌, ◌<◌, ◌≤◌, ◌++◌, [], length, map, take, IfSome};
ghost use Rattle.tt_choice.specs.Choices.{choices_at};
ghost use Rattle.tt_choice.specs.Ready.{HasRoomToChoose};
ghost use Rattle.tt_choice.specs.Situations.{courses_of, situation_of};
ghost use Rattle.tt_enrol.specs.Steps.{taken_in};
ghost use Rattle.tt_choice.specs.Found.{chosen_by};

use tt_choice::{ChoiceBuffers, least_of_course};
use tt_state::State;

// Writes the front of one buffer after that of another.
fn append(already: &mut [u32], count: usize, best: &[u32], size: usize)
    requires room { count + size ≤ length already.old }
    requires within { size ≤ length best.now }
    ensures { take (count + size) already.new ≡ take count already.old ++ take size best.now }
{
    already[count..count + size].copy_from_slice(&best[..size]);
}

/// The classes found for a student, course after course: how many they are, and they stand at the
/// front of `already` then; `None` where some course has no allowed choice.
#[tactic(auto, using(tt_problem::proofs::SpanLemmas::few_subparts))]
pub fn take_courses(
    state: &State,
    student: u32,
    choices: &mut ChoiceBuffers,
    already: &mut [u32],
) -> Option<usize>
    requires student { student < length state.now.problem.students }
    requires room { HasRoomToChoose state.now.problem choices.old }
    requires already { 40 * length state.now.problem.subparts ≤ length already.old }
    ensures found { chosen_by already.new result
        ≡ taken_in (situation_of state.now.problem state.now.present student [])
        (map (choices_at state.now.problem) (courses_of state.now.problem student)) }
    ensures within { IfSome result (λ count. count ≤ length already.new) }
    ensures room { HasRoomToChoose state.now.problem choices.new }
{
    let problem = state.problem();
    problem.validity();
    let mut count = 0;
    for course in problem.student(student).courses.as_slice() {
        match least_of_course(state, student, *course, &[], &already[..count], choices) {
            None => return None,
            Some(size) => {
                append(already, count, choices.best.as_slice(), size);
                count += size;
            }
        }
    }
    Some(count)
}
