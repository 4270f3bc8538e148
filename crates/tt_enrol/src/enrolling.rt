//! Room for the walks over choices, and the classes found for a student.

ghost use Rattle.std.specs.Prelude.{◌≡◌, ◌<◌, ◌≤◌, IfOk, IfSome, length};
ghost use Rattle.tt_choice.specs.Found.{chosen_by};
ghost use Rattle.tt_enrol.specs.Ready.{HasRoomToEnrol};
ghost use Rattle.tt_enrol.specs.Students.{classes_found};

use crate::student::take_courses;
use std::alloc::{AllocError, Global};
use tt_choice::ChoiceBuffers;
use tt_problem::Problem;
use tt_state::State;

/// Room for the walks over the choices of a course, and for the classes that are found.
#[derive(Drop)]
pub struct Buffers {
    pub choices: ChoiceBuffers,
    pub already: Vec<u32>,
}

impl Buffers {
    /// Room for each student of a problem. A student has 40 courses at most.
    #[tactic(auto, using(tt_problem::proofs::SpanLemmas::few_subparts))]
    pub fn new(alloc: Global, problem: &Problem) -> Result<Buffers, AllocError>
        ensures { IfOk result (HasRoomToEnrol problem.now) }
    {
        problem.validity();
        let subparts = problem.parts().subparts.len();
        Ok(Buffers {
            choices: ChoiceBuffers::new(alloc, problem)?,
            already: vec![in alloc; 0; 40 * subparts]?,
        })
    }
}

/// The classes found for a student: how many they are, and they stand at the front of `already` then;
/// `None` where some course has no allowed choice.
#[tactic(auto, unfolding(crate::specs::Students::classes_found))]
pub fn find(state: &State, student: u32, buffers: &mut Buffers) -> Option<usize>
    requires student { student < length state.now.problem.students }
    requires room { HasRoomToEnrol state.now.problem buffers.old }
    ensures found { chosen_by buffers.new.already.items result
        ≡ classes_found state.now.problem state.now.present student }
    ensures within { IfSome result (λ count. count ≤ length buffers.new.already.items) }
    ensures room { HasRoomToEnrol state.now.problem buffers.new }
{
    take_courses(
        state,
        student,
        &mut buffers.choices,
        buffers.already.as_mut_slice(),
    )
}
