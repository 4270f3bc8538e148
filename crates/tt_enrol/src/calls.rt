//! The enrolment of one student.

ghost use Rattle.std.specs.Prelude.{◌≡◌, ◌<◌, ◌∷◌, [], ℕ, None, Some, Ok, IfOk, IfSome, MatchOption, OnErr, false, true, length};
ghost use Rattle.tt_state.specs.Desk.{stepped};
ghost use Rattle.tt_state.specs.History.{desk_of, trail};
ghost use Rattle.tt_state.specs.Snapshots.{StaysLocked};
ghost use Rattle.tt_choice.specs.Seating.{MayGet};
ghost use Rattle.tt_enrol.specs.Students.{classes_found};
ghost use Rattle.tt_enrol.specs.Enrolled.{enrolled};

use crate::enrolling::{Buffers, find};
use std::alloc::{AllocError, Global};
use tt_state::State;

// The classes found for a student, in the order of the student's courses; `None` where some course
// has no allowed choice.
fn classes_found(alloc: Global, state: &State, student: u32) -> Result<Option<Vec<u32>>, AllocError>
    requires { student < length state.now.problem.students }
    ensures found { IfOk result (λ list.
        MatchOption list (classes_found state.now.problem state.now.present student ≡ None)
        (λ list. classes_found state.now.problem state.now.present student ≡ Some list.items)) }
    ensures valid { IfOk result (λ list.
        IfSome list (λ list. MayGet state.now.problem state.now.present.lists student list.items)) }
{
    state.problem().validity();
    let mut buffers = Buffers::new(alloc, state.problem())?;
    match find(state, student, &mut buffers) {
        None => Ok(None),
        Some(count) => {
            let Buffers { mut already, .. } = buffers;
            already.truncate(count);
            Ok(Some(already))
        }
    }
}

/// Gives a student the least enrolment in place of the classes that the student has, as one step.
/// A choice of a course is one class of each subpart of one of its configurations, and the parent of
/// each class is attended too, as in ITC 2019. Course after course, of the choices with a seat in each
/// class and with each parent in the choice or already taken, the one is taken that adds the fewest
/// conflicting pairs, and of these the one whose classes come first in the problem's order. Whether
/// each course has such a choice; if not, nothing changes. No class moves, and the locks stay.
#[tactic(auto, using(crate::proofs::LockLemmas::one_stays))]
pub fn enrol(alloc: Global, state: &mut State, student: u32) -> Result<bool, AllocError>
    requires { student < length state.old.problem.students }
    ensures desk { result ≡ Ok true
        → desk_of state.new ≡ stepped (desk_of state.old) state.new.present }
    ensures enrolled { result ≡ Ok true
        → enrolled state.old.problem state.old.present student ≡ Some state.new.present }
    ensures locked { result ≡ Ok true
        → (class : ℕ)
        → StaysLocked state.old.present state.new.present class }
    ensures trail { result ≡ Ok true → trail state.new ≡ state.new.present ∷ [] }
    ensures taken { result ≡ Ok true → state.new.taken ≡ state.old.taken }
    ensures same { result ≡ Ok false → state.new ≡ state.old }
    ensures err { OnErr result (state.new ≡ state.old) }

    ensures none { result ≡ Ok false → enrolled state.old.problem state.old.present student ≡ None }
{
    let Some(classes) = classes_found(alloc, state, student)? else {
        return Ok(false);
    };
    let fault = state.section(student, classes.as_slice())?;
    Ok(fault.is_none())
}
