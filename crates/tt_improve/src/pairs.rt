//! Whether a student's classes of a course conflict with other classes of the list.

ghost use Rattle.std.specs.Prelude.{◌≡◌, ℕ, ◌<◌, IfSome, Some, false, length};
ghost use Rattle.tt_travel.specs.Table.{IsRoomOf};
ghost use Rattle.tt_bits.specs.Spots.{spot_at};
ghost use Rattle.tt_roster.specs.Conflicts.{are_in_conflict};
ghost use Rattle.tt_state.specs.Snapshots.{list_in};
ghost use Rattle.tt_choice.specs.Least.{pairs_added};
ghost use Rattle.tt_improve.specs.Courses.{beside, is_of_course, own_of, rest_of};
ghost use Rattle.tt_improve.specs.Pairs.{has_pair, meets_another};

use tt_bits::Spot;
use tt_problem::Problem;
use tt_roster::conflict;
use tt_state::State;
use tt_travel::Travel;

// Whether a class is of a course.
pub(crate) fn is_of_course(problem: &Problem, course: u32, class: u32) -> bool
    requires { class < length problem.now.classes }
    ensures { result ≡ is_of_course problem.now course class }
{
    course == problem.course_of(class)
}

// Whether a class is placed and conflicts with a spot.
fn conflicts_at(travel: &Travel, spots: &[Option<Spot>], spot: &Spot, class: u32) -> bool
    requires rooms { (c : ℕ) → IfSome (spot_at spots.now c) (λ x. IsRoomOf travel.now x.room) }
    requires room { IsRoomOf travel.now spot.now.room }
    requires within { class < length spots.now }
    ensures { result ≡ are_in_conflict travel.now (Some spot.now) (spot_at spots.now class) }
{
    match &spots[class as usize] {
        None => false,
        Some(there) => conflict(travel, spot, there),
    }
}

// Whether a class conflicts with another class of a student's list.
fn meets_another(state: &State, student: u32, class: u32) -> bool
    requires student { student < length state.now.problem.students }
    requires class { class < length state.now.problem.classes }
    ensures { result
        ≡ meets_another state.now.problem state.now.present (list_in state.now.present student)
        class }
{
    state.soundness();
    state.problem().validity();
    let travel = state.problem().travel();
    let spots = state.score().roster().spots();
    let Some(spot) = &spots[class as usize] else {
        return false;
    };
    for other in state.classes_of(student) {
        if other != class && conflicts_at(travel, spots, spot, other) {
            return true;
        }
    }
    false
}

// Whether a class of a course in a student's list conflicts with another class of the list. Where
// none does, the student's own classes of the course add no pair to the rest of the list.
pub(crate) fn has_pair(state: &State, student: u32, course: u32) -> bool
    requires { student < length state.now.problem.students }
    ensures pair { result
        ≡ has_pair state.now.problem state.now.present course (list_in state.now.present student) }
    ensures none { result ≡ false
        → pairs_added
        (beside state.now.problem state.now.present student
        (rest_of state.now.problem course (list_in state.now.present student)))
        (own_of state.now.problem course (list_in state.now.present student))
        ≡ 0 }
{
    state.soundness();
    for class in state.classes_of(student) {
        if is_of_course(state.problem(), course, class) && meets_another(state, student, class) {
            return true;
        }
    }
    false
}
