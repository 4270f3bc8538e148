//! How many published classes are moved, now and once a class has a value or none.

ghost use Rattle.std.specs.Prelude.{◌≡◌, ◌<◌, slice_set, Option};
ghost use Rattle.tt_published.specs.Published.{is_moved, keeps, moved_in, moved_of};
ghost use Rattle.tt_published.specs.Aim.{IsAimOf};
ghost use Rattle.tt_published.specs.Timetable.{IsTimetableOf};
ghost use Rattle.tt_state.specs.Snapshots.{with_value};
ghost use Rattle.tt_state.specs.Values.{MayHave};

use tt_bits::Value;
use tt_problem::Problem;
use tt_published::{Aim, Published, is_moved, moved};
use tt_state::State;

// How many published classes are moved at present; 0 where nothing is published.
pub(crate) fn moved_now(state: &State, aim: &Aim) -> u32
    requires { IsAimOf state.now.problem aim.now }
    ensures { result ≡ moved_in state.now.problem aim.now state.now.present.plan }
{
    match aim.published() {
        None => 0,
        Some(published) => {
            state.soundness();
            moved(state.problem(), state.score().plan(), published)
        }
    }
}

// Whether a class with this value or none meets as published.
fn keeps(problem: &Problem, published: &Published, class: u32, value: Option<Value>) -> bool
    requires belongs { IsTimetableOf problem.now published.now }
    requires may { MayHave problem.now class value }
    ensures { result ≡ keeps problem.now published.now class value }
{
    match value {
        None => false,
        Some(value) => published.same(problem, class, value),
    }
}

// Whether a class is moved once it has this value or none.
#[tactic(auto, using(tt_published::proofs::MovedLemmas::moved_at))]
fn will_be_moved(state: &State, published: &Published, class: u32, value: Option<Value>) -> bool
    requires belongs { IsTimetableOf state.now.problem published.now }
    requires may { MayHave state.now.problem class value }
    ensures { result
        ≡ is_moved state.now.problem (slice_set state.now.present.plan class value) published.now
        class }
{
    state.soundness();
    let kept = keeps(state.problem(), published, class, value);
    published.has(class) && !kept
}

// How many published classes are moved once a class has this value or none, where so many are now.
fn moved_by(
    state: &State,
    published: &Published,
    moved: u32,
    class: u32,
    value: Option<Value>,
) -> u32
    requires belongs { IsTimetableOf state.now.problem published.now }
    requires may { MayHave state.now.problem class value }
    requires moved { moved ≡ moved_of state.now.problem state.now.present.plan published.now }
    ensures { result
        ≡ moved_of state.now.problem (slice_set state.now.present.plan class value) published.now }
{
    state.soundness();
    // No more classes are moved than there are.
    let _few = state.problem().class_count();
    let was = is_moved(state.problem(), state.score().plan(), published, class);
    let will = will_be_moved(state, published, class, value);
    moved + u32::from(will) - u32::from(was)
}

// The same, and 0 where nothing is published.
pub(crate) fn moved_with(
    state: &State,
    aim: &Aim,
    moved: u32,
    class: u32,
    value: Option<Value>,
) -> u32
    requires belongs { IsAimOf state.now.problem aim.now }
    requires may { MayHave state.now.problem class value }
    requires moved { moved ≡ moved_in state.now.problem aim.now state.now.present.plan }
    ensures { result
        ≡ moved_in state.now.problem aim.now (with_value state.now.present class value).plan }
{
    match aim.published() {
        None => moved,
        Some(published) => moved_by(state, published, moved, class, value),
    }
}
