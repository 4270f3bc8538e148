//! How many published classes are moved, kept from step to step.

ghost use Rattle.std.specs.Prelude.{◌≡◌, ◌+◌, ◌<◌, ◌≤◌, ◌^◌, ◌∷◌, [], All, IfSome, List, None, Option, count_by, length};
ghost use Rattle.tt_problem.specs.declared.parts.Parts.{Parts};
ghost use Rattle.tt_problem.specs.Valid.{IsValid};
ghost use Rattle.tt_plan.specs.Domain.{IsOfDomain};
ghost use Rattle.tt_published.specs.Published.{is_moved, moved_in};
ghost use Rattle.tt_published.specs.Timetable.{IsTimetableOf, Timetable};
ghost use Rattle.tt_state.specs.History.{earlier, with_taken};
ghost use Rattle.tt_state.specs.Snapshots.{Snapshot};
ghost use Rattle.tt_state.specs.Values.{conflict_set_of, obstacle_of};
ghost use Rattle.tt_desk.specs.MovedNow.{AreMovedIn, moved_among};

use std::alloc::Global;
use std::marker::Model;
use tt_bits::Value;
use tt_published::{Published, is_moved, moved};
use tt_state::State;

// How many published classes are moved, and how many were before each of the newest steps, as far
// as this is known. Without a published timetable the number is 0.
#[derive(Drop)]
pub(crate) struct MovedCounts {
    count: u32,
    before: Vec<u32>,
}

impl Model for MovedCounts {
    ghost use Rattle.std.specs.Prelude.{reverse};
    ghost use Rattle.tt_desk.specs.MovedNow.{Counts};

    ghost Value = { Counts };

    ghost view = { λ m. record { count = m.count; before = reverse m.before.items } };
}

// How many published classes are moved, by going over all.
fn count_all(state: &State, published: &Option<Published>) -> u32
    requires { IfSome published.now (IsTimetableOf state.now.problem) }
    ensures { result ≡ moved_in state.now.problem published.now state.now.present.plan }
{
    match published {
        None => 0,
        Some(published) => {
            state.soundness();
            moved(state.problem(), state.score().plan(), published)
        }
    }
}

// How many of some classes are moved by a published timetable.
fn count_of(state: &State, published: &Published, classes: &[u32]) -> u32
    requires belongs { IsTimetableOf state.now.problem published.now }
    requires within { All (λ class. class < length state.now.problem.classes) classes.now }
    requires few { length classes.now < 2 ^ 32 }
    ensures count { result
        ≡ count_by (is_moved state.now.problem state.now.present.plan published.now) classes.now }
    ensures few { result ≤ length classes.now }
{
    state.soundness();
    let mut count = 0;
    for class in classes {
        if is_moved(state.problem(), state.score().plan(), published, *class) {
            count += 1;
        }
    }
    count
}

// How many of some classes are moved, while there is a published timetable; else 0.
pub(crate) fn count_among(state: &State, published: &Option<Published>, classes: &[u32]) -> u32
    requires belongs { IfSome published.now (IsTimetableOf state.now.problem) }
    requires within { All (λ class. class < length state.now.problem.classes) classes.now }
    requires few { length classes.now < 2 ^ 32 }
    ensures count { result
        ≡ moved_among state.now.problem published.now state.now.present.plan classes.now }
    ensures few { result ≤ length classes.now }
{
    match published {
        None => 0,
        Some(published) => count_of(state, published, classes),
    }
}

// How many of a class and the conflict set found last are moved.
#[tactic(auto, using(crate::proofs::MovedLemmas::among_cons))]
pub(crate) fn count_with_taken(state: &State, published: &Option<Published>, class: u32) -> u32
    requires belongs { IfSome published.now (IsTimetableOf state.now.problem) }
    requires class { class < length state.now.problem.classes }
    ensures count { result
        ≡ moved_among state.now.problem published.now state.now.present.plan
        (class ∷ state.now.taken) }
    ensures within { All (λ other. other < length state.now.problem.classes) state.now.taken }
    ensures valid { IsValid state.now.problem }
{
    state.problem().validity();
    count_among(state, published, &[class]) + count_among(state, published, state.taken())
}

// How many of a class and of its conflict set at a value are moved, where nothing stands in the way.
// The conflict set found last may differ then.
#[tactic(auto, using(tt_state::proofs::ObstacleLemmas::not_blocked))]
pub(crate) fn count_with_conflicts(
    state: &mut State,
    published: &Option<Published>,
    class: u32,
    value: Value,
) -> u32
    requires belongs { IfSome published.now (IsTimetableOf state.old.problem) }
    requires value { IsOfDomain state.old.problem class value }
    ensures count { obstacle_of state.old.problem state.old.present class value ≡ None
        → result
        ≡ moved_among state.old.problem published.now state.old.present.plan
        (class ∷ conflict_set_of state.old.problem state.old.present class value) }
    ensures same { with_taken state.new [] ≡ with_taken state.old [] }
{
    if published.is_none() || state.find_obstacle(class, value).is_some() {
        return 0;
    }
    count_with_taken(state, published, class)
}

impl MovedCounts {
    // Those of the present snapshot alone.
    pub(crate) fn new(alloc: Global, state: &State, published: &Option<Published>) -> MovedCounts
        requires { IfSome published.now (IsTimetableOf state.now.problem) }
        ensures { AreMovedIn state.now.problem published.now (state.now.present ∷ earlier state.now)
            (result.count ∷ result.before) }
    {
        MovedCounts {
            count: count_all(state, published),
            before: Vec::new(alloc),
        }
    }

    // How many are moved now.
    pub(crate) fn count(&self) -> u32
        ensures { result ≡ self.now.count }
    {
        self.count
    }

    // Counts anew, once another timetable is published.
    pub(crate) fn restart(&mut self, state: &State, published: &Option<Published>)
        requires { IfSome published.now (IsTimetableOf state.now.problem) }
        ensures { AreMovedIn state.now.problem published.now (state.now.present ∷ earlier state.now)
            (self.new.count ∷ self.new.before) }
    {
        self.before.clear();
        self.count = count_all(state, published);
    }

    // Keeps the number before a step, while there is a published timetable. Where memory is wanting,
    // nothing is known any more of what was before.
    fn keep(&mut self, published: &Option<Published>)
        ensures now { self.new.count ≡ self.old.count }
        ensures before { (p : Parts) (t : Option Timetable) (snapshots : List Snapshot)
            → AreMovedIn p t snapshots (self.old.count ∷ self.old.before)
            → AreMovedIn p t snapshots self.new.before }
    {
        if published.is_none() || self.before.push(self.count).is_err() {
            self.before.clear();
        }
    }

    // Follows a step that leaves each class where it is.
    pub(crate) fn step(&mut self, state: &State, published: &Option<Published>)
        requires before { AreMovedIn state.now.problem published.now (earlier state.now)
            (self.old.count ∷ self.old.before) }
        requires same { self.old.count
            ≡ moved_in state.now.problem published.now state.now.present.plan }
        ensures { AreMovedIn state.now.problem published.now (state.now.present ∷ earlier state.now)
            (self.new.count ∷ self.new.before) }
    {
        self.keep(published);
    }

    // Follows a step by which some classes may be moved or no longer be, of which `was` were moved before and
    // `is` are now.
    #[tactic(auto, using(crate::proofs::MovedLemmas::moved_most))]
    pub(crate) fn step_over(
        &mut self,
        state: &State,
        published: &Option<Published>,
        was: u32,
        is: u32,
    )
        requires belongs { IfSome published.now (IsTimetableOf state.now.problem) }
        requires before { AreMovedIn state.now.problem published.now (earlier state.now)
            (self.old.count ∷ self.old.before) }
        requires change { moved_in state.now.problem published.now state.now.present.plan + was
            ≡ self.old.count + is }
        ensures { AreMovedIn state.now.problem published.now (state.now.present ∷ earlier state.now)
            (self.new.count ∷ self.new.before) }
    {
        self.keep(published);
        state.problem().validity();
        self.count = if was <= is {
            self.count + (is - was)
        } else {
            self.count - (was - is)
        };
    }

    // Follows a step that may move any class.
    pub(crate) fn step_anew(&mut self, state: &State, published: &Option<Published>)
        requires belongs { IfSome published.now (IsTimetableOf state.now.problem) }
        requires before { AreMovedIn state.now.problem published.now (earlier state.now)
            (self.old.count ∷ self.old.before) }
        ensures { AreMovedIn state.now.problem published.now (state.now.present ∷ earlier state.now)
            (self.new.count ∷ self.new.before) }
    {
        self.keep(published);
        self.count = count_all(state, published);
    }

    // Goes back by a step.
    pub(crate) fn back(&mut self, state: &State, published: &Option<Published>)
        requires belongs { IfSome published.now (IsTimetableOf state.now.problem) }
        requires before { AreMovedIn state.now.problem published.now
            (state.now.present ∷ earlier state.now) self.old.before }
        ensures { AreMovedIn state.now.problem published.now (state.now.present ∷ earlier state.now)
            (self.new.count ∷ self.new.before) }
    {
        self.count = match self.before.pop() {
            None => count_all(state, published),
            Some(before) => before,
        };
    }
}
