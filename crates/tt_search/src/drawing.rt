//! The candidates of a turn.

ghost use Rattle.std.specs.Prelude.{◌≡◌, ◌<◌, ◌∷◌, [], List, ℕ, IfOk, IsTrue, OnErr, None, false, length, slice_index_or};
ghost use Rattle.tt_plan.specs.Placements.{IsPlacement};
ghost use Rattle.tt_problem.specs.declared.parts.Parts.{Parts};
ghost use Rattle.tt_state.specs.Snapshots.{Snapshot};
ghost use Rattle.tt_state.specs.Values.{blocked_of};
ghost use Rattle.tt_draw.specs.Draws.{drawn};
ghost use Rattle.tt_search.specs.Turns.{is_open, has_open_value, candidates};
ghost use Rattle.tt_search.specs.Drawing.{AreCandidates, AreHopeful};

use std::alloc::{AllocError, Global};
use tt_draw::draw;
use tt_flags::Flags;
use tt_plan::{Placement, domain_size, value_at};
use tt_state::State;

// The candidates of a turn, kept while classes are forced to values.
#[derive(Drop)]
pub(crate) struct Candidates {
    // By class, whether it has an open value.
    hopeful: Vec<bool>,
    // By class, whether it is unplaced too, and so a candidate.
    free: Flags,
}

// Whether a value isn't blocked.
pub(crate) fn is_open(state: &State, placement: &Placement) -> bool
    requires { IsPlacement state.now.problem placement.now }
    ensures value { result
        ≡ is_open state.now.problem state.now.present.closures placement.now.class
        placement.now.value }
    ensures free { IsTrue result
        → blocked_of state.now.problem state.now.present.closures placement.now.class
        placement.now.value
        ≡ None }
{
    state.blocked(placement).is_none()
}

// Whether a class has a value that isn't blocked.
#[tactic(auto, using(tt_base::proofs::ListLemmas::drop_at))]
fn has_open_value(state: &State, class: u32) -> bool
    requires { class < length state.now.problem.classes }
    ensures { result ≡ has_open_value state.now.problem state.now.present.closures class }
{
    let problem = state.problem();
    for k in 0..domain_size(problem, class) {
        let value = value_at(problem, class, k);
        if is_open(state, &state.placement(class, value)) {
            return true;
        }
    }
    false
}

// Whether each class has an open value. Want of memory comes only where there is a class.
fn hopeful_classes(alloc: Global, state: &State) -> Result<Vec<bool>, AllocError>
    ensures whole { IfOk result (λ flags. length flags.items ≡ length state.now.problem.classes) }
    ensures hopeful { IfOk result (λ flags.
        (class : ℕ)
        → class < length state.now.problem.classes
        → slice_index_or flags.items class false
        ≡ has_open_value state.now.problem state.now.present.closures class) }
    ensures memory { OnErr result (0 < length state.now.problem.classes) }
{
    let mut flags = Vec::new(alloc);
    for class in 0..state.problem().class_count() {
        flags.push(has_open_value(state, class))?;
    }
    Ok(flags)
}

impl Candidates {
    // The candidates of the present snapshot.
    pub(crate) fn new(alloc: Global, state: &State) -> Result<Candidates, AllocError>
        ensures { IfOk result (λ c. AreCandidates state.now.problem state.now.present c []) }
    {
        let count = state.problem().class_count();
        let hopeful = hopeful_classes(alloc, state)?;
        let free = Flags::new(alloc, count)?;
        let mut candidates = Candidates { hopeful, free };
        candidates.look_at_all(state);
        Ok(candidates)
    }

    // Looks at each class.
    fn look_at_all(&mut self, state: &State)
        requires kept { AreHopeful state.now.problem state.now.present.closures self.old }
        ensures { AreCandidates state.now.problem state.now.present self.new [] }
    {
        for class in 0..state.problem().class_count() {
            self.look_at(state, class);
        }
    }

    // Looks at a class again. One that isn't of the problem is passed over.
    fn look_at(&mut self, state: &State, class: u32)
        requires kept { AreHopeful state.now.problem state.now.present.closures self.old }
        ensures kept { AreHopeful state.now.problem state.now.present.closures self.new }
        ensures right { (late : List ℕ)
            → AreCandidates state.now.problem state.now.present self.old (class ∷ late)
            → AreCandidates state.now.problem state.now.present self.new late }
    {
        if class >= state.problem().class_count() {
            return;
        }
        let unplaced = state.score().value(class).is_none();
        self.free
            .set(class, unplaced && self.hopeful[class as usize]);
    }

    // Looks again at a class that was forced to a value, and at those that were taken out for it.
    pub(crate) fn follow(&mut self, state: &State, class: u32)
        requires late { AreCandidates state.now.problem state.now.present self.old
            (class ∷ state.now.taken) }
        ensures { AreCandidates state.now.problem state.now.present self.new [] }
    {
        self.look_at(state, class);
        for taken in state.taken() {
            self.look_at(state, *taken);
        }
    }

    // The candidate that a random word draws.
    pub(crate) fn drawn(&self, word: u32) -> Option<u32>
        ensures { (p : Parts)
            → (s : Snapshot)
            → AreCandidates p s self.now []
            → result ≡ drawn word (candidates p s) }
    {
        self.free.nth(draw(word, u64::from(self.free.count())))
    }
}
