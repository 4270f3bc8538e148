//! A node of the tree of placements, and which values of its class give a child.

ghost use Rattle.std.specs.Prelude.{◌≡◌, ◌+◌, ◌==◌, ◌∷◌, ◌++◌, [], ◌<◌, ◌↔◌, IsTrue, IfOk, IfSome, None, length};
ghost use Rattle.std.specs.List.{list_any};
ghost use Rattle.tt_plan.specs.Placements.{IsPlacement};
ghost use Rattle.tt_state.specs.History.{with_taken};
ghost use Rattle.tt_state.specs.Values.{blocked_of, conflict_set_of, is_value};
ghost use Rattle.tt_suggest.specs.Tree.{gives_child};
ghost use Rattle.tt_suggest.specs.Walks.{is_on, may_follow, node_of, stays_at_root};

use crate::suggestion::Move;
use std::alloc::{AllocError, Global};
use tt_bits::Value;
use tt_plan::Placement;
use tt_state::State;

// A node of the tree of placements whose snapshot is the present one and where a class waits.
#[derive(Drop)]
pub(crate) struct Branch {
    /// The placements that led here.
    pub path: Vec<Move>,
    /// The class that gets a value next.
    pub class: u32,
    /// The other classes that wait, at most two.
    pub others: Vec<u32>,
    /// How many placements may follow the next one, at most two.
    pub spare: u32,
    /// How many published classes are moved.
    pub moved: u32,
}

// Whether a value is the one that a class has.
fn is_value(now: Option<Value>, value: Value) -> bool
    ensures { result ≡ is_value now value }
{
    match now {
        None => false,
        Some(now) => now.time == value.time && now.room == value.room,
    }
}

// Whether a class was placed on a path.
fn is_on(path: &[Move], class: u32) -> bool
    ensures { result ≡ is_on path.now class }
{
    path.iter().any(|step| step.class == class)
}

// Whether some of these classes were placed on a path.
fn is_any_on(path: &[Move], classes: &[u32]) -> bool
    ensures { result ≡ list_any (is_on path.now) classes.now }
{
    classes.iter().any(|class| is_on(path, *class))
}

impl Branch {
    // Whether nothing was placed yet, and the value is the one that the class has.
    fn stays_at_root(&self, state: &State, value: Value) -> bool
        ensures { result
            ≡ stays_at_root state.now.present self.now.path.items self.now.class value }
    {
        let at_value = is_value(state.score().value(self.class), value);
        self.path.len() == 0 && at_value
    }

    // How many classes the class at a value may push out, so that no more wait than may be placed.
    fn most_in_set(&self) -> Option<u32>
        ensures none { (result ≡ None) ↔ (self.now.spare < length self.now.others.items) }
        ensures value { IfSome result
            (λ most. most + length self.now.others.items ≡ self.now.spare) }
    {
        let most = (self.spare as usize).checked_sub(self.others.len())?;
        Some(most as u32)
    }

    // Whether no more classes wait than may be placed, once the class has a value that isn't blocked,
    // and none of those pushed out was placed on the way. Where it is so, its conflict set was found
    // last.
    #[tactic(auto, using(crate::proofs::FollowLemmas::follows_none, crate::proofs::FollowLemmas::follows_within))]
    fn may_follow(&self, state: &mut State, placement: &Placement) -> bool
        requires placement { IsPlacement state.old.problem placement.now }
        requires open { blocked_of state.old.problem state.old.present.closures
            placement.now.class placement.now.value
            ≡ None }
        ensures follows { result
            ≡ may_follow self.now.spare self.now.path.items self.now.others.items
            (conflict_set_of state.old.problem state.old.present placement.now.class
            placement.now.value) }
        ensures same { with_taken state.new [] ≡ with_taken state.old [] }
        ensures taken { IsTrue result
            → state.new.taken
            ≡ conflict_set_of state.old.problem state.old.present placement.now.class
            placement.now.value }
    {
        let Some(most) = self.most_in_set() else {
            return false;
        };
        state.find_conflict_set_within(placement, most)
            && !is_any_on(self.path.as_slice(), state.taken())
    }

    // Whether no class waits once the class has a value that pushes out these.
    pub(crate) fn is_last(&self, conflicts: &[u32]) -> bool
        ensures { result ≡ (length self.now.others.items + length conflicts.now == 0) }
    {
        self.others.len() + conflicts.len() == 0
    }

    // Whether the class at a value gives a child. Where it does, its conflict set was found last.
    #[tactic(auto, unfolding(crate::specs::Tree::gives_child), using(tt_state::proofs::ObstacleLemmas::blocked_not_clear, crate::proofs::FollowLemmas::barren, crate::proofs::FollowLemmas::gives_unless_held))]
    pub(crate) fn gives_child(&self, state: &mut State, placement: &Placement) -> bool
        requires placement { IsPlacement state.old.problem placement.now }
        requires class { placement.now.class ≡ self.now.class }
        ensures gives { result
            ≡ gives_child state.old.problem self.now.spare (node_of state.old.present self.now)
            self.now.class self.now.others.items placement.now.value }
        ensures same { with_taken state.new [] ≡ with_taken state.old [] }
        ensures taken { IsTrue result
            → state.new.taken
            ≡ conflict_set_of state.old.problem state.old.present self.now.class
            placement.now.value }
    {
        if state.blocked(placement).is_some() {
            return false;
        }
        if self.stays_at_root(state, placement.value) {
            return false;
        }
        if !self.may_follow(state, placement) {
            return false;
        }
        state.first_locked().is_none()
    }

    // The placements that led here, with that of the class at a value.
    pub(crate) fn path_with(&self, alloc: Global, value: Value) -> Result<Vec<Move>, AllocError>
        ensures { IfOk result (λ path.
            path.items
            ≡ self.now.path.items ++ record { class = self.now.class; value = value } ∷ []) }
    {
        let mut path = Vec::new(alloc);
        path.extend_from_slice(self.path.as_slice())?;
        path.push(Move {
            class: self.class,
            value,
        })?;
        Ok(path)
    }

    // The other classes that wait, and after them some that were pushed out.
    pub(crate) fn waiting_with(
        &self,
        alloc: Global,
        conflicts: &[u32],
    ) -> Result<Vec<u32>, AllocError>
        ensures { IfOk result (λ waiting. waiting.items ≡ self.now.others.items ++ conflicts.now) }
    {
        let mut waiting = Vec::new(alloc);
        waiting.extend_from_slice(self.others.as_slice())?;
        waiting.extend_from_slice(conflicts)?;
        Ok(waiting)
    }
}
