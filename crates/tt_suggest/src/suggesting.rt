//! The walk over the tree of placements, and `suggest`.

ghost use Rattle.std.specs.Prelude.{◌≡◌, ◌≢◌, ◌↔◌, ◌+◌, ◌==◌, true, false, ◌∷◌, [], ◌<◌, ◌≤◌, Option, Err, Ok, IfNone, IfOk, IfSome, IsSomeAnd, OnOk, OnErr, None, Some, length, map};
ghost use Rattle.std.specs.Option.{option_copied};
ghost use Rattle.tt_base.specs.Lists.{least_after};
ghost use Rattle.tt_plan.specs.Domain.{IsOfDomain};
ghost use Rattle.tt_plan.specs.Placements.{IsPlacement};
ghost use Rattle.tt_published.specs.Published.{moved_in};
ghost use Rattle.tt_published.specs.Aim.{IsAimOf};
ghost use Rattle.tt_state.specs.History.{IsWithinStep, earlier, with_taken};
ghost use Rattle.tt_state.specs.Snapshots.{with_value};
ghost use Rattle.tt_state.specs.Values.{conflict_set_of, total_with};
ghost use Rattle.tt_suggest.specs.Suggestions.{suggestion_of, suggestion_rank, suggested};
ghost use Rattle.tt_suggest.specs.Tree.{gives_child, leaves_of, most_tries, root_of, tries_of};
ghost use Rattle.tt_suggest.specs.Ranks.{is_better, rank_numbers};
ghost use Rattle.tt_suggest.specs.Walks.{FindsAtChild, FindsBelow, FindsBy, IsBack, IsBranchOf, leaf_of, node_of, tries_at_child, tries_below, tries_by};

use crate::branch::Branch;
use crate::moved::{moved_now, moved_with};
use crate::placing::go_on;
use crate::suggestion::{Moves, Rank, SuggestEnd, Suggested, Suggestion};
use std::alloc::{AllocError, Global};
use tt_bits::Value;
use tt_plan::{Placement, domain_size, value_at};
use tt_published::{Aim, Published};
use tt_state::State;

// The most values that are tried.
const MOST_TRIES: u32 = 1_000_000;

impl Suggested {
    // Whether a suggestion of this rank is better than what was found so far.
    fn is_beaten(&self, rank: Rank) -> bool
        ensures { result ≡ is_better (rank_numbers rank) self.now.best }
    {
        match &self.best {
            None => true,
            Some(best) => rank.is_below(&Rank {
                total: best.total,
                moved: best.moved,
            }),
        }
    }

    // A total below which each is no higher than that of what was found so far, if anything was.
    fn bound(&self) -> Option<u128>
        ensures { IfSome result
            (λ bound. IsSomeAnd self.now.best (λ best. bound ≡ best.total + 1)) }
    {
        match &self.best {
            None => None,
            Some(best) => best.total.checked_add(1),
        }
    }

    // The total with a class at a value, or none where it is above that of what was found so far.
    fn total_within(&self, state: &mut State, placement: &Placement) -> Option<u128>
        requires placement { IsPlacement state.old.problem placement.now }
        ensures same { state.new ≡ state.old }
        ensures total { IfSome result (λ total.
            total
            ≡ total_with state.old.problem state.old.present placement.now.class
            placement.now.value) }
        ensures above { IfNone result (IsSomeAnd self.now.best (λ best.
            best.total
            < total_with state.old.problem state.old.present placement.now.class
            placement.now.value)) }
    {
        let Some(bound) = self.bound() else {
            return Some(state.trial(placement.class, placement.value));
        };
        let without = state.without(placement.class);
        state.trial_below(placement, without, bound)
    }

    // Takes the suggestion that a branch gives with its class at a value, if it is better than what
    // was found so far.
    fn offer(
        &mut self,
        alloc: Global,
        branch: &Branch,
        value: Value,
        rank: Rank,
    ) -> Result<(), AllocError>
        ensures tried { self.new.tried ≡ self.old.tried }
        ensures best { OnOk result (self.new.best
            ≡ least_after suggestion_rank self.old.best (leaf_of branch.now value rank ∷ [])) }
    {
        if self.is_beaten(rank) {
            let moves = Moves::from_vec(branch.path_with(alloc, value)?);
            self.best = Some(Suggestion {
                moves,
                total: rank.total,
                moved: rank.moved,
            });
        }
        Ok(())
    }

    // Counts so many values more to try.
    fn add_tries(&mut self, tries: u32) -> Result<(), SuggestEnd>
        requires so_far { self.old.tried ≤ most_tries }
        requires few { tries ≤ most_tries }
        ensures tried { self.new.tried ≡ self.old.tried + tries }
        ensures best { self.new.best ≡ self.old.best }
        ensures few { OnOk result (self.new.tried ≤ most_tries) }
        ensures too_many { OnErr result (most_tries < self.new.tried) }
        ensures only { OnErr result (result ≡ Err SuggestEnd.TooMany) }
    {
        self.tried += tries;
        if self.tried > MOST_TRIES {
            return Err(SuggestEnd::TooMany);
        }
        Ok(())
    }
}

// The rank of the suggestion that a branch gives with its class at a value, where nothing is pushed
// out and no class waits then. `None` where its total is above that of what was found so far.
fn rank_with(
    state: &mut State,
    aim: &Aim,
    branch: &Branch,
    placement: &Placement,
    found: &Suggested,
) -> Option<Rank>
    requires belongs { IsAimOf state.old.problem aim.now }
    requires branch { IsBranchOf state.old.problem aim.now state.old.present branch.now }
    requires placement { IsPlacement state.old.problem placement.now }
    requires class { placement.now.class ≡ branch.now.class }
    ensures same { state.new ≡ state.old }
    ensures rank { IfSome result (λ rank.
        rank_numbers rank
        ≡ total_with state.old.problem state.old.present branch.now.class placement.now.value
        ∷ moved_in state.old.problem aim.now
        (with_value state.old.present branch.now.class (Some placement.now.value)).plan
        ∷ []) }
    ensures above { IfNone result (IsSomeAnd found.now.best (λ best.
        best.total
        < total_with state.old.problem state.old.present branch.now.class
        placement.now.value)) }
{
    let moved = moved_with(
        state,
        aim,
        branch.moved,
        branch.class,
        Some(placement.value),
    );
    let total = found.total_within(state, placement)?;
    Some(Rank { total, moved })
}

// Tries each value of the class of a branch, in the last step, and goes on from there as far as it
// may.
#[cycle(walk)]
fn walk(
    alloc: Global,
    state: &mut State,
    aim: &Aim,
    branch: &Branch,
    found: &mut Suggested,
) -> Result<(), SuggestEnd>
    requires belongs { IsAimOf state.old.problem aim.now }
    requires branch { IsBranchOf state.old.problem aim.now state.old.present branch.now }
    requires step { 0 < length (earlier state.old) }
    requires few { found.old.tried ≤ most_tries }
    ensures step { IsWithinStep (with_taken state.old []) (with_taken state.new []) }
    ensures back { OnOk result (IsBack state.old state.new) }
    ensures found { OnOk result (FindsBelow state.old aim.now branch.now found.old found.new) }
    ensures too_many { result ≡ Err SuggestEnd.TooMany
        → most_tries < found.old.tried + tries_below state.old branch.now }
{
    let count = domain_size(state.problem(), branch.class);
    found.add_tries(count)?;
    for k in 0..count {
        let value = value_at(state.problem(), branch.class, k);
        let placement = state.placement(branch.class, value);
        try_value(alloc, state, aim, branch, &placement, found)?;
    }
    Ok(())
}

// Tries a value of the class of a branch, in the last step.
#[cycle(walk)]
fn try_value(
    alloc: Global,
    state: &mut State,
    aim: &Aim,
    branch: &Branch,
    placement: &Placement,
    found: &mut Suggested,
) -> Result<(), SuggestEnd>
    requires belongs { IsAimOf state.old.problem aim.now }
    requires branch { IsBranchOf state.old.problem aim.now state.old.present branch.now }
    requires placement { IsPlacement state.old.problem placement.now }
    requires class { placement.now.class ≡ branch.now.class }
    requires step { 0 < length (earlier state.old) }
    requires few { found.old.tried ≤ most_tries }
    ensures step { IsWithinStep (with_taken state.old []) (with_taken state.new []) }
    ensures back { OnOk result (IsBack state.old state.new) }
    ensures found { OnOk result
        (FindsBy state.old aim.now branch.now placement.now.value found.old found.new) }
    ensures too_many { result ≡ Err SuggestEnd.TooMany
        → most_tries
        < found.old.tried
        + tries_by state.old.problem state.old.present branch.now
        (placement.now.value ∷ []) }
{
    if !branch.gives_child(state, placement) {
        return Ok(());
    }
    if branch.is_last(state.taken()) {
        return match rank_with(state, aim, branch, placement, found) {
            None => Ok(()),
            Some(rank) => Ok(found.offer(alloc, branch, placement.value, rank)?),
        };
    }
    descend(alloc, state, aim, branch, placement.value, found)
}

// Goes to the child of a branch by its class at a value, walks on from there, and goes back.
#[cycle(walk)]
fn descend(
    alloc: Global,
    state: &mut State,
    aim: &Aim,
    branch: &Branch,
    value: Value,
    found: &mut Suggested,
) -> Result<(), SuggestEnd>
    requires belongs { IsAimOf state.old.problem aim.now }
    requires branch { IsBranchOf state.old.problem aim.now state.old.present branch.now }
    requires value { IsOfDomain state.old.problem branch.now.class value }
    requires taken { state.old.taken
        ≡ conflict_set_of state.old.problem state.old.present branch.now.class value }
    requires gives { gives_child state.old.problem branch.now.spare
        (node_of state.old.present branch.now) branch.now.class branch.now.others.items value
        ≡ true }
    requires some { (length branch.now.others.items + length state.old.taken == 0) ≡ false }
    requires step { 0 < length (earlier state.old) }
    requires few { found.old.tried ≤ most_tries }
    ensures step { IsWithinStep (with_taken state.old []) (with_taken state.new []) }
    ensures back { OnOk result (IsBack state.old state.new) }
    ensures found { OnOk result
        (FindsAtChild state.old aim.now branch.now value found.old found.new) }
    ensures too_many { result ≡ Err SuggestEnd.TooMany
        → most_tries < found.old.tried + tries_at_child state.old branch.now value }
{
    let moment = state.mark_now();
    let next = go_on(alloc, state, aim, branch, value)?;
    walk(alloc, state, aim, &next, found)?;
    state.roll_back(moment);
    Ok(())
}

// Walks the tree of placements from the present snapshot, in the last step.
fn suggest_step(
    alloc: Global,
    state: &mut State,
    aim: &Aim,
    class: u32,
    depth: u8,
) -> Result<Suggested, SuggestEnd>
    requires belongs { IsAimOf state.old.problem aim.now }
    requires class { class < length state.old.problem.classes }
    requires some { 1 ≤ depth }
    requires few { depth ≤ 3 }
    requires step { 0 < length (earlier state.old) }
    ensures step { IsWithinStep (with_taken state.old []) (with_taken state.new []) }
    ensures suggested { IfOk result
        (λ now. now ≡ suggested state.old.problem aim.now depth state.old.present class) }
    ensures few { IfOk result (λ now. now.tried ≤ most_tries) }
    ensures too_many { result ≡ Err SuggestEnd.TooMany
        → most_tries < tries_of state.old.problem depth (root_of state.old.present class) }
{
    let root = Branch {
        path: Vec::new(alloc),
        class,
        others: Vec::new(alloc),
        spare: u32::from(depth) - 1,
        moved: moved_now(state, aim),
    };
    let mut found = Suggested {
        tried: 0,
        best: None,
    };
    walk(alloc, state, aim, &root, &mut found)?;
    Ok(found)
}

/// The best way to place or move a class by at most `depth` placements, 1 to 3, and how many values
/// were tried to find it. A class that gets a value pushes out its conflict set, and each class
/// that was pushed out gets a value in turn; no class that was placed on the way is pushed out again.
/// A value is none that is blocked, nor one that pushes out a locked class, and the first isn't the one
/// that the class has. The best is the first
/// that has the least total, and then the fewest moved classes. `SuggestEnd::TooMany` where there
/// are more than 1,000,000 values to try. With any answer the snapshot and the history are as before;
/// the conflict set found last may differ.
#[tactic(auto, using(crate::proofs::AnswerLemmas::none_by, crate::proofs::AnswerLemmas::taken_back))]
pub fn suggest(
    alloc: Global,
    state: &mut State,
    published: Option<&Published>,
    class: u32,
    depth: u8,
) -> Result<Suggested, SuggestEnd>
    requires belongs { IsAimOf state.old.problem (option_copied published) }
    requires class { class < length state.old.problem.classes }
    requires some { 1 ≤ depth }
    requires few { depth ≤ 3 }
    ensures same { with_taken state.new [] ≡ with_taken state.old [] }
    ensures suggested { IfOk result (λ now.
        now
        ≡ suggested state.old.problem (option_copied published.entry) depth state.old.present
        class) }
    ensures none { IfOk result (λ now.
        (now.best ≡ None)
        ↔ (map (suggestion_of state.old.problem (option_copied published.entry))
        (leaves_of state.old.problem depth (root_of state.old.present class))
        ≡ [])) }
    ensures few { IfOk result (λ now. now.tried ≤ most_tries) }
    ensures too_many { result ≢ Err SuggestEnd.Memory
        → (result ≡ Err SuggestEnd.TooMany)
        ↔ (most_tries < tries_of state.old.problem depth (root_of state.old.present class)) }
{
    state.begin()?;
    let result = suggest_step(alloc, state, &Aim::of(published), class, depth);
    state.take_back();
    result
}
