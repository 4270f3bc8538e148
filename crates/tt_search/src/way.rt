//! How far the turns have come, and the best moment so far.

ghost use Rattle.std.specs.Prelude.{◌≡◌, ◌+◌, ◌<◌, ◌∷◌, ◌++◌, [], IfOk, IfSome, OnOk, OnErr, length, Option, slice_get, if◌then◌else◌};
ghost use Rattle.tt_published.specs.Published.{moved_in};
ghost use Rattle.tt_published.specs.Aim.{IsAimOf};
ghost use Rattle.tt_published.specs.Timetable.{Timetable};
ghost use Rattle.tt_state.specs.Desk.{moved_to};
ghost use Rattle.tt_state.specs.History.{IsWithinStep, before_step, desk_of, earlier, trail, with_taken};
ghost use Rattle.tt_state.specs.Values.{conflict_set_of};
ghost use Rattle.tt_base.specs.Lists.{comes_before};
ghost use Rattle.tt_search.specs.Searched.{rank_of};
ghost use Rattle.tt_search.specs.Late.{KeepsOthers};
ghost use Rattle.tt_search.specs.Numbers.{MayMake, after_making, rank_numbers};
ghost use Rattle.tt_search.specs.UnderWay.{LeadsOn};
ghost use Rattle.tt_search.specs.WayNow.{BeginsAt, IsWayAt};

use crate::drawing::Candidates;
use crate::least::LeastValues;
use crate::moving::MovedClasses;
use crate::price::{Rank, rank_now};
use crate::turn::Turn;
use std::alloc::{AllocError, Global};
use tt_published::Aim;
use tt_state::State;
use tt_watch::Progress;

// The best moment so far: its rank, and its place in the trail of the last step.
#[derive(Clone, Copy, Debug, PartialEq, Eq)]
pub(crate) struct Best {
    pub rank: Rank,
    pub place: u64,
}

// How far turns have come in the last step: what is kept of the present snapshot, the values of a turn,
// and the best moment so far.
#[derive(Drop)]
pub(crate) struct Way {
    pub candidates: Candidates,
    moved: MovedClasses,
    pub least: LeastValues,
    pub best: Best,
}

// The present moment, where so many published classes are moved.
fn moment(state: &State, moved: u32) -> Best
    ensures rank { (aim : Option Timetable)
        → moved ≡ moved_in state.now.problem aim state.now.present.plan
        → rank_numbers result.rank ≡ rank_of state.now.problem aim state.now.present }
    ensures place { result.place + 1 ≡ length (trail state.now) }
{
    Best {
        rank: rank_now(state, moved),
        place: state.mark_now(),
    }
}

// The later moment, where its rank is below that of the earlier one, and otherwise the earlier one.
fn better(best: Best, now: Best) -> Best
    ensures { result
        ≡ (if comes_before (rank_numbers now.rank) (rank_numbers best.rank) then now else best) }
{
    if now.rank.is_below(&best.rank) {
        now
    } else {
        best
    }
}

// Forces the class of a turn to its value, in the last step. Where it has none, a moment is added in
// which nothing changes.
fn make(state: &mut State, next: Turn) -> Result<(), AllocError>
    requires may { MayMake state.old.problem state.old.present next }
    requires step { 0 < length (earlier state.old) }
    ensures desk { OnOk result (desk_of state.new
        ≡ moved_to (desk_of state.old) (after_making state.old.problem state.old.present next)) }
    ensures trail { OnOk result (trail state.new ≡ trail state.old ++ state.new.present ∷ []) }
    ensures taken { OnOk result (IfSome next.value
        (λ v. state.new.taken ≡ conflict_set_of state.old.problem state.old.present next.class v)) }
    ensures others { OnOk result
        (KeepsOthers state.old.present state.new.present (next.class ∷ state.new.taken)) }
    ensures step { IsWithinStep (with_taken state.old []) (with_taken state.new []) }
{
    match next.value {
        Some(value) => state.force_step(next.class, value),
        None => state.stay_step(),
    }
}

impl Way {
    // The way from the present snapshot, before the step in which turns are made.
    pub(crate) fn new(alloc: Global, state: &State, aim: &Aim) -> Result<Way, AllocError>
        requires { IsAimOf state.now.problem aim.now }
        ensures { IfOk result (BeginsAt state.now.problem aim.now state.now.present) }
    {
        let candidates = Candidates::new(alloc, state)?;
        let moved = MovedClasses::new(alloc, state, aim)?;
        let least = LeastValues::new(alloc, state)?;
        let rank = rank_now(state, moved.count);
        let best = Best { rank, place: 0 };
        Ok(Way {
            candidates,
            moved,
            least,
            best,
        })
    }

    // Makes a turn in the last step, looks again at what changed, and keeps the best moment.
    pub(crate) fn go(&mut self, state: &mut State, aim: &Aim, next: Turn) -> Result<(), AllocError>
        requires belongs { IsAimOf state.old.problem aim.now }
        requires at { IsWayAt state.old.problem aim.now state.old.present self.old }
        requires may { MayMake state.old.problem state.old.present next }
        requires step { 0 < length (earlier state.old) }
        ensures at { OnOk result (IsWayAt state.old.problem aim.now state.new.present self.new) }
        ensures present { OnOk result
            (state.new.present ≡ after_making state.old.problem state.old.present next) }
        ensures taken { OnOk result (IfSome next.value (λ v.
            state.new.taken ≡ conflict_set_of state.old.problem state.old.present next.class v)) }
        ensures best { OnOk result (LeadsOn (rank_of state.old.problem aim.now) (trail state.old)
            (trail state.new) state.new.present self.old.best self.new.best) }
        ensures step { IsWithinStep (with_taken state.old []) (with_taken state.new []) }
    {
        make(state, next)?;
        self.candidates.follow(state, next.class);
        self.moved.follow(state, aim, next.class);
        self.best = better(self.best, moment(state, self.moved.count));
        Ok(())
    }

    // What a watcher is told after so many turns of so many.
    pub(crate) fn progress(&self, made: u32, of: u32) -> Progress {
        Progress::Turns {
            made,
            of,
            unplaced: self.best.rank.unplaced,
        }
    }

    // Ends the last step at the best moment once so many turns were made. Where memory was wanting, the
    // step is taken back.
    pub(crate) fn end(
        &self,
        state: &mut State,
        made: Result<u32, AllocError>,
    ) -> Result<u32, AllocError>
        requires step { 0 < length (earlier state.old) }
        requires best { OnOk made (self.now.best.place < length (trail state.old)) }
        ensures made { result ≡ made }
        ensures problem { state.new.problem ≡ state.old.problem }
        ensures earlier { OnOk result (earlier state.new ≡ earlier state.old) }
        ensures present { OnOk result
            (slice_get (trail state.old) self.now.best.place ≡ Some state.new.present) }
        ensures back { OnErr result (earlier state.old ≡ state.new.present ∷ earlier state.new) }
        ensures entries { OnErr result (state.new.entries ≡ before_step state.old.entries) }
    {
        match made {
            Ok(made) => {
                state.roll_back(self.best.place);
                Ok(made)
            }
            Err(error) => {
                state.take_back();
                Err(error)
            }
        }
    }
}
