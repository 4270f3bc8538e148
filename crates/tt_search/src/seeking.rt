//! Search and repair: turns from the present snapshot on.

ghost use Rattle.std.specs.Prelude.{◌≡◌, ◌<◌, ◌∷◌, [], Some, IfOk, OnOk, OnErr, length, None, ℕ};
ghost use Rattle.tt_published.specs.Aim.{IsAimOf};
ghost use Rattle.tt_published.specs.Timetable.{IsTimetableOf};
ghost use Rattle.tt_state.specs.Desk.{stepped};
ghost use Rattle.tt_state.specs.History.{IsWithinStep, desk_of, earlier, trail, with_taken};
ghost use Rattle.tt_state.specs.Snapshots.{StaysLocked};
ghost use Rattle.tt_search.specs.Least.{IsFirstLeast};
ghost use Rattle.tt_search.specs.Searched.{rank_of, way_of, searched, repaired};
ghost use Rattle.tt_search.specs.UnderWay.{IsUnderWay, search_end, turns_made};
ghost use Rattle.tt_search.specs.WayNow.{BeginsAt};

use crate::turn::next_turn;
use crate::way::Way;
use rand_core::Rng;
use rand_pcg::Lcg64Xsh32;
use std::alloc::{AllocError, Global};
use tt_published::{Aim, Published};
use tt_state::State;
use tt_watch::Watcher;

// Makes turns in the last step, until so many are made or there is no candidate. The watcher is told
// of each. The answer is the number of turns. Want of memory comes only where a turn is made.
fn make_turns<W: Watcher>(
    state: &mut State,
    aim: &Aim,
    way: &mut Way,
    turns: u32,
    seed: u64,
    watcher: &mut W,
) -> Result<u32, AllocError>
    requires belongs { IsAimOf state.old.problem aim.now }
    requires begins { BeginsAt state.old.problem aim.now state.old.present way.old }
    requires step { 0 < length (earlier state.old) }
    requires trail { trail state.old ≡ state.old.present ∷ [] }
    ensures step { IsWithinStep (with_taken state.old []) (with_taken state.new []) }
    ensures way { IfOk result (λ made.
        let start = state.old in
        IsUnderWay (rank_of start.problem aim.now) (trail state.new) [] way.new.best made
        (search_end start.problem aim.now turns seed start.present)
        (turns_made start.problem aim.now turns seed start.present)) }
    ensures memory { OnErr result
        (0 < turns_made state.old.problem aim.now turns seed state.old.present) }
{
    let mut random = Lcg64Xsh32::new(seed, 1);
    for made in 0..turns {
        let word = random.next_u32();
        let Some(next) = next_turn(state, aim, &way.candidates, &mut way.least, word) else {
            return Ok(made);
        };
        way.go(state, aim, next)?;
        watcher.tell(way.progress(made + 1, turns));
    }
    Ok(turns)
}

// Searches or repairs, as one step. Where memory runs out, the step is undone.
fn seek<W: Watcher>(
    alloc: Global,
    state: &mut State,
    aim: &Aim,
    turns: u32,
    seed: u64,
    watcher: &mut W,
) -> Result<u32, AllocError>
    requires { IsAimOf state.old.problem aim.now }
    ensures problem { state.new.problem ≡ state.old.problem }
    ensures earlier { OnOk result (earlier state.new ≡ state.old.present ∷ earlier state.old) }
    ensures end { OnOk result
        (search_end state.old.problem aim.now turns seed state.old.present ≡ state.new.present) }
    ensures made { IfOk result
        (λ made. made ≡ turns_made state.old.problem aim.now turns seed state.old.present) }
    ensures present { OnErr result (state.new.present ≡ state.old.present) }
    ensures entries { OnErr result (state.new.entries ≡ state.old.entries) }
{
    let mut way = Way::new(alloc, state, aim)?;
    state.begin()?;
    let made = make_turns(state, aim, &mut way, turns, seed, watcher);
    way.end(state, made)
}

/// Makes turns from the present snapshot until so many are made or there is no candidate, and ends
/// at the first snapshot on the way that is least by unplaced classes, hard conflicts and total, all
/// as one step. In a turn a random word draws one of the unplaced classes that have a value which
/// isn't blocked, and the class is forced to its best: among those that push out no locked class, the
/// least by the weight of the classes it pushes out and their counters, the total with it, and the
/// place in its domain. Where it has none, the turn changes nothing. So each locked class stays where it
/// is. The answer is the number of turns. Where memory is wanting, only the conflict set found last may
/// differ. The watcher is told of each turn.
#[tactic(auto, unfolding(crate::specs::UnderWay::search_end), using(crate::proofs::FirstLemmas::ends_at_first))]
pub fn search<W: Watcher>(
    alloc: Global,
    state: &mut State,
    turns: u32,
    seed: u64,
    watcher: &mut W,
) -> Result<u32, AllocError>
    ensures desk { OnOk result (desk_of state.new ≡ stepped (desk_of state.old) state.new.present) }
    ensures end { IfOk result (λ made.
        searched state.old.problem turns seed state.old.present ≡ (state.new.present, made)) }
    ensures first { OnOk result ((place : ℕ)
        × IsFirstLeast (rank_of state.old.problem None)
        (way_of state.old.problem None turns seed state.old.present) place state.new.present) }
    ensures locked { OnOk result
        ((class : ℕ) → StaysLocked state.old.present state.new.present class) }
    ensures err { OnErr result (with_taken state.new [] ≡ with_taken state.old []) }
{
    state.soundness();
    seek(alloc, state, &Aim::none(), turns, seed, watcher)
}

/// The same as a search, but for two differences: a value that isn't the published one of its class
/// comes after those that are, where their weights are the same; and of the snapshots on the way
/// the fewer published classes are moved the better, before the total. The answer is the number of
/// turns. Where memory is wanting, only the conflict set found last may differ. The watcher is told of
/// each turn.
#[tactic(auto, unfolding(crate::specs::UnderWay::search_end), using(crate::proofs::FirstLemmas::ends_at_first))]
pub fn repair<W: Watcher>(
    alloc: Global,
    state: &mut State,
    published: &Published,
    turns: u32,
    seed: u64,
    watcher: &mut W,
) -> Result<u32, AllocError>
    requires { IsTimetableOf state.old.problem published.now }
    ensures desk { OnOk result (desk_of state.new ≡ stepped (desk_of state.old) state.new.present) }
    ensures end { IfOk result (λ made.
        repaired state.old.problem published.now turns seed state.old.present
        ≡ (state.new.present, made)) }
    ensures first { OnOk result ((place : ℕ)
        × IsFirstLeast (rank_of state.old.problem (Some published.now))
        (way_of state.old.problem (Some published.now) turns seed state.old.present) place
        state.new.present) }
    ensures locked { OnOk result
        ((class : ℕ) → StaysLocked state.old.present state.new.present class) }
    ensures err { OnErr result (with_taken state.new [] ≡ with_taken state.old []) }
{
    state.soundness();
    seek(alloc, state, &Aim::to(published), turns, seed, watcher)
}
