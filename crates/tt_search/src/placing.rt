//! `place`: turns that learn which classes are hard.

ghost use Rattle.std.specs.Prelude.{◌≡◌, ◌<◌, ◌∷◌, [], None, ℕ, List, IfOk, IfSome, OnOk, OnErr, length};
ghost use Rattle.std.specs.Option.{option_map};
ghost use Rattle.tt_state.specs.Desk.{stepped};
ghost use Rattle.tt_state.specs.History.{IsWithinStep, desk_of, earlier, trail, with_taken};
ghost use Rattle.tt_state.specs.Snapshots.{StaysLocked};
ghost use Rattle.tt_search.specs.Least.{IsFirstLeast};
ghost use Rattle.tt_search.specs.Searched.{rank_of};
ghost use Rattle.tt_search.specs.PlaceTurns.{all_placed, place_turn, place_way};
ghost use Rattle.tt_search.specs.Drawing.{AreCandidates};
ghost use Rattle.tt_search.specs.LeastNow.{HasRoomForValues};
ghost use Rattle.tt_search.specs.Numbers.{MayMake};
ghost use Rattle.tt_search.specs.UnderWay.{IsUnderWay, place_end, places_after};
ghost use Rattle.tt_search.specs.WayNow.{BeginsAt};
ghost use Rattle.tt_search.specs.PlacingNow.{CountsOuts, moment_after};

use crate::drawing::Candidates;
use crate::least::LeastValues;
use crate::turn::Turn;
use crate::way::Way;
use crate::weights::ClassWeights;
use rand_core::Rng;
use rand_pcg::Lcg64Xsh32;
use std::alloc::{AllocError, Global};
use tt_published::Aim;
use tt_state::State;
use tt_watch::Watcher;

// The class of the turn with two random words, and the value that it is forced to, if it has an
// available one. None where there is no candidate.
fn next_turn(
    state: &mut State,
    weights: &ClassWeights,
    candidates: &Candidates,
    least: &mut LeastValues,
    class_word: u32,
    value_word: u32,
) -> Option<Turn>
    requires candidates { AreCandidates state.old.problem state.old.present candidates.now [] }
    requires whole { length weights.now.outs.items ≡ length state.old.problem.classes }
    requires room { HasRoomForValues state.old.problem least.old }
    ensures problem { state.new.problem ≡ state.old.problem }
    ensures present { state.new.present ≡ state.old.present }
    ensures entries { state.new.entries ≡ state.old.entries }
    ensures room { HasRoomForValues state.old.problem least.new }
    ensures turn { (outs : List ℕ)
        → CountsOuts state.old.problem outs weights.now
        → place_turn state.old.problem (class_word, value_word)
        (record { snapshot = state.old.present; outs = outs })
        ≡ option_map (moment_after state.old.problem state.old.present outs) result }
    ensures may { IfSome result (MayMake state.old.problem state.old.present) }
{
    let Some(class) = candidates.drawn(class_word) else {
        return None;
    };
    weights.find_lightest(state, class, least);
    least.keep_least(state, class);
    let value = least.drawn(value_word);
    Some(Turn { class, value })
}

// Makes turns in the last step, until so many are made or there is no candidate. The watcher is told
// of each. The answer is the number of turns. Want of memory comes only where a turn is made.
fn make_place_turns<W: Watcher>(
    state: &mut State,
    way: &mut Way,
    weights: &mut ClassWeights,
    turns: u32,
    seed: u64,
    watcher: &mut W,
) -> Result<u32, AllocError>
    requires begins { BeginsAt state.old.problem None state.old.present way.old }
    requires counts { CountsOuts state.old.problem [] weights.old }
    requires step { 0 < length (earlier state.old) }
    requires trail { trail state.old ≡ state.old.present ∷ [] }
    ensures step { IsWithinStep (with_taken state.old []) (with_taken state.new []) }
    ensures way { IfOk result (λ made.
        let start = state.old in
        IsUnderWay (rank_of start.problem None) (trail state.new) [] way.new.best made
        (place_end start.problem turns seed start.present)
        (length (places_after start.problem turns seed start.present))) }
    ensures memory { OnErr result
        (0 < length (places_after state.old.problem turns seed state.old.present)) }
{
    let mut random = Lcg64Xsh32::new(seed, 1);
    for made in 0..turns {
        let class_word = random.next_u32();
        let value_word = random.next_u32();
        let found = next_turn(
            state,
            weights,
            &way.candidates,
            &mut way.least,
            class_word,
            value_word,
        );
        let Some(next) = found else {
            return Ok(made);
        };
        way.go(state, &Aim::none(), next)?;
        weights.count_out(state, next);
        watcher.tell(way.progress(made + 1, turns));
    }
    Ok(turns)
}

// Places as one step. Where memory runs out, the step is undone.
fn place_on<W: Watcher>(
    alloc: Global,
    state: &mut State,
    turns: u32,
    seed: u64,
    watcher: &mut W,
) -> Result<u32, AllocError>
    ensures problem { state.new.problem ≡ state.old.problem }
    ensures earlier { OnOk result (earlier state.new ≡ state.old.present ∷ earlier state.old) }
    ensures end { OnOk result
        (place_end state.old.problem turns seed state.old.present ≡ state.new.present) }
    ensures made { IfOk result
        (λ made. made ≡ length (places_after state.old.problem turns seed state.old.present)) }
    ensures present { OnErr result (state.new.present ≡ state.old.present) }
    ensures entries { OnErr result (state.new.entries ≡ state.old.entries) }
{
    let mut way = Way::new(alloc, state, &Aim::none())?;
    let mut weights = ClassWeights::new(alloc, state)?;
    state.begin()?;
    let made = make_place_turns(state, &mut way, &mut weights, turns, seed, watcher);
    way.end(state, made)
}

/// Makes turns that learn which classes are hard, from the present snapshot until so many are made or
/// there is no candidate, and ends at the first snapshot on the way that is least by unplaced classes,
/// hard conflicts and total, all as one step. In a turn a random word draws one of the unplaced classes
/// that have a value which isn't blocked. Among its values that push out no locked class those are
/// kept whose conflict set weighs least, where a class weighs 1 and 1 more for each turn that took it
/// out; among these those with the least total; and a second random word draws the one that the class
/// is forced to. Where it has none, the turn changes nothing. So each locked class stays where it is.
/// The answer is the number of turns. Where memory is wanting, only the conflict set found last may
/// differ. The watcher is told of each turn.
#[tactic(auto, unfolding(crate::specs::UnderWay::place_end), using(crate::proofs::FirstLemmas::place_ends_at_first))]
pub fn place<W: Watcher>(
    alloc: Global,
    state: &mut State,
    turns: u32,
    seed: u64,
    watcher: &mut W,
) -> Result<u32, AllocError>
    ensures desk { OnOk result (desk_of state.new ≡ stepped (desk_of state.old) state.new.present) }
    ensures end { IfOk result (λ made.
        all_placed state.old.problem turns seed state.old.present ≡ (state.new.present, made)) }
    ensures first { OnOk result ((place : ℕ)
        × IsFirstLeast (rank_of state.old.problem None)
        (place_way state.old.problem turns seed state.old.present) place state.new.present) }
    ensures locked { OnOk result
        ((class : ℕ) → StaysLocked state.old.present state.new.present class) }
    ensures err { OnErr result (with_taken state.new [] ≡ with_taken state.old []) }
{
    state.soundness();
    place_on(alloc, state, turns, seed, watcher)
}
