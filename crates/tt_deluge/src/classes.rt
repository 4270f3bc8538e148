//! Rounds on classes: a class gets a free value, or exchanges places with another class.

ghost use Rattle.std.specs.Prelude.{◌≡◌, ◌+◌, ◌∷◌, ◌<◌, ◌≤◌, ◌^◌, [], None, Some, IfNone, IfOk, IfSome, OnOk, if◌then◌else◌, false, length, true};
ghost use Rattle.tt_base.specs.Limits.{most_values};
ghost use Rattle.std.specs.Option.{option_map};
ghost use Rattle.tt_plan.specs.Domain.{IsOfDomain, domain_of};
ghost use Rattle.tt_plan.specs.Placements.{IsPlacement};
ghost use Rattle.tt_state.specs.History.{IsWithinStep, earlier, trail, with_taken};
ghost use Rattle.tt_state.specs.Snapshots.{with_value};
ghost use Rattle.tt_improve.specs.Classes.{is_free};
ghost use Rattle.tt_improve.specs.Standing.{IsMovable};
ghost use Rattle.tt_deluge.specs.ClassRounds.{class_change, moved_to_value, next_free};
ghost use Rattle.tt_deluge.specs.Standing.{BeginsWith, IsClassRound, StandsAs};
ghost use Rattle.tt_deluge.specs.Pieces.{moved_to_next, made_within};

use crate::exchange::exchange;
use crate::values::{has_value, is_free};
use std::alloc::AllocError;
use tt_bits::Value;
use tt_plan::{Placement, domain_size, value_at};
use tt_state::State;

// The place that is so many after another among some, where the first one comes after the last.
fn place_after(place: u32, more: u32, count: u32) -> u32
    requires place { place < count }
    requires more { more < count }
    requires few { count ≤ most_values }
    ensures within { result < count }
    ensures front { place + more < count → result ≡ place + more }
    ensures back { count ≤ place + more → result + count ≡ place + more }
{
    if place + more < count {
        place + more
    } else {
        place + more - count
    }
}

// The first of a class's values, from a place of its domain on and then before it, that is free and
// that the class hasn't.
fn next_free(state: &mut State, class: u32, place: u32) -> Option<Placement>
    requires class { class < length state.old.problem.classes }
    requires place { place < length (domain_of state.old.problem class) }
    ensures value { option_map (λ x. x.value) result
        ≡ next_free state.old.problem state.old.present class place }
    ensures class { IfSome result (λ x. x.class ≡ class) }
    ensures placement { IfSome result (IsPlacement state.old.problem) }
    ensures free { IfSome result
        (λ x. is_free state.old.problem state.old.present x.class x.value ≡ true) }
    ensures problem { state.new.problem ≡ state.old.problem }
    ensures present { state.new.present ≡ state.old.present }
    ensures entries { state.new.entries ≡ state.old.entries }
{
    let size = domain_size(state.problem(), class);
    for k in 0..size {
        let value = value_at(state.problem(), class, place_after(place, k, size));
        let placement = state.placement(class, value);
        if !has_value(state, class, value) && is_free(state, &placement) {
            return Some(placement);
        }
    }
    None
}

// Gives a class a value that is free, in the last step, where the total is then at most the level.
// Whether it does.
fn move_within(state: &mut State, placement: &Placement, level: u128) -> Result<bool, AllocError>
    requires class { IsMovable state.old.problem state.old.present placement.now.class }
    requires placement { IsPlacement state.old.problem placement.now }
    requires free { is_free state.old.problem state.old.present placement.now.class
        placement.now.value
        ≡ true }
    requires level { level < 2 ^ 127 }
    requires step { 0 < length (earlier state.old) }
    ensures step { IsWithinStep (with_taken state.old []) (with_taken state.new []) }
    ensures round { IfOk result (IsClassRound level
        (Some (with_value state.old.present placement.now.class (Some placement.now.value)))
        (with_taken state.old []) (with_taken state.new [])) }
{
    state.problem().validity();
    state.soundness();
    let without = state.without(placement.class);
    if state.trial_below(placement, without, level + 1).is_none() {
        return Ok(false);
    }
    state.place_step(placement.class, Some(placement.value))?;
    Ok(true)
}

// A round on a class that walks on from a place of its domain to the next value that is free.
fn move_to_next(state: &mut State, class: u32, place: u32, level: u128) -> Result<bool, AllocError>
    requires class { IsMovable state.old.problem state.old.present class }
    requires place { place < length (domain_of state.old.problem class) }
    requires level { level < 2 ^ 127 }
    requires step { 0 < length (earlier state.old) }
    ensures step { IsWithinStep (with_taken state.old []) (with_taken state.new []) }
    ensures round { IfOk result (IsClassRound level
        (moved_to_next state.old.problem state.old.present class place) (with_taken state.old [])
        (with_taken state.new [])) }
{
    match next_free(state, class, place) {
        None => Ok(false),
        Some(placement) => move_within(state, &placement, level),
    }
}

// The one class of the conflict set that was found last, if it has one.
fn only_taken(state: &State) -> Option<u32>
    requires { length state.now.taken ≤ 1 }
    ensures none { IfNone result (state.now.taken ≡ []) }
    ensures one { IfSome result (λ other. state.now.taken ≡ other ∷ []) }
    ensures within { IfSome result (λ other. other < length state.now.problem.classes) }
{
    state.taken().first().copied()
}

// A round on a class that looks at one value. The class gets it where it is free, or exchanges its place
// with the one class that stands in its way.
fn move_to_value(
    state: &mut State,
    class: u32,
    value: Value,
    level: u128,
) -> Result<bool, AllocError>
    requires class { IsMovable state.old.problem state.old.present class }
    requires value { IsOfDomain state.old.problem class value }
    requires level { level < 2 ^ 127 }
    requires step { 0 < length (earlier state.old) }
    ensures step { IsWithinStep (with_taken state.old []) (with_taken state.new []) }
    ensures round { IfOk result (IsClassRound level
        (moved_to_value state.old.problem state.old.present class value) (with_taken state.old [])
        (with_taken state.new [])) }
{
    let placement = state.placement(class, value);
    if has_value(state, class, value) || state.blocked(&placement).is_some() {
        return Ok(false);
    }
    if !state.find_conflict_set_within(&placement, 1) {
        return Ok(false);
    }
    match only_taken(state) {
        None => move_within(state, &placement, level),
        Some(other) => exchange(state, &placement, other, level),
    }
}

// A round on a class, in the last step, by a kind below 32 and a place in its domain: the class walks on
// to the next value that is free, gets the value at the place, or exchanges its place with the one class
// in its way, where the total is then at most the level. Whether it does; else nothing is added to the
// trail.
pub(crate) fn class_round(
    state: &mut State,
    class: u32,
    kind: u32,
    place: u32,
    level: u128,
) -> Result<bool, AllocError>
    requires class { IsMovable state.old.problem state.old.present class }
    requires place { place < length (domain_of state.old.problem class) }
    requires level { level < 2 ^ 127 }
    requires step { 0 < length (earlier state.old) }
    ensures step { IsWithinStep (with_taken state.old []) (with_taken state.new []) }
    ensures made { IfOk result (λ made.
        made_within state.old.problem level
        (class_change state.old.problem state.old.present kind class place)
        ≡ (if made then Some state.new.present else None)) }
    ensures same { IfOk result (λ made. made ≡ false → state.new.present ≡ state.old.present) }
    ensures still { IfOk result (λ made. made ≡ false → trail state.new ≡ trail state.old) }
    ensures trail { OnOk result (BeginsWith (trail state.old) (trail state.new)) }
    ensures stands { OnOk result (StandsAs state.old.problem state.old.present state.new.present) }
{
    if kind < 2 {
        move_to_next(state, class, place, level)
    } else {
        let value = value_at(state.problem(), class, place);
        move_to_value(state, class, value, level)
    }
}
