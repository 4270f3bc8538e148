//! Two classes that change places.

ghost use Rattle.std.specs.Prelude.{◌≡◌, ◌&&◌, ◌<◌, [], ◌∷◌, None, Some, IfOk, IfSome, OnOk, false, true, length, max};
ghost use Rattle.tt_plan.specs.Domain.{IsOfDomain};
ghost use Rattle.tt_plan.specs.Placements.{IsPlacement};
ghost use Rattle.tt_state.specs.History.{IsWithinStep, earlier, trail, with_taken};
ghost use Rattle.tt_state.specs.Snapshots.{is_locked_in, with_value};
ghost use Rattle.tt_improve.specs.Classes.{is_free};
ghost use Rattle.tt_improve.specs.Standing.{IsMovable};
ghost use Rattle.tt_deluge.specs.ClassRounds.{moved_by_conflict_set, begin_alike, exchange_value, spot_in, value_at_time};
ghost use Rattle.tt_deluge.specs.Places.{place_of_room, place_of_time};
ghost use Rattle.tt_deluge.specs.Standing.{BeginsWith, IsClassRound};
ghost use Rattle.tt_deluge.specs.Pieces.{half_exchanged};

use crate::values::{has_value, is_free};
use std::alloc::AllocError;
use tt_bits::{Spot, Time, Value};
use tt_plan::Placement;
use tt_problem::{Problem, RoomChoice, TimeChoice};
use tt_state::State;

// Whether the days, the weeks and the start of two times are the same.
fn begin_alike(a: &Time, b: &Time) -> bool
    ensures { result ≡ begin_alike a.now b.now }
{
    a.days == b.days && a.weeks == b.weeks && a.start == b.start
}

// The first place of a time with the days, the weeks and the start of another.
fn place_of_time(times: &[TimeChoice], time: &Time) -> Option<usize>
    ensures place { result ≡ place_of_time times.now time.now }
    ensures within { IfSome result (λ place. place < length times.now) }
{
    for place in 0..times.len() {
        if begin_alike(&times[place].time, time) {
            return Some(place);
        }
    }
    None
}

// The first place of a room, or 0 where there is none to be had and none is asked for.
fn place_of_room(rooms: &[RoomChoice], room: Option<u32>) -> Option<usize>
    ensures place { result ≡ place_of_room rooms.now room }
    ensures within { IfSome result (λ place. place < max 1 (length rooms.now)) }
{
    let Some(wanted) = room else {
        return rooms.is_empty().then_some(0);
    };
    for place in 0..rooms.len() {
        if rooms[place].room == wanted {
            return Some(place);
        }
    }
    None
}

// The first value of a class with the days, the weeks and the start of a time, and this room or none.
fn value_at_time(problem: &Problem, class: u32, time: &Time, room: Option<u32>) -> Option<Value>
    requires { class < length problem.now.classes }
    ensures value { result ≡ value_at_time problem.now class time.now room }
    ensures domain { IfSome result (IsOfDomain problem.now class) }
{
    let part = problem.class(class);
    let time = place_of_time(part.times.as_slice(), time)?;
    let room = place_of_room(part.rooms.as_slice(), room)?;
    Some(Value {
        time: time as u16,
        room: room as u16,
    })
}

// The spot that a class has.
fn spot_now(state: &State, class: u32) -> Option<Spot>
    requires { class < length state.now.problem.classes }
    ensures { result ≡ spot_in state.now.problem state.now.present class }
{
    state.score().roster().spots()[class as usize]
}

// The value by which another class comes to the time of a class: with the room of the class, or else
// with its own.
fn exchange_value(state: &State, class: u32, other: u32) -> Option<Value>
    requires class { class < length state.now.problem.classes }
    requires other { other < length state.now.problem.classes }
    ensures value { result ≡ exchange_value state.now.problem state.now.present class other }
    ensures domain { IfSome result (IsOfDomain state.now.problem other) }
{
    let at = spot_now(state, class)?;
    let had = spot_now(state, other)?;
    match value_at_time(state.problem(), other, &at.time, at.room) {
        Some(value) => Some(value),
        None => value_at_time(state.problem(), other, &at.time, had.room),
    }
}

// Takes a class out in the last step, and gives both classes their values, as far as these are free.
// Whether both are.
fn exchange_steps(
    state: &mut State,
    placement: &Placement,
    to: &Placement,
) -> Result<bool, AllocError>
    requires placement { IsPlacement state.old.problem placement.now }
    requires to { IsPlacement state.old.problem to.now }
    requires free { is_locked_in state.old.present to.now.class ≡ false }
    requires step { 0 < length (earlier state.old) }
    ensures step { IsWithinStep (with_taken state.old []) (with_taken state.new []) }
    ensures free { IfOk result (λ free.
        free
        ≡ is_free state.old.problem (with_value state.old.present to.now.class None)
        placement.now.class placement.now.value
        && is_free state.old.problem
        (half_exchanged state.old.present placement.now.class placement.now.value to.now.class)
        to.now.class to.now.value) }
    ensures present { IfOk result (λ free.
        free ≡ true
        → state.new.present
        ≡ with_value
        (half_exchanged state.old.present placement.now.class placement.now.value to.now.class)
        to.now.class (Some to.now.value)) }
    ensures trail { OnOk result (BeginsWith (trail state.old) (trail state.new)) }
{
    state.place_step(to.class, None)?;
    if !is_free(state, placement) {
        return Ok(false);
    }
    state.place_step(placement.class, Some(placement.value))?;
    if !is_free(state, to) {
        return Ok(false);
    }
    state.place_step(to.class, Some(to.value))?;
    Ok(true)
}

// Gives a class a value in whose way one class alone stands, and that class the value by which it comes
// to where the first one was, in the last step: where that class isn't locked, both values are free then,
// and the total is at most the level. Whether it does.
pub(crate) fn exchange(
    state: &mut State,
    placement: &Placement,
    other: u32,
    level: u128,
) -> Result<bool, AllocError>
    requires class { IsMovable state.old.problem state.old.present placement.now.class }
    requires placement { IsPlacement state.old.problem placement.now }
    requires other { other < length state.old.problem.classes }
    requires step { 0 < length (earlier state.old) }
    ensures step { IsWithinStep (with_taken state.old []) (with_taken state.new []) }
    ensures round { IfOk result (IsClassRound level
        (moved_by_conflict_set state.old.problem state.old.present placement.now.class
        placement.now.value (other ∷ []))
        (with_taken state.old []) (with_taken state.new [])) }
{
    state.problem().validity();
    state.soundness();
    if state.is_locked(other) {
        return Ok(false);
    }
    let Some(value) = exchange_value(state, placement.class, other) else {
        return Ok(false);
    };
    let to = state.placement(other, value);
    if has_value(state, other, value) || state.blocked(&to).is_some() {
        return Ok(false);
    }
    let moment = state.mark_now();
    if exchange_steps(state, placement, &to)? && state.totals().total <= level {
        return Ok(true);
    }
    state.roll_back(moment);
    Ok(false)
}
