//! Tests of locks.

ghost use Rattle.std.specs.Prelude.{◌≡◌};

use std::test::Fail;
use test_help::{assigns, forces, state_of, value};
use tt_state::{LockFault, Obstacle, State};

// A room with two classes that may meet in it at one time, each also a slot later; and a class that
// needs no room.
const TEXT: &str = r#"{"nrDays":1,"nrWeeks":1,"slotsPerDay":288,
    "optimization":{"time":1,"room":1,"distribution":1,"student":1},
    "rooms":[{"id":1}],
    "courses":[{"id":1,"configs":[{"subparts":[
        {"classes":[{"id":1,"rooms":[{"id":1,"penalty":0}],"times":[
            {"days":"1","start":10,"length":4,"weeks":"1","penalty":0},
            {"days":"1","start":11,"length":4,"weeks":"1","penalty":0}]}]},
        {"classes":[{"id":2,"rooms":[{"id":1,"penalty":0}],"times":[
            {"days":"1","start":10,"length":4,"weeks":"1","penalty":0},
            {"days":"1","start":11,"length":4,"weeks":"1","penalty":0}]}]},
        {"classes":[{"id":3,"room":false,"times":[
            {"days":"1","start":30,"length":4,"weeks":"1","penalty":0}]}]}]}]}]}"#;

// Which classes are locked.
fn locked(state: &State) -> [bool; 3] {
    [state.is_locked(0), state.is_locked(1), state.is_locked(2)]
}

// Why the second class can't be forced to its second time, if it has that.
fn obstacle(state: &mut State) -> Option<Obstacle> {
    let value = value(state.problem(), 1, 2, Some(1))?;
    state.force(1, value).unwrap_or(None)
}

// Whether a class that is locked loses its lock in a step, of which a moment goes by, and gets it back.
fn unlocks_in_a_step(state: &mut State, class: u32) -> bool {
    if !state.is_locked(class) || state.begin().is_err() {
        return false;
    }
    if state.unlock_step(class).is_err() || state.stay_step().is_err() {
        return false;
    }
    let last = state.mark_now();
    let without = last == 2 && !state.is_locked(class);
    state.roll_back(0);
    without && state.is_locked(class)
}

// Whether a class loses its value; false where there is no such class.
fn unassigns(state: &mut State, class: u32) -> bool
    ensures { state.new.problem ≡ state.old.problem }
{
    class < state.problem().class_count() && state.unassign(class) == Ok(true)
}

// Whether a class is locked once it is placed, and then isn't pushed out.
fn holds_its_place(state: &mut State) -> bool {
    state.lock(0) == Ok(Some(LockFault::NotPlaced))
        && assigns(state, 0, 1, Some(1))
        && state.lock(0) == Ok(None)
        && state.lock(0) == Ok(Some(LockFault::Locked))
        && obstacle(state) == Some(Obstacle::Held { class: 0 })
        && state.taken() == [0].as_slice()
        && locked(state) == [true, false, false]
        && state.score().value(1).is_none()
}

// Whether the locked class itself moves, and stays locked.
fn moves_itself(state: &mut State) -> bool {
    assigns(state, 0, 2, Some(1))
        && forces(state, 0, 1, Some(1))
        && locked(state) == [true, false, false]
}

// Whether the class is pushed out once it is unlocked, and is locked again when both are taken back.
fn goes_without_its_lock(state: &mut State) -> bool {
    state.unlock(0) == Ok(true)
        && state.unlock(0) == Ok(false)
        && forces(state, 1, 2, Some(1))
        && state.score().value(0).is_none()
        && state.undo()
        && state.undo()
        && locked(state) == [true, false, false]
}

#[test]
fn a_locked_class_keeps_its_place(rt: HostRuntime) -> Result<(), Fail> {
    let mut state = state_of(rt.alloc(), TEXT.as_bytes())?;
    let shown = [
        holds_its_place(&mut state),
        moves_itself(&mut state),
        goes_without_its_lock(&mut state),
    ];
    drop(state);
    assert_eq!(rt; shown, [true; 3]);
    Ok(())
}

// Whether just the placed classes that aren't locked become so together.
fn locks_all(state: &mut State) -> bool {
    state.lock_all() == Ok(0)
        && assigns(state, 0, 1, Some(1))
        && assigns(state, 2, 1, None)
        && state.lock(2) == Ok(None)
        && state.lock_all() == Ok(1)
        && locked(state) == [true, false, true]
        && state.lock_all() == Ok(0)
}

// Whether both locks come off together, and are back when that is taken back.
fn unlocks_all(state: &mut State) -> bool {
    state.unlock_all() == Ok(2)
        && locked(state) == [false, false, false]
        && state.unlock_all() == Ok(0)
        && state.undo()
        && state.undo()
        && locked(state) == [true, false, true]
}

#[test]
fn all_placed_classes_are_locked_and_unlocked(rt: HostRuntime) -> Result<(), Fail> {
    let mut state = state_of(rt.alloc(), TEXT.as_bytes())?;
    let shown = [
        locks_all(&mut state),
        unlocks_in_a_step(&mut state, 2),
        unlocks_all(&mut state),
    ];
    drop(state);
    assert_eq!(rt; shown, [true; 3]);
    Ok(())
}

// Whether a locked class that loses its value loses its lock with it, until that is taken back.
fn loses_its_lock(state: &mut State) -> bool {
    assigns(state, 0, 1, Some(1))
        && state.lock(0) == Ok(None)
        && unassigns(state, 0)
        && locked(state) == [false, false, false]
        && state.undo()
        && locked(state) == [true, false, false]
}

#[test]
fn a_class_without_its_value_is_not_locked(rt: HostRuntime) -> Result<(), Fail> {
    let mut state = state_of(rt.alloc(), TEXT.as_bytes())?;
    let shown = loses_its_lock(&mut state);
    drop(state);
    assert!(rt; shown);
    Ok(())
}
