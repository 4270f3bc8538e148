//! Tests of classes that are forced, and of lists given within a step.

use std::test::Fail;
use test_help::{assigns, forces, state_of, value};
use tt_bits::{Key, Value};
use tt_state::{SectionFault, State};

// A room with two classes that may meet in it at one time, the second also a slot later; and a
// student who needs both.
const TEXT: &str = r#"{"nrDays":1,"nrWeeks":1,"slotsPerDay":288,
    "optimization":{"time":1,"room":1,"distribution":1,"student":1},
    "rooms":[{"id":1}],
    "courses":[{"id":1,"configs":[{"subparts":[
        {"classes":[{"id":1,"rooms":[{"id":1,"penalty":0}],"times":[
            {"days":"1","start":10,"length":4,"weeks":"1","penalty":0}]}]},
        {"classes":[{"id":2,"rooms":[{"id":1,"penalty":0}],"times":[
            {"days":"1","start":10,"length":4,"weeks":"1","penalty":2},
            {"days":"1","start":11,"length":4,"weeks":"1","penalty":3}]}]}]}]}],
    "students":[{"id":1,"courses":[1]}]}"#;

// The first value of each class.
const FIRST: Value = Value { time: 0, room: 0 };

// How often the second class at a value has pushed out the first class.
fn count(state: &State, value: Value) -> u64 {
    state.statistics().count(Key {
        class: 1,
        value,
        other: 0,
        other_value: FIRST,
    })
}

// Whether the second class, a slot later in a step, takes the first one out, and goes back.
fn forces_in_a_step(state: &mut State) -> bool {
    let Some(value) = value(state.problem(), 1, 2, Some(1)) else {
        return false;
    };
    if state.begin().is_err() {
        return false;
    }
    let moment = state.mark_now();
    if state.find_obstacle(1, value).is_some() || state.force_step(1, value).is_err() {
        return false;
    }
    let with = [state.totals().time, count(state, value)];
    state.roll_back(moment);
    with == [3, 1]
        && state.score().plan() == [Some(FIRST), None].as_slice()
        && count(state, value) == 0
}

// Whether the second class would push out the first one, and what the total would be.
fn tries(state: &mut State) -> bool {
    let Some(value) = value(state.problem(), 1, 2, Some(1)) else {
        return false;
    };
    let placement = state.placement(1, value);
    if state.blocked(&placement).is_some() {
        return false;
    }
    state.find_conflicts(placement.class, placement.value);
    state.taken() == [0].as_slice() && state.trial(placement.class, placement.value) == 3
}

// Whether the second class, a slot later, would push out no more than so many classes.
fn pushes_out_at_most(state: &mut State, most: u32) -> bool {
    let Some(value) = value(state.problem(), 1, 2, Some(1)) else {
        return false;
    };
    let placement = state.placement(1, value);
    if state.blocked(&placement).is_some() {
        return false;
    }
    state.find_conflict_set_within(&placement, most)
}

// Whether a student gets a list in a step, and loses it by an empty one.
fn sections_in_a_step(state: &mut State) -> bool {
    if state.problem().class_count() != 2 || state.problem().student_count() != 1 {
        return false;
    }
    if state.begin().is_err() || state.section_fault(0, &[1, 0]).is_some() {
        return false;
    }
    if state.section_step(0, &[1, 0]).is_err() {
        return false;
    }
    let with = state.totals().unsectioned;
    if state.section_fault(0, &[1]) != Some(SectionFault::Invalid) {
        return false;
    }
    if state.section_step(0, &[]).is_err() {
        return false;
    }
    with == 0 && state.totals().unsectioned == 1 && state.mark_now() == 2
}

// Whether the second class takes the first one out, which is counted.
fn takes_out(state: &mut State) -> bool {
    assigns(state, 0, 1, Some(1))
        && forces(state, 1, 1, Some(1))
        && state.taken() == [0].as_slice()
        && state.score().plan() == [None, Some(FIRST)].as_slice()
        && count(state, FIRST) == 1
}

// Whether the first class is back when that is taken back, and nothing is counted.
fn gives_back(state: &mut State) -> bool {
    state.undo()
        && state.score().plan() == [Some(FIRST), None].as_slice()
        && count(state, FIRST) == 0
        && state.taken() == [0].as_slice()
}

#[test]
fn a_forced_class_takes_another_out_and_gives_it_back(rt: HostRuntime) -> Result<(), Fail> {
    let mut state = state_of(rt.alloc(), TEXT.as_bytes())?;
    let shown = [
        takes_out(&mut state),
        gives_back(&mut state),
        forces_in_a_step(&mut state),
        tries(&mut state),
    ];
    drop(state);
    assert_eq!(rt; shown, [true; 4]);
    Ok(())
}

// Whether the second class pushes out one class, once that has its place, and no more is looked for
// than is asked.
fn is_found_up_to_a_number(state: &mut State) -> bool {
    pushes_out_at_most(state, 0)
        && assigns(state, 0, 1, Some(1))
        && pushes_out_at_most(state, 1)
        && state.taken() == [0].as_slice()
        && !pushes_out_at_most(state, 0)
        && state.taken().len() == 0
}

#[test]
fn a_conflict_set_is_found_up_to_a_number_of_classes(rt: HostRuntime) -> Result<(), Fail> {
    let mut state = state_of(rt.alloc(), TEXT.as_bytes())?;
    let shown = is_found_up_to_a_number(&mut state);
    drop(state);
    assert!(rt; shown);
    Ok(())
}

#[test]
fn a_student_gets_a_list_within_a_step(rt: HostRuntime) -> Result<(), Fail> {
    let mut state = state_of(rt.alloc(), TEXT.as_bytes())?;
    let shown = sections_in_a_step(&mut state);
    drop(state);
    assert!(rt; shown);
    Ok(())
}
