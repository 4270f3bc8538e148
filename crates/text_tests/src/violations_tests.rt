//! Tests of the lines of `violations`.

use std::alloc::Global;
use std::test::Fail;
use test_help::{assigns, sections, state_of};
use tt_bits::{Days, Time, Weeks};
use tt_explain::violations;
use tt_state::State;
use tt_text::Reply;

// A course with one class, which needs no room.
const ONE: &str = r#"{"nrDays":1,"nrWeeks":1,"slotsPerDay":288,
    "optimization":{"time":2,"room":1,"distribution":1,"student":1},
    "courses":[{"id":1,"configs":[{"subparts":[{"classes":[{"id":1,"room":false,"times":[
        {"days":"1","start":10,"length":4,"weeks":"1","penalty":4}]}]}]}]}]}"#;

// Two classes in one room at one time, which share ten cells.
const TOGETHER: &str = r#"{"nrDays":5,"nrWeeks":5,"slotsPerDay":288,
    "optimization":{"time":1,"room":1,"distribution":1,"student":1},
    "rooms":[{"id":1}],
    "courses":[{"id":1,"configs":[{"subparts":[{"classes":[
        {"id":1,"rooms":[{"id":1,"penalty":0}],"times":[
            {"days":"11000","start":100,"length":12,"weeks":"11111","penalty":0}]},
        {"id":2,"rooms":[{"id":1,"penalty":0}],"times":[
            {"days":"11000","start":100,"length":12,"weeks":"11111","penalty":0}]}]}]}]}]}"#;

// A class with two rooms, of which the file closes one at its time.
const TWO_ROOMS: &str = r#"{"nrDays":1,"nrWeeks":1,"slotsPerDay":288,
    "optimization":{"time":1,"room":1,"distribution":1,"student":1},
    "rooms":[
        {"id":1,"unavailable":[{"days":"1","start":0,"length":50,"weeks":"1"}]},
        {"id":2}],
    "courses":[{"id":1,"configs":[{"subparts":[{"classes":[
        {"id":1,"rooms":[{"id":1,"penalty":0},{"id":2,"penalty":1}],"times":[
            {"days":"1","start":10,"length":4,"weeks":"1","penalty":0}]}]}]}]}]}"#;

// Two classes at one time that two required rules forbid, a student of their course, and one of
// none.
const RULES: &str = r#"{"nrDays":1,"nrWeeks":1,"slotsPerDay":288,
    "optimization":{"time":1,"room":1,"distribution":1,"student":1},
    "courses":[{"id":1,"configs":[{"subparts":[
        {"classes":[{"id":11,"room":false,"times":[
            {"days":"1","start":10,"length":4,"weeks":"1","penalty":0}]}]},
        {"classes":[{"id":12,"room":false,"times":[
            {"days":"1","start":10,"length":4,"weeks":"1","penalty":0}]}]}]}]}],
    "distributions":[
        {"type":"NotOverlap","required":true,"classes":[12,11]},
        {"type":"MaxDayLoad(6)","required":true,"classes":[11,12]}],
    "students":[{"id":5,"courses":[1]},{"id":6,"courses":[]}]}"#;

// Whether these are the lines on all that is wrong.
fn tells(alloc: Global, state: &State, want: &str) -> bool {
    let Ok(mut out) = Reply::new(alloc) else {
        return false;
    };
    violations(alloc, state, &mut out).is_ok() && out.bytes() == want.as_bytes()
}

// Whether a room is closed for one slot within the time of the class.
fn closes(state: &mut State, room: u32) -> Option<bool> {
    let days = Days::read("1", state.problem().nr_days())?;
    let weeks = Weeks::read("1", state.problem().nr_weeks())?;
    let time = Time::new(days, weeks, 12, 1)?;
    if room >= state.problem().room_count() {
        return None;
    }
    state.close(room, time).ok()
}

// Whether all closures of a room are lifted.
fn reopens(state: &mut State, room: u32) -> bool {
    room < state.problem().room_count() && state.reopen(room) == Ok(true)
}

#[test]
fn an_unplaced_class_is_missing(rt: HostRuntime) -> Result<(), Fail> {
    let mut state = state_of(rt.alloc(), ONE.as_bytes())?;
    assert!(rt; tells(rt.alloc(), &state, "class 1 missing\nviolations 1\n"));
    assert!(rt; assigns(&mut state, 0, 1, None));
    assert!(rt; tells(rt.alloc(), &state, "violations 0\n"));
    drop(state);
    Ok(())
}

#[test]
fn two_classes_that_clash_are_one_pair(rt: HostRuntime) -> Result<(), Fail> {
    let mut state = state_of(rt.alloc(), TOGETHER.as_bytes())?;
    assert!(rt; assigns(&mut state, 0, 1, Some(1)));
    assert!(rt; assigns(&mut state, 1, 1, Some(1)));
    assert!(rt; tells(rt.alloc(), &state, "clash 1 2\nviolations 1\n"));
    drop(state);
    Ok(())
}

#[test]
fn a_closure_counts_until_it_is_lifted(rt: HostRuntime) -> Result<(), Fail> {
    let mut state = state_of(rt.alloc(), TWO_ROOMS.as_bytes())?;
    assert!(rt; assigns(&mut state, 0, 1, Some(2)));
    assert!(rt; closes(&mut state, 1) == Some(true));
    assert!(rt; tells(rt.alloc(), &state, "closed 1\nviolations 1\n"));
    assert!(rt; reopens(&mut state, 1));
    assert!(rt; tells(rt.alloc(), &state, "violations 0\n"));
    drop(state);
    Ok(())
}

#[test]
fn students_and_rules_are_told_after_classes(rt: HostRuntime) -> Result<(), Fail> {
    let mut state = state_of(rt.alloc(), RULES.as_bytes())?;
    assert!(rt; assigns(&mut state, 0, 1, None));
    let lines = "class 12 missing\nstudent 5 invalid\nviolations 2\n";
    assert!(rt; tells(rt.alloc(), &state, lines));
    assert!(rt; assigns(&mut state, 1, 1, None));
    assert!(rt; sections(&mut state, 0, [0, 1]));
    let lines = "rule 1 pair 12 11\nrule 2 amount 2\nviolations 2\n";
    assert!(rt; tells(rt.alloc(), &state, lines));
    drop(state);
    Ok(())
}
