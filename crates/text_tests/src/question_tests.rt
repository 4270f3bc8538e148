//! Tests of the lines of `values`, `student`, `meets` and `costs`.

use std::alloc::Global;
use std::test::Fail;
use test_help::{assigns, forces, sections, state_of, value};
use tt_bits::{Days, Time, Weeks};
use tt_explain::{costs, meets, student, values, why};
use tt_state::State;
use tt_text::Reply;

// Two classes of one room, which the second can avoid.
const ONE_ROOM: &str = r#"{"nrDays":1,"nrWeeks":1,"slotsPerDay":288,
    "optimization":{"time":1,"room":1,"distribution":1,"student":1},
    "rooms":[{"id":1}],
    "courses":[{"id":1,"configs":[{"subparts":[{"classes":[
        {"id":1,"rooms":[{"id":1,"penalty":0}],"times":[
            {"days":"1","start":10,"length":4,"weeks":"1","penalty":0}]},
        {"id":2,"rooms":[{"id":1,"penalty":0}],"times":[
            {"days":"1","start":10,"length":4,"weeks":"1","penalty":5},
            {"days":"1","start":20,"length":4,"weeks":"1","penalty":1}]}]}]}]}]}"#;

// A class with two rooms, of which one is unavailable at its time.
const TWO_ROOMS: &str = r#"{"nrDays":1,"nrWeeks":1,"slotsPerDay":288,
    "optimization":{"time":1,"room":1,"distribution":1,"student":1},
    "rooms":[
        {"id":1,"unavailable":[{"days":"1","start":0,"length":50,"weeks":"1"}]},
        {"id":2}],
    "courses":[{"id":1,"configs":[{"subparts":[{"classes":[
        {"id":1,"rooms":[{"id":1,"penalty":0},{"id":2,"penalty":1}],"times":[
            {"days":"1","start":10,"length":4,"weeks":"1","penalty":0}]}]}]}]}]}"#;

// Two courses with two classes each, all at the same two times, and a student of both.
const TWO_COURSES: &str = r#"{"nrDays":1,"nrWeeks":1,"slotsPerDay":288,
    "optimization":{"time":1,"room":1,"distribution":1,"student":1},
    "courses":[
        {"id":1,"configs":[{"subparts":[{"classes":[
            {"id":1,"room":false,"times":[
                {"days":"1","start":10,"length":4,"weeks":"1","penalty":0},
                {"days":"1","start":20,"length":4,"weeks":"1","penalty":0}]},
            {"id":2,"room":false,"times":[
                {"days":"1","start":10,"length":4,"weeks":"1","penalty":0},
                {"days":"1","start":20,"length":4,"weeks":"1","penalty":0}]}]}]}]},
        {"id":2,"configs":[{"subparts":[{"classes":[
            {"id":3,"room":false,"times":[
                {"days":"1","start":10,"length":4,"weeks":"1","penalty":0},
                {"days":"1","start":20,"length":4,"weeks":"1","penalty":0}]},
            {"id":4,"room":false,"times":[
                {"days":"1","start":10,"length":4,"weeks":"1","penalty":0},
                {"days":"1","start":20,"length":4,"weeks":"1","penalty":0}]}]}]}]}],
    "students":[{"id":1,"courses":[1,2]}]}"#;

// Two classes on two days; a soft rule that they break, one that they keep, and a required one that
// they break.
const RULES: &str = r#"{"nrDays":2,"nrWeeks":1,"slotsPerDay":288,
    "optimization":{"time":2,"room":1,"distribution":3,"student":1},
    "courses":[{"id":1,"configs":[{"subparts":[{"classes":[
        {"id":1,"room":false,"times":[
            {"days":"10","start":10,"length":4,"weeks":"1","penalty":4}]},
        {"id":2,"room":false,"times":[
            {"days":"01","start":10,"length":4,"weeks":"1","penalty":0}]}]}]}]}],
    "distributions":[
        {"type":"SameDays","required":true,"classes":[1,2]},
        {"type":"SameDays","penalty":7,"classes":[1,2]},
        {"type":"SameTime","penalty":9,"classes":[1,2]}]}"#;

// Whether these are the lines on each value of a class.
fn prices(alloc: Global, state: &mut State, class: u32, want: &str) -> bool {
    if class >= state.problem().class_count() {
        return false;
    }
    let Ok(mut out) = Reply::new(alloc) else {
        return false;
    };
    values(state, class, &mut out).is_ok() && out.bytes() == want.as_bytes()
}

// Whether these are the lines on a class at its first time in the room with an id.
fn says_why(alloc: Global, state: &mut State, class: u32, room: u32, want: &str) -> bool {
    let Some(value) = value(state.problem(), class, 1, Some(room)) else {
        return false;
    };
    let Ok(mut out) = Reply::new(alloc) else {
        return false;
    };
    why(state, class, value, &mut out).is_ok() && out.bytes() == want.as_bytes()
}

// Whether these are the lines on a student.
fn attends(alloc: Global, state: &State, who: u32, want: &str) -> bool {
    if who >= state.problem().student_count() {
        return false;
    }
    let Ok(mut out) = Reply::new(alloc) else {
        return false;
    };
    student(state, who, &mut out).is_ok() && out.bytes() == want.as_bytes()
}

// Whether these are the lines on the classes that a class's students can't attend beside it.
fn meets_these(alloc: Global, state: &State, class: u32, want: &str) -> bool {
    let Ok(mut out) = Reply::new(alloc) else {
        return false;
    };
    meets(alloc, state, class, &mut out).is_ok() && out.bytes() == want.as_bytes()
}

// Whether these are the lines on where the total comes from.
fn costs_these(alloc: Global, state: &State, want: &str) -> bool {
    let Ok(mut out) = Reply::new(alloc) else {
        return false;
    };
    costs(alloc, state, &mut out).is_ok() && out.bytes() == want.as_bytes()
}

// Whether a room is closed for one slot within the time of the class.
fn closes(state: &mut State, room: u32) -> Option<bool> {
    let days = Days::read("1", state.problem().nr_days())?;
    let weeks = Weeks::read("1", state.problem().nr_weeks())?;
    let time = Time::new(days, weeks, 12, 1)?;
    if room >= state.problem().room_count() {
        return None;
    }
    state.close(room, time).ok()
}

#[test]
fn each_value_has_its_price(rt: HostRuntime) -> Result<(), Fail> {
    let alloc = rt.alloc();
    let mut state = state_of(alloc, ONE_ROOM.as_bytes())?;
    assert!(rt; assigns(&mut state, 1, 1, Some(1)));
    assert!(rt; prices(alloc, &mut state, 0, "value 1 1 out 1 weight 1 trial 5\n"));
    let lines = "value 1 1 out 0 weight 0 trial 5\nvalue 2 1 out 0 weight 0 trial 1\n";
    assert!(rt; prices(alloc, &mut state, 1, lines));
    assert!(rt; forces(&mut state, 0, 1, Some(1)));
    assert!(rt; assigns(&mut state, 1, 1, Some(1)));
    assert!(rt; prices(alloc, &mut state, 0, "value 1 1 out 1 weight 2 trial 5\n"));
    drop(state);
    Ok(())
}

#[test]
fn a_locked_class_holds_its_value(rt: HostRuntime) -> Result<(), Fail> {
    let alloc = rt.alloc();
    let mut state = state_of(alloc, ONE_ROOM.as_bytes())?;
    assert!(rt; assigns(&mut state, 1, 1, Some(1)));
    assert!(rt; state.lock(1) == Ok(None));
    assert!(rt; prices(alloc, &mut state, 0, "value 1 1 locked 2\n"));
    assert!(rt; says_why(alloc, &mut state, 0, 1, "blocked locked 2\n"));
    assert!(rt; state.unlock(1) == Ok(true));
    assert!(rt; says_why(alloc, &mut state, 0, 1, "out 2 1 1 count 0\ntrial 5\n"));
    drop(state);
    Ok(())
}

#[test]
fn a_closed_room_has_no_price(rt: HostRuntime) -> Result<(), Fail> {
    let alloc = rt.alloc();
    let mut state = state_of(alloc, TWO_ROOMS.as_bytes())?;
    let lines = "value 1 1 closed\nvalue 1 2 out 0 weight 0 trial 1\n";
    assert!(rt; prices(alloc, &mut state, 0, lines));
    assert!(rt; closes(&mut state, 1) == Some(true));
    assert!(rt; prices(alloc, &mut state, 0, "value 1 1 closed\nvalue 1 2 closed\n"));
    drop(state);
    Ok(())
}

#[test]
fn a_pair_is_told_of_student_and_classes(rt: HostRuntime) -> Result<(), Fail> {
    let alloc = rt.alloc();
    let mut state = state_of(alloc, TWO_COURSES.as_bytes())?;
    assert!(rt; assigns(&mut state, 0, 1, None));
    assert!(rt; assigns(&mut state, 2, 1, None));
    assert!(rt; meets_these(alloc, &state, 0, ""));
    assert!(rt; sections(&mut state, 0, [0, 2]));
    assert!(rt; attends(alloc, &state, 0, "class 1\nclass 3\npair 1 3\n"));
    assert!(rt; meets_these(alloc, &state, 0, "meets 3 1\n"));
    assert!(rt; meets_these(alloc, &state, 1, ""));
    let lines = "class 1 time 0 room 0 conflicts 1\nclass 3 time 0 room 0 conflicts 1\n";
    assert!(rt; costs_these(alloc, &state, lines));
    assert!(rt; assigns(&mut state, 2, 2, None));
    assert!(rt; attends(alloc, &state, 0, "class 1\nclass 3\n"));
    assert!(rt; costs_these(alloc, &state, ""));
    drop(state);
    Ok(())
}

#[test]
fn soft_rules_and_penalties_cost(rt: HostRuntime) -> Result<(), Fail> {
    let alloc = rt.alloc();
    let mut state = state_of(alloc, RULES.as_bytes())?;
    assert!(rt; costs_these(alloc, &state, ""));
    assert!(rt; assigns(&mut state, 0, 1, None));
    assert!(rt; costs_these(alloc, &state, "class 1 time 4 room 0 conflicts 0\n"));
    assert!(rt; assigns(&mut state, 1, 1, None));
    let lines = "rule 2 SameDays amount 1 cost 7\nclass 1 time 4 room 0 conflicts 0\n";
    assert!(rt; costs_these(alloc, &state, lines));
    drop(state);
    Ok(())
}
