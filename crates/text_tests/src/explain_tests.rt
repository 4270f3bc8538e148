//! Tests of the lines of `explain`, `why` and `stats`.

use std::alloc::Global;
use std::test::Fail;
use test_help::{assigns, forces, sections, state_of, value};
use tt_explain::{explain, stats, why};
use tt_state::State;
use tt_text::Reply;

// A class with two rooms, of which one is unavailable at its time.
const TWO_ROOMS: &str = r#"{"nrDays":1,"nrWeeks":1,"slotsPerDay":288,
    "optimization":{"time":1,"room":1,"distribution":1,"student":1},
    "rooms":[
        {"id":1,"unavailable":[{"days":"1","start":0,"length":50,"weeks":"1"}]},
        {"id":2}],
    "courses":[{"id":1,"configs":[{"subparts":[{"classes":[
        {"id":1,"rooms":[{"id":1,"penalty":0},{"id":2,"penalty":1}],"times":[
            {"days":"1","start":10,"length":4,"weeks":"1","penalty":0}]}]}]}]}]}"#;

// Three classes on three days, a rule that allows two, and two rules that the first two break.
const THREE_DAYS: &str = r#"{"nrDays":3,"nrWeeks":1,"slotsPerDay":288,
    "optimization":{"time":1,"room":1,"distribution":1,"student":1},
    "courses":[{"id":1,"configs":[{"subparts":[{"classes":[
        {"id":1,"times":[{"days":"100","start":10,"length":4,"weeks":"1","penalty":0}]},
        {"id":2,"times":[{"days":"010","start":10,"length":4,"weeks":"1","penalty":0}]},
        {"id":3,"times":[{"days":"001","start":10,"length":4,"weeks":"1","penalty":0}]}]}]}]}],
    "distributions":[
        {"type":"MaxDays( 02 )","required":true,"classes":[1,2,3]},
        {"type":"SameDays","penalty":7,"classes":[1,2]},
        {"type":"DifferentTime","required":true,"classes":[2,1]}]}"#;

// Two classes of one course that want one room, and a student.
const ONE_ROOM: &str = r#"{"nrDays":1,"nrWeeks":1,"slotsPerDay":288,
    "optimization":{"time":1,"room":1,"distribution":1,"student":1},
    "rooms":[{"id":8}],
    "courses":[{"id":1,"configs":[{"subparts":[
        {"classes":[{"id":11,"rooms":[{"id":8,"penalty":0}],"times":[
            {"days":"1","start":10,"length":4,"weeks":"1","penalty":9}]}]},
        {"classes":[{"id":12,"rooms":[{"id":8,"penalty":0}],"times":[
            {"days":"1","start":10,"length":4,"weeks":"1","penalty":0},
            {"days":"1","start":11,"length":4,"weeks":"1","penalty":3}]}]}]}]}],
    "students":[{"id":5,"courses":[1]}]}"#;

// Whether these are the lines on a class.
fn explains(alloc: Global, state: &State, class: u32, want: &str) -> bool {
    if class >= state.problem().class_count() {
        return false;
    }
    let Ok(mut out) = Reply::new(alloc) else {
        return false;
    };
    explain(state, class, &mut out).is_ok() && out.bytes() == want.as_bytes()
}

// Whether these are the lines on a class at such a value.
fn says_why(
    alloc: Global,
    state: &mut State,
    class: u32,
    time: u32,
    room: Option<u32>,
    want: &str,
) -> bool {
    let Some(value) = value(state.problem(), class, time, room) else {
        return false;
    };
    let Ok(mut out) = Reply::new(alloc) else {
        return false;
    };
    why(state, class, value, &mut out).is_ok() && out.bytes() == want.as_bytes()
}

// Whether these are the lines on the counters of a class.
fn counts(alloc: Global, state: &State, class: u32, want: &str) -> bool {
    let Ok(mut out) = Reply::new(alloc) else {
        return false;
    };
    stats(state, class, &mut out).is_ok() && out.bytes() == want.as_bytes()
}

#[test]
fn a_closed_room_is_named(rt: HostRuntime) -> Result<(), Fail> {
    let alloc = rt.alloc();
    let mut state = state_of(alloc, TWO_ROOMS.as_bytes())?;
    assert!(rt; explains(alloc, &state, 0, "value none\nstudents 0 conflicts 0\n"));
    assert!(rt; says_why(alloc, &mut state, 0, 1, Some(1), "blocked closed\n"));
    assert!(rt; says_why(alloc, &mut state, 0, 1, Some(2), "trial 1\n"));
    assert!(rt; assigns(&mut state, 0, 1, Some(1)));
    let lines = "value 1 1\npenalty time 0 room 0\nclosed\nstudents 0 conflicts 0\n";
    assert!(rt; explains(alloc, &state, 0, lines));
    drop(state);
    Ok(())
}

#[test]
fn rules_are_named_where_they_are_broken(rt: HostRuntime) -> Result<(), Fail> {
    let alloc = rt.alloc();
    let mut state = state_of(alloc, THREE_DAYS.as_bytes())?;
    assert!(rt; assigns(&mut state, 0, 1, None));
    assert!(rt; assigns(&mut state, 1, 1, None));
    let lines = "value 1 -\npenalty time 0 room 0\nrule 2 SameDays amount 1 cost 7\n\
        rule 3 DifferentTime amount 1 required\nstudents 0 conflicts 0\n";
    assert!(rt; explains(alloc, &state, 0, lines));
    assert!(rt;
        says_why(
            alloc,
            &mut state,
            2,
            1,
            None,
            "out 1 1 - count 0\ntrial 7\n"
        )
    );
    assert!(rt; assigns(&mut state, 2, 1, None));
    let lines = "value 1 -\npenalty time 0 room 0\nrule 1 MaxDays(2) amount 1 required\n\
        students 0 conflicts 0\n";
    assert!(rt; explains(alloc, &state, 2, lines));
    drop(state);
    Ok(())
}

#[test]
fn classes_that_push_out_others_are_counted(rt: HostRuntime) -> Result<(), Fail> {
    let alloc = rt.alloc();
    let mut state = state_of(alloc, ONE_ROOM.as_bytes())?;
    assert!(rt; assigns(&mut state, 0, 1, Some(8)));
    assert!(rt; forces(&mut state, 1, 1, Some(8)));
    assert!(rt; forces(&mut state, 0, 1, Some(8)));
    assert!(rt; counts(alloc, &state, 1, "count 1 8 out 11 1 8 1\n"));
    assert!(rt;
        says_why(
            alloc,
            &mut state,
            1,
            1,
            Some(8),
            "out 11 1 8 count 1\ntrial 9\n"
        )
    );
    assert!(rt; sections(&mut state, 0, [0, 1]));
    assert!(rt; assigns(&mut state, 1, 2, Some(8)));
    let lines = "value 2 8\npenalty time 3 room 0\nclash 11\nstudents 1 conflicts 1\n";
    assert!(rt; explains(alloc, &state, 1, lines));
    drop(state);
    Ok(())
}
