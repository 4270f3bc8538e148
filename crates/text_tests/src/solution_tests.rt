//! Tests of published timetables and drafts.

use std::alloc::Global;
use std::test::Fail;
use test_help::{assigns, problem, sections, state_of, value};
use tt_problem::Problem;
use tt_published::{Published, moved};
use tt_solution::{read_published, write_published};
use tt_state::State;
use tt_text::Reply;

// A course with one class, which needs no room.
const ONE: &str = r#"{"nrDays":1,"nrWeeks":1,"slotsPerDay":288,
    "optimization":{"time":2,"room":1,"distribution":1,"student":1},
    "courses":[{"id":1,"configs":[{"id":1,"subparts":[{"id":1,"classes":[{"id":1,"room":false,
        "times":[{"days":"1","start":10,"length":4,"weeks":"1","penalty":4}]}]}]}]}]}"#;

// What is published of it, once the class is placed.
const LINE: &str = r#"{"classes":[{"days":"1","id":1,"start":10,"students":[],"weeks":"1"}]}"#;

// Two subparts, the classes of the second each with a parent in the first, and two students.
const PARENTS: &str = r#"{"nrDays":1,"nrWeeks":1,"slotsPerDay":288,
    "optimization":{"time":1,"room":1,"distribution":1,"student":1},
    "courses":[{"id":1,"configs":[{"subparts":[
        {"classes":[
            {"id":1,"limit":1,"times":[{"days":"1","start":10,"length":4,"weeks":"1","penalty":0}]},
            {"id":2,"times":[{"days":"1","start":10,"length":4,"weeks":"1","penalty":0}]}]},
        {"classes":[
            {"id":3,"parent":1,"times":[{"days":"1","start":10,"length":4,"weeks":"1","penalty":0}]},
            {"id":4,"parent":2,"times":[{"days":"1","start":10,"length":4,"weeks":"1","penalty":0}]}]}]}]}],
    "students":[{"id":1,"courses":[1]},{"id":2,"courses":[1]}]}"#;

// What is drafted of it, once each student has two classes and all but the second are placed.
const DRAFT: &str = concat!(
    r#"{"classes":[{"days":"1","id":1,"start":10,"students":[1],"weeks":"1"},"#,
    r#"{"days":"1","id":3,"start":10,"students":[1],"weeks":"1"},"#,
    r#"{"days":"1","id":4,"start":10,"students":[2],"weeks":"1"}]}"#,
);

// Two classes of the larger problem. The second is listed first, with a room that isn't the
// problem's, and names a student twice.
const TWO: &str = r#"{"classes":[
    {"id":"23","days":"11","start":16,"weeks":"11","room":9,"students":[32,{"id":31},"32"]},
    {"students":[31],"weeks":"10","start":4,"room":null,"days":"10","id":21}]}"#;

// How many classes of the state have moved from what its plan publishes, and from this file.
fn moves(alloc: Global, state: &State) -> Option<[u32; 2]> {
    let (problem, score) = (state.problem(), state.score());
    let own = Published::of(alloc, problem, score.plan(), score.roster()).ok()?;
    let read = read_published(alloc, problem, LINE.as_bytes()).ok()?;
    Some([
        moved(problem, score.plan(), &own),
        moved(problem, score.plan(), &read),
    ])
}

// Whether this is the line on what the state has placed.
fn writes(alloc: Global, state: &State, want: &str) -> bool {
    let Ok(mut out) = Reply::new(alloc) else {
        return false;
    };
    let (problem, score) = (state.problem(), state.score());
    write_published(alloc, problem, score.plan(), score.roster(), &mut out).is_ok()
        && out.bytes() == want.as_bytes()
}

// Whether the draft is read back: the second class has nothing, and each student the placed classes
// of the student's list.
fn reads_back(alloc: Global, problem: &Problem) -> bool {
    let Ok(drafted) = read_published(alloc, problem, DRAFT.as_bytes()) else {
        return false;
    };
    if problem.class_count() != 4 || problem.student_count() != 2 {
        return false;
    }
    let Some(value) = value(problem, 3, 1, None) else {
        return false;
    };
    !drafted.has(1)
        && drafted.same(problem, 3, value)
        && drafted.classes_of(0) == [0, 2].as_slice()
        && drafted.classes_of(1) == [3].as_slice()
}

// Whether the file with two classes is read: the first class meets at its second time but has no
// room, and each student has the classes that name him, in the problem's order.
fn reads(alloc: Global, problem: &Problem) -> bool {
    let Ok(published) = read_published(alloc, problem, TWO.as_bytes()) else {
        return false;
    };
    if problem.class_count() != 3 || problem.student_count() != 2 {
        return false;
    }
    let Some(value) = value(problem, 0, 2, Some(71)) else {
        return false;
    };
    published.has(0)
        && !published.has(1)
        && !published.same(problem, 0, value)
        && published.classes_of(0) == [0, 2].as_slice()
        && published.classes_of(1) == [2].as_slice()
}

#[test]
fn an_unplaced_published_class_has_moved(rt: HostRuntime) -> Result<(), Fail> {
    let mut state = state_of(rt.alloc(), ONE.as_bytes())?;
    assert!(rt; moves(rt.alloc(), &state) == Some([0, 1]));
    assert!(rt; assigns(&mut state, 0, 1, None));
    assert!(rt; moves(rt.alloc(), &state) == Some([0, 0]));
    drop(state);
    Ok(())
}

#[test]
fn the_line_is_published(rt: HostRuntime) -> Result<(), Fail> {
    let mut state = state_of(rt.alloc(), ONE.as_bytes())?;
    assert!(rt; assigns(&mut state, 0, 1, None));
    assert!(rt; writes(rt.alloc(), &state, LINE));
    drop(state);
    Ok(())
}

#[test]
fn the_placed_classes_are_drafted(rt: HostRuntime) -> Result<(), Fail> {
    let mut state = state_of(rt.alloc(), PARENTS.as_bytes())?;
    assert!(rt; writes(rt.alloc(), &state, r#"{"classes":[]}"#));
    assert!(rt; sections(&mut state, 0, [0, 2]));
    assert!(rt; sections(&mut state, 1, [1, 3]));
    assert!(rt; assigns(&mut state, 0, 1, None));
    assert!(rt; assigns(&mut state, 2, 1, None));
    assert!(rt; assigns(&mut state, 3, 1, None));
    assert!(rt; writes(rt.alloc(), &state, DRAFT));
    assert!(rt; reads_back(rt.alloc(), state.problem()));
    drop(state);
    Ok(())
}

#[test]
fn students_have_the_classes_that_name_them(rt: HostRuntime) -> Result<(), Fail> {
    let problem = problem(rt.alloc())?;
    assert!(rt; reads(rt.alloc(), &problem));
    drop(problem);
    Ok(())
}
