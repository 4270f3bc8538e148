//! Tests of search, repair, `place` and `recall`.

ghost use Rattle.std.specs.Prelude.{◌≡◌, IfOk};
ghost use Rattle.tt_published.specs.Timetable.{IsTimetableOf};

use crate::counting::Counting;
use std::alloc::Global;
use test_help::{assigns, forces, small_problem, state_of};
use tt_fields::FileFault;
use tt_problem::Problem;
use tt_published::Published;
use tt_read::read;
use tt_search::{place, recall, repair, search};
use tt_solution::read_published;
use tt_state::State;
use tt_watch::{Progress, Silent};

// A class with two times, the first without a penalty, and a student of its course.
const TWO_TIMES: &str = r#"{"nrDays":1,"nrWeeks":1,"slotsPerDay":288,
    "optimization":{"time":1,"room":1,"distribution":1,"student":1},
    "courses":[{"id":1,"configs":[{"subparts":[{"classes":[{"id":1,"room":false,"times":[
        {"days":"1","start":10,"length":4,"weeks":"1","penalty":0},
        {"days":"1","start":20,"length":4,"weeks":"1","penalty":5}]}]}]}]}],
    "students":[{"id":7,"courses":[1]}]}"#;

// That class, published at the second time with that student.
const SECOND_TIME: &str =
    r#"{"classes":[{"id":1,"days":"1","start":20,"weeks":"1","students":[7]}]}"#;

// Two classes that can't be at once in their one room, of which the second has two times.
const ONE_ROOM: &str = r#"{"nrDays":1,"nrWeeks":1,"slotsPerDay":288,
    "optimization":{"time":1,"room":1,"distribution":1,"student":1},
    "rooms":[{"id":1}],
    "courses":[{"id":1,"configs":[{"subparts":[{"classes":[
        {"id":1,"rooms":[{"id":1,"penalty":0}],"times":[
            {"days":"1","start":10,"length":4,"weeks":"1","penalty":9}]},
        {"id":2,"rooms":[{"id":1,"penalty":0}],"times":[
            {"days":"1","start":10,"length":4,"weeks":"1","penalty":0},
            {"days":"1","start":11,"length":4,"weeks":"1","penalty":3}]}]}]}]}]}"#;

// A class with one time, which has a penalty, and no room.
const ONE_TIME: &str = r#"{"nrDays":1,"nrWeeks":1,"slotsPerDay":288,
    "optimization":{"time":2,"room":1,"distribution":1,"student":1},
    "courses":[{"id":1,"configs":[{"subparts":[{"classes":[{"id":1,"room":false,"times":[
        {"days":"1","start":10,"length":4,"weeks":"1","penalty":4}]}]}]}]}]}"#;

// Two classes of which only one can be placed, in their one room at their one time.
const ONE_OF_TWO: &str = r#"{"nrDays":5,"nrWeeks":5,"slotsPerDay":288,
    "optimization":{"time":1,"room":1,"distribution":1,"student":1},
    "rooms":[{"id":1}],
    "courses":[{"id":1,"configs":[{"subparts":[{"classes":[
        {"id":1,"rooms":[{"id":1,"penalty":0}],"times":[
            {"days":"11000","start":100,"length":12,"weeks":"11111","penalty":0}]},
        {"id":2,"rooms":[{"id":1,"penalty":0}],"times":[
            {"days":"11000","start":100,"length":12,"weeks":"11111","penalty":0}]}]}]}]}]}"#;

// The state with nothing placed of the problem with one class that needs no room.
fn new_state(alloc: Global) -> Result<State, FileFault> {
    let problem = small_problem(alloc)?;
    Ok(State::start(alloc, problem)?)
}

// The timetable that is published for a problem.
fn published(alloc: Global, problem: &Problem) -> Result<Published, FileFault>
    ensures { IfOk result (λ t. IsTimetableOf problem.now t) }
{
    read_published(alloc, problem, SECOND_TIME.as_bytes())
}

// Whether a class becomes locked, as one step.
fn locks(state: &mut State, class: u32) -> bool
    ensures { state.new.problem ≡ state.old.problem }
{
    state.lock(class) == Ok(None)
}

// Whether the state returns to what is published.
fn recalls(alloc: Global, state: &mut State, published: &Published) -> bool
    requires { IsTimetableOf state.old.problem published.now }
    ensures { state.new.problem ≡ state.old.problem }
{
    recall(alloc, state, published) == Ok(())
}

// The total and the number of unplaced classes.
fn totals(state: &State) -> (u128, u32) {
    let totals = state.totals();
    (totals.total, totals.unplaced)
}

#[test]
fn a_search_of_no_turn_changes_nothing(rt: HostRuntime) {
    let mut state = new_state(rt.alloc()).expect(&rt, "state");
    assert!(rt; search(rt.alloc(), &mut state, 0, 5, &mut Silent) == Ok(0));
    assert!(rt; totals(&state) == (0, 1));
    drop(state);
}

#[test]
fn a_search_counts_what_was_pushed_out(rt: HostRuntime) {
    let mut state = state_of(rt.alloc(), ONE_ROOM.as_bytes()).expect(&rt, "state");
    assert!(rt; assigns(&mut state, 0, 1, Some(1)));
    assert!(rt; forces(&mut state, 1, 1, Some(1)));
    assert!(rt; forces(&mut state, 0, 1, Some(1)));
    assert!(rt; totals(&state) == (9, 1));
    assert!(rt; search(rt.alloc(), &mut state, 1, 1, &mut Silent) == Ok(1));
    assert!(rt; totals(&state) == (3, 1));
    drop(state);
}

#[test]
fn a_search_tells_each_turn(rt: HostRuntime) {
    let mut state = state_of(rt.alloc(), ONE_ROOM.as_bytes()).expect(&rt, "state");
    let mut watcher = Counting::new();
    assert!(rt; search(rt.alloc(), &mut state, 5, 1, &mut watcher) == Ok(5));
    let last = Progress::Turns {
        made: 5,
        of: 5,
        unplaced: 1,
    };
    assert!(rt; watcher.times == 5);
    assert!(rt; watcher.last == Some(last));
    drop(state);
}

#[test]
fn a_search_takes_the_least_total(rt: HostRuntime) {
    let mut state = state_of(rt.alloc(), TWO_TIMES.as_bytes()).expect(&rt, "state");
    assert!(rt; search(rt.alloc(), &mut state, 1, 1, &mut Silent) == Ok(1));
    assert!(rt; totals(&state) == (0, 0));
    drop(state);
}

#[test]
fn a_repair_keeps_to_what_is_published(rt: HostRuntime) {
    let problem = read(rt.alloc(), TWO_TIMES.as_bytes()).expect(&rt, "problem");
    let published = published(rt.alloc(), &problem).expect(&rt, "published");
    let mut state = State::start(rt.alloc(), problem).expect(&rt, "memory");
    assert!(rt; repair(rt.alloc(), &mut state, &published, 1, 1, &mut Silent) == Ok(1));
    assert!(rt; totals(&state) == (5, 0));
    drop(state);
    drop(published);
}

#[test]
fn what_is_published_is_recalled(rt: HostRuntime) {
    let problem = read(rt.alloc(), TWO_TIMES.as_bytes()).expect(&rt, "problem");
    let published = published(rt.alloc(), &problem).expect(&rt, "published");
    let mut state = State::start(rt.alloc(), problem).expect(&rt, "memory");
    assert!(rt; recall(rt.alloc(), &mut state, &published) == Ok(()));
    assert!(rt; totals(&state) == (5, 0));
    assert!(rt; state.totals().unsectioned == 0);
    drop(state);
    drop(published);
}

#[test]
fn a_recalled_class_loses_its_lock_where_it_moves(rt: HostRuntime) {
    let problem = read(rt.alloc(), TWO_TIMES.as_bytes()).expect(&rt, "problem");
    let published = published(rt.alloc(), &problem).expect(&rt, "published");
    let mut state = State::start(rt.alloc(), problem).expect(&rt, "memory");
    assert!(rt; assigns(&mut state, 0, 2, None));
    assert!(rt; locks(&mut state, 0));
    assert!(rt; recalls(rt.alloc(), &mut state, &published));
    assert!(rt; state.is_locked(0));
    assert!(rt; assigns(&mut state, 0, 1, None));
    assert!(rt; state.is_locked(0));
    assert!(rt; recalls(rt.alloc(), &mut state, &published));
    assert!(rt; totals(&state) == (5, 0));
    assert!(rt; !state.is_locked(0));
    assert!(rt; state.undo());
    assert!(rt; state.is_locked(0));
    drop(state);
    drop(published);
}

#[test]
fn a_search_pushes_no_locked_class_out(rt: HostRuntime) {
    let mut state = state_of(rt.alloc(), ONE_ROOM.as_bytes()).expect(&rt, "state");
    assert!(rt; assigns(&mut state, 0, 1, Some(1)));
    assert!(rt; locks(&mut state, 0));
    let mut watcher = Counting::new();
    assert!(rt; search(rt.alloc(), &mut state, 5, 1, &mut watcher) == Ok(5));
    assert!(rt; watcher.times == 5);
    assert!(rt; totals(&state) == (9, 1));
    assert!(rt; state.is_locked(0));
    drop(state);
}

#[test]
fn a_class_is_placed_by_turns_that_learn(rt: HostRuntime) {
    let mut state = state_of(rt.alloc(), ONE_TIME.as_bytes()).expect(&rt, "state");
    assert!(rt; place(rt.alloc(), &mut state, 5, 1, &mut Silent) == Ok(1));
    assert!(rt; totals(&state) == (8, 0));
    drop(state);
}

#[test]
fn turns_that_learn_are_told_and_undone(rt: HostRuntime) {
    let mut state = state_of(rt.alloc(), ONE_OF_TWO.as_bytes()).expect(&rt, "state");
    let mut watcher = Counting::new();
    assert!(rt; place(rt.alloc(), &mut state, 3, 1, &mut watcher) == Ok(3));
    let last = Progress::Turns {
        made: 3,
        of: 3,
        unplaced: 1,
    };
    assert!(rt; watcher.times == 3);
    assert!(rt; watcher.last == Some(last));
    assert!(rt; totals(&state) == (0, 1));
    assert!(rt; state.undo());
    assert!(rt; totals(&state) == (0, 2));
    drop(state);
}

#[test]
fn turns_that_learn_push_no_locked_class_out(rt: HostRuntime) {
    let mut state = state_of(rt.alloc(), ONE_OF_TWO.as_bytes()).expect(&rt, "state");
    assert!(rt; assigns(&mut state, 0, 1, Some(1)));
    assert!(rt; locks(&mut state, 0));
    assert!(rt; place(rt.alloc(), &mut state, 5, 1, &mut Silent) == Ok(5));
    assert!(rt; totals(&state) == (0, 1));
    assert!(rt; state.is_locked(0));
    drop(state);
}
