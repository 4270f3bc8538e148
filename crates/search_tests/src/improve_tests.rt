//! Tests of descent.

use crate::counting::Counting;
use std::alloc::Global;
use test_help::{assigns, sections, state_of};
use tt_improve::{Improved, improve};
use tt_state::State;
use tt_watch::{Progress, Silent};

// A class with two times, of which the second costs less.
const TWO_TIMES: &str = r#"{"nrDays":1,"nrWeeks":1,"slotsPerDay":288,
    "optimization":{"time":1,"room":1,"distribution":1,"student":1},
    "courses":[{"id":1,"configs":[{"subparts":[{"classes":[{"id":1,"room":false,"times":[
        {"days":"1","start":10,"length":4,"weeks":"1","penalty":5},
        {"days":"1","start":20,"length":4,"weeks":"1","penalty":1}]}]}]}]}]}"#;

// Two courses of two classes, each with the same two times, and two students, the first of both courses.
const TWO_COURSES: &str = r#"{"nrDays":1,"nrWeeks":1,"slotsPerDay":288,
    "optimization":{"time":1,"room":1,"distribution":1,"student":1},
    "courses":[
        {"id":1,"configs":[{"subparts":[{"classes":[
            {"id":1,"room":false,"times":[{"days":"1","start":10,"length":4,"weeks":"1","penalty":0},{"days":"1","start":20,"length":4,"weeks":"1","penalty":0}]},
            {"id":2,"room":false,"limit":1,"times":[{"days":"1","start":10,"length":4,"weeks":"1","penalty":0},{"days":"1","start":20,"length":4,"weeks":"1","penalty":0}]}]}]}]},
        {"id":2,"configs":[{"subparts":[{"classes":[
            {"id":3,"room":false,"times":[{"days":"1","start":10,"length":4,"weeks":"1","penalty":0},{"days":"1","start":20,"length":4,"weeks":"1","penalty":0}]},
            {"id":4,"room":false,"limit":1,"times":[{"days":"1","start":10,"length":4,"weeks":"1","penalty":0},{"days":"1","start":20,"length":4,"weeks":"1","penalty":0}]}]}]}]}],
    "students":[{"id":1,"courses":[1,2]},{"id":2,"courses":[1,2]}]}"#;

// A class of the first course is the parent of the class of the second, which overlaps it.
const PARENT: &str = r#"{"nrDays":1,"nrWeeks":1,"slotsPerDay":288,
    "optimization":{"time":1,"room":1,"distribution":1,"student":1},
    "courses":[
        {"id":1,"configs":[{"subparts":[{"classes":[
            {"id":1,"room":false,"times":[{"days":"1","start":10,"length":4,"weeks":"1","penalty":0}]},
            {"id":2,"room":false,"times":[{"days":"1","start":20,"length":4,"weeks":"1","penalty":0}]}]}]}]},
        {"id":2,"configs":[{"subparts":[{"classes":[
            {"id":3,"room":false,"parent":1,"times":[{"days":"1","start":10,"length":4,"weeks":"1","penalty":0}]}]}]}]}],
    "students":[{"id":1,"courses":[1,2]}]}"#;

// Two classes of one room with two times each. The second time of the first is the first of the second.
const ONE_ROOM: &str = r#"{"nrDays":1,"nrWeeks":1,"slotsPerDay":288,
    "optimization":{"time":1,"room":1,"distribution":1,"student":1},
    "rooms":[{"id":1}],
    "courses":[{"id":1,"configs":[{"subparts":[{"classes":[
        {"id":1,"rooms":[{"id":1,"penalty":0}],"times":[
            {"days":"1","start":10,"length":4,"weeks":"1","penalty":5},
            {"days":"1","start":20,"length":4,"weeks":"1","penalty":1}]},
        {"id":2,"rooms":[{"id":1,"penalty":0}],"times":[
            {"days":"1","start":20,"length":4,"weeks":"1","penalty":2},
            {"days":"1","start":30,"length":4,"weeks":"1","penalty":0}]}]}]}]}]}"#;

// The first student's class of the first course overlaps the one of the second, and its other class is
// full until the second student leaves it for the first, since it overlaps the one of the third course.
const A_SEAT: &str = r#"{"nrDays":1,"nrWeeks":1,"slotsPerDay":288,
    "optimization":{"time":1,"room":1,"distribution":1,"student":1},
    "courses":[
        {"id":1,"configs":[{"subparts":[{"classes":[
            {"id":1,"room":false,"times":[{"days":"1","start":10,"length":4,"weeks":"1","penalty":0}]},
            {"id":2,"room":false,"limit":1,"times":[{"days":"1","start":20,"length":4,"weeks":"1","penalty":0}]}]}]}]},
        {"id":2,"configs":[{"subparts":[{"classes":[
            {"id":3,"room":false,"times":[{"days":"1","start":10,"length":4,"weeks":"1","penalty":0}]}]}]}]},
        {"id":3,"configs":[{"subparts":[{"classes":[
            {"id":4,"room":false,"times":[{"days":"1","start":20,"length":4,"weeks":"1","penalty":0}]}]}]}]}],
    "students":[{"id":1,"courses":[1,2]},{"id":2,"courses":[1,3]}]}"#;

// The class of the second course moves to a time that costs less and overlaps the student's class of
// the first, whose other class is free then.
const A_MOVE: &str = r#"{"nrDays":1,"nrWeeks":1,"slotsPerDay":288,
    "optimization":{"time":1,"room":1,"distribution":1,"student":1},
    "courses":[
        {"id":1,"configs":[{"subparts":[{"classes":[
            {"id":1,"room":false,"times":[{"days":"1","start":10,"length":4,"weeks":"1","penalty":0}]},
            {"id":2,"room":false,"times":[{"days":"1","start":20,"length":4,"weeks":"1","penalty":0}]}]}]}]},
        {"id":2,"configs":[{"subparts":[{"classes":[
            {"id":3,"room":false,"times":[
                {"days":"1","start":30,"length":4,"weeks":"1","penalty":5},
                {"days":"1","start":10,"length":4,"weeks":"1","penalty":0}]}]}]}]}],
    "students":[{"id":1,"courses":[1,2]}]}"#;

// The total, the student conflicts and the number of unplaced classes.
fn totals(state: &State) -> (u128, u64, u32) {
    let totals = state.totals();
    (totals.total, totals.student, totals.unplaced)
}

// Whether so many of some rounds change something.
fn changes(alloc: Global, state: &mut State, rounds: u32, seed: u64, changed: u32) -> bool {
    improve(alloc, state, rounds, seed, &mut Silent) == Ok(Improved { rounds, changed })
}

// Whether the rounds stop at once, as where there is no object.
fn makes_no_round(alloc: Global, state: &mut State) -> bool {
    improve(alloc, state, 5, 1, &mut Silent)
        == Ok(Improved {
            rounds: 0,
            changed: 0,
        })
}

// Whether the second and the fourth class have a student each.
fn seats_one_each(state: &State) -> bool {
    state.score().roster().count(1) == 1 && state.score().roster().count(3) == 1
}

// The first of the rounds gives the class its least value, and no later one changes it. The last two
// steps are taken back one by one.
#[test]
fn a_class_gets_the_least_value(rt: HostRuntime) {
    let mut state = state_of(rt.alloc(), TWO_TIMES.as_bytes()).expect(&rt, "state");
    assert!(rt; assigns(&mut state, 0, 1, None));
    assert!(rt; totals(&state) == (5, 0, 0));
    assert!(rt; changes(rt.alloc(), &mut state, 1, 1, 1));
    assert!(rt; totals(&state) == (1, 0, 0));
    assert!(rt; changes(rt.alloc(), &mut state, 3, 1, 0));
    assert!(rt; totals(&state) == (1, 0, 0));
    assert!(rt; state.undo());
    assert!(rt; totals(&state) == (1, 0, 0));
    assert!(rt; state.undo());
    assert!(rt; totals(&state) == (5, 0, 0));
    drop(state);
}

// The watcher is told of each round, also of those that are left out.
#[test]
fn a_descent_tells_each_round(rt: HostRuntime) {
    let mut state = state_of(rt.alloc(), TWO_TIMES.as_bytes()).expect(&rt, "state");
    assert!(rt; assigns(&mut state, 0, 1, None));
    let mut watcher = Counting::new();
    let made = improve(rt.alloc(), &mut state, 3, 1, &mut watcher);
    assert!(rt;
        made == Ok(Improved {
            rounds: 3,
            changed: 1
        })
    );
    assert!(rt; watcher.times == 3);
    assert!(rt; watcher.last == Some(Progress::Rounds { made: 3, of: 3 }));
    drop(state);
}

// The first class can't move before the second has. So where it is drawn first, it is looked at again
// after the second has moved.
#[test]
fn after_a_change_each_object_is_looked_at_again(rt: HostRuntime) {
    for seed in 0..12 {
        let mut state = state_of(rt.alloc(), ONE_ROOM.as_bytes()).expect(&rt, "state");
        assert!(rt; assigns(&mut state, 0, 1, Some(1)));
        assert!(rt; assigns(&mut state, 1, 1, Some(1)));
        assert!(rt; totals(&state) == (7, 0, 0));
        assert!(rt; changes(rt.alloc(), &mut state, 40, seed, 2), "seed {seed}");
        assert!(rt; totals(&state) == (1, 0, 0), "seed {seed}");
        drop(state);
    }
}

// Rounds without an object are a step nonetheless.
#[test]
fn without_an_object_no_round_is_made(rt: HostRuntime) {
    let mut state = state_of(rt.alloc(), TWO_TIMES.as_bytes()).expect(&rt, "state");
    assert!(rt; makes_no_round(rt.alloc(), &mut state));
    assert!(rt; totals(&state) == (0, 0, 1));
    assert!(rt; state.undo());
    assert!(rt; !state.undo());
    drop(state);
}

// A locked class is no object.
#[test]
fn a_descent_leaves_a_locked_class(rt: HostRuntime) {
    let mut state = state_of(rt.alloc(), TWO_TIMES.as_bytes()).expect(&rt, "state");
    assert!(rt; assigns(&mut state, 0, 1, None));
    assert!(rt; state.lock(0) == Ok(None));
    assert!(rt; makes_no_round(rt.alloc(), &mut state));
    assert!(rt; totals(&state) == (5, 0, 0));
    drop(state);
}

#[test]
fn one_round_ends_a_conflict_whichever_object_is_drawn(rt: HostRuntime) {
    for seed in 0..12 {
        let mut state = state_of(rt.alloc(), TWO_COURSES.as_bytes()).expect(&rt, "state");
        assert!(rt; assigns(&mut state, 0, 1, None));
        assert!(rt; assigns(&mut state, 2, 1, None));
        assert!(rt; sections(&mut state, 0, [0, 2]));
        assert!(rt; totals(&state) == (1, 1, 2));
        assert!(rt; changes(rt.alloc(), &mut state, 1, seed, 1), "seed {seed}");
        assert!(rt; totals(&state) == (0, 0, 2), "seed {seed}");
        drop(state);
    }
}

// The classes alone end the conflict where there is no other seat for the first student.
#[test]
fn a_choice_needs_a_seat(rt: HostRuntime) {
    for seed in 0..12 {
        let mut state = state_of(rt.alloc(), TWO_COURSES.as_bytes()).expect(&rt, "state");
        assert!(rt; sections(&mut state, 1, [1, 3]));
        assert!(rt; sections(&mut state, 0, [0, 2]));
        assert!(rt; assigns(&mut state, 0, 1, None));
        assert!(rt; assigns(&mut state, 2, 1, None));
        assert!(rt; changes(rt.alloc(), &mut state, 20, seed, 1), "seed {seed}");
        assert!(rt; totals(&state) == (0, 0, 2), "seed {seed}");
        assert!(rt; seats_one_each(&state), "seed {seed}");
        drop(state);
    }
}

// A class stays that is the parent of one of another course.
#[test]
fn a_choice_keeps_the_parents_of_the_rest(rt: HostRuntime) {
    for seed in 0..12 {
        let mut state = state_of(rt.alloc(), PARENT.as_bytes()).expect(&rt, "state");
        for class in 0..3 {
            assert!(rt; assigns(&mut state, class, 1, None));
        }
        assert!(rt; sections(&mut state, 0, [0, 2]));
        assert!(rt; changes(rt.alloc(), &mut state, 20, seed, 0), "seed {seed}");
        assert!(rt; totals(&state) == (1, 1, 0), "seed {seed}");
        drop(state);
    }
}

// A course of a student is looked at again once another student has left a seat of it.
#[test]
fn a_seat_that_becomes_free_is_taken(rt: HostRuntime) {
    for seed in 0..12 {
        let mut state = state_of(rt.alloc(), A_SEAT.as_bytes()).expect(&rt, "state");
        for class in 0..4 {
            assert!(rt; assigns(&mut state, class, 1, None));
        }
        assert!(rt; sections(&mut state, 0, [0, 2]));
        assert!(rt; sections(&mut state, 1, [1, 3]));
        assert!(rt; totals(&state) == (2, 2, 0));
        assert!(rt; changes(rt.alloc(), &mut state, 60, seed, 2), "seed {seed}");
        assert!(rt; totals(&state) == (0, 0, 0), "seed {seed}");
        drop(state);
    }
}

// A course of a student is looked at again once a class of the student's has moved.
#[test]
fn a_student_gives_way_to_a_class_that_moved(rt: HostRuntime) {
    for seed in 0..12 {
        let mut state = state_of(rt.alloc(), A_MOVE.as_bytes()).expect(&rt, "state");
        for class in 0..3 {
            assert!(rt; assigns(&mut state, class, 1, None));
        }
        assert!(rt; sections(&mut state, 0, [0, 2]));
        assert!(rt; totals(&state) == (5, 0, 0));
        assert!(rt; changes(rt.alloc(), &mut state, 60, seed, 2), "seed {seed}");
        assert!(rt; totals(&state) == (0, 0, 0), "seed {seed}");
        drop(state);
    }
}
