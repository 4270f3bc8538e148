//! Tests of the great deluge.

use crate::counting::Counting;
use std::alloc::Global;
use test_help::{assigns, state_of};
use tt_deluge::{Deluged, deluge};
use tt_state::State;
use tt_watch::{Progress, Silent};

// A class with two times, of which the second costs less.
const TWO_TIMES: &str = r#"{"nrDays":1,"nrWeeks":1,"slotsPerDay":288,
    "optimization":{"time":1,"room":1,"distribution":1,"student":1},
    "courses":[{"id":1,"configs":[{"subparts":[{"classes":[{"id":1,"room":false,"times":[
        {"days":"1","start":10,"length":4,"weeks":"1","penalty":5},
        {"days":"1","start":20,"length":4,"weeks":"1","penalty":1}]}]}]}]}]}"#;

// The total, the student conflicts and the number of unplaced classes.
fn totals(state: &State) -> (u128, u64, u32) {
    let totals = state.totals();
    (totals.total, totals.student, totals.unplaced)
}

// Whether all of some rounds are made, and so many changes lead to the end.
fn pours(alloc: Global, state: &mut State, rounds: u32, seed: u64, changed: u32) -> bool {
    deluge(alloc, state, rounds, seed, &mut Silent) == Ok(Deluged { rounds, changed })
}

// A class gets the value that is drawn, as one step.
#[test]
fn a_class_gets_a_lower_value(rt: HostRuntime) {
    let mut state = state_of(rt.alloc(), TWO_TIMES.as_bytes()).expect(&rt, "state");
    assert!(rt; assigns(&mut state, 0, 1, None));
    assert!(rt; pours(rt.alloc(), &mut state, 1, 1, 1));
    assert!(rt; totals(&state) == (1, 0, 0));
    assert!(rt; state.undo());
    assert!(rt; totals(&state) == (5, 0, 0));
    drop(state);
}

// The watcher is told of each round.
#[test]
fn a_deluge_tells_each_round(rt: HostRuntime) {
    let mut state = state_of(rt.alloc(), TWO_TIMES.as_bytes()).expect(&rt, "state");
    assert!(rt; assigns(&mut state, 0, 1, None));
    let mut watcher = Counting::new();
    let made = deluge(rt.alloc(), &mut state, 3, 1, &mut watcher);
    assert!(rt;
        made == Ok(Deluged {
            rounds: 3,
            changed: 1
        })
    );
    assert!(rt; watcher.times == 3);
    assert!(rt; watcher.last == Some(Progress::Rounds { made: 3, of: 3 }));
    drop(state);
}
