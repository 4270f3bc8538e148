//! Tests of the least enrolment.

use crate::counting::Counting;
use std::alloc::Global;
use test_help::{assigns, sections, state_of};
use tt_enrol::{Enrolled, enrol, enrol_all};
use tt_state::State;
use tt_watch::{Progress, Silent};

// A course with a subpart of two classes, and a course of a class with one seat that meets when the
// first of the two does; a student of the second course and then the first, and one of the second.
const TEXT: &str = r#"{"nrDays":1,"nrWeeks":1,"slotsPerDay":288,
    "optimization":{"time":1,"room":1,"distribution":1,"student":1},
    "courses":[
        {"id":1,"configs":[{"subparts":[{"classes":[
            {"id":1,"times":[{"days":"1","start":10,"length":4,"weeks":"1","penalty":0}]},
            {"id":2,"times":[{"days":"1","start":20,"length":4,"weeks":"1","penalty":0}]}]}]}]},
        {"id":2,"configs":[{"subparts":[{"classes":[
            {"id":3,"limit":1,"times":[{"days":"1","start":10,"length":4,"weeks":"1","penalty":0}]}]}]}]}],
    "students":[{"id":1,"courses":[2,1]},{"id":2,"courses":[2]}]}"#;

// Whether the first student gets the classes that don't conflict, the own seat again among them.
fn enrols_one(alloc: Global, state: &mut State) -> bool {
    if state.problem().student_count() != 2 || enrol(alloc, state, 0) != Ok(true) {
        return false;
    }
    state.totals().student == 0 && state.totals().unsectioned == 1
}

// Whether there is no seat for the second student.
fn refuses_the_other(alloc: Global, state: &mut State) -> bool {
    state.problem().student_count() == 2
        && enrol(alloc, state, 1) == Ok(false)
        && state.totals().unsectioned == 1
}

// How many get an enrolment when all are enrolled, and how many are left.
fn enrols_all(alloc: Global, state: &mut State) -> Option<Enrolled> {
    enrol_all(alloc, state, &mut Silent).ok()
}

#[test]
fn students_get_the_least_enrolments(rt: HostRuntime) {
    let mut state = state_of(rt.alloc(), TEXT.as_bytes()).expect(&rt, "state");
    for class in 0..3 {
        assert!(rt; assigns(&mut state, class, 1, None), "class {class}");
    }
    assert!(rt; sections(&mut state, 0, [0, 2]));
    assert!(rt; state.totals().student == 1);
    assert!(rt; enrols_one(rt.alloc(), &mut state));
    assert!(rt; refuses_the_other(rt.alloc(), &mut state));
    assert_eq!(rt;
        enrols_all(rt.alloc(), &mut state),
        Some(Enrolled {
            enrolled: 0,
            left: 1
        })
    );
    drop(state);
}

// The watcher is told of each student, also of those who are enrolled already.
#[test]
fn an_enrolment_of_all_tells_each_student(rt: HostRuntime) {
    let mut state = state_of(rt.alloc(), TEXT.as_bytes()).expect(&rt, "state");
    assert!(rt; sections(&mut state, 0, [0, 2]));
    let mut watcher = Counting::new();
    let made = enrol_all(rt.alloc(), &mut state, &mut watcher);
    assert!(rt;
        made == Ok(Enrolled {
            enrolled: 0,
            left: 1
        })
    );
    assert!(rt; watcher.times == 2);
    assert!(rt; watcher.last == Some(Progress::Students { done: 2, of: 2 }));
    drop(state);
}
