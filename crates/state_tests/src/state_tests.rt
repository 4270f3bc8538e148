//! Tests of the state: values, lists, closures, and going back.

use std::test::Fail;
use test_help::{assigns, problem, small_problem, state_of, value};
use tt_bits::{Days, Time, Weeks};
use tt_score::Totals;
use tt_state::{SectionFault, State};

// A course with a subpart of one class and one of two, and a student of it.
const CHOICE_TEXT: &str = r#"{"nrDays":1,"nrWeeks":1,"slotsPerDay":288,
    "optimization":{"time":1,"room":1,"distribution":1,"student":1},
    "courses":[{"id":1,"configs":[{"subparts":[
        {"classes":[{"id":1,"times":[
            {"days":"1","start":0,"length":1,"weeks":"1","penalty":0}]}]},
        {"classes":[
            {"id":2,"times":[{"days":"1","start":1,"length":1,"weeks":"1","penalty":0}]},
            {"id":3,"times":[{"days":"1","start":2,"length":1,"weeks":"1","penalty":0}]}]}]}]}],
    "students":[{"id":1,"courses":[1]}]}"#;

// Whether the class that needs no room loses its value.
fn unassigns(state: &mut State) -> bool {
    if state.problem().class_count() != 3 || state.unassign(1) != Ok(true) {
        return false;
    }
    state.totals().unplaced == 3
}

// Whether a class without a value has none to lose.
fn refuses_to_unassign(state: &mut State) -> bool {
    state.problem().class_count() == 3 && state.unassign(1) == Ok(false)
}

// Whether giving a student the first and the third class is answered so.
fn sections(state: &mut State, student: u32, fault: Option<SectionFault>) -> bool {
    state.problem().class_count() == 3
        && student < state.problem().student_count()
        && state.section(student, &[0, 2]) == Ok(fault)
}

// Whether a list without a parent is refused.
fn refuses_a_list(state: &mut State) -> bool {
    state.problem().class_count() == 3
        && state.problem().student_count() == 2
        && state.section(0, &[2, 1]) == Ok(Some(SectionFault::Invalid))
}

// Whether a student has classes, which are taken.
fn drops(state: &mut State, student: u32) -> bool {
    student < state.problem().student_count() && state.drop_student(student) == Ok(true)
}

// The first three classes of a student.
fn first_classes(state: &State, student: u32) -> Option<[Option<u32>; 3]> {
    if student >= state.problem().student_count() {
        return None;
    }
    let mut classes = state.classes_of(student);
    let first = classes.next();
    let second = classes.next();
    Some([first, second, classes.next()])
}

// Whether the sums are those of the first and the third class at their first times in two rooms, which
// one student has.
fn has_totals(state: &State) -> bool {
    let totals = Totals {
        time: 9,
        room: 7,
        distribution: 14,
        student: 1,
        total: 116,
        hard: 1,
        unplaced: 1,
        unsectioned: 1,
    };
    state.totals() == totals
}

// The total with the first class at its first time in a room, asked for below each of three bounds.
fn trials_below(state: &mut State, room: u32, bounds: [u128; 3]) -> Option<[Option<u128>; 3]> {
    let value = value(state.problem(), 0, 1, Some(room))?;
    let without = state.without(0);
    let placement = state.placement(0, value);
    let first = state.trial_below(&placement, without, bounds[0]);
    let second = state.trial_below(&placement, without, bounds[1]);
    let third = state.trial_below(&placement, without, bounds[2]);
    Some([first, second, third])
}

// Whether a step goes back to a moment of it.
fn rolls_back(state: &mut State) -> bool {
    let Some(value) = value(state.problem(), 0, 1, Some(71)) else {
        return false;
    };
    if state.begin().is_err() {
        return false;
    }
    let moment = state.mark_now();
    if state.place_step(0, Some(value)).is_err() {
        return false;
    }
    let with = [state.mark_now(), u64::from(state.totals().unplaced)];
    state.roll_back(moment);
    state.soundness();
    let without = [state.mark_now(), u64::from(state.totals().unplaced)];
    with == [1, 2] && without == [0, 3]
}

// Whether the first room is closed within the first time of the first class.
fn closes(state: &mut State) -> Option<bool> {
    let days = Days::read("10", state.problem().nr_days())?;
    let weeks = Weeks::read("11", state.problem().nr_weeks())?;
    let time = Time::new(days, weeks, 12, 1)?;
    if state.problem().room_count() == 0 {
        return None;
    }
    state.close(0, time).ok()
}

// The hard conflicts once the room is closed, reopened, and closed again by going back.
fn hard_with_closures(state: &mut State) -> Option<[u64; 3]> {
    if !closes(state)? {
        return None;
    }
    let closed = state.totals().hard;
    if state.reopen(0) != Ok(true) {
        return None;
    }
    let reopened = state.totals().hard;
    if !state.undo() {
        return None;
    }
    Some([closed, reopened, state.totals().hard])
}

// Whether the class that needs no room gets its value and loses it, once.
fn gets_and_loses(state: &mut State) -> bool {
    assigns(state, 1, 1, None)
        && state.totals().time == 8
        && unassigns(state)
        && refuses_to_unassign(state)
}

// Whether both steps are taken back, and no third.
fn takes_both_back(state: &mut State) -> bool {
    state.undo()
        && state.totals().time == 8
        && state.undo()
        && state.score().plan() == [None, None, None].as_slice()
        && !state.undo()
}

#[test]
fn a_class_gets_a_value_and_loses_it(rt: HostRuntime) -> Result<(), Fail> {
    let mut state = State::start(rt.alloc(), problem(rt.alloc())?).expect(&rt, "memory");
    let shown = [
        gets_and_loses(&mut state),
        takes_both_back(&mut state),
        rolls_back(&mut state),
    ];
    drop(state);
    assert_eq!(rt; shown, [true; 3]);
    Ok(())
}

// Whether the first student gets a list, and the second finds no seat.
fn gets_a_list(state: &mut State) -> bool {
    refuses_a_list(state)
        && sections(state, 0, None)
        && first_classes(state, 0) == Some([Some(0), Some(2), None])
        && sections(state, 1, Some(SectionFault::Full { class: 2 }))
}

// Whether two classes of the list conflict; without the pair the total is 109.
fn has_a_conflict(state: &mut State) -> bool {
    assigns(state, 0, 1, Some(71))
        && assigns(state, 2, 1, Some(72))
        && has_totals(state)
        && trials_below(state, 71, [109, 116, 117]) == Some([None, None, Some(116)])
        && trials_below(state, 72, [0, 44, 45]) == Some([None, None, Some(44)])
}

// Whether the first student has classes to drop, once.
fn drops_the_list(state: &mut State) -> bool {
    drops(state, 0) && !drops(state, 0) && first_classes(state, 0) == Some([None; 3])
}

#[test]
fn a_student_gets_a_list_and_drops_it(rt: HostRuntime) -> Result<(), Fail> {
    let mut state = State::start(rt.alloc(), problem(rt.alloc())?).expect(&rt, "memory");
    let shown = [
        gets_a_list(&mut state),
        has_a_conflict(&mut state),
        drops_the_list(&mut state),
    ];
    drop(state);
    assert_eq!(rt; shown, [true; 3]);
    Ok(())
}

// How many students have each of three classes.
fn attendance(state: &State) -> [u32; 3] {
    let roster = state.score().roster();
    [roster.count(0), roster.count(1), roster.count(2)]
}

// Whether the student has the first class and another.
fn has_with_first(state: &State, other: u32) -> bool {
    let counts = [1, u32::from(other == 1), u32::from(other == 2)];
    first_classes(state, 0) == Some([Some(0), Some(other), None]) && attendance(state) == counts
}

// Whether a student who gets a list with another class in place of one keeps the rest, also where
// the list comes in another order.
fn exchanges_one_class(state: &mut State) -> bool {
    test_help::sections(state, 0, [0, 1])
        && has_with_first(state, 1)
        && test_help::sections(state, 0, [2, 0])
        && has_with_first(state, 2)
        && test_help::sections(state, 0, [0, 2])
        && has_with_first(state, 2)
}

// Whether each of the three lists is taken back.
fn gives_the_lists_back(state: &mut State) -> bool {
    state.undo()
        && has_with_first(state, 2)
        && state.undo()
        && has_with_first(state, 1)
        && state.undo()
        && attendance(state) == [0; 3]
        && !state.undo()
}

#[test]
fn a_list_changes_in_one_class(rt: HostRuntime) -> Result<(), Fail> {
    let mut state = state_of(rt.alloc(), CHOICE_TEXT.as_bytes())?;
    let shown = [
        exchanges_one_class(&mut state),
        gives_the_lists_back(&mut state),
    ];
    drop(state);
    assert_eq!(rt; shown, [true; 2]);
    Ok(())
}

// The totals with the first class at its first time in the first room, while the first student has it
// and the third class, and while the student has none.
fn totals_by_list(state: &mut State) -> Option<[Option<u128>; 2]> {
    if !sections(state, 0, None) {
        return None;
    }
    let with = trials_below(state, 71, [1000; 3])?[0];
    if !drops(state, 0) {
        return None;
    }
    let without = trials_below(state, 71, [1000; 3])?[0];
    Some([with, without])
}

// Whether these totals stay, however often the student gets the list: the rows of the classes that are
// tried outgrow their memory meanwhile.
fn keeps_totals(state: &mut State) -> bool {
    if !assigns(state, 0, 1, Some(71)) || !assigns(state, 2, 1, Some(72)) {
        return false;
    }
    for _ in 0..1000 {
        if totals_by_list(state) != Some([Some(116), Some(109)]) {
            return false;
        }
    }
    true
}

#[test]
fn totals_stay_where_the_rows_outgrow_their_memory(rt: HostRuntime) -> Result<(), Fail> {
    let mut state = State::start(rt.alloc(), problem(rt.alloc())?).expect(&rt, "memory");
    let shown = keeps_totals(&mut state);
    drop(state);
    assert!(rt; shown);
    Ok(())
}

// Whether the first room has no closure to lift, where two classes stand, and then closes and opens.
fn closes_and_reopens(state: &mut State) -> bool {
    assigns(state, 0, 1, Some(71))
        && assigns(state, 2, 1, Some(72))
        && state.reopen(0) == Ok(false)
        && hard_with_closures(state) == Some([2, 1, 2])
}

#[test]
fn a_room_is_closed_and_reopened(rt: HostRuntime) -> Result<(), Fail> {
    let mut state = State::start(rt.alloc(), problem(rt.alloc())?).expect(&rt, "memory");
    let shown = closes_and_reopens(&mut state);
    drop(state);
    assert!(rt; shown);
    Ok(())
}

// Whether the desk is ready once its one class is placed.
fn becomes_ready(state: &mut State) -> bool {
    !state.ready() && assigns(state, 0, 1, None) && state.ready()
}

#[test]
fn a_desk_with_all_in_place_is_ready(rt: HostRuntime) -> Result<(), Fail> {
    let mut state = State::start(rt.alloc(), small_problem(rt.alloc())?).expect(&rt, "memory");
    let shown = becomes_ready(&mut state);
    drop(state);
    assert!(rt; shown);
    Ok(())
}
