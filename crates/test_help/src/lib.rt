//! What tests of several crates share: two small problems, and a value by the names that a script has
//! for it, with the changes of a state that it serves.
#![tactic(auto)]

ghost use Rattle.std.specs.Prelude.{◌≡◌, IfSome};
ghost use Rattle.tt_plan.specs.Domain.{IsOfDomain};

use std::alloc::Global;
use tt_bits::Value;
use tt_fields::FileFault;
use tt_plan::find;
use tt_problem::Problem;
use tt_read::read;
use tt_state::State;

// A course with a subpart of two classes and one of a third, whose parent is the first class and
// which has one seat; two rooms; and two students of the course.
const TEXT: &str = r#"{"nrDays":2,"nrWeeks":2,"slotsPerDay":288,
    "optimization":{"time":2,"room":3,"distribution":5,"student":7},
    "rooms":[
        {"id":71,"travel":[{"room":72,"value":6}]},
        {"id":72,"unavailable":[{"days":"10","start":0,"length":9,"weeks":"11"}]}],
    "courses":[{"id":40,"configs":[{"subparts":[
        {"classes":[
            {"id":21,"rooms":[{"id":71,"penalty":5},{"id":72,"penalty":0}],"times":[
                {"days":"10","start":10,"length":4,"weeks":"11","penalty":6},
                {"days":"10","start":4,"length":4,"weeks":"10","penalty":1}]},
            {"id":22,"room":false,"times":[
                {"days":"01","start":30,"length":2,"weeks":"01","penalty":8}]}]},
        {"classes":[
            {"id":23,"limit":1,"parent":21,"rooms":[{"id":72,"penalty":2}],"times":[
                {"days":"11","start":16,"length":4,"weeks":"11","penalty":3}]}]}]}]}],
    "distributions":[
        {"type":"SameRoom","penalty":10,"classes":[21,23]},
        {"type":"MaxDays(1)","penalty":4,"classes":[23,21]},
        {"type":"MaxBreaks(0,1)","required":true,"classes":[21,23]}],
    "students":[{"id":31,"courses":[40]},{"id":32,"courses":[40]}]}"#;

// A course with one class that needs no room, and nothing else.
const SMALL_TEXT: &str = r#"{"nrDays":1,"nrWeeks":1,"slotsPerDay":288,
    "optimization":{"time":1,"room":1,"distribution":1,"student":1},
    "courses":[{"id":1,"configs":[{"subparts":[{"classes":[{"id":1,"times":[
        {"days":"1","start":0,"length":1,"weeks":"1","penalty":0}]}]}]}]}]}"#;

/// The problem that the first text holds. A part is named by its place in it.
pub fn problem(alloc: Global) -> Result<Problem, FileFault> {
    read(alloc, TEXT.as_bytes())
}

/// The problem that the second text holds.
pub fn small_problem(alloc: Global) -> Result<Problem, FileFault> {
    read(alloc, SMALL_TEXT.as_bytes())
}

/// The state with nothing placed of the problem that a text holds.
pub fn state_of(alloc: Global, text: &[u8]) -> Result<State, FileFault> {
    let problem = read(alloc, text)?;
    Ok(State::start(alloc, problem)?)
}

/// The value of the class at a place, at a time, counted from 1, in the room with an id or in none.
pub fn value(problem: &Problem, class: u32, time: u32, room: Option<u32>) -> Option<Value>
    ensures { IfSome result (IsOfDomain problem.now class) }
{
    if class >= problem.class_count() {
        return None;
    }
    find(problem, class, time, room).ok()
}

/// Whether a class gets such a value, as one step; false where there is none.
pub fn assigns(state: &mut State, class: u32, time: u32, room: Option<u32>) -> bool
    ensures { state.new.problem ≡ state.old.problem }
{
    match value(state.problem(), class, time, room) {
        None => false,
        Some(value) => state.assign(class, value).is_ok(),
    }
}

/// Whether a class is forced to such a value, as one step; false where there is none.
pub fn forces(state: &mut State, class: u32, time: u32, room: Option<u32>) -> bool
    ensures { state.new.problem ≡ state.old.problem }
{
    match value(state.problem(), class, time, room) {
        None => false,
        Some(value) => state.force(class, value) == Ok(None),
    }
}

/// Whether a student gets two classes in place of those that the student has, as one step; false where
/// there is no such student, or no such class.
pub fn sections(state: &mut State, student: u32, classes: [u32; 2]) -> bool
    ensures { state.new.problem ≡ state.old.problem }
{
    let [first, second] = classes;
    let count = state.problem().class_count();
    if first >= count || second >= count || student >= state.problem().student_count() {
        return false;
    }
    state.section(student, &[first, second]) == Ok(None)
}
