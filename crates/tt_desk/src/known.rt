//! What the ids and words of a command name, or its refusal.

ghost use Rattle.std.specs.Prelude.{◌≡◌, ◌<◌, All, Ok, Err, IfOk, IfErr, IfSome, length, ok_or};
ghost use Rattle.tt_problem.specs.Places.{room_of};
ghost use Rattle.tt_problem.specs.Valid.{IsTimeOf};
ghost use Rattle.tt_plan.specs.Domain.{IsOfDomain};
ghost use Rattle.tt_desk.specs.Desk.{known_class, known_classes, known_student, known_value, value_refusal, written_time};

use crate::refusal::Refusal;
use tt_bits::{BitWord, Days, Time, Value, Weeks};
use tt_plan::{NoValue, find};
use tt_problem::Problem;
use tt_script::Ids;

// The place of the class with an id.
pub(crate) fn known_class(problem: &Problem, id: u32) -> Result<u32, Refusal>
    ensures class { result ≡ known_class problem.now id }
    ensures in_range { IfOk result (λ class. class < length problem.now.classes) }
{
    problem.class_of(id).ok_or(Refusal::NoSuchClass)
}

// The places of the classes with these ids.
pub(crate) fn known_classes(problem: &Problem, ids: Ids) -> Result<Vec<u32>, Refusal>
    ensures classes { IfOk result (λ places. known_classes problem.now ids ≡ Ok places.items) }
    ensures refusal { IfErr result (λ refusal. known_classes problem.now ids ≡ Err refusal) }
    ensures in_range { IfOk result
        (λ places. All (λ place. place < length problem.now.classes) places.items) }
{
    let mut places = ids.into_vec();
    for place in places.iter_mut() {
        *place = known_class(problem, *place)?;
    }
    Ok(places)
}

// The place of the student with an id.
pub(crate) fn known_student(problem: &Problem, id: u32) -> Result<u32, Refusal>
    ensures student { result ≡ known_student problem.now id }
    ensures in_range { IfOk result (λ student. student < length problem.now.students) }
{
    problem.student_of(id).ok_or(Refusal::NoSuchStudent)
}

// The place of the room with an id.
pub(crate) fn known_room(problem: &Problem, id: u32) -> Result<u32, Refusal>
    ensures room { result ≡ ok_or (room_of problem.now id) Refusal.NoSuchRoom }
    ensures in_range { IfOk result (λ room. room < length problem.now.rooms) }
{
    problem.room_of(id).ok_or(Refusal::NoSuchRoom)
}

// The time that two words and two numbers of slots write, within the days and weeks of the problem.
fn written_time(
    problem: &Problem,
    days: BitWord,
    start: u16,
    length: u16,
    weeks: BitWord,
) -> Option<Time>
    ensures time { result ≡ written_time problem.now days start length weeks }
    ensures within { IfSome result (IsTimeOf problem.now.nr_days problem.now.nr_weeks) }
{
    let days = Days::of_word(days, problem.nr_days())?;
    let weeks = Weeks::of_word(weeks, problem.nr_weeks())?;
    Time::new(days, weeks, start, length)
}

// The same, or its refusal.
pub(crate) fn known_time(
    problem: &Problem,
    days: BitWord,
    start: u16,
    length: u16,
    weeks: BitWord,
) -> Result<Time, Refusal>
    ensures time { result
        ≡ ok_or (written_time problem.now days start length weeks) Refusal.BadTime }
    ensures within { IfOk result (IsTimeOf problem.now.nr_days problem.now.nr_weeks) }
{
    written_time(problem, days, start, length, weeks).ok_or(Refusal::BadTime)
}

// Why no value of a class is named.
fn value_refusal(fault: NoValue) -> Refusal
    ensures { result ≡ value_refusal fault }
{
    match fault {
        NoValue::Time => Refusal::NoSuchTime,
        NoValue::Room => Refusal::RoomNotListed,
    }
}

// The value of a class that the number of a time and the id of a room name.
pub(crate) fn known_value(
    problem: &Problem,
    class: u32,
    time: u32,
    room: Option<u32>,
) -> Result<Value, Refusal>
    requires { class < length problem.now.classes }
    ensures value { result ≡ known_value problem.now class time room }
    ensures of_domain { IfOk result (IsOfDomain problem.now class) }
{
    match find(problem, class, time, room) {
        Ok(value) => Ok(value),
        Err(fault) => Err(value_refusal(fault)),
    }
}
