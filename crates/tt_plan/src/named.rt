//! The value that a time and a room name, or why they name none.

ghost use Rattle.std.specs.Prelude.{◌≡◌, ◌<◌, ◌≤◌, ◌==◌, IfOk, IfSome, length, position, option_and_then};
ghost use Rattle.tt_problem.specs.Valid.{IsValidClass};
ghost use Rattle.tt_plan.specs.Domain.{IsOfDomain, values_per_time};
ghost use Rattle.tt_plan.specs.Named.{find_value, room_place};

use tt_bits::Value;
use tt_problem::{ClassPart, Problem, RoomChoice};

/// Why a time and a room name no value of a class.
#[derive(Clone, Copy, Debug, PartialEq, Eq)]
pub enum NoValue {
    /// The number of the time is 0 or above the number of the class's times.
    Time,
    /// The room isn't one of the class's, or one is named where it needs none, or none where it
    /// needs one.
    Room,
}

// The first place of a room in the rooms of a class.
fn first_index(rooms: &[RoomChoice], room: u32) -> Option<usize>
    ensures place { result ≡ position (λ r. r.room == room) rooms.now }
    ensures within { IfSome result (λ place. place < length rooms.now) }
{
    rooms.iter().position(|choice| choice.room == room)
}

// The same, as a value names it; `None` also where there is no room.
fn first_place(rooms: &[RoomChoice], room: Option<u32>) -> Option<u16>
    requires { length rooms.now ≤ 1000 }
    ensures place { result
        ≡ option_and_then (λ room. position (λ r. r.room == room) rooms.now) room }
    ensures within { IfSome result (λ place. place < length rooms.now) }
{
    match room {
        None => None,
        Some(room) => first_index(rooms, room).map(|place| place as u16),
    }
}

// The place in the rooms of a class that the id of a room names, or that no id names.
fn room_place(problem: &Problem, part: &ClassPart, room: Option<u32>) -> Option<u16>
    requires { IsValidClass problem.now part.now }
    ensures place { result ≡ room_place problem.now part.now room }
    ensures within { IfSome result (λ place. place < values_per_time part.now) }
{
    let rooms = part.rooms.as_slice();
    match room {
        None => rooms.is_empty().then_some(0),
        Some(id) => first_place(rooms, problem.room_of(id)),
    }
}

/// The value of a class at a time, counted from 1, in the room with an id; `room` is `None` where
/// the class needs none. `NoValue::Time` where the class has no such time; else `NoValue::Room`
/// where the class doesn't list the room, where it needs no room and one is named, and where it
/// needs one and none is named. Where a room stands twice in the list, its first place counts.
#[tactic(auto, unfolding(crate::specs::Named::find_value))]
pub fn find(problem: &Problem, class: u32, time: u32, room: Option<u32>) -> Result<Value, NoValue>
    requires { class < length problem.now.classes }
    ensures value { result ≡ find_value problem.now class time room }
    ensures of_domain { IfOk result (IsOfDomain problem.now class) }
{
    let part = problem.class(class);
    if time == 0 || time as usize > part.times.len() {
        return Err(NoValue::Time);
    }
    match room_place(problem, part, room) {
        None => Err(NoValue::Room),
        Some(place) => Ok(Value {
            time: (time - 1) as u16,
            room: place,
        }),
    }
}
