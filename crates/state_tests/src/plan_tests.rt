//! Tests of domains, values and enrolments.

use std::test::Fail;
use test_help::problem;
use tt_bits::Value;
use tt_plan::{NoValue, domain_size, find, room_penalty, spot, time_penalty, value_at};
use tt_problem::Problem;
use tt_struct::is_enrolment;

// Whether a domain has each time in each room, in this order.
fn has_domain(problem: &Problem) -> bool {
    if problem.class_count() != 3 || domain_size(problem, 0) != 4 {
        return false;
    }
    value_at(problem, 0, 2) == Value { time: 1, room: 0 } && domain_size(problem, 1) == 1
}

// Whether the second time of the first class in the first room is that of the text.
fn has_value(problem: &Problem) -> bool {
    if problem.class_count() != 3 {
        return false;
    }
    let Ok(value) = find(problem, 0, 2, Some(71)) else {
        return false;
    };
    let spot = spot(problem, 0, value);
    let penalties = [
        time_penalty(problem, 0, value),
        room_penalty(problem, 0, value),
    ];
    spot.room == Some(0) && [spot.time.start, spot.time.length] == [4, 4] && penalties == [1, 5]
}

// Whether the class that needs no room pays for its time alone.
fn has_value_without_room(problem: &Problem) -> bool {
    if problem.class_count() != 3 {
        return false;
    }
    let Ok(value) = find(problem, 1, 1, None) else {
        return false;
    };
    let penalties = [
        time_penalty(problem, 1, value),
        room_penalty(problem, 1, value),
    ];
    spot(problem, 1, value).room == None && penalties == [8, 0]
}

// Whether no value is found at a time that is none, whatever the room.
fn refuses_times(problem: &Problem) -> bool {
    if problem.class_count() != 3 {
        return false;
    }
    find(problem, 0, 0, Some(71)) == Err(NoValue::Time)
        && find(problem, 0, 3, None) == Err(NoValue::Time)
}

// Whether no value is found without a room that is needed, nor in one that isn't listed.
fn refuses_rooms(problem: &Problem) -> bool {
    if problem.class_count() != 3 {
        return false;
    }
    find(problem, 0, 1, None) == Err(NoValue::Room)
        && find(problem, 1, 1, Some(71)) == Err(NoValue::Room)
        && find(problem, 2, 1, Some(71)) == Err(NoValue::Room)
}

// Whether an enrolment needs the parent of each class, and one class of each subpart.
fn tells_enrolments(problem: &Problem) -> bool {
    if problem.class_count() != 3 || problem.student_count() != 2 {
        return false;
    }
    is_enrolment(problem, 0, &[2, 0])
        && !is_enrolment(problem, 0, &[2, 1])
        && !is_enrolment(problem, 0, &[0])
}

#[test]
fn values_and_enrolments_are_told_apart(rt: HostRuntime) -> Result<(), Fail> {
    let problem = problem(rt.alloc())?;
    let shown = [
        has_domain(&problem),
        has_value(&problem),
        has_value_without_room(&problem),
        refuses_times(&problem),
        refuses_rooms(&problem),
        tells_enrolments(&problem),
    ];
    drop(problem);
    assert_eq!(rt; shown, [true; 6]);
    Ok(())
}
