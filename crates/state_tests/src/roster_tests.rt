//! Tests of the roster.

ghost use Rattle.std.specs.Prelude.{◌≡◌, length, replicate, None, []};
ghost use Rattle.tt_roster.specs.Kept.{IsRosterOf};

use std::alloc::{AllocError, Global};
use std::test::Fail;
use test_help::{problem, value};
use tt_plan::spot;
use tt_problem::Problem;
use tt_roster::Roster;

// Whether a student of a new roster gets a class and leaves it.
fn seats_a_student(problem: &Problem, roster: &mut Roster) -> bool
    requires fits { IsRosterOf problem.now roster.old }
    requires seats { roster.old.seats ≡ replicate (length problem.now.students) [] }
{
    if problem.class_count() != 3 || problem.student_count() != 2 {
        return false;
    }
    if problem.most_classes_of(1) != 2 {
        return false;
    }
    roster.seat(problem, 1, 2);
    let with = [roster.count(2), roster.count(0)] == [1, 0];
    let class = roster.classes(1).next();
    roster.leave(problem, 1, 2);
    with && class == Some(2) && roster.count(2) == 0
}

// Whether both students have a class, and come in order.
fn has_both(alloc: Global, roster: &Roster, class: u32) -> Result<bool, AllocError> {
    let students = roster.students(alloc, class)?;
    Ok(students.as_slice() == [0, 1].as_slice())
}

// Whether the students of a class come in order, whoever of the two came last.
fn seats_both_students(
    alloc: Global,
    problem: &Problem,
    roster: &mut Roster,
) -> Result<bool, AllocError>
    requires fits { IsRosterOf problem.now roster.old }
    requires seats { roster.old.seats ≡ replicate (length problem.now.students) [] }
{
    if problem.class_count() != 3 || problem.student_count() != 2 {
        return Ok(false);
    }
    if problem.most_classes_of(0) != 2 || problem.most_classes_of(1) != 2 {
        return Ok(false);
    }
    roster.seat(problem, 1, 2);
    roster.seat(problem, 0, 2);
    let first = has_both(alloc, roster, 2)?;
    roster.leave(problem, 1, 2);
    roster.seat(problem, 1, 2);
    let second = has_both(alloc, roster, 2)?;
    Ok(first && second)
}

// Whether a class of a new roster takes a spot and leaves it, without a conflict where nobody has
// a class.
fn places_a_class(problem: &Problem, roster: &mut Roster) -> bool
    requires fits { IsRosterOf problem.now roster.old }
    requires spots { roster.old.spots ≡ replicate (length problem.now.classes) None }
{
    if problem.class_count() != 3 {
        return false;
    }
    let Some(value) = value(problem, 0, 1, Some(71)) else {
        return false;
    };
    let spot = spot(problem, 0, value);
    roster.place(problem, 0, spot);
    let conflicts = [roster.conflicts(), roster.class_gain(problem, 2, spot)];
    roster.unplace(problem, 0);
    conflicts == [0, 0] && roster.conflicts() == 0
}

// Whether the joint row of a class has the student whom it has in common with another class.
fn counts_a_common_student(problem: &Problem, roster: &mut Roster) -> bool
    requires fits { IsRosterOf problem.now roster.old }
    requires seats { roster.old.seats ≡ replicate (length problem.now.students) [] }
{
    if problem.class_count() != 3 || problem.student_count() != 2 {
        return false;
    }
    if problem.most_classes_of(0) != 2 {
        return false;
    }
    roster.seat(problem, 0, 0);
    roster.seat(problem, 0, 2);
    let mut row = [0; 3];
    let mut touched = [0; 3];
    let met = roster.joint_row(0, &mut row, &mut touched);
    met == 1 && row == [0, 0, 1] && touched[0] == 2 && roster.spots().len() == 3
}

// Whether a student gets a class in a roster that is made, and leaves it.
fn seats_in_a_roster(alloc: Global, problem: &Problem) -> Result<bool, AllocError> {
    let mut roster = Roster::new(alloc, problem)?;
    Ok(seats_a_student(problem, &mut roster))
}

#[test]
fn a_student_gets_a_class_and_leaves_it(rt: HostRuntime) -> Result<(), Fail> {
    let problem = problem(rt.alloc())?;
    let shown = seats_in_a_roster(rt.alloc(), &problem);
    drop(problem);
    assert_eq!(rt; shown, Ok(true));
    Ok(())
}

// The same of a roster that is made, where nobody has the class at first.
fn seats_both_in_a_roster(alloc: Global, problem: &Problem) -> Result<bool, AllocError> {
    let mut roster = Roster::new(alloc, problem)?;
    let nobody = roster.students(alloc, 2)?.is_empty();
    Ok(seats_both_students(alloc, problem, &mut roster)? && nobody)
}

#[test]
fn students_of_a_class_come_in_order(rt: HostRuntime) -> Result<(), Fail> {
    let problem = problem(rt.alloc())?;
    let shown = seats_both_in_a_roster(rt.alloc(), &problem);
    drop(problem);
    assert_eq!(rt; shown, Ok(true));
    Ok(())
}

// Whether a class takes a spot in a roster that is made, and leaves it.
fn places_in_a_roster(alloc: Global, problem: &Problem) -> Result<bool, AllocError> {
    let mut roster = Roster::new(alloc, problem)?;
    Ok(places_a_class(problem, &mut roster))
}

#[test]
fn a_class_takes_a_spot_and_leaves_it(rt: HostRuntime) -> Result<(), Fail> {
    let problem = problem(rt.alloc())?;
    let shown = places_in_a_roster(rt.alloc(), &problem);
    drop(problem);
    assert_eq!(rt; shown, Ok(true));
    Ok(())
}

// Whether a roster that is made has the students in common.
fn counts_in_a_roster(alloc: Global, problem: &Problem) -> Result<bool, AllocError> {
    let mut roster = Roster::new(alloc, problem)?;
    Ok(counts_a_common_student(problem, &mut roster))
}

#[test]
fn joint_row_has_the_common_students(rt: HostRuntime) -> Result<(), Fail> {
    let problem = problem(rt.alloc())?;
    let shown = counts_in_a_roster(rt.alloc(), &problem);
    drop(problem);
    assert_eq!(rt; shown, Ok(true));
    Ok(())
}
