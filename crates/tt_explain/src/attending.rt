//! The lines of `student`: the classes of a student, and the pairs that conflict.

ghost use Rattle.std.specs.Prelude.{◌≡◌, ◌++◌, ◌<◌, [], OnOk, drop, if◌then◌else◌, length};
ghost use Rattle.std.specs.List.{flat_map};
ghost use Rattle.tt_score.specs.Totals.{totals_of};
ghost use Rattle.tt_state.specs.Snapshots.{list_in};
ghost use Rattle.tt_verify.specs.Pairs.{pairs_with};
ghost use Rattle.tt_explain.specs.Student.{PairsAreCounted, class_line, pair_line, student_lines, student_pairs};
ghost use Rattle.tt_explain.specs.Pairs.{conflict_between};

use crate::now::conflict_between;
use std::alloc::AllocError;
use tt_problem::Problem;
use tt_roster::Attendance;
use tt_state::State;
use tt_text::Reply;

// Appends the line on a class of a student.
#[tactic(auto, using(std::proofs::Common::append_assoc), unfolding(crate::specs::Student::class_line))]
fn add_class_line(out: &mut Reply, problem: &Problem, class: u32) -> Result<(), AllocError>
    ensures { OnOk result (out.new ≡ out.old ++ class_line problem.now class) }
{
    out.field("class ", u128::from(problem.class_id(class)))?;
    out.text("\n")
}

// Appends a line for each class of a student.
fn add_class_lines(out: &mut Reply, state: &State, student: u32) -> Result<(), AllocError>
    requires { student < length state.now.problem.students }
    ensures { OnOk result (out.new
        ≡ out.old
        ++ flat_map (class_line state.now.problem) (list_in state.now.present student)) }
{
    for class in state.classes_of(student) {
        add_class_line(out, state.problem(), class)?;
    }
    Ok(())
}

// Appends the line on two classes that nobody can attend both.
#[tactic(auto, using(std::proofs::Common::append_assoc), unfolding(crate::specs::Student::pair_line))]
fn add_pair_line(
    out: &mut Reply,
    problem: &Problem,
    class: u32,
    other: u32,
) -> Result<(), AllocError>
    ensures { OnOk result (out.new ≡ out.old ++ pair_line problem.now (class, other)) }
{
    out.field("pair ", u128::from(problem.class_id(class)))?;
    out.field(" ", u128::from(problem.class_id(other)))?;
    out.text("\n")
}

// Appends the line on two classes, where nobody can attend both.
fn add_pair(out: &mut Reply, state: &State, class: u32, other: u32) -> Result<(), AllocError>
    ensures { OnOk result (out.new
        ≡ out.old
        ++ (if conflict_between state.now.problem state.now.present class other
        then pair_line state.now.problem (class, other)
        else [])) }
{
    if conflict_between(state, class, other) {
        add_pair_line(out, state.problem(), class, other)
    } else {
        Ok(())
    }
}

// Appends a line for each of some classes that nobody can attend beside a class.
fn add_pairs_with(
    out: &mut Reply,
    state: &State,
    class: u32,
    later: Attendance<'_>,
) -> Result<(), AllocError>
    ensures { OnOk result (out.new
        ≡ out.old
        ++ flat_map (pair_line state.now.problem) (pairs_with
        (conflict_between state.now.problem state.now.present) class later.entry)) }
{
    for other in later {
        add_pair(out, state, class, other)?;
    }
    Ok(())
}

/// The classes of a student behind so many.
pub fn classes_behind(state: &State, student: u32, count: u32) -> Attendance<'_>
    requires { student < length state.now.problem.students }
    ensures { result ≡ drop count (list_in state.now.present student) }
{
    let mut classes = state.classes_of(student);
    for _ in 0..count {
        let _ = classes.next();
    }
    classes
}

// Appends a line for each pair of a student's classes that nobody can attend both.
fn add_pair_lines(out: &mut Reply, state: &State, student: u32) -> Result<(), AllocError>
    requires { student < length state.now.problem.students }
    ensures { OnOk result (out.new
        ≡ out.old
        ++ flat_map (pair_line state.now.problem)
        (student_pairs state.now.problem state.now.present student)) }
{
    state.problem().validity();
    state.soundness();
    let mut place = 0;
    for class in state.classes_of(student) {
        place += 1;
        add_pairs_with(out, state, class, classes_behind(state, student, place))?;
    }
    Ok(())
}

// The pairs of a student are those that are counted, and those of all students add up.
fn pairs_add_up(state: &State, student: u32)
    ensures { PairsAreCounted state.now.problem state.now.present student (totals_of
        state.now.problem state.now.present.closures state.now.present.plan
        state.now.present.lists) }
{
    state.soundness();
}

/// Appends the lines on a student: each class that the student has, and each pair of these that
/// nobody can attend both. These pairs are the student's part of the student conflicts. No memory is
/// taken but the reply's; where that is wanting, some of the lines may have been appended.
#[tactic(auto, using(std::proofs::Common::append_assoc), unfolding(crate::specs::Student::student_lines))]
pub fn student(state: &State, student: u32, out: &mut Reply) -> Result<(), AllocError>
    requires { student < length state.now.problem.students }
    ensures lines { OnOk result
        (out.new ≡ out.old ++ student_lines state.now.problem state.now.present student) }
    ensures pairs { PairsAreCounted state.now.problem state.now.present student (totals_of
        state.now.problem state.now.present.closures state.now.present.plan
        state.now.present.lists) }
{
    pairs_add_up(state, student);
    add_class_lines(out, state, student)?;
    add_pair_lines(out, state, student)
}
