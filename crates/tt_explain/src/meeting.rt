//! The lines of `meets`: the classes that the students of a class can't attend beside it.

ghost use Rattle.std.specs.Prelude.{◌≡◌, ℕ, ◌++◌, ◌<◌, [], IfOk, OnOk, if◌then◌else◌, length, slice_index, nat_lt};
ghost use Rattle.tt_roster.specs.Joint.{joint_students};
ghost use Rattle.tt_explain.specs.Explain.{pair_count};
ghost use Rattle.tt_explain.specs.Meets.{met_students, all_met, meeting_line, meets_lines};

use crate::now::conflict_between;
use std::alloc::{AllocError, Global};
use tt_problem::Problem;
use tt_state::State;
use tt_text::Reply;

// How many students a class has in common with each other class.
fn joint_row(alloc: Global, state: &State, class: u32) -> Result<Vec<u32>, AllocError>
    ensures whole { IfOk result (λ row. length row.items ≡ length state.now.problem.classes) }
    ensures row { IfOk result (λ row.
        (other : ℕ)
        → slice_index row.items other ≡ joint_students state.now.present.lists class other) }
{
    let count = state.problem().class_count() as usize;
    let mut row = vec![in alloc; 0; count]?;
    let mut touched = vec![in alloc; 0; count]?;
    let _ = state
        .score()
        .roster()
        .joint_row(class, &mut row, &mut touched);
    Ok(row)
}

// How many students have a class and another one that nobody can attend beside it, where so many
// have both.
#[tactic(auto, unfolding(crate::specs::Meets::met_students))]
fn met_students(state: &State, class: u32, other: u32, common: u32) -> u32
    requires { common ≡ joint_students state.now.present.lists class other }
    ensures { result ≡ met_students state.now.problem state.now.present class other }
{
    if common > 0 && conflict_between(state, class, other) {
        common
    } else {
        0
    }
}

// Appends the line on another class and the students who have both.
#[tactic(auto, using(std::proofs::Common::append_assoc), unfolding(crate::specs::Meets::meeting_line))]
fn add_meeting_line(
    out: &mut Reply,
    problem: &Problem,
    other: u32,
    students: u32,
) -> Result<(), AllocError>
    ensures { OnOk result (out.new ≡ out.old ++ meeting_line problem.now other students) }
{
    out.field("meets ", u128::from(problem.class_id(other)))?;
    out.field(" ", u128::from(students))?;
    out.text("\n")
}

// Appends the line on another class, where some students have it and the class that nobody can
// attend beside it.
fn add_meeting(
    out: &mut Reply,
    state: &State,
    class: u32,
    other: u32,
    common: u32,
) -> Result<(), AllocError>
    requires { common ≡ joint_students state.now.present.lists class other }
    ensures { OnOk result (out.new
        ≡ out.old
        ++ (if nat_lt 0 (met_students state.now.problem state.now.present class other)
        then meeting_line state.now.problem other
        (met_students state.now.problem state.now.present class other)
        else [])) }
{
    let students = met_students(state, class, other, common);
    if students > 0 {
        add_meeting_line(out, state.problem(), other, students)
    } else {
        Ok(())
    }
}

// The students who are counted are the conflicting pairs with the class.
fn meetings_add_up(state: &State, class: u32)
    ensures { all_met state.now.problem state.now.present class
        ≡ pair_count state.now.problem state.now.present class }
{
    state.soundness();
}

/// Appends a line for each other class that some students of a class have and that nobody can attend
/// beside it, with the number of these students; they add up to the conflicting pairs with the class.
/// It takes memory for two numbers a class, and goes once over the lists of the class's students.
/// Where memory is wanting, some of the lines may have been appended.
#[tactic(auto, unfolding(crate::specs::Meets::meets_lines))]
pub fn meets(alloc: Global, state: &State, class: u32, out: &mut Reply) -> Result<(), AllocError>
    ensures lines { OnOk result
        (out.new ≡ out.old ++ meets_lines state.now.problem state.now.present class) }
    ensures conflicts { all_met state.now.problem state.now.present class
        ≡ pair_count state.now.problem state.now.present class }
{
    meetings_add_up(state, class);
    let row = joint_row(alloc, state, class)?;
    for other in 0..state.problem().class_count() {
        add_meeting(out, state, class, other, row[other as usize])?;
    }
    Ok(())
}
