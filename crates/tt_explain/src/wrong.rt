//! The lines of `violations`: all that is wrong in the present snapshot.

ghost use Rattle.std.specs.Prelude.{◌≡◌, ◌+◌, ◌++◌, [], ◌<◌, ◌↔◌, IfOk, OnOk, length, true};
ghost use Rattle.std.specs.List.{flat_map, range_with_len};
ghost use Rattle.tt_plan.specs.Domain.{spots_of};
ghost use Rattle.tt_verify.specs.Violations.{hard_violations};
ghost use Rattle.tt_explain.specs.Violations.{enrolment_fault, fault_count, present_violations, unplaced_fault, violations_lines};
ghost use Rattle.tt_score.specs.Totals.{totals_of};
ghost use Rattle.tt_state.specs.Sound.{is_ready};

use crate::now::value_in;
use std::alloc::{AllocError, Global};
use tt_state::State;
use tt_text::Reply;
use tt_verify::{Violation, add_count, add_hard_violations, add_lines};

// Adds a class that has no value.
#[tactic(auto, unfolding(crate::specs::Violations::unplaced_fault))]
fn add_unplaced_fault(
    state: &State,
    class: u32,
    found: &mut Vec<Violation>,
) -> Result<(), AllocError>
    ensures { OnOk result
        (found.new.items ≡ found.old.items ++ unplaced_fault state.now.present class) }
{
    if value_in(state, class).is_none() {
        found.push(Violation::Missing { class })?;
    }
    Ok(())
}

// Adds each class that has no value.
#[tactic(auto, using(tt_verify::proofs::WalkLemmas::pieces_more, std::proofs::Common::append_assoc))]
fn add_unplaced_faults(state: &State, found: &mut Vec<Violation>) -> Result<(), AllocError>
    ensures { OnOk result (found.new.items
        ≡ found.old.items
        ++ flat_map (unplaced_fault state.now.present)
        (range_with_len 0 (length state.now.problem.classes))) }
{
    for class in 0..state.problem().class_count() {
        add_unplaced_fault(state, class, found)?;
    }
    Ok(())
}

// Adds a student whose list is no valid enrolment: no other list of a state than an empty one can be
// that, so it isn't looked into.
#[tactic(auto, using(crate::proofs::WrongLemmas::fault_of_sound))]
fn add_enrolment_fault(
    state: &State,
    student: u32,
    found: &mut Vec<Violation>,
) -> Result<(), AllocError>
    requires { student < length state.now.problem.students }
    ensures { OnOk result (found.new.items
        ≡ found.old.items ++ enrolment_fault state.now.problem state.now.present student) }
{
    state.soundness();
    if state.lacks_classes(student) {
        found.push(Violation::Invalid { student })?;
    }
    Ok(())
}

// Adds each student whose list is no valid enrolment.
#[tactic(auto, using(tt_verify::proofs::WalkLemmas::pieces_more, std::proofs::Common::append_assoc))]
fn add_enrolment_faults(state: &State, found: &mut Vec<Violation>) -> Result<(), AllocError>
    ensures { OnOk result (found.new.items
        ≡ found.old.items
        ++ flat_map (enrolment_fault state.now.problem state.now.present)
        (range_with_len 0 (length state.now.problem.students))) }
{
    for student in 0..state.problem().student_count() {
        add_enrolment_fault(state, student, found)?;
    }
    Ok(())
}

// All that is wrong in the present snapshot.
#[tactic(auto, using(std::proofs::Common::append_assoc), unfolding(crate::specs::Violations::present_violations))]
fn present_violations(alloc: Global, state: &State) -> Result<Vec<Violation>, AllocError>
    ensures { IfOk result
        (λ found. found.items ≡ present_violations state.now.problem state.now.present) }
{
    let score = state.score();
    let spots = score.occupancy().spots();
    let mut found = Vec::new(alloc);
    state.soundness();
    add_unplaced_faults(state, &mut found)?;
    add_enrolment_faults(state, &mut found)?;
    add_hard_violations(alloc, state.problem(), score.closures(), spots, &mut found)?;
    Ok(found)
}

/// Appends a line for each thing that is wrong in the present snapshot, and the line on how many they
/// are: as many as the totals count classes without a value, students with a course and no class, and
/// hard conflicts (`count`, `hard`), so none exactly where the snapshot is ready (`ready`). Where
/// memory is wanting, some of the lines may have been appended.
#[tactic(auto, using(std::proofs::Common::append_assoc), unfolding(crate::specs::Violations::violations_lines))]
pub fn violations(alloc: Global, state: &State, out: &mut Reply) -> Result<(), AllocError>
    ensures lines { OnOk result
        (out.new ≡ out.old ++ violations_lines state.now.problem state.now.present) }
    ensures count { OnOk result (length (present_violations state.now.problem state.now.present)
        ≡ fault_count (totals_of state.now.problem state.now.present.closures state.now.present.plan
        state.now.present.lists)) }
    ensures hard { OnOk result (length (hard_violations state.now.problem state.now.present.closures
        (spots_of state.now.problem state.now.present.plan))
        ≡ (totals_of state.now.problem state.now.present.closures state.now.present.plan
        state.now.present.lists).hard) }
    ensures ready { OnOk result ((present_violations state.now.problem state.now.present ≡ [])
        ↔ (is_ready state.now.problem state.now.present ≡ true)) }
{
    state.soundness();
    let found = present_violations(alloc, state)?;
    add_lines(out, state.problem(), &found)?;
    add_count(out, found.len() as u64)
}
