//! In how many conflicting pairs each class is, counted in one pass over the lists of the students.

ghost use Rattle.std.specs.Prelude.{◌≡◌, ℕ, ◌+◌, ◌<◌, ◌≤◌, ◌==◌, if◌then◌else◌, IfOk, length, slice_index, sum_by};
ghost use Rattle.std.specs.List.{range_with_len};
ghost use Rattle.tt_roster.specs.Lists.{Ascends};
ghost use Rattle.tt_verify.specs.Pairs.{pairs_with};
ghost use Rattle.tt_explain.specs.Explain.{pair_count};
ghost use Rattle.tt_explain.specs.Pairs.{conflict_between, pairs_of, times_in};

use crate::attending::classes_behind;
use crate::now::conflict_between;
use std::alloc::{AllocError, Global};
use tt_roster::Attendance;
use tt_state::State;

// Counts a pair of classes at both, where nobody can attend both.
fn count_pair(counts: &mut [u64], state: &State, class: u32, other: u32)
    requires class { class < length counts.old }
    requires other { other < length counts.old }
    requires few { (x : ℕ) → slice_index counts.old x ≤ 4000000 }
    ensures { (x : ℕ)
        → slice_index counts.new x
        ≡ slice_index counts.old x
        + (if conflict_between state.now.problem state.now.present class other
        then (if class == x then 1 else 0) + (if other == x then 1 else 0)
        else 0) }
{
    if conflict_between(state, class, other) {
        counts[class as usize] += 1;
        counts[other as usize] += 1;
    }
}

// Counts the conflicting pairs of a class with later classes, at both of their classes.
fn count_pairs_with(counts: &mut [u64], state: &State, class: u32, later: Attendance<'_>)
    requires class { class < length counts.old }
    requires later { Ascends 0 (length counts.old) later }
    requires few { (x : ℕ)
        → slice_index counts.old x
        + times_in x
        (pairs_with (conflict_between state.now.problem state.now.present) class later)
        ≤ 4000000 }
    ensures { (x : ℕ)
        → slice_index counts.new x
        ≡ slice_index counts.old x
        + times_in x (pairs_with (conflict_between state.now.problem state.now.present)
        class later.entry) }
{
    for other in later {
        count_pair(counts, state, class, other);
    }
}

// Counts the conflicting pairs of a student at both of their classes.
fn count_student(counts: &mut [u64], state: &State, student: u32)
    requires student { student < length state.now.problem.students }
    requires whole { length counts.old ≡ length state.now.problem.classes }
    requires few { (class : ℕ)
        → slice_index counts.old class + pairs_of state.now.problem state.now.present class student
        ≤ 4000000 }
    ensures { (class : ℕ)
        → slice_index counts.new class
        ≡ slice_index counts.old class
        + pairs_of state.now.problem state.now.present class student }
{
    state.problem().validity();
    state.soundness();
    let mut place = 0;
    for class in state.classes_of(student) {
        place += 1;
        count_pairs_with(counts, state, class, classes_behind(state, student, place));
    }
}

// All students together have the conflicting pairs with a class, no more than there may be seats.
fn counts_add_up(state: &State)
    ensures all { (class : ℕ)
        → sum_by (pairs_of state.now.problem state.now.present class)
        (range_with_len 0 (length state.now.problem.students))
        ≡ pair_count state.now.problem state.now.present class }
    ensures few { (class : ℕ) → pair_count state.now.problem state.now.present class ≤ 4000000 }
{
    state.problem().validity();
    state.soundness();
    let _ = state.score();
}

/// In how many conflicting pairs each class is, over the lists of all students: one number a class, 0
/// where it isn't placed. It takes memory for them, and goes once over each list.
pub fn pair_counts(alloc: Global, state: &State) -> Result<Vec<u64>, AllocError>
    ensures whole { IfOk result (λ counts. length counts.items ≡ length state.now.problem.classes) }
    ensures counts { IfOk result (λ counts.
        (class : ℕ)
        → slice_index counts.items class ≡ pair_count state.now.problem state.now.present class) }
{
    counts_add_up(state);
    let mut counts = vec![in alloc; 0; state.problem().class_count() as usize]?;
    for student in 0..state.problem().student_count() {
        count_student(&mut counts, state, student);
    }
    Ok(counts)
}
