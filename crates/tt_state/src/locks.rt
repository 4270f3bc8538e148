//! What locking does to the present and the past. The calls of a state stand in `state/locking.rt`.

ghost use Rattle.std.specs.Prelude.{◌≡◌, ◌+◌, ◌<◌, ◌≤◌, ◌∷◌, None, length, true};
ghost use Rattle.tt_base.specs.Limits.{most_classes};
ghost use Rattle.tt_state.specs.Snapshots.{may_lock, with_lock};
ghost use Rattle.tt_state.specs.Faults.{lock_fault_of};
ghost use Rattle.tt_state.specs.History.{noted_by};
ghost use Rattle.tt_state.specs.Kept.{snapshot_of};
ghost use Rattle.tt_state.specs.Past.{LeadsTo, StandsOn};
ghost use Rattle.tt_state.specs.Turned.{all_turned, may_turn, lock_entry, turning};

use crate::past::Past;
use crate::present::Present;
use tt_journal::Entry;
use tt_problem::Problem;

/// Why a class can't be locked.
#[derive(Clone, Copy, Debug, PartialEq, Eq)]
pub enum LockFault {
    /// The class has no value.
    NotPlaced,
    /// The class is locked already.
    Locked,
}

/// Why a class can't be locked; `None` where it can.
pub fn lock_fault(present: &Present, class: u32) -> Option<LockFault>
    ensures fault { result ≡ lock_fault_of (snapshot_of present.now) class }
    ensures free { result ≡ None → may_lock (snapshot_of present.now) class ≡ true }
{
    if present.score.value(class).is_none() {
        return Some(LockFault::NotPlaced);
    }
    if present.is_locked(class) {
        return Some(LockFault::Locked);
    }
    None
}

// Whether a class may get a lock, or has one.
fn may_turn(present: &Present, class: u32, lock: bool) -> bool
    ensures { result ≡ may_turn lock (snapshot_of present.now) class }
{
    let locked = present.is_locked(class);
    if lock {
        present.score.value(class).is_some() && !locked
    } else {
        locked
    }
}

/// Puts a lock on a class, or takes it off, and notes it.
pub fn turn(present: &mut Present, past: &mut Past, class: u32, lock: bool)
    requires within { class < length (snapshot_of present.old).locks }
    requires spare { 1 ≤ past.old.spare }
    ensures score { present.new.score ≡ present.old.score }
    ensures now { snapshot_of present.new ≡ with_lock (snapshot_of present.old) class lock }
    ensures entries { past.new.list ≡ lock_entry lock class ∷ past.old.list }
    ensures spare { past.new.spare + 1 ≡ past.old.spare }
{
    past.note(if lock {
        Entry::Locked { class }
    } else {
        Entry::Unlocked { class }
    });
    present.set_lock(class, lock);
}

/// How many classes may get a lock, or have one.
pub fn turn_count(problem: &Problem, present: &Present, lock: bool) -> u32
    requires { length (snapshot_of present.now).plan ≡ length problem.now.classes }
    ensures count { result ≡ length (turning lock (snapshot_of present.now)) }
    ensures few { result ≤ most_classes }
{
    let mut count = 0;
    for class in 0..problem.class_count() {
        if may_turn(present, class, lock) {
            count += 1;
        }
    }
    count
}

/// Puts a lock on each class that may get one, or takes each lock off, and notes each, in their
/// order.
pub fn turn_all(problem: &Problem, present: &mut Present, past: &mut Past, lock: bool)
    requires stands { StandsOn problem.now (snapshot_of present.old) past.old.list }
    requires spare { length (turning lock (snapshot_of present.old)) ≤ past.old.spare }
    ensures score { present.new.score ≡ present.old.score }
    ensures leads { LeadsTo problem.now (snapshot_of present.old) past.old.list
        (snapshot_of present.new) past.new.list }
    ensures now { snapshot_of present.new ≡ all_turned lock (snapshot_of present.old) }
    ensures entries { past.new.list
        ≡ noted_by (lock_entry lock) (turning lock (snapshot_of present.old)) past.old.list }
{
    for class in 0..problem.class_count() {
        if may_turn(present, class, lock) {
            turn(present, past, class, lock);
        }
    }
}
