//! The calls of a state that lock classes and take locks off. What they change stands in `locks.rt`.

ghost use Rattle.std.specs.Prelude.{◌≡◌, ◌<◌, ◌∷◌, ◌++◌, [], None, Ok, ◌↔◌, IfOk, OnOk, OnErr, OnSome, false, true, length};
ghost use Rattle.tt_state.specs.Snapshots.{all_locked, is_locked_in, lockable, locked_classes, none_locked, with_lock};
ghost use Rattle.tt_state.specs.Faults.{lock_fault_of};
ghost use Rattle.tt_state.specs.Past.{HasPastOf, MayBegin, begun};
ghost use Rattle.tt_state.specs.Desk.{moved_to, stepped};
ghost use Rattle.tt_state.specs.History.{IsWithinStep, desk_of, earlier, noted_by, point_count, trail};
ghost use Rattle.tt_state.specs.Turned.{all_turned, may_turn, lock_entry, turning};

use crate::locks::{LockFault, lock_fault, turn, turn_all, turn_count};
use crate::past::Beginning;
use crate::state::State;
use std::alloc::AllocError;
use tt_journal::Entry;

impl State {
    /// Whether a class is locked.
    pub fn is_locked(&self, class: u32) -> bool
        ensures { result ≡ is_locked_in self.now.present class }
    {
        self.present.is_locked(class)
    }

    // Puts a lock on a class, or takes it off.
    fn turn(&mut self, beginning: Beginning, class: u32, lock: bool) -> Result<(), AllocError>
        requires may { may_turn lock self.old.present class ≡ true }
        requires begins { MayBegin beginning self.old.entries }
        ensures now { OnOk result (self.new
            ≡ record {
              problem = self.old.problem;
              present = with_lock self.old.present class lock;
              entries = lock_entry lock class ∷ begun beginning self.old.entries;
              taken = self.old.taken;
            }) }
        ensures past { OnOk result (HasPastOf self.old.present (begun beginning self.old.entries)
            self.new.present self.new.entries) }
        ensures err { OnErr result (self.new ≡ self.old) }
    {
        self.past.reserve(2)?;
        self.past.begin(beginning);
        turn(&mut self.present, &mut self.past, class, lock);
        Ok(())
    }

    /// Locks a class, as one step. Why it can't be locked, if it is so; then nothing changes.
    #[tactic(auto, using(crate::proofs::PastLemmas::step_desk, crate::proofs::PastLemmas::step_trail))]
    pub fn lock(&mut self, class: u32) -> Result<Option<LockFault>, AllocError>
        ensures desk { result ≡ Ok None
            → desk_of self.new
            ≡ stepped (desk_of self.old) (with_lock self.old.present class true) }
        ensures trail { result ≡ Ok None → trail self.new ≡ self.new.present ∷ [] }
        ensures entries { result ≡ Ok None
            → self.new.entries
            ≡ Entry.Locked class
            ∷ Entry.Mark (point_count self.old.entries)
            ∷ self.old.entries }
        ensures taken { result ≡ Ok None → self.new.taken ≡ self.old.taken }
        ensures same { IfOk result (λ fault. OnSome fault (self.new ≡ self.old)) }
        ensures err { OnErr result (self.new ≡ self.old) }

        ensures fault { IfOk result (λ fault. fault ≡ lock_fault_of self.old.present class) }
        ensures memory { OnErr result (lock_fault_of self.old.present class ≡ None) }
    {
        if let Some(fault) = lock_fault(&self.present, class) {
            return Ok(Some(fault));
        }
        self.turn(Beginning::Step, class, true)?;
        Ok(None)
    }

    /// Takes its lock off a class, as one step. Whether it was locked; if not, nothing changes.
    #[tactic(auto, using(crate::proofs::PastLemmas::step_desk, crate::proofs::PastLemmas::step_trail))]
    pub fn unlock(&mut self, class: u32) -> Result<bool, AllocError>
        ensures desk { result ≡ Ok true
            → desk_of self.new
            ≡ stepped (desk_of self.old) (with_lock self.old.present class false) }
        ensures trail { result ≡ Ok true → trail self.new ≡ self.new.present ∷ [] }
        ensures entries { result ≡ Ok true
            → self.new.entries
            ≡ Entry.Unlocked class
            ∷ Entry.Mark (point_count self.old.entries)
            ∷ self.old.entries }
        ensures taken { result ≡ Ok true → self.new.taken ≡ self.old.taken }
        ensures same { result ≡ Ok false → self.new ≡ self.old }
        ensures err { OnErr result (self.new ≡ self.old) }

        ensures not_locked { (result ≡ Ok false) ↔ (is_locked_in self.old.present class ≡ false) }
    {
        if !self.is_locked(class) {
            return Ok(false);
        }
        self.turn(Beginning::Step, class, false)?;
        Ok(true)
    }

    /// Takes its lock off a class that is locked, in the last step.
    #[tactic(auto, using(crate::proofs::PastLemmas::moved_desk, crate::proofs::PastLemmas::moved_trail, crate::proofs::PastLemmas::moved_within, crate::proofs::StepLemmas::step_is))]
    pub fn unlock_step(&mut self, class: u32) -> Result<(), AllocError>
        requires locked { is_locked_in self.old.present class ≡ true }
        requires step { 0 < length (earlier self.old) }
        ensures desk { OnOk result (desk_of self.new
            ≡ moved_to (desk_of self.old) (with_lock self.old.present class false)) }
        ensures trail { OnOk result (trail self.new ≡ trail self.old ++ self.new.present ∷ []) }
        ensures step { OnOk result (IsWithinStep self.old self.new) }
        ensures entries { OnOk result
            (self.new.entries ≡ Entry.Unlocked class ∷ Entry.Point ∷ self.old.entries) }
        ensures err { OnErr result (self.new ≡ self.old) }
    {
        self.turn(Beginning::Moment, class, false)
    }

    // Locks each placed class, or takes each lock off. How many locks turned.
    fn turn_all(&mut self, lock: bool) -> Result<u32, AllocError>
        ensures now { OnOk result (self.new
            ≡ record {
              problem = self.old.problem;
              present = all_turned lock self.old.present;
              entries = noted_by (lock_entry lock) (turning lock self.old.present)
                  (begun Beginning.Step self.old.entries);
              taken = self.old.taken;
            }) }
        ensures past { OnOk result (HasPastOf self.old.present
            (begun Beginning.Step self.old.entries) self.new.present self.new.entries) }
        ensures count { IfOk result (λ count. count ≡ length (turning lock self.old.present)) }
        ensures err { OnErr result (self.new ≡ self.old) }
    {
        let count = turn_count(&self.problem, &self.present, lock);
        self.past.reserve(count + 1)?;
        self.past.begin(Beginning::Step);
        turn_all(&self.problem, &mut self.present, &mut self.past, lock);
        Ok(count)
    }

    /// Locks each placed class, as one step. How many of them weren't locked before.
    #[tactic(auto, using(crate::proofs::PastLemmas::step_desk, crate::proofs::PastLemmas::step_trail))]
    pub fn lock_all(&mut self) -> Result<u32, AllocError>
        ensures desk { OnOk result
            (desk_of self.new ≡ stepped (desk_of self.old) (all_locked self.old.present)) }
        ensures count { IfOk result (λ count. count ≡ length (lockable self.old.present)) }
        ensures trail { OnOk result (trail self.new ≡ self.new.present ∷ []) }
        ensures entries { OnOk result (self.new.entries
            ≡ noted_by Entry.Locked (lockable self.old.present)
            (Entry.Mark (point_count self.old.entries) ∷ self.old.entries)) }
        ensures taken { OnOk result (self.new.taken ≡ self.old.taken) }
        ensures err { OnErr result (self.new ≡ self.old) }
    {
        self.turn_all(true)
    }

    /// Takes the lock off each class that is locked, as one step. How many these were.
    #[tactic(auto, using(crate::proofs::PastLemmas::step_desk, crate::proofs::PastLemmas::step_trail))]
    pub fn unlock_all(&mut self) -> Result<u32, AllocError>
        ensures desk { OnOk result
            (desk_of self.new ≡ stepped (desk_of self.old) (none_locked self.old.present)) }
        ensures count { IfOk result (λ count. count ≡ length (locked_classes self.old.present)) }
        ensures trail { OnOk result (trail self.new ≡ self.new.present ∷ []) }
        ensures entries { OnOk result (self.new.entries
            ≡ noted_by Entry.Unlocked (locked_classes self.old.present)
            (Entry.Mark (point_count self.old.entries) ∷ self.old.entries)) }
        ensures taken { OnOk result (self.new.taken ≡ self.old.taken) }
        ensures err { OnErr result (self.new ≡ self.old) }
    {
        self.turn_all(false)
    }
}
