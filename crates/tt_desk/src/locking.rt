//! The commands that lock classes and let them be moved again.

ghost use Rattle.std.specs.Prelude.{◌≡◌, [], ℕ, false};
ghost use Rattle.tt_state.specs.Snapshots.{is_locked_in};
ghost use Rattle.tt_desk.specs.Desk.{lock_refusal};
ghost use Rattle.tt_desk.specs.Carried.{IsDone};
ghost use Rattle.tt_desk.specs.Unlocked.{IsWithoutLocks};

use crate::known::known_class;
use crate::refusal::Refusal;
use crate::reply::{put_locked, put_unlocked};
use crate::session::Session;
use crate::unmet::Unmet;
use tt_script::Command;
use tt_state::LockFault;
use tt_text::Reply;

// Why a class isn't locked.
fn lock_refusal(fault: LockFault) -> Refusal
    ensures { result ≡ lock_refusal fault }
{
    match fault {
        LockFault::NotPlaced => Refusal::NotPlaced,
        LockFault::Locked => Refusal::Locked,
    }
}

impl Session {
    /// While no class is locked, what is done and said is what it would be if there were no locks.
    pub fn without_locks(&self)
        ensures { ((class : ℕ) → is_locked_in self.now.desk.present class ≡ false)
            → IsWithoutLocks self.now.desk.problem self.now.desk.present }
    {}

    // Locks a class, by its id.
    pub(crate) fn lock(&mut self, class: u32) -> Result<(), Unmet>
        ensures { IsDone self.old (Command.Lock class) self.new [] result }
    {
        let class = known_class(self.state.problem(), class)?;
        match self.state.lock(class)? {
            None => {
                self.moved.step(&self.state, &self.published);
                Ok(())
            }
            Some(fault) => Err(Unmet::Refused(lock_refusal(fault))),
        }
    }

    // Locks each placed class, and says how many became locked.
    pub(crate) fn lock_all(&mut self, reply: &mut Reply) -> Result<(), Unmet>
        requires { reply.old ≡ [] }
        ensures { IsDone self.old Command.LockAll self.new reply.new result }
    {
        let count = self.state.lock_all()?;
        self.moved.step(&self.state, &self.published);
        put_locked(reply, count);
        Ok(())
    }

    // Takes the lock off a class, by its id.
    pub(crate) fn unlock(&mut self, class: u32) -> Result<(), Unmet>
        ensures { IsDone self.old (Command.Unlock class) self.new [] result }
    {
        let class = known_class(self.state.problem(), class)?;
        if !self.state.unlock(class)? {
            return Err(Unmet::Refused(Refusal::NotLocked));
        }
        self.moved.step(&self.state, &self.published);
        Ok(())
    }

    // Takes the lock off each class, and says how many had one.
    pub(crate) fn unlock_all(&mut self, reply: &mut Reply) -> Result<(), Unmet>
        requires { reply.old ≡ [] }
        ensures { IsDone self.old Command.UnlockAll self.new reply.new result }
    {
        let count = self.state.unlock_all()?;
        self.moved.step(&self.state, &self.published);
        put_unlocked(reply, count);
        Ok(())
    }
}
