//! What a line does to a session, and the reply to it.

ghost use Rattle.std.specs.Prelude.{◌≡◌, ◌<◌, [], Err, IfOk, OnErr, OnOk, length};
ghost use Rattle.tt_script.specs.Forms.{HasDepth};
ghost use Rattle.tt_desk.specs.Desk.{line_step};
ghost use Rattle.tt_desk.specs.Lines.{refusal_line};
ghost use Rattle.tt_desk.specs.Replies.{reply_of};
ghost use Rattle.tt_desk.specs.Causes.{IsMemoryCause};
ghost use Rattle.tt_desk.specs.Carried.{IsDone};

use crate::refusal::{Outcome, Refusal};
use crate::reply::put_refusal;
use crate::session::Session;
use crate::unmet::{Unmet, is_quit, outcome_of};
use crate::wanting::Wanting;
use std::alloc::Global;
use tt_script::{Command, Line, read_line};
use tt_text::Reply;
use tt_watch::Watcher;

impl Session {
    // Carries a command out, or says why not. Its own lines are put into an empty reply.
    fn carry_out<W: Watcher>(
        &mut self,
        alloc: Global,
        command: Command,
        reply: &mut Reply,
        watcher: &mut W,
    ) -> Result<(), Unmet>
        requires empty { reply.old ≡ [] }
        requires depth { HasDepth command }
        ensures { IsDone self.old command self.new reply.new result }
    {
        match command {
            Command::Assign { class, time, room } => self.assign(class, time, room),
            Command::Unassign { class } => self.unassign(class),
            Command::Force { class, time, room } => self.force(class, time, room, reply),
            Command::Section { student, classes } => self.section(student, classes),
            Command::Drop { student } => self.drop_student(student),
            Command::Enrol { student } => self.enrol(alloc, student),
            Command::EnrolAll => self.enrol_all(alloc, reply, watcher),
            Command::Search { turns, seed } => self.search(alloc, turns, seed, reply, watcher),
            Command::Repair { turns, seed } => self.repair(alloc, turns, seed, reply, watcher),
            Command::Place { turns, seed } => self.place(alloc, turns, seed, reply, watcher),
            Command::Improve { rounds, seed } => self.improve(alloc, rounds, seed, reply, watcher),
            Command::Deluge { rounds, seed } => self.deluge(alloc, rounds, seed, reply, watcher),
            Command::Recall => self.recall(alloc),
            Command::Close {
                room,
                days,
                start,
                length,
                weeks,
            } => self.close(room, days, start, length, weeks),
            Command::Reopen { room } => self.reopen(room),
            Command::Lock { class } => self.lock(class),
            Command::LockAll => self.lock_all(reply),
            Command::Unlock { class } => self.unlock(class),
            Command::UnlockAll => self.unlock_all(reply),
            Command::Undo => self.undo(),
            Command::Publish => self.publish(alloc, reply),
            Command::Draft => self.draft(alloc, reply),
            Command::Totals | Command::Quit => Ok(()),
            Command::Violations => self.violations(alloc, reply),
            Command::Costs => self.costs(alloc, reply),
            Command::Explain { class } => self.explain(class, reply),
            Command::Why { class, time, room } => self.why(class, time, room, reply),
            Command::Values { class } => self.values(class, reply),
            Command::Meets { class } => self.meets(alloc, class, reply),
            Command::Student { student } => self.student(student, reply),
            Command::Stats { class } => self.stats(class, reply),
            Command::Suggest { class, depth } => self.suggest(alloc, class, depth, reply),
        }
    }

    // Does what a line asks for, or says why it is refused. Its own lines are put into the reply,
    // whatever that held.
    #[tactic(auto, unfolding(crate::specs::Desk::line_step, crate::specs::Causes::IsMemoryCause))]
    fn do_line<W: Watcher>(
        &mut self,
        alloc: Global,
        line: &[u8],
        reply: &mut Reply,
        watcher: &mut W,
    ) -> Result<Outcome, Wanting>
        ensures ok { IfOk result (λ outcome.
            line_step self.old line.now
            ≡ record { session = self.new; outcome = outcome; lines = reply.new }) }
        ensures memory { OnErr result (IsMemoryCause self.old line.now) }
        ensures kept { result ≡ Err Wanting.Command → self.new ≡ self.old }
        ensures done { result ≡ Err Wanting.Reply
            → (line_step self.old line.now).session ≡ self.new }
        ensures accepted { result ≡ Err Wanting.Reply
            → (line_step self.old line.now).outcome ≡ Outcome.Accepted }
    {
        reply.clear();
        match read_line(alloc, line)? {
            Line::Empty => Ok(Outcome::Skipped),
            Line::Bad => Ok(Outcome::Refused(Refusal::BadLine)),
            Line::Good(command) => {
                let ends = is_quit(&command);
                let carried = self.carry_out(alloc, command, reply, watcher);
                watcher.end();
                outcome_of(ends, carried)
            }
        }
    }

    /// Answers a line: does what it asks for, or says why it is refused, and makes the reply,
    /// whatever that held. Memory is wanting only where the line's command takes some; then the line was
    /// carried out whole or not at all, and nothing is said of the reply. The watcher is told how far a
    /// long command has come, and when it is over.
    #[tactic(auto, using(crate::proofs::ReplyLemmas::cause_replies))]
    pub fn answer<W: Watcher>(
        &mut self,
        alloc: Global,
        line: &[u8],
        reply: &mut Reply,
        watcher: &mut W,
    ) -> Result<Outcome, Wanting>
        ensures session { OnOk result ((line_step self.old line.now).session ≡ self.new) }
        ensures outcome { IfOk result (λ outcome. (line_step self.old line.now).outcome ≡ outcome) }
        ensures reply { OnOk result (reply_of (line_step self.old line.now) ≡ reply.new) }
        ensures memory { OnErr result (IsMemoryCause self.old line.now) }
        ensures kept { result ≡ Err Wanting.Command → self.new ≡ self.old }
        ensures accepted { result ≡ Err Wanting.Reply
            → (line_step self.old line.now).outcome ≡ Outcome.Accepted }
        ensures done { result ≡ Err Wanting.Reply
            → (line_step self.old line.now).session ≡ self.new }
        ensures replies { OnErr result (0 < length (reply_of (line_step self.old line.now))) }
    {
        let outcome = self.do_line(alloc, line, reply, watcher)?;
        if self.finish_reply(reply, outcome).is_err() {
            return Err(Wanting::Reply);
        }
        Ok(outcome)
    }
}

/// Answers a line of more than 65,536 bytes, whatever it holds and whatever the reply held: it is
/// refused. This takes no memory.
pub fn refuse_long_line(reply: &mut Reply) -> Outcome
    ensures outcome { result ≡ Outcome.Refused Refusal.BadLine }
    ensures reply { reply.new ≡ refusal_line Refusal.BadLine }
{
    reply.clear();
    put_refusal(reply, Refusal::BadLine);
    Outcome::Refused(Refusal::BadLine)
}
