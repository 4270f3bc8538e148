//! The commands by which the office changes one class or one student, and `undo`.

ghost use Rattle.std.specs.Prelude.{◌≡◌, []};
ghost use Rattle.tt_desk.specs.Desk.{obstacle_refusal};
ghost use Rattle.tt_desk.specs.Carried.{IsDone};

use crate::known::{
    known_class, known_classes, known_room, known_student, known_time, known_value,
};
use crate::moved::{count_among, count_with_conflicts, count_with_taken};
use crate::refusal::Refusal;
use crate::reply::add_taken;
use crate::session::Session;
use crate::unmet::Unmet;
use crate::wanting::Wanting;
use tt_bits::BitWord;
use tt_problem::Problem;
use tt_script::{Command, Ids};
use tt_state::{Obstacle, SectionFault};
use tt_text::Reply;

// Why a class isn't forced to a value.
fn obstacle_refusal(problem: &Problem, obstacle: Obstacle) -> Refusal
    ensures { result ≡ obstacle_refusal problem.now obstacle }
{
    match obstacle {
        Obstacle::Blocked { block } => Refusal::Blocked { reason: block },
        Obstacle::Held { class } => Refusal::Held {
            class: problem.class_id(class),
        },
    }
}

impl Session {
    // Gives a class a value, by ids and the number of a time.
    #[tactic(auto, using(crate::proofs::MovedLemmas::moved_once))]
    pub(crate) fn assign(&mut self, class: u32, time: u32, room: Option<u32>) -> Result<(), Unmet>
        ensures { IsDone self.old (Command.Assign class time room) self.new [] result }
    {
        let problem = self.state.problem();
        let class = known_class(problem, class)?;
        let value = known_value(problem, class, time, room)?;
        let was = count_among(&self.state, &self.published, &[class]);
        self.state.assign(class, value)?;
        let is = count_among(&self.state, &self.published, &[class]);
        self.moved.step_over(&self.state, &self.published, was, is);
        Ok(())
    }

    // Takes its value from a class, by its id.
    #[tactic(auto, using(crate::proofs::MovedLemmas::moved_once))]
    pub(crate) fn unassign(&mut self, class: u32) -> Result<(), Unmet>
        ensures { IsDone self.old (Command.Unassign class) self.new [] result }
    {
        let class = known_class(self.state.problem(), class)?;
        let was = count_among(&self.state, &self.published, &[class]);
        if !self.state.unassign(class)? {
            return Err(Unmet::Refused(Refusal::NotPlaced));
        }
        let is = count_among(&self.state, &self.published, &[class]);
        self.moved.step_over(&self.state, &self.published, was, is);
        Ok(())
    }

    // Gives a student the classes of a list, by ids.
    pub(crate) fn section(&mut self, student: u32, classes: Ids) -> Result<(), Unmet>
        ensures { IsDone self.old (Command.Section student classes) self.new [] result }
    {
        let problem = self.state.problem();
        let classes = known_classes(problem, classes)?;
        let student = known_student(problem, student)?;
        match self.state.section(student, &classes)? {
            None => {
                self.moved.step(&self.state, &self.published);
                Ok(())
            }
            Some(SectionFault::Invalid) => Err(Unmet::Refused(Refusal::NoEnrolment)),
            Some(SectionFault::Full { class }) => Err(Unmet::Refused(Refusal::NoSeat {
                class: self.state.problem().class_id(class),
            })),
        }
    }

    // Takes all classes from a student, by the student's id.
    pub(crate) fn drop_student(&mut self, student: u32) -> Result<(), Unmet>
        ensures { IsDone self.old (Command.Drop student) self.new [] result }
    {
        let student = known_student(self.state.problem(), student)?;
        if !self.state.drop_student(student)? {
            return Err(Unmet::Refused(Refusal::NotSectioned));
        }
        self.moved.step(&self.state, &self.published);
        Ok(())
    }

    // Closes a room, by its id, at the time that two words and two numbers of slots write.
    pub(crate) fn close(
        &mut self,
        room: u32,
        days: BitWord,
        start: u16,
        length: u16,
        weeks: BitWord,
    ) -> Result<(), Unmet>
        ensures { IsDone self.old (Command.Close room days start length weeks) self.new [] result }
    {
        let problem = self.state.problem();
        let room = known_room(problem, room)?;
        let time = known_time(problem, days, start, length, weeks)?;
        if !self.state.close(room, time)? {
            return Err(Unmet::Refused(Refusal::TooManyClosures));
        }
        self.moved.step(&self.state, &self.published);
        Ok(())
    }

    // Lifts all closures of a room, by its id.
    pub(crate) fn reopen(&mut self, room: u32) -> Result<(), Unmet>
        ensures { IsDone self.old (Command.Reopen room) self.new [] result }
    {
        let room = known_room(self.state.problem(), room)?;
        if !self.state.reopen(room)? {
            return Err(Unmet::Refused(Refusal::NothingClosed));
        }
        self.moved.step(&self.state, &self.published);
        Ok(())
    }

    // Goes back by a step.
    pub(crate) fn undo(&mut self) -> Result<(), Unmet>
        ensures { IsDone self.old Command.Undo self.new [] result }
    {
        if !self.state.undo() {
            return Err(Unmet::Refused(Refusal::NothingToUndo));
        }
        self.moved.back(&self.state, &self.published);
        Ok(())
    }

    // Forces a class to a value, by ids and the number of a time, with a line for each class that is
    // taken out.
    pub(crate) fn force(
        &mut self,
        class: u32,
        time: u32,
        room: Option<u32>,
        reply: &mut Reply,
    ) -> Result<(), Unmet>
        requires { reply.old ≡ [] }
        ensures { IsDone self.old (Command.Force class time room) self.new reply.new result }
    {
        let problem = self.state.problem();
        let class = known_class(problem, class)?;
        let value = known_value(problem, class, time, room)?;
        let was = count_with_conflicts(&mut self.state, &self.published, class, value);
        if let Some(obstacle) = self.state.force(class, value)? {
            let refusal = obstacle_refusal(self.state.problem(), obstacle);
            return Err(Unmet::Refused(refusal));
        }
        let is = count_with_taken(&self.state, &self.published, class);
        self.moved.step_over(&self.state, &self.published, was, is);
        if add_taken(reply, self.state.problem(), self.state.taken()).is_err() {
            return Err(Unmet::Wanting(Wanting::Reply));
        }
        Ok(())
    }
}
