//! The questions that are asked of a whole timetable, of each value of a class, and of who has what.
//! They make no step.

ghost use Rattle.std.specs.Prelude.{◌≡◌, []};
ghost use Rattle.tt_desk.specs.Carried.{IsDone};

use crate::known::{known_class, known_student};
use crate::reply::add_draft;
use crate::session::Session;
use crate::unmet::Unmet;
use std::alloc::Global;
use tt_explain::{costs, meets, values, violations};
use tt_script::Command;
use tt_text::Reply;

impl Session {
    // Tells what each value of a class would cost, by its id.
    pub(crate) fn values(&mut self, class: u32, reply: &mut Reply) -> Result<(), Unmet>
        requires { reply.old ≡ [] }
        ensures { IsDone self.old (Command.Values class) self.new reply.new result }
    {
        let class = known_class(self.state.problem(), class)?;
        values(&mut self.state, class, reply)?;
        Ok(())
    }

    // Tells with which other classes a class conflicts, and for how many students, by its id.
    pub(crate) fn meets(&self, alloc: Global, class: u32, reply: &mut Reply) -> Result<(), Unmet>
        requires { reply.old ≡ [] }
        ensures { IsDone self.now (Command.Meets class) self.now reply.new result }
    {
        let class = known_class(self.state.problem(), class)?;
        meets(alloc, &self.state, class, reply)?;
        Ok(())
    }

    // Tells which classes a student has and which of them conflict, by the student's id.
    pub(crate) fn student(&self, student: u32, reply: &mut Reply) -> Result<(), Unmet>
        requires { reply.old ≡ [] }
        ensures { IsDone self.now (Command.Student student) self.now reply.new result }
    {
        let student = known_student(self.state.problem(), student)?;
        tt_explain::student(&self.state, student, reply)?;
        Ok(())
    }

    // Tells all that is wrong with the present timetable.
    pub(crate) fn violations(&self, alloc: Global, reply: &mut Reply) -> Result<(), Unmet>
        requires { reply.old ≡ [] }
        ensures { IsDone self.now Command.Violations self.now reply.new result }
    {
        violations(alloc, &self.state, reply)?;
        Ok(())
    }

    // Tells what the total is made of.
    pub(crate) fn costs(&self, alloc: Global, reply: &mut Reply) -> Result<(), Unmet>
        requires { reply.old ≡ [] }
        ensures { IsDone self.now Command.Costs self.now reply.new result }
    {
        costs(alloc, &self.state, reply)?;
        Ok(())
    }

    // Tells what there is of the timetable, in the form in which it would be published.
    pub(crate) fn draft(&self, alloc: Global, reply: &mut Reply) -> Result<(), Unmet>
        requires { reply.old ≡ [] }
        ensures { IsDone self.now Command.Draft self.now reply.new result }
    {
        add_draft(alloc, &self.state, reply)?;
        Ok(())
    }
}
