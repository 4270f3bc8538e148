//! The problem, and what it tells of its parts.

ghost use Rattle.std.specs.Prelude.{◌≡◌, ◌<◌, ◌≤◌, length, map, slice_get, slice_index, Some, IfOk, IfSome};
ghost use Rattle.tt_base.specs.Limits.{most_classes, most_rooms, most_rules, most_students};
ghost use Rattle.tt_problem.specs.Spans.{IsSpanWithin};
ghost use Rattle.tt_problem.specs.ListLengths.{most_classes_of};
ghost use Rattle.tt_problem.specs.Valid.{class_ids, student_ids, AreValidWeights, IsValid, IsValidClass, IsValidRoom, IsValidRule, IsValidStudent};
ghost use Rattle.tt_problem.specs.RulePlaces.{rules_of};
ghost use Rattle.tt_problem.specs.Places.{place_of_id, class_id, student_id, class_of, room_of, student_of, subpart_of, config_of, course_of};

use crate::index::{Index, index_of};
use crate::parts::{
    ClassPart, CoursePart, Parts, RoomPart, Rule, RulePlace, Span, StudentPart, Weights,
};
use crate::sums;
use indexmap::IndexSet;
use std::alloc::{AllocError, Global};
use std::marker::Model;
use tt_travel::Travel;

/// A problem, seen as its parts, which are valid. It never changes.
#[derive(Drop)]
pub struct Problem {
    parts: Parts,
    index: Index,
}

impl Model for Problem {
    ghost use Rattle.tt_problem.specs.declared.parts.Parts.{Parts};

    ghost Value = { Parts };

    ghost view = { λ p. p.parts };

    ghost use Rattle.tt_problem.specs.Kept.{ProblemIsKept};

    ghost invariant = { ProblemIsKept };
}

#[tactic(auto, using(crate::proofs::SpanLemmas::span_within, crate::proofs::SpanLemmas::course_within))]
impl Problem {
    /// The problem of these parts. Where there is no memory for its index and tables, the parts are
    /// dropped.
    pub fn build(alloc: Global, parts: Parts) -> Result<Problem, AllocError>
        requires { IsValid parts }
        ensures { IfOk result (λ p. p ≡ parts) }
    {
        let index = index_of(alloc, &parts)?;
        Ok(Problem { parts, index })
    }

    /// All parts.
    pub fn parts(&self) -> &Parts
        ensures { result.now ≡ self.now }
    {
        &self.parts
    }

    /// How many days a week has.
    pub fn nr_days(&self) -> u8
        ensures value { result ≡ self.now.nr_days }
        ensures some { 1 ≤ result }
        ensures few { result ≤ 7 }
    {
        self.parts.nr_days
    }

    /// How many weeks the term has.
    pub fn nr_weeks(&self) -> u8
        ensures value { result ≡ self.now.nr_weeks }
        ensures some { 1 ≤ result }
        ensures few { result ≤ 128 }
    {
        self.parts.nr_weeks
    }

    /// The weights of the total.
    pub fn weights(&self) -> Weights
        ensures value { result ≡ self.now.weights }
        ensures valid { AreValidWeights result }
    {
        self.parts.weights
    }

    /// How many courses there are.
    pub fn course_count(&self) -> u32
        ensures count { result ≡ length self.now.courses }
        ensures few { result ≤ most_classes }
    {
        self.parts.courses.len() as u32
    }

    /// How many classes there are.
    pub fn class_count(&self) -> u32
        ensures count { result ≡ length self.now.classes }
        ensures few { result ≤ most_classes }
    {
        self.parts.classes.len() as u32
    }

    /// The id of the class at a place, and 0 where there is no class.
    #[tactic(auto, using(crate::proofs::IdLemmas::number_at), unfolding(crate::specs::Places::class_id))]
    pub fn class_id(&self, class: u32) -> u32
        ensures { result ≡ class_id self.now class }
    {
        match self.parts.classes.get(class as usize) {
            None => 0,
            Some(part) => part.id,
        }
    }

    /// The id of the student at a place, and 0 where there is no student.
    #[tactic(auto, using(crate::proofs::IdLemmas::number_at), unfolding(crate::specs::Places::student_id))]
    pub fn student_id(&self, student: u32) -> u32
        ensures { result ≡ student_id self.now student }
    {
        match self.parts.students.get(student as usize) {
            None => 0,
            Some(part) => part.id,
        }
    }

    /// The place of the class with an id, and `None` where no class has it.
    pub fn class_of(&self, id: u32) -> Option<u32>
        ensures place { result ≡ class_of self.now id }
        ensures in_range { IfSome result (λ place. place < length self.now.classes) }
    {
        place_of_id(&self.index.ids.classes, id)
    }

    /// The place of the room with an id, and `None` where no room has it.
    pub fn room_of(&self, id: u32) -> Option<u32>
        ensures place { result ≡ room_of self.now id }
        ensures in_range { IfSome result (λ place. place < length self.now.rooms) }
    {
        place_of_id(&self.index.ids.rooms, id)
    }

    /// The place of the student with an id, and `None` where no student has it.
    pub fn student_of(&self, id: u32) -> Option<u32>
        ensures place { result ≡ student_of self.now id }
        ensures in_range { IfSome result (λ place. place < length self.now.students) }
    {
        place_of_id(&self.index.ids.students, id)
    }

    /// The class at a place.
    pub fn class(&self, place: u32) -> &ClassPart
        requires { place < length self.now.classes }
        ensures part { slice_get self.now.classes place ≡ Some result.now }
        ensures valid { IsValidClass self.now result.now }
    {
        &self.parts.classes.as_slice()[place as usize]
    }

    /// The course at a place.
    pub fn course(&self, place: u32) -> &CoursePart
        requires { place < length self.now.courses }
        ensures part { slice_get self.now.courses place ≡ Some result.now }
        ensures within { IsSpanWithin (length self.now.configs) result.now.configs }
    {
        &self.parts.courses.as_slice()[place as usize]
    }

    /// The subparts of the configuration at a place.
    pub fn config(&self, place: u32) -> Span
        requires { place < length self.now.configs }
        ensures part { slice_get self.now.configs place ≡ Some result }
        ensures within { IsSpanWithin (length self.now.subparts) result }
    {
        self.parts.configs.as_slice()[place as usize]
    }

    /// The classes of the subpart at a place.
    pub fn subpart(&self, place: u32) -> Span
        requires { place < length self.now.subparts }
        ensures part { slice_get self.now.subparts place ≡ Some result }
        ensures within { IsSpanWithin (length self.now.classes) result }
    {
        self.parts.subparts.as_slice()[place as usize]
    }

    /// The place of the subpart that has a class.
    pub fn subpart_of(&self, class: u32) -> u32
        requires { class < length self.now.classes }
        ensures place { subpart_of self.now class ≡ Some result }
        ensures in_range { result < length self.now.subparts }
    {
        self.index.owners.subparts.as_slice()[class as usize]
    }

    /// The place of the configuration that has a class.
    pub fn config_of(&self, class: u32) -> u32
        requires { class < length self.now.classes }
        ensures place { config_of self.now class ≡ Some result }
        ensures in_range { result < length self.now.configs }
    {
        self.index.owners.configs.as_slice()[self.subpart_of(class) as usize]
    }

    /// The place of the course that has a class.
    pub fn course_of(&self, class: u32) -> u32
        requires { class < length self.now.classes }
        ensures place { course_of self.now class ≡ Some result }
        ensures in_range { result < length self.now.courses }
    {
        self.index.owners.courses.as_slice()[self.config_of(class) as usize]
    }

    /// How many students there are.
    pub fn student_count(&self) -> u32
        ensures count { result ≡ length self.now.students }
        ensures few { result ≤ most_students }
    {
        self.parts.students.len() as u32
    }

    /// The student at a place.
    pub fn student(&self, place: u32) -> &StudentPart
        requires { place < length self.now.students }
        ensures part { slice_get self.now.students place ≡ Some result.now }
        ensures valid { IsValidStudent self.now result.now }
    {
        &self.parts.students.as_slice()[place as usize]
    }

    /// The most classes that the list of the student at a place may have.
    #[tactic(auto, using(crate::proofs::SpanLemmas::few_subparts, crate::proofs::SumLemmas::few_subparts_in_table, crate::proofs::SumLemmas::classes_in_table, crate::proofs::IdLemmas::number_at))]
    pub fn most_classes_of(&self, student: u32) -> u32
        requires { student < length self.now.students }
        ensures most { result
            ≡ slice_index (map (most_classes_of self.now) self.now.students) student }
        ensures few { result ≤ 800000 }
    {
        let subparts = self.index.most_subparts.as_slice();
        sums::most_classes_of(subparts, self.student(student))
    }

    /// The rules by which parts make a problem hold.
    pub fn validity(&self)
        ensures { IsValid self.now }
    {
        let _ = &self.parts;
    }

    /// The travel between rooms.
    pub fn travel(&self) -> &Travel
        ensures { result.now ≡ self.now.travel }
    {
        &self.parts.travel
    }

    /// How many rules there are.
    pub fn rule_count(&self) -> u32
        ensures count { result ≡ length self.now.rules }
        ensures few { result ≤ most_rules }
    {
        self.parts.rules.len() as u32
    }

    /// The rule at a place.
    pub fn rule(&self, place: u32) -> &Rule
        requires { place < length self.now.rules }
        ensures part { slice_get self.now.rules place ≡ Some result.now }
        ensures valid { IsValidRule self.now result.now }
    {
        &self.parts.rules.as_slice()[place as usize]
    }

    /// How many rooms there are.
    pub fn room_count(&self) -> u32
        ensures count { result ≡ length self.now.rooms }
        ensures few { result ≤ most_rooms }
    {
        self.parts.rooms.len() as u32
    }

    /// The room at a place.
    pub fn room(&self, place: u32) -> &RoomPart
        requires { place < length self.now.rooms }
        ensures part { slice_get self.now.rooms place ≡ Some result.now }
        ensures valid { IsValidRoom self.now.nr_days self.now.nr_weeks result.now }
    {
        &self.parts.rooms.as_slice()[place as usize]
    }

    /// The rules that have a class, in order, and its place in each.
    pub fn rules_of(&self, class: u32) -> &[RulePlace]
        requires { class < length self.now.classes }
        ensures { result.now ≡ rules_of self.now class }
    {
        self.index.rule_places[class as usize].as_slice()
    }

    /// The ids of the classes, in order.
    pub fn class_ids(&self) -> &IndexSet<u32>
        ensures { result.now.keys ≡ class_ids self.now.classes }
    {
        &self.index.ids.classes
    }

    /// The ids of the students, in order.
    pub fn student_ids(&self) -> &IndexSet<u32>
        ensures { result.now.keys ≡ student_ids self.now.students }
    {
        &self.index.ids.students
    }
}

// Where an id stands, and `None` where it is unknown.
fn place_of_id(ids: &IndexSet<u32>, id: u32) -> Option<u32>
    requires { length ids.now.keys ≤ most_students }
    ensures place { result ≡ place_of_id ids.now.keys id }
    ensures in_range { IfSome result (λ place. place < length ids.now.keys) }
{
    ids.get_index_of(&id).map(|place| place as u32)
}
