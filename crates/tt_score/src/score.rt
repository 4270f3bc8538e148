//! The score of a plan, kept by change.

ghost use Rattle.tt_score.specs.Small.{AreSmall};

use crate::classes::{ClassSums, paid_with};
use crate::closing::newly_closed;
use crate::group::Group;
use crate::joint::JointRoster;
use crate::making::new_groups;
use crate::rules::{RuleSums, cost_of, set_in_rules};
use crate::students::{
    student_conflicts_with, student_conflicts_without, students_with_courses, unsectioned_at,
};
use crate::totals::{Penalties, Totals, Without};
use crate::trial::{costs_with, costs_without};
use std::alloc::{AllocError, Global};
use tt_bits::{Spot, Time, Value};
use tt_clash::{Closures, Listing, Placing, conflict_set_within, conflicts};
use tt_measure::Measure;
use tt_occupancy::Occupancy;
use tt_plan::Placement;
use tt_problem::{Problem, Weights};
use tt_roster::Roster;

/// The score of a plan: the value of each class, the classes of each student, the closures of the
/// session, and the sums over them, which are kept while classes are placed, students seated, and
/// rooms closed and reopened. All calls are handed the problem that it was made for.
#[derive(Drop)]
pub struct Score {
    plan: Vec<Option<Value>>,
    occupancy: Occupancy,
    groups: Vec<Group>,
    classes: ClassSums,
    rules: RuleSums,
    weights: Weights,
    roster: JointRoster,
    unsectioned: u32,
    closures: Closures,
    ghost small: { AreSmall occupancy classes rules weights },
}

impl Score {
    ghost use Rattle.std.specs.Prelude.{◌≡◌, ◌↔◌, ◌<◌, ◌≤◌, ◌^◌, ◌++◌, ◌∷◌, Some, None, IsSome, IfSome, IsTrue, IfOk, OnOk, OnErr, [], false, true, length, slice_index, replicate, slice_get, slice_set, slice_index_or, option_and_then, nat_le};
    ghost use Rattle.tt_base.specs.Limits.{most_closures};
    ghost use Rattle.tt_problem.specs.declared.parts.Parts.{Parts};
    ghost use Rattle.tt_problem.specs.declared.parts.Rule.{Rule};
    ghost use Rattle.tt_clash.specs.Blocked.{blocked_by};
    ghost use Rattle.tt_clash.specs.Closures.{made, relifted, without_last};
    ghost use Rattle.tt_plan.specs.Domain.{IsOfDomain, IsSpotOf, spot_at_value, spots_of};
    ghost use Rattle.tt_plan.specs.Placements.{IsPlacement};
    ghost use Rattle.tt_score.specs.Amounts.{rule_amount, cost_sum};
    ghost use Rattle.tt_score.specs.Additions.{rule_cost};
    ghost use Rattle.tt_score.specs.Apart.{cost_sum_without};
    ghost use Rattle.tt_score.specs.Fits.{Fits, plan_of, student_lists, closures_of, occupancy_of, roster_of, group_count};
    ghost use Rattle.tt_base.specs.Lists.{is_listed};
    ghost use Rattle.tt_bits.specs.Spots.{spot_at};
    ghost use Rattle.tt_roster.specs.Lists.{with_class, without_class, list_of};
    ghost use Rattle.tt_score.specs.Forcing.{conflicts_at};
    ghost use Rattle.tt_score.specs.Totals.{totals_of};
    ghost use Rattle.tt_score.specs.Below.{below};
    ghost use Rattle.tt_score.specs.Without.{without_at};

    /// The score where no class is placed, no student has a class, and nothing is closed. Only this
    /// call and `close` take memory.
    pub fn new(alloc: Global, problem: &Problem) -> Result<Score, AllocError>
        ensures plan { IfOk result (λ s. plan_of s ≡ replicate (length problem.now.classes) None) }
        ensures lists { IfOk result
            (λ s. student_lists s ≡ replicate (length problem.now.students) []) }
        ensures closures { IfOk result (λ s. closures_of s ≡ []) }
        ensures fits { IfOk result (λ s. Fits problem.now s) }
    {
        problem.validity();
        let count = problem.class_count();
        let plan = vec![in alloc; None; count as usize]?;
        let occupancy = Occupancy::new(alloc, count, problem.room_count())?;
        let groups = new_groups(alloc, problem)?;
        let roster = JointRoster::new(alloc, problem)?;
        Ok(Score {
            plan,
            occupancy,
            groups,
            classes: ClassSums {
                time: 0,
                room: 0,
                closed: 0,
                unplaced: count,
            },
            rules: RuleSums {
                distribution: 0,
                hard: 0,
            },
            weights: problem.weights(),
            roster,
            unsectioned: students_with_courses(problem),
            closures: Closures::new(alloc),
        })
    }

    /// The value of each class or none.
    pub fn plan(&self) -> &[Option<Value>]
        ensures { result.now ≡ plan_of self.now }
    {
        self.plan.as_slice()
    }

    /// The spots of the placed classes.
    pub fn occupancy(&self) -> &Occupancy
        ensures occupancy { result.now ≡ occupancy_of self.now }
        ensures spots { (p : Parts)
            → Fits p self.now
            → result.now.spots ≡ spots_of p (plan_of self.now) }
        ensures rooms { (p : Parts) → Fits p self.now → length p.rooms ≤ result.now.rooms }
    {
        &self.occupancy
    }

    /// The classes of each student.
    pub fn roster(&self) -> &Roster
        ensures roster { result.now ≡ roster_of self.now }
        ensures lists { result.now.seats ≡ student_lists self.now }
        ensures spots { (p : Parts)
            → Fits p self.now
            → result.now.spots ≡ spots_of p (plan_of self.now) }
    {
        self.roster.roster()
    }

    /// Gives a student a class that isn't on the student's list, where the list may grow.
    pub fn seat(&mut self, problem: &Problem, student: u32, class: u32)
        requires fits { Fits problem.now self.old }
        requires student { student < length problem.now.students }
        requires class { class < length problem.now.classes }
        requires free { is_listed class (list_of (student_lists self.old) student) ≡ false }
        requires spare { length (list_of (student_lists self.old) student)
            < slice_index (roster_of self.old).most student }
        ensures plan { plan_of self.new ≡ plan_of self.old }
        ensures lists { student_lists self.new
            ≡ slice_set (student_lists self.old) student
            (with_class class (list_of (student_lists self.old) student)) }
        ensures closures { closures_of self.new ≡ closures_of self.old }
        ensures fits { Fits problem.now self.new }
    {
        let less = unsectioned_at(problem, self.roster.roster(), student);
        self.roster.seat(problem, student, class);
        self.unsectioned -= less;
    }

    /// Takes a class from a student who has it.
    pub fn leave(&mut self, problem: &Problem, student: u32, class: u32)
        requires fits { Fits problem.now self.old }
        requires student { student < length problem.now.students }
        requires class { class < length problem.now.classes }
        requires seated { is_listed class (list_of (student_lists self.old) student) ≡ true }
        ensures plan { plan_of self.new ≡ plan_of self.old }
        ensures lists { student_lists self.new
            ≡ slice_set (student_lists self.old) student
            (without_class class (list_of (student_lists self.old) student)) }
        ensures closures { closures_of self.new ≡ closures_of self.old }
        ensures fits { Fits problem.now self.new }
    {
        self.roster.leave(problem, student, class);
        let more = unsectioned_at(problem, self.roster.roster(), student);
        self.unsectioned += more;
    }

    /// By how much the plan misses a rule: violated pairs, days, slots, breaks or blocks.
    pub fn amount(&self, rule: u32) -> u64
        requires { rule < group_count self.now }
        ensures { (p : Parts) (r : Rule) → Fits p self.now → slice_get p.rules rule ≡ Some r
            → result ≡ rule_amount p (spots_of p (plan_of self.now)) r }
    {
        self.groups[rule as usize].amount()
    }

    /// The cost of a rule: its penalty times its amount, and for MaxDayLoad, MaxBreaks and MaxBlock
    /// the whole part of that divided by the weeks of the term, as in ITC 2019. 0 for a required one.
    pub fn cost(&self, problem: &Problem, rule: u32) -> u128
        requires fits { Fits problem.now self.now }
        requires within { rule < length problem.now.rules }
        ensures { (r : Rule) → slice_get problem.now.rules rule ≡ Some r
            → result ≡ rule_cost problem.now (spots_of problem.now (plan_of self.now)) r }
    {
        let part = problem.rule(rule);
        cost_of(problem, part, self.groups[rule as usize].amount())
    }

    /// Places a class that isn't placed.
    pub fn place(&mut self, problem: &Problem, class: u32, value: Value)
        requires fits { Fits problem.now self.old }
        requires value { IsOfDomain problem.now class value }
        requires free { slice_index_or (plan_of self.old) class None ≡ None }
        ensures plan { plan_of self.new ≡ slice_set (plan_of self.old) class (Some value) }
        ensures lists { student_lists self.new ≡ student_lists self.old }
        ensures closures { closures_of self.new ≡ closures_of self.old }
        ensures fits { Fits problem.now self.new }
    {
        let spot = tt_plan::spot(problem, class, value);
        self.classes.add(problem, &self.closures, class, value);
        self.rules = set_in_rules(
            problem,
            &self.occupancy,
            self.groups.as_mut_slice(),
            class,
            Some(spot),
            self.rules,
        );
        self.occupancy.put(class, spot);
        self.roster.place(problem, class, spot);
        self.plan[class as usize] = Some(value);
    }

    /// Takes its value from a class that is placed, and answers it.
    pub fn unplace(&mut self, problem: &Problem, class: u32) -> Value
        requires fits { Fits problem.now self.old }
        requires placed { IsSome (slice_index_or (plan_of self.old) class None) }
        ensures value { slice_index_or (plan_of self.old) class None ≡ Some result }
        ensures plan { plan_of self.new ≡ slice_set (plan_of self.old) class None }
        ensures lists { student_lists self.new ≡ student_lists self.old }
        ensures closures { closures_of self.new ≡ closures_of self.old }
        ensures fits { Fits problem.now self.new }
    {
        let Some(value) = self.plan[class as usize] else {
            unreachable!()
        };
        self.classes.remove(problem, &self.closures, class, value);
        self.rules = set_in_rules(
            problem,
            &self.occupancy,
            self.groups.as_mut_slice(),
            class,
            None,
            self.rules,
        );
        self.occupancy.take(class);
        self.roster.unplace(problem, class);
        self.plan[class as usize] = None;
        value
    }

    /// The closures of the session.
    pub fn closures(&self) -> &Closures
        ensures { result.now ≡ closures_of self.now }
    {
        &self.closures
    }

    /// Closes a room at a time; placed classes stay. Refused for want of memory alone, and then all
    /// is as it was.
    pub fn close(&mut self, problem: &Problem, room: u32, time: Time) -> Result<(), AllocError>
        requires fits { Fits problem.now self.old }
        requires few { length (closures_of self.old) < most_closures }
        ensures closures { OnOk result
            (closures_of self.new ≡ closures_of self.old ++ made room time ∷ []) }
        ensures plan { plan_of self.new ≡ plan_of self.old }
        ensures lists { student_lists self.new ≡ student_lists self.old }
        ensures fits { Fits problem.now self.new }
        ensures err { OnErr result (self.new ≡ self.old) }
    {
        let more = newly_closed(problem, &self.closures, self.plan.as_slice(), room, time);
        self.closures.close(room, time)?;
        self.classes.closed += more;
        Ok(())
    }

    /// Lifts the closure at a place, which isn't lifted.
    pub fn lift(&mut self, problem: &Problem, at: u32)
        requires fits { Fits problem.now self.old }
        requires within { at < length (closures_of self.old) }
        requires open { IfSome (slice_get (closures_of self.old) at) (λ c. c.lifted ≡ false) }
        ensures closures { closures_of self.new ≡ relifted (closures_of self.old) at true }
        ensures plan { plan_of self.new ≡ plan_of self.old }
        ensures lists { student_lists self.new ≡ student_lists self.old }
        ensures fits { Fits problem.now self.new }
    {
        let closure = self.closures.at(at);
        self.closures.lift(at);
        let less = newly_closed(
            problem,
            &self.closures,
            self.plan.as_slice(),
            closure.room,
            closure.time,
        );
        self.classes.closed -= less;
    }

    /// Takes back that the closure at a place was lifted.
    pub fn unlift(&mut self, problem: &Problem, at: u32)
        requires fits { Fits problem.now self.old }
        requires within { at < length (closures_of self.old) }
        requires lifted { IfSome (slice_get (closures_of self.old) at) (λ c. c.lifted ≡ true) }
        ensures closures { closures_of self.new ≡ relifted (closures_of self.old) at false }
        ensures plan { plan_of self.new ≡ plan_of self.old }
        ensures lists { student_lists self.new ≡ student_lists self.old }
        ensures fits { Fits problem.now self.new }
    {
        let closure = self.closures.at(at);
        let more = newly_closed(
            problem,
            &self.closures,
            self.plan.as_slice(),
            closure.room,
            closure.time,
        );
        self.closures.unlift(at);
        self.classes.closed += more;
    }

    /// Takes the last closure off, lifted or not.
    pub fn open_last(&mut self, problem: &Problem)
        requires fits { Fits problem.now self.old }
        requires some { 0 < length (closures_of self.old) }
        ensures closures { closures_of self.new ≡ without_last (closures_of self.old) }
        ensures plan { plan_of self.new ≡ plan_of self.old }
        ensures lists { student_lists self.new ≡ student_lists self.old }
        ensures fits { Fits problem.now self.new }
    {
        let closure = self.closures.at(self.closures.len() - 1);
        self.closures.open_last();
        if !closure.lifted {
            let less = newly_closed(
                problem,
                &self.closures,
                self.plan.as_slice(),
                closure.room,
                closure.time,
            );
            self.classes.closed -= less;
        }
    }

    /// The sums over the plan, the lists and the closures.
    pub fn totals(&self) -> Totals
        ensures { (p : Parts)
            → Fits p self.now
            → result
            ≡ totals_of p (closures_of self.now) (plan_of self.now) (student_lists self.now) }
    {
        let penalties = Penalties {
            time: self.classes.time,
            room: self.classes.room,
            distribution: self.rules.distribution,
            student: self.roster.roster().conflicts(),
        };
        Totals {
            time: penalties.time,
            room: penalties.room,
            distribution: penalties.distribution,
            student: penalties.student,
            total: penalties.weighted(self.weights),
            hard: self.occupancy.clashes() + self.classes.closed + self.rules.hard,
            unplaced: self.classes.unplaced,
            unsectioned: self.unsectioned,
        }
    }

    /// The total with a class at a value, whether or not it is placed. Nothing is changed.
    pub fn trial(&mut self, problem: &Problem, class: u32, value: Value) -> u128
        requires fits { Fits problem.now self.old }
        requires value { IsOfDomain problem.now class value }
        ensures total { result
            ≡ (totals_of problem.now (closures_of self.old)
            (slice_set (plan_of self.old) class (Some value)) (student_lists self.old)).total }
        ensures same { self.new ≡ self.old }
    {
        problem.validity();
        let paid = paid_with(problem, self.plan.as_slice(), class, value, self.classes);
        let spot = tt_plan::spot(problem, class, value);
        let distribution = self.costs_at(problem, class, spot);
        let has = self.spot(class);
        let student = student_conflicts_with(problem, &mut self.roster, class, has, spot);
        paid.total(self.weights, distribution, student)
    }

    /// What the total has without a class.
    pub fn without(&mut self, problem: &Problem, class: u32) -> Without
        requires fits { Fits problem.now self.old }
        requires class { class < length problem.now.classes }
        ensures without { result
            ≡ without_at problem.now (plan_of self.old) (student_lists self.old) class }
        ensures same { self.new ≡ self.old }
    {
        let has = self.spot(class);
        let student = student_conflicts_without(problem, &mut self.roster, class, has);
        let distribution = self.costs_without(problem, class);
        Without {
            student,
            distribution,
        }
    }

    /// The total with a class at a value, where it is below a bound. `without` is what it has without
    /// the class. What is cheap is asked first: the rules of the class only where the times, the rooms,
    /// the other rules and the students who are sure don't come to the bound, and the travel of its
    /// students only where the rules don't either. Nothing is changed.
    pub fn trial_below(
        &mut self,
        problem: &Problem,
        placement: &Placement,
        without: Without,
        bound: u128,
    ) -> Option<u128>
        requires fits { Fits problem.now self.old }
        requires placement { IsPlacement problem.now placement.now }
        requires without { without
            ≡ without_at problem.now (plan_of self.old) (student_lists self.old)
            placement.now.class }
        ensures total { result
            ≡ below bound (totals_of problem.now (closures_of self.old)
            (slice_set (plan_of self.old) placement.now.class (Some placement.now.value))
            (student_lists self.old)).total }
        ensures same { self.new ≡ self.old }
    {
        problem.validity();
        let Placement { class, value, spot } = *placement;
        let Without {
            student: others,
            distribution: rest,
        } = without;
        let paid = paid_with(problem, self.plan.as_slice(), class, value, self.classes);
        if paid.total(self.weights, rest, others) >= bound {
            return None;
        }
        let sure = self.roster.sure_gain(problem, class, spot);
        if paid.total(self.weights, rest, others + sure) >= bound {
            return None;
        }
        let distribution = self.costs_at(problem, class, spot);
        if paid.total(self.weights, distribution, others + sure) >= bound {
            return None;
        }
        let more = self.roster.class_gain(problem, class, spot);
        let total = paid.total(self.weights, distribution, others + more);
        if total < bound { Some(total) } else { None }
    }

    // The costs of the soft rules of which a class is no member.
    fn costs_without(&self, problem: &Problem, class: u32) -> u128
        requires fits { Fits problem.now self.now }
        requires class { class < length problem.now.classes }
        ensures costs { result ≡ cost_sum_without problem.now (occupancy_of self.now).spots class }
        ensures few { result < 2 ^ 100 }
    {
        costs_without(
            problem,
            &self.occupancy,
            self.groups.as_slice(),
            class,
            self.rules.distribution,
        )
    }

    // The costs of the soft rules with a class at another spot.
    fn costs_at(&self, problem: &Problem, class: u32, spot: Spot) -> u128
        requires fits { Fits problem.now self.now }
        requires class { class < length problem.now.classes }
        requires spot { IsSpotOf problem.now spot }
        ensures costs { result
            ≡ cost_sum problem.now (slice_set (occupancy_of self.now).spots class (Some spot)) }
        ensures few { result < 2 ^ 100 }
    {
        let placing = Placing {
            problem,
            occupancy: &self.occupancy,
            class,
            spot,
        };
        costs_with(&placing, self.groups.as_slice(), self.rules.distribution)
    }

    /// Lists the classes that have to go where a class is forced to a value that isn't blocked: those
    /// that overlap it in its room or break a required pair rule with it, and for each required rule
    /// of MaxDays, MaxWeeks, MaxDayLoad, MaxBreaks and MaxBlock with it as many of the remaining
    /// members, in member order, as bring the amount to 0. They stand in the listing in place of those
    /// that were listed.
    pub fn conflicts(&mut self, problem: &Problem, class: u32, value: Value, listing: &mut Listing)
        requires fits { Fits problem.now self.old }
        requires value { IsOfDomain problem.now class value }
        requires open { option_and_then (blocked_by problem.now (closures_of self.old) class)
            (spot_at_value problem.now class value)
            ≡ None }
        requires listing { listing.old.classes ≡ length problem.now.classes }
        ensures set { listing.new.list ≡ conflicts_at problem.now (plan_of self.old) class value }
        ensures classes { listing.new.classes ≡ listing.old.classes }
        ensures plan { plan_of self.new ≡ plan_of self.old }
        ensures lists { student_lists self.new ≡ student_lists self.old }
        ensures closures { closures_of self.new ≡ closures_of self.old }
        ensures fits { Fits problem.now self.new }
    {
        let placing = Placing {
            problem,
            occupancy: &self.occupancy,
            class,
            spot: tt_plan::spot(problem, class, value),
        };
        conflicts(&placing, self.groups.as_mut_slice(), listing);
    }

    /// The same as `conflicts`, where no more than `most` classes have to go; else nothing is listed.
    /// It gives up as soon as it knows.
    pub fn conflict_set_within(
        &mut self,
        problem: &Problem,
        placement: &Placement,
        most: u32,
        listing: &mut Listing,
    ) -> bool
        requires fits { Fits problem.now self.old }
        requires placement { IsPlacement problem.now placement.now }
        requires open { option_and_then
            (blocked_by problem.now (closures_of self.old) placement.now.class)
            (spot_at_value problem.now placement.now.class placement.now.value)
            ≡ None }
        requires listing { listing.old.classes ≡ length problem.now.classes }
        ensures few { result
            ≡ nat_le (length (conflicts_at problem.now (plan_of self.old) placement.now.class
            placement.now.value)) most }
        ensures set { IsTrue result
            → listing.new.list
            ≡ conflicts_at problem.now (plan_of self.old) placement.now.class placement.now.value }
        ensures many { result ≡ false → listing.new.list ≡ [] }
        ensures classes { listing.new.classes ≡ listing.old.classes }
        ensures plan { plan_of self.new ≡ plan_of self.old }
        ensures lists { student_lists self.new ≡ student_lists self.old }
        ensures closures { closures_of self.new ≡ closures_of self.old }
        ensures fits { Fits problem.now self.new }
    {
        let placing = Placing {
            problem,
            occupancy: &self.occupancy,
            class: placement.class,
            spot: placement.spot,
        };
        conflict_set_within(&placing, self.groups.as_mut_slice(), most, listing)
    }

    /// The value of a class, if it has one.
    pub fn value(&self, class: u32) -> Option<Value>
        ensures { result ≡ slice_index_or (plan_of self.now) class None }
    {
        match self.plan.get(class as usize) {
            None => None,
            Some(value) => *value,
        }
    }

    /// The spot of a class, if it is placed.
    pub fn spot(&self, class: u32) -> Option<Spot>
        ensures { result ≡ spot_at (occupancy_of self.now).spots class }
    {
        match self.occupancy.spots().get(class as usize) {
            None => None,
            Some(spot) => *spot,
        }
    }

    /// Whether a student has no class.
    pub fn has_no_class(&self, student: u32) -> bool
        requires { student < length (student_lists self.now) }
        ensures { IsTrue result ↔ (list_of (student_lists self.now) student ≡ []) }
    {
        self.roster.roster().classes(student).next().is_none()
    }
}
