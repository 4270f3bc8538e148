//! What the choices of a student are judged by.

ghost use Rattle.std.specs.Prelude.{◌≡◌, ℕ, ◌<◌, ◌≤◌, Some, length};
ghost use Rattle.tt_bits.specs.Spots.{spot_at};
ghost use Rattle.tt_bits.specs.declared.times.Spot.{Spot};
ghost use Rattle.tt_score.specs.Fits.{occupancy_of, student_lists};
ghost use Rattle.tt_choice.specs.Limits.{most_already};

use tt_bits::Spot;
use tt_problem::Problem;
use tt_roster::conflict;
use tt_score::Score;
use tt_state::{State, others_with};

// What the choices of a student are judged by: a score, the classes already taken, and those of them
// whose parent may be missing yet.
#[derive(Drop)]
pub(crate) struct Standing<'a> {
    problem: &'a Problem,
    score: &'a Score,
    student: u32,
    wanting: &'a [u32],
    pub already: &'a [u32],
    ghost rooms: { (class : ℕ) (spot : Spot) (room : ℕ) → spot_at (occupancy_of score.now).spots class ≡ Some spot → spot.room ≡ Some room → room < problem.now.travel.rooms },
    ghost student_within: { student < length (student_lists score.now) },
    ghost few_already: { length already.now ≤ most_already },
}

impl<'a> Standing<'a> {
    ghost use Rattle.std.specs.Prelude.{[], IfNone, IfSome, None, Option, ℕ, count_by};
    ghost use Rattle.std.specs.List.{list_all};
    ghost use Rattle.tt_state.specs.Seats.{limit_of, others_with};
    ghost use Rattle.tt_choice.specs.Least.{has_parent_with, is_allowed, may_be_taken};
    ghost use Rattle.tt_choice.specs.Situations.{situation_of};
    ghost use Rattle.tt_choice.specs.Searched.{either_conflicts, has_parent_already, lacks_none, parent_needed};
    ghost use Rattle.tt_choice.specs.Standings.{situation_in};

    /// How a student who has taken these classes beforehand stands in the present snapshot. `wanting`
    /// has those of them whose parent may be missing yet.
    pub fn new(
        state: &'a State,
        student: u32,
        wanting: &'a [u32],
        already: &'a [u32],
    ) -> Standing<'a>
        requires student { student < length state.now.problem.students }
        requires few_already { length already.now ≤ most_already }
        ensures problem { result.problem.now ≡ state.now.problem }
        ensures situation { situation_in result
            ≡ situation_of state.now.problem state.now.present student wanting.now already.now }
    {
        state.soundness();
        let problem = state.problem();
        let score = state.score();
        Standing {
            problem,
            score,
            student,
            wanting,
            already,
        }
    }

    // The limit of a class, if it has one.
    fn limit_of(&self, class: u32) -> Option<u32>
        ensures { result ≡ limit_of self.now.problem.now class }
    {
        match self.problem.parts().classes.get(class as usize) {
            Some(part) => part.limit,
            None => None,
        }
    }

    /// Whether a class has a seat.
    #[tactic(auto, unfolding(tt_state::specs::Seats::has_seat))]
    pub fn has_seat(&self, class: u32) -> bool
        ensures { result ≡ (situation_in self.now).has_seat class }
    {
        match self.limit_of(class) {
            None => true,
            Some(limit) => others_with(self.score, self.student, class) < limit,
        }
    }

    /// The parent of a class, if it has one.
    pub fn parent_of(&self, class: u32) -> Option<u32>
        ensures { result ≡ (situation_in self.now).parent_of class }
    {
        match self.problem.parts().classes.get(class as usize) {
            Some(part) => part.parent,
            None => None,
        }
    }

    // The spot of a class, if it is placed.
    fn spot_of(&self, class: u32) -> Option<&Spot>
        ensures none { IfNone result
            (spot_at (occupancy_of self.now.score.now).spots class ≡ None) }
        ensures some { IfSome result
            (λ spot. spot_at (occupancy_of self.now.score.now).spots class ≡ Some spot.now) }
    {
        match self.score.occupancy().spots().get(class as usize) {
            None => None,
            Some(spot) => spot.as_ref(),
        }
    }

    /// Whether two classes are placed, and nobody can attend both.
    pub fn conflicts(&self, class: u32, other: u32) -> bool
        ensures { result ≡ (situation_in self.now).conflicts class other }
    {
        let travel = self.problem.travel();
        match (self.spot_of(class), self.spot_of(other)) {
            (Some(spot), Some(there)) => conflict(travel, spot, there),
            _ => false,
        }
    }

    /// Whether two classes are the same, or conflict, the lower one asked.
    pub fn either_conflicts(&self, class: u32, other: u32) -> bool
        ensures { result ≡ either_conflicts (situation_in self.now) class other }
    {
        class == other || self.conflicts(class.min(other), class.max(other))
    }

    /// The parent of a class, if it has one that isn't already taken.
    pub fn parent_needed(&self, class: u32) -> Option<u32>
        ensures { result ≡ parent_needed (situation_in self.now) class }
    {
        match self.parent_of(class) {
            Some(parent) if !self.already.contains(&parent) => Some(parent),
            _ => None,
        }
    }

    // Whether the parent of a class, where it has one, is already taken.
    #[tactic(auto, using(tt_base::proofs::ListLemmas::listed_turned))]
    fn has_parent_already(&self, class: u32) -> bool
        ensures { result ≡ has_parent_already (situation_in self.now) class }
    {
        match self.parent_of(class) {
            None => true,
            Some(parent) => self.already.contains(&parent),
        }
    }

    /// Whether no class whose parent may be missing lacks it.
    pub fn lacks_none(&self) -> bool
        ensures { result ≡ lacks_none (situation_in self.now) }
    {
        self.wanting
            .iter()
            .all(|class| self.has_parent_already(*class))
    }

    /// How many classes already taken conflict with a class.
    pub fn pairs_with_already(&self, class: u32) -> usize
        ensures { result
            ≡ count_by ((situation_in self.now).conflicts class) self.now.already.now }
    {
        self.already
            .iter()
            .filter(|other| self.conflicts(class, **other))
            .count()
    }

    /// How many classes of a list conflict with a later class.
    pub fn pairs_with(&self, classes: &[u32], class: u32) -> usize
        ensures { result
            ≡ count_by (λ other. (situation_in self.now).conflicts other class) classes.now }
    {
        classes
            .iter()
            .filter(|other| self.conflicts(**other, class))
            .count()
    }

    // Whether the parent of a class, where it has one, is in a choice or already taken.
    #[tactic(auto, using(tt_base::proofs::ListLemmas::listed_turned))]
    fn has_parent_with(&self, choice: &[u32], class: u32) -> bool
        ensures { result ≡ has_parent_with (situation_in self.now) choice.now class }
    {
        match self.parent_of(class) {
            None => true,
            Some(parent) => choice.contains(&parent) || self.already.contains(&parent),
        }
    }

    // Whether each class of a choice has a seat and its parent.
    fn may_be_taken(&self, choice: &[u32]) -> bool
        ensures { result ≡ may_be_taken (situation_in self.now) choice.now }
    {
        choice.iter().all(|class| self.has_seat(*class) && self.has_parent_with(choice, *class))
    }

    // Whether each class whose parent may be missing has it with a choice.
    fn brings_parents(&self, choice: &[u32]) -> bool
        ensures { result
            ≡ list_all (has_parent_with (situation_in self.now) choice.now) self.now.wanting.now }
    {
        self.wanting
            .iter()
            .all(|class| self.has_parent_with(choice, *class))
    }

    /// Whether a choice is allowed.
    pub fn is_allowed(&self, choice: &[u32]) -> bool
        ensures { result ≡ is_allowed (situation_in self.now) choice.now }
    {
        self.may_be_taken(choice) && self.brings_parents(choice)
    }
}
