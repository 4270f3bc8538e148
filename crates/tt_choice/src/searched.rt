//! The least choice of a configuration of many subparts, by a search that takes them in any order.

ghost use Rattle.std.specs.Prelude.{◌≡◌, ℕ, ◌+◌, ◌*◌, ◌<◌, ◌≤◌, IfOk, IfSome, All, None, true, false, length, slice_index_or, take};
ghost use Rattle.tt_base.specs.Limits.{most_classes};
ghost use Rattle.tt_least.specs.Choices.{AreApart};
ghost use Rattle.tt_least.specs.Limits.{most_searched};
ghost use Rattle.tt_choice.specs.Limits.{most_added};
ghost use Rattle.tt_choice.specs.Least.{pairs_added};
ghost use Rattle.tt_choice.specs.Searched.{AreInTurn, HasPlaceFor, HasRoomToFill, IsFirstFewest, NoneAdds, already_pairs, either_conflicts, lacks_none, parent_needed};
ghost use Rattle.tt_choice.specs.Standings.{situation_in};

use crate::standing::Standing;
use std::alloc::{AllocError, Global};
use tt_least::{Search, Table, least};
use tt_problem::Span;

/// Room for a search over the choices of a configuration: what each of its classes costs, the
/// parent that it needs, and which of them conflict.
#[derive(Drop)]
pub struct SearchRoom {
    pub weights: Vec<u64>,
    pub parents: Vec<Option<u32>>,
    pub conflicts: Vec<bool>,
    pub search: Search,
}

// Writes for the classes from a first one on how many of those already taken each conflicts with.
fn fill_weights(standing: &Standing, weights: &mut [u64], first: u32, count: usize)
    requires room { count ≤ length weights.old }
    requires few { first + count ≤ most_classes }
    ensures long { length weights.new ≡ length weights.old }
    ensures each { (k : ℕ) → k < count
        → slice_index_or weights.new k 0
        ≡ already_pairs (situation_in standing.now) (first + k) }
{
    for place in 0..count {
        weights[place] = standing.pairs_with_already(first + place as u32) as u64;
    }
}

// Writes for the classes from a first one on the parent that each still needs.
fn fill_parents(standing: &Standing, parents: &mut [Option<u32>], first: u32, count: usize)
    requires room { count ≤ length parents.old }
    requires few { first + count ≤ most_classes }
    ensures long { length parents.new ≡ length parents.old }
    ensures each { (k : ℕ)
        → k < count
        → slice_index_or parents.new k None
        ≡ parent_needed (situation_in standing.now) (first + k) }
{
    for place in 0..count {
        parents[place] = standing.parent_needed(first + place as u32);
    }
}

// Writes for the classes from a first one on whether each has a seat.
fn fill_seats(standing: &Standing, left: &mut [bool], first: u32, count: usize)
    requires room { count ≤ length left.old }
    requires few { first + count ≤ most_classes }
    ensures long { length left.new ≡ length left.old }
    ensures each { (k : ℕ) → k < count
        → slice_index_or left.new k false ≡ (situation_in standing.now).has_seat (first + k) }
{
    for place in 0..count {
        left[place] = standing.has_seat(first + place as u32);
    }
}

// Writes for the classes from a first one on whether each conflicts with a class.
fn fill_row(standing: &Standing, row: &mut [bool], class: u32, first: u32)
    requires few { first + length row.old ≤ most_classes }
    ensures long { length row.new ≡ length row.old }
    ensures each { (k : ℕ) → k < length row.old → slice_index_or row.new k false
        ≡ either_conflicts (situation_in standing.now) class (first + k) }
{
    for place in 0..row.len() {
        row[place] = standing.either_conflicts(class, first + place as u32);
    }
}

// Writes for each two of the classes from a first one on whether they conflict.
fn fill_conflicts(
    standing: &Standing,
    conflicts: &mut [bool],
    size: usize,
    first: u32,
    count: usize,
)
    requires room { length conflicts.old ≡ size * size }
    requires small { size ≤ most_searched }
    requires within { count ≤ size }
    requires few { first + count ≤ most_classes }
    ensures long { length conflicts.new ≡ length conflicts.old }
    ensures each { (j k : ℕ)
        → j < count
        → k < count
        → slice_index_or conflicts.new (j * size + k) false
        ≡ either_conflicts (situation_in standing.now) (first + j) (first + k) }
{
    for place in 0..count {
        let start = place * size;
        fill_row(
            standing,
            &mut conflicts[start..start + count],
            first + place as u32,
            first,
        );
    }
}

// The classes of subparts that follow one another.
pub(crate) fn classes_of(subparts: &[Span]) -> Span
    requires some { 0 < length subparts.now }
    requires turn { AreInTurn subparts.now }
    requires spans { All (λ s. s.after ≤ most_classes) subparts.now }
    ensures apart { AreApart result.first subparts.now result.after }
    ensures few { result.after ≤ most_classes }
{
    Span {
        first: subparts[0].first,
        after: subparts[subparts.len() - 1].after,
    }
}

impl SearchRoom {
    /// Room for configurations of so many classes and so many subparts.
    pub(crate) fn new(alloc: Global, size: usize, parts: usize) -> Result<SearchRoom, AllocError>
        requires size { size ≤ most_searched }
        requires parts { parts ≤ most_classes }
        ensures { IfOk result HasRoomToFill }
    {
        Ok(SearchRoom {
            weights: vec![in alloc; 0; size]?,
            parents: vec![in alloc; None; size]?,
            conflicts: vec![in alloc; false; size * size]?,
            search: Search::new(alloc, size, parts)?,
        })
    }

    /// Whether there is room for a configuration of so many subparts and of these classes.
    pub(crate) fn can_search(&self, parts: usize, classes: Span) -> bool
        requires { classes.first ≤ classes.after }
        ensures { result ≡ true → HasPlaceFor parts classes self.now }
    {
        parts < self.search.levels.len()
            && parts <= self.weights.len()
            && (classes.after - classes.first) as usize <= self.weights.len()
    }

    // Fills the lists for the classes from a first one on.
    fn fill(&mut self, standing: &Standing, first: u32, count: usize)
        requires room { HasRoomToFill self.old }
        requires within { count ≤ length self.old.weights.items }
        requires few { first + count ≤ most_classes }
        ensures room { HasRoomToFill self.new }
        ensures size { length self.new.weights.items ≡ length self.old.weights.items }
        ensures levels { length self.new.search.levels.items
            ≡ length self.old.search.levels.items }
        ensures weights { (k : ℕ) → k < count → slice_index_or self.new.weights.items k 0
            ≡ already_pairs (situation_in standing.now) (first + k) }
        ensures parents { (k : ℕ) → k < count → slice_index_or self.new.parents.items k None
            ≡ parent_needed (situation_in standing.now) (first + k) }
        ensures seats { (k : ℕ) → k < count
            → slice_index_or self.new.search.left.items k false
            ≡ (situation_in standing.now).has_seat (first + k) }
        ensures conflicts { (j k : ℕ) → j < count → k < count
            → slice_index_or self.new.conflicts.items
            (j * length self.new.weights.items + k) false
            ≡ either_conflicts (situation_in standing.now) (first + j) (first + k) }
    {
        let size = self.weights.len();
        fill_weights(standing, self.weights.as_mut_slice(), first, count);
        fill_parents(standing, self.parents.as_mut_slice(), first, count);
        fill_seats(standing, self.search.left.as_mut_slice(), first, count);
        fill_conflicts(standing, self.conflicts.as_mut_slice(), size, first, count);
    }

    /// The fewest pairs that an allowed choice of the subparts adds, if one adds so many or fewer.
    /// The first with the fewest then stands at the front of the search's best.
    pub(crate) fn find(
        &mut self,
        standing: &Standing,
        subparts: &[Span],
        classes: Span,
        most: u64,
    ) -> Option<u64>
        requires room { HasRoomToFill self.old }
        requires place { HasPlaceFor (length subparts.now) classes self.old }
        requires apart { AreApart classes.first subparts.now classes.after }
        requires few_classes { classes.after ≤ most_classes }
        requires few { most ≤ most_added }
        requires lacks { lacks_none (situation_in standing.now) ≡ true }
        ensures room { HasRoomToFill self.new }
        ensures best { IfSome result (λ pairs. length subparts.now
            ≤ length self.new.search.scratch.best.items) }
        ensures first { IfSome result (λ pairs. IsFirstFewest (situation_in standing.now)
            subparts.now (take (length subparts.now) self.new.search.scratch.best.items)) }
        ensures pairs { IfSome result (λ pairs. pairs ≡ pairs_added (situation_in standing.now)
            (take (length subparts.now) self.new.search.scratch.best.items)) }
        ensures most { IfSome result (λ pairs. pairs ≤ most) }
        ensures none { result ≡ None
            → NoneAdds (situation_in standing.now) subparts.now most }
    {
        let count = classes.after - classes.first;
        self.fill(standing, classes.first, count as usize);
        let table = Table {
            subparts,
            first: classes.first,
            count,
            size: self.weights.len() as u32,
            weights: self.weights.as_slice(),
            parents: self.parents.as_slice(),
            conflicts: self.conflicts.as_slice(),
        };
        least(&table, &mut self.search, most)
    }
}
