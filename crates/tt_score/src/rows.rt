//! The joint rows of classes: how many students a class has in common with each other class.

ghost use Rattle.std.specs.Prelude.{◌≡◌, ◌+◌, ◌<◌, ◌≤◌, ◌^◌, ◌++◌, All, false, None, IfOk, IsSome, IsTrue, length, map, replicate, slice_set, vec_capacity};
ghost use Rattle.tt_roster.specs.Joint.{AreTouched};
ghost use Rattle.tt_score.specs.Rows.{AreRowsOf, IsRowOf, kept_row, row_at, pair_of};
ghost use Rattle.tt_score.specs.Spans.{StandStill};

use std::alloc::{AllocError, Global};
use std::marker::Model;
use tt_roster::Roster;

// How many pairs there is memory for, by class.
const PAIRS_A_CLASS: u32 = 256;

/// Another class, and how many students it has in common with the class of the row.
#[derive(Clone, Copy, Debug, PartialEq, Eq)]
pub struct JointClass {
    pub class: u32,
    pub number: u32,
}

/// Where the row of a class stands.
#[derive(Clone, Copy, Debug, PartialEq, Eq)]
pub struct Span {
    pub start: u32,
    pub end: u32,
}

/// The joint rows of many classes, each kept until it is forgotten. Only `new` takes memory: where
/// it is full, all rows are forgotten.
#[derive(Drop)]
pub struct JointRows {
    // By class; `None` where no row is kept.
    spans: Vec<Option<Span>>,
    // One row behind another. A row that was forgotten stands among them until all are.
    pairs: Vec<JointClass>,
    // How many pairs there is memory for.
    room: u32,
    // Where a row is counted: by class, all 0 between calls, and the classes that aren't.
    numbers: Vec<u32>,
    touched: Vec<u32>,
}

impl Model for JointRows {
    ghost use Rattle.std.specs.Prelude.{List, Option};
    ghost use Rattle.tt_score.specs.declared.rows.JointClass.{JointClass};
    ghost use Rattle.tt_score.specs.Spans.{rows_in, HasRows};

    ghost Value = { List (Option (List JointClass)) };

    ghost view = { rows_in };

    ghost invariant = { HasRows };
}

impl JointRows {
    /// No row, of so many classes.
    pub fn new(alloc: Global, classes: u32) -> Result<JointRows, AllocError>
        ensures { IfOk result (λ rows. rows ≡ replicate classes None) }
    {
        let room = classes.saturating_mul(PAIRS_A_CLASS);
        Ok(JointRows {
            spans: vec![in alloc; None; classes as usize]?,
            pairs: Vec::with_capacity(alloc, room as usize)?,
            room,
            numbers: vec![in alloc; 0; classes as usize]?,
            touched: vec![in alloc; 0; classes as usize]?,
        })
    }

    // Whether there is such a class, and its row isn't kept.
    fn is_missing(&self, class: u32) -> bool
        ensures within { IsTrue result → class < length self.now }
        ensures kept { result ≡ false → class < length self.now → IsSome (row_at self.now class) }
    {
        (class as usize) < self.spans.len() && self.spans[class as usize].is_none()
    }

    /// The row of a class, empty where none is kept.
    pub fn row(&self, class: u32) -> &[JointClass]
        ensures row { result.now ≡ kept_row self.now class }
        ensures few { length result.now < 2 ^ 32 }
    {
        if (class as usize) >= self.spans.len() {
            return &self.pairs[0..0];
        }
        match self.spans[class as usize] {
            None => &self.pairs[0..0],
            Some(span) => &self.pairs[span.start as usize..span.end as usize],
        }
    }

    /// Forgets the row of a class.
    pub fn forget(&mut self, class: u32)
        ensures { self.new ≡ slice_set self.old class None }
    {
        if (class as usize) < self.spans.len() {
            self.spans[class as usize] = None;
        }
    }

    /// Keeps the row of a class, unless it is kept already. Other rows may be forgotten.
    pub fn keep(&mut self, roster: &Roster, class: u32)
        requires long { length self.old ≡ length roster.now.spots }
        requires rows { AreRowsOf roster.now.seats self.old }
        ensures long { length self.new ≡ length self.old }
        ensures rows { AreRowsOf roster.now.seats self.new }
        ensures row { IsRowOf roster.now.seats (length self.new) class (kept_row self.new class) }
    {
        if !self.is_missing(class) {
            return;
        }
        let met = roster.joint_row(
            class,
            self.numbers.as_mut_slice(),
            self.touched.as_mut_slice(),
        );
        let touched = &self.touched[..met as usize];
        make_room(&mut self.spans, &mut self.pairs, self.room, met);
        let span = add_pairs(&mut self.pairs, self.numbers.as_slice(), touched);
        self.spans[class as usize] = Some(span);
        clear(self.numbers.as_mut_slice(), touched);
    }
}

// Forgets all rows, where there isn't room for so many pairs more.
fn make_room(spans: &mut Vec<Option<Span>>, pairs: &mut Vec<JointClass>, room: u32, more: u32)
    requires few { length pairs.old.items ≤ room }
    requires more { more ≤ room }
    ensures room { length pairs.new.items + more ≤ room }
    ensures capacity { vec_capacity pairs.new ≡ vec_capacity pairs.old }
    ensures long { length spans.new.items ≡ length spans.old.items }
    ensures stand { StandStill spans.old.items pairs.old.items spans.new.items pairs.new.items }
{
    if (room as usize) - pairs.len() < more as usize {
        pairs.clear();
        spans.as_mut_slice().fill(None);
    }
}

// Puts the pairs of the classes that are touched behind all others.
fn add_pairs(pairs: &mut Vec<JointClass>, numbers: &[u32], touched: &[u32]) -> Span
    requires room { length pairs.old.items + length touched.now ≤ vec_capacity pairs.old }
    requires few { length pairs.old.items + length touched.now < 2 ^ 32 }
    requires within { All (λ other. other < length numbers.now) touched.now }
    ensures pairs { pairs.new.items ≡ pairs.old.items ++ map (pair_of numbers.now) touched.now }
    ensures capacity { vec_capacity pairs.old ≤ vec_capacity pairs.new }
    ensures start { result.start ≡ length pairs.old.items }
    ensures end { result.end ≡ length pairs.new.items }
{
    let start = pairs.len() as u32;
    for other in touched {
        let pair = JointClass {
            class: *other,
            number: numbers[*other as usize],
        };
        pairs.push(pair).unwrap();
    }
    let end = pairs.len() as u32;
    Span { start, end }
}

// Makes all numbers 0 again, where these classes alone have others.
fn clear(numbers: &mut [u32], touched: &[u32])
    requires { AreTouched numbers.old touched.now }
    ensures { All (λ n. n ≡ 0) numbers.new }
{
    for other in touched {
        numbers[*other as usize] = 0;
    }
}
