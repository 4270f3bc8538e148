//! The joint rows of a problem of few classes, which are changed where a student's list changes.

ghost use Rattle.std.specs.Prelude.{◌≡◌, ℕ, ◌<◌, ◌≤◌, ◌^◌, All, IfOk, IfSome, IsSome, IsSomeAnd, IsTrue, None, [], false, length, replicate, slice_index_or, vec_capacity};
ghost use Rattle.std.specs.Option.{option_map_or};
ghost use Rattle.tt_roster.specs.Lists.{list_of};
ghost use Rattle.tt_score.specs.Table.{AreBetween, IsOneLess, IsOneMore, most_in_place, new_row, row_of, table_row};

use crate::rows::{JointClass, JointRows};
use std::alloc::{AllocError, Global};
use std::marker::Model;
use tt_roster::Roster;

// The most classes of a problem whose rows are changed in place.
const MOST_IN_PLACE: u32 = 512;

/// The joint row of a class, changed in place. Only `new` takes memory.
#[derive(Drop)]
pub struct TableRow {
    // The classes with a number above 0, in no order.
    pairs: Vec<JointClass>,
    // By class, where its pair stands. What stands there is looked at before it is changed.
    places: Vec<u16>,
    // Whether the pairs are those of the class.
    kept: bool,
}

impl Model for TableRow {
    ghost use Rattle.tt_score.specs.Table.{RowSeen, row_seen, HasPairs};

    ghost Value = { RowSeen };

    ghost view = { row_seen };

    ghost invariant = { HasPairs };
}

impl TableRow {
    /// The row of a class that nobody has, of so many classes.
    pub fn new(alloc: Global, classes: u32) -> Result<TableRow, AllocError>
        requires { classes ≤ most_in_place }
        ensures { IfOk result (λ row. row ≡ new_row classes) }
    {
        Ok(TableRow {
            pairs: Vec::with_capacity(alloc, classes as usize)?,
            places: vec![in alloc; 0; classes as usize]?,
            kept: true,
        })
    }

    /// Whether the pairs are kept.
    pub fn is_kept(&self) -> bool
        ensures kept { IsTrue result → IsSome self.now.pairs }
        ensures lost { result ≡ false → self.now.pairs ≡ None }
        ensures few { IfSome self.now.pairs (λ row. length row ≤ self.now.classes) }
    {
        self.kept
    }

    /// The pairs, none where they aren't kept.
    pub fn as_slice(&self) -> &[JointClass]
        ensures row { result.now ≡ option_map_or (λ row. row) self.now.pairs [] }
        ensures few { length result.now ≤ most_in_place }
    {
        if self.kept {
            self.pairs.as_slice()
        } else {
            &self.pairs[0..0]
        }
    }

    /// Counts a student more at a class.
    pub fn add(&mut self, class: u32)
        requires { class < self.old.classes }
        ensures classes { self.new.classes ≡ self.old.classes }
        ensures pairs { IfSome self.new.pairs
            (λ more. IsSomeAnd self.old.pairs (λ row. IsOneMore class row more)) }
    {
        let done = add_one(&mut self.pairs, self.places.as_mut_slice(), class);
        self.kept = self.kept && done;
    }

    /// Counts a student less at a class.
    pub fn take(&mut self, class: u32)
        requires { class < self.old.classes }
        ensures classes { self.new.classes ≡ self.old.classes }
        ensures pairs { IfSome self.new.pairs
            (λ less. IsSomeAnd self.old.pairs (λ row. IsOneLess class row less)) }
    {
        let done = take_one(&mut self.pairs, self.places.as_mut_slice(), class);
        self.kept = self.kept && done;
    }
}

// Where the pair of a class stands, if it stands where it was put.
fn place_in(pairs: &[JointClass], places: &[u16], class: u32) -> Option<u16>
    requires { class < length places.now }
    ensures within { IfSome result (λ at. at < length pairs.now) }
    ensures class { (d : JointClass)
        → IfSome result (λ at. (slice_index_or pairs.now at d).class ≡ class) }
{
    let at = places[class as usize];
    if (at as usize) < pairs.len() && pairs[at as usize].class == class {
        Some(at)
    } else {
        None
    }
}

// Counts a student more at a class, and answers whether that could be done.
fn add_one(pairs: &mut Vec<JointClass>, places: &mut [u16], class: u32) -> bool
    requires class { class < length places.old }
    requires few { length pairs.old.items ≤ length places.old }
    requires room { length places.old ≤ vec_capacity pairs.old }
    requires small { length places.old ≤ most_in_place }
    ensures one { IsTrue result → IsOneMore class pairs.old.items pairs.new.items }
    ensures few { length pairs.new.items ≤ length places.old }
    ensures room { vec_capacity pairs.old ≤ vec_capacity pairs.new }
    ensures long { length places.new ≡ length places.old }
{
    if let Some(at) = place_in(pairs.as_slice(), places, class) {
        let number = pairs[at as usize].number;
        if number == u32::MAX {
            return false;
        }
        pairs[at as usize] = JointClass {
            class,
            number: number + 1,
        };
        return true;
    }
    if pairs.len() == places.len() {
        return false;
    }
    places[class as usize] = pairs.len() as u16;
    pairs.push(JointClass { class, number: 1 }).unwrap();
    true
}

// Counts a student less at a class, and answers whether that could be done.
fn take_one(pairs: &mut Vec<JointClass>, places: &mut [u16], class: u32) -> bool
    requires class { class < length places.old }
    ensures one { IsTrue result → IsOneLess class pairs.old.items pairs.new.items }
    ensures few { length pairs.new.items ≤ length pairs.old.items }
    ensures room { vec_capacity pairs.new ≡ vec_capacity pairs.old }
    ensures long { length places.new ≡ length places.old }
{
    let Some(at) = place_in(pairs.as_slice(), places, class) else {
        return false;
    };
    let number = pairs[at as usize].number;
    if number == 0 {
        return false;
    }
    if number > 1 {
        pairs[at as usize] = JointClass {
            class,
            number: number - 1,
        };
        return true;
    }
    pairs.swap_remove(at as usize);
    note_place(pairs.as_slice(), places, at);
    true
}

// Notes where a pair stands.
fn note_place(pairs: &[JointClass], places: &mut [u16], at: u16)
    ensures { length places.new ≡ length places.old }
{
    if (at as usize) < pairs.len() {
        let class = pairs[at as usize].class;
        if (class as usize) < places.len() {
            places[class as usize] = at;
        }
    }
}

/// A row for each class, where these are few enough, and else none.
pub fn new_table(alloc: Global, classes: u32) -> Result<Vec<TableRow>, AllocError>
    ensures new { IfOk result
        (λ table. table.items ≡ replicate (length table.items) (new_row classes)) }
    ensures whole { IfOk result
        (λ table. (c : ℕ) → c < length table.items → length table.items ≡ classes) }
{
    let mut table = Vec::new(alloc);
    if classes > MOST_IN_PLACE {
        return Ok(table);
    }
    for _ in 0..classes {
        table.push(TableRow::new(alloc, classes)?)?;
    }
    Ok(table)
}

/// Whether the row of a class is kept in a table.
pub fn is_in(table: &[TableRow], class: u32) -> bool
    ensures within { IsTrue result → class < length table.now }
    ensures kept { IsTrue result → IsSome (table_row table.now class).pairs }
    ensures lost { result ≡ false → (table_row table.now class).pairs ≡ None }
    ensures few { IsTrue result → IfSome (table_row table.now class).pairs
        (λ row. length row ≤ (table_row table.now class).classes) }
{
    (class as usize) < table.len() && table[class as usize].is_kept()
}

/// The row of a class, from the table where it is kept there.
pub fn row_of<'a>(table: &'a [TableRow], rows: &'a JointRows, class: u32) -> &'a [JointClass]
    ensures row { result.now ≡ row_of table.now rows.now class }
    ensures few { length result.now < 2 ^ 32 }
{
    if is_in(table, class) {
        table[class as usize].as_slice()
    } else {
        rows.row(class)
    }
}

/// Counts a student more in the rows of a class and of each class of the student's list.
pub fn seat_in(table: &mut [TableRow], roster: &Roster, student: u32, class: u32)
    requires student { student < length roster.now.seats }
    requires whole { (c : ℕ) → c < length table.old → class < length table.old }
    requires list { (c : ℕ) → c < length table.old
        → All (λ other. other < length table.old) (list_of roster.now.seats student) }
    requires long { (c : ℕ) → c < length table.old
        → (table_row table.old c).classes ≡ length table.old }
    ensures { AreBetween class (list_of roster.now.seats student) table.old [] table.new }
{
    if (class as usize) >= table.len() {
        return;
    }
    for other in roster.classes(student) {
        table[class as usize].add(other);
        table[other as usize].add(class);
    }
}

/// Counts a student less in the rows of a class and of each other class of the student's list.
pub fn leave_in(table: &mut [TableRow], roster: &Roster, student: u32, class: u32)
    requires student { student < length roster.now.seats }
    requires whole { (c : ℕ) → c < length table.old → class < length table.old }
    requires list { (c : ℕ) → c < length table.old
        → All (λ other. other < length table.old) (list_of roster.now.seats student) }
    requires long { (c : ℕ) → c < length table.old
        → (table_row table.old c).classes ≡ length table.old }
    ensures { AreBetween class [] table.old (list_of roster.now.seats student) table.new }
{
    if (class as usize) >= table.len() {
        return;
    }
    for other in roster.classes(student) {
        table[class as usize].take(other);
        table[other as usize].take(class);
    }
}
