//! Classes listed one after another.

ghost use Rattle.std.specs.Prelude.{◌≡◌, ℕ, ◌<◌, ◌≤◌, ◌==◌, ◌||◌, All, IfOk, [], ◌∷◌, ◌++◌, false, length, slice_index_or, vec_capacity};
ghost use Rattle.std.specs.List.{insert};
ghost use Rattle.tt_base.specs.Lists.{is_listed};
ghost use Rattle.tt_clash.specs.Listings.{AreInOrder};

use std::alloc::{AllocError, Global};
use std::marker::Model;
use tt_pool::place_in_order;

/// Some classes of a problem, each once, in the order in which they were listed. Contracts see the
/// list and how many classes the problem has. Only `new` takes memory, and only it takes time in the
/// number of all classes.
#[derive(Drop)]
pub struct Listing {
    // Whether each class of the problem is listed.
    marks: Vec<bool>,
    order: Vec<u32>,
}

impl Model for Listing {
    ghost use Rattle.std.specs.Prelude.{length, vec_capacity};
    ghost use Rattle.tt_clash.specs.Listings.{ListedClasses, IsListing};

    ghost Value = { ListedClasses };

    ghost view = { λ l. record { classes = length l.marks.items; list = l.order.items } };

    ghost invariant = { λ l. IsListing l.marks.items l.order.items (vec_capacity l.order) };
}

impl Listing {
    /// Lists nothing yet, of so many classes.
    pub fn new(alloc: Global, classes: u32) -> Result<Listing, AllocError>
        ensures { IfOk result (λ l. l ≡ record { classes = classes; list = [] }) }
    {
        let marks = vec![in alloc; false; classes as usize]?;
        let order = Vec::with_capacity(alloc, classes as usize)?;
        Ok(Listing { marks, order })
    }

    /// Whether a class is listed.
    pub fn has(&self, class: u32) -> bool
        requires { class < self.now.classes }
        ensures { result ≡ is_listed class self.now.list }
    {
        self.marks[class as usize]
    }

    /// Lists a class that isn't listed yet, behind the others.
    pub fn add(&mut self, class: u32)
        requires within { class < self.old.classes }
        requires new { is_listed class self.old.list ≡ false }
        ensures { self.new
            ≡ record { classes = self.old.classes; list = self.old.list ++ class ∷ [] } }
    {
        self.marks[class as usize] = true;
        self.order.push(class).unwrap();
    }

    /// Lists a class, if it isn't listed yet, at its place among those listed, which stand in the
    /// problem's order.
    pub fn add_in_order(&mut self, class: u32)
        requires within { class < self.old.classes }
        requires order { AreInOrder self.old }
        ensures classes { self.new.classes ≡ self.old.classes }
        ensures each { (d : ℕ)
            → is_listed d self.new.list ≡ (is_listed d self.old.list || d == class) }
        ensures order { AreInOrder self.new }
    {
        if self.has(class) {
            return;
        }
        let at = place_in_order(self.order.as_slice(), class);
        put_at(&mut self.order, at, class);
        self.marks[class as usize] = true;
    }

    /// Lists nothing any more.
    pub fn clear(&mut self)
        ensures { self.new ≡ record { classes = self.old.classes; list = [] } }
    {
        clear_marks(self.marks.as_mut_slice(), self.order.as_slice());
        self.order.clear();
    }

    /// The listed classes.
    pub fn as_slice(&self) -> &[u32]
        ensures list { result.now ≡ self.now.list }
        ensures few { length result.now ≤ self.now.classes }
        ensures within { All (λ class. class < self.now.classes) result.now }
    {
        self.order.as_slice()
    }

    /// How many classes are listed.
    pub fn len(&self) -> u32
        ensures count { result ≡ length self.now.list }
        ensures few { result ≤ self.now.classes }
    {
        self.order.len() as u32
    }
}

// Puts a class at a place of a list that has room. Most come last, and then nothing is moved.
fn put_at(list: &mut Vec<u32>, at: usize, class: u32)
    requires within { at ≤ length list.old.items }
    requires room { length list.old.items < vec_capacity list.old }
    ensures items { list.new.items ≡ insert list.old.items at class }
    ensures room { vec_capacity list.old ≤ vec_capacity list.new }
{
    if at == list.len() {
        list.push(class).unwrap();
    } else {
        list.insert(at, class).unwrap();
    }
}

// Takes the marks off the listed classes.
fn clear_marks(marks: &mut [bool], listed: &[u32])
    requires listed { All (λ d. d < length marks.old) listed.now }
    requires each { (d : ℕ) → slice_index_or marks.old d false ≡ is_listed d listed.now }
    ensures { All (λ b. b ≡ false) marks.new }
{
    for class in listed {
        marks[*class as usize] = false;
    }
}
