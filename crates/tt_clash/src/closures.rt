//! The closures of a session.

ghost use Rattle.std.specs.Prelude.{◌≡◌, ◌++◌, ◌∷◌, [], ◌<◌, ◌≤◌, ◌==◌, OnOk, OnErr, Some, IfSome, false, true, length, slice_get};
ghost use Rattle.std.specs.List.{list_any};
ghost use Rattle.tt_base.specs.Limits.{most_closures};
ghost use Rattle.tt_clash.specs.Closures.{closes, made, relifted, without_last};

use std::alloc::{AllocError, Global};
use std::marker::Model;
use tt_bits::{Closure, Time};

/// The closures of rooms that were made in a session, in the order in which they were made, lifted
/// ones among them. Contracts see the list; it has at most 10,000.
#[derive(Drop)]
pub struct Closures {
    items: Vec<Closure>,
}

impl Model for Closures {
    ghost use Rattle.std.specs.Prelude.{List, ◌≤◌, length};
    ghost use Rattle.tt_base.specs.Limits.{most_closures};
    ghost use Rattle.tt_bits.specs.declared.times.Closure.{Closure};

    ghost Value = { List Closure };

    ghost view = { λ c. c.items.items };

    ghost invariant = { λ c. length c.items.items ≤ most_closures };
}

impl Closures {
    /// No closures.
    pub fn new(alloc: Global) -> Self
        ensures { result ≡ [] }
    {
        Closures {
            items: Vec::new(alloc),
        }
    }

    /// Adds one that isn't lifted. Refused for want of memory alone, which only this call takes.
    pub fn close(&mut self, room: u32, time: Time) -> Result<(), AllocError>
        requires { length self.old < most_closures }
        ensures ok { OnOk result (self.new ≡ self.old ++ made room time ∷ []) }
        ensures err { OnErr result (self.new ≡ self.old) }
    {
        self.items.push(Closure {
            room,
            time,
            lifted: false,
        })?;
        Ok(())
    }

    /// Lifts one that isn't lifted.
    pub fn lift(&mut self, at: u32)
        requires within { at < length self.old }
        requires open { IfSome (slice_get self.old at) (λ c. c.lifted ≡ false) }
        ensures { self.new ≡ relifted self.old at true }
    {
        self.items[at as usize].lifted = true;
    }

    /// Takes back that one was lifted.
    pub fn unlift(&mut self, at: u32)
        requires within { at < length self.old }
        requires lifted { IfSome (slice_get self.old at) (λ c. c.lifted ≡ true) }
        ensures { self.new ≡ relifted self.old at false }
    {
        self.items[at as usize].lifted = false;
    }

    /// Takes the last one off.
    pub fn open_last(&mut self)
        requires { 0 < length self.old }
        ensures { self.new ≡ without_last self.old }
    {
        self.items.pop();
    }

    /// How many there are, lifted ones among them.
    pub fn len(&self) -> u32
        ensures count { result ≡ length self.now }
        ensures few { result ≤ most_closures }
    {
        self.items.len() as u32
    }

    /// Whether there is none.
    pub fn is_empty(&self) -> bool
        ensures { result ≡ (length self.now == 0) }
    {
        self.items.is_empty()
    }

    /// The one at a place.
    pub fn at(&self, at: u32) -> Closure
        requires { at < length self.now }
        ensures { slice_get self.now at ≡ Some result }
    {
        self.items[at as usize]
    }

    /// Whether one that isn't lifted closes the room at a time that overlaps this one.
    pub fn has_closed(&self, room: u32, time: Time) -> bool
        ensures { result ≡ list_any (closes room time) self.now }
    {
        self.items
            .iter()
            .any(|c| c.room == room && !c.lifted && time.overlaps(&c.time))
    }
}
