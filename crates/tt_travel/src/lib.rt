//! Travel between the rooms of a problem: a table that is the same both ways, and 0 from a room to
//! itself.
#![tactic(auto)]

ghost use Rattle.std.specs.Prelude.{◌≡◌, ◌≢◌, ℕ, ◌+◌, ◌*◌, ◌<◌, ◌≤◌, Option, Some, IfOk, length};
ghost use Rattle.tt_base.specs.Limits.{most_rooms};
ghost use Rattle.tt_travel.specs.Table.{between, no_travel, with_travel, IsRoomOf, IsTravel, IsPair};

use std::alloc::{AllocError, Global};
use std::marker::Model;

/// How many slots it takes to go from one room to another, as the travel of ITC 2019. It takes as
/// many to go back, and none to stay. For a class without a room it is 0.
///
/// A room is named by its place in the problem. Contracts see a `Travel` as its table.
#[derive(Drop)]
pub struct Travel {
    rooms: u32,
    // Between no two rooms are more slots. A later setting to fewer doesn't lower it.
    most: u16,
    // The slots from room `a` to room `b` stand at `a * rooms + b`.
    slots: Vec<u16>,
}

impl Model for Travel {
    ghost use Rattle.std.specs.Prelude.{◌≤◌, All};
    ghost use Rattle.tt_travel.specs.Table.{Table, IsTravel};

    ghost Value = { Table };

    ghost view = { λ t. record { rooms = t.rooms; slots = t.slots.items } };

    ghost invariant = { λ t. IsTravel (record { rooms = t.rooms; slots = t.slots.items })
        × All (λ slots. slots ≤ t.most) t.slots.items };
}

impl Travel {
    /// A table of so many rooms in which no travel takes time.
    #[tactic(auto, unfolding(crate::specs::Table::no_travel))]
    pub fn new(alloc: Global, rooms: u32) -> Result<Travel, AllocError>
        requires { rooms ≤ most_rooms }
        ensures table { IfOk result (λ t. t ≡ no_travel rooms) }
        ensures rooms { IfOk result (λ t. t.rooms ≡ rooms) }
        ensures sound { IfOk result IsTravel }
    {
        let places = rooms as usize * rooms as usize;
        let slots = vec![in alloc; 0; places]?;
        Ok(Travel {
            rooms,
            most: 0,
            slots,
        })
    }

    /// Sets the slots between two rooms, both ways. From a room to itself it stays 0.
    #[tactic(auto, unfolding(crate::specs::Table::with_travel))]
    pub fn set(&mut self, a: u32, b: u32, slots: u16)
        requires from { a < self.old.rooms }
        requires to { b < self.old.rooms }
        ensures table { self.new ≡ with_travel self.old a b slots }
        ensures rooms { self.new.rooms ≡ self.old.rooms }
        ensures there { a ≢ b → between self.new (Some a) (Some b) ≡ slots }
        ensures back { a ≢ b → between self.new (Some b) (Some a) ≡ slots }
        ensures others { (c d : ℕ) → c < self.old.rooms → d < self.old.rooms → ¬ IsPair a b c d
            → between self.new (Some c) (Some d) ≡ between self.old (Some c) (Some d) }
        ensures sound { IsTravel self.new }
    {
        if a != b {
            let there = self.place(a, b);
            let back = self.place(b, a);
            self.slots[there] = slots;
            self.slots[back] = slots;
            self.most = self.most.max(slots);
        }
    }

    /// The slots between two rooms, 0 where either is none.
    pub fn between(&self, a: Option<u32>, b: Option<u32>) -> u16
        requires from { IsRoomOf self.now a }
        requires to { IsRoomOf self.now b }
        ensures value { result ≡ between self.now a b }
        ensures sound { IsTravel self.now }
    {
        match (a, b) {
            (Some(a), Some(b)) => self.slots[self.place(a, b)],
            _ => 0,
        }
    }

    /// Between no two rooms are more slots than these. It may be above all in the table: a later
    /// setting to fewer doesn't lower it.
    pub fn most(&self) -> u16
        ensures most { (a b : Option ℕ) → IsRoomOf self.now a → IsRoomOf self.now b
            → between self.now a b ≤ result }
        ensures sound { IsTravel self.now }
    {
        self.most
    }

    // Where the slots from one room to another stand.
    fn place(&self, a: u32, b: u32) -> usize
        requires from { a < self.now.rooms }
        requires to { b < self.now.rooms }
        ensures place { result ≡ a * self.now.rooms + b }
        ensures within { result < length self.now.slots }
    {
        a as usize * self.rooms as usize + b as usize
    }
}
