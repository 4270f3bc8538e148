//! Where classes stand: the spots of the placed classes, and which of them clash in a room.
//! Whatever calls were made, each number is the count over the spots held, `classes_in` gives the
//! placed classes of a room and `classes_on` those that meet there on a day, in order.
#![tactic(auto)]

ghost use Rattle.std.specs.Prelude.{◌≡◌, ◌<◌, ◌≤◌, ◌+◌, ◌*◌, ◌&&◌, nat_lt, min, max, Some, None, IsSome, IfOk, IfSome, length, replicate, slice_set, []};
ghost use Rattle.std.specs.Option.{option_map_or};
ghost use Rattle.tt_base.specs.Limits.{most_rooms};
ghost use Rattle.tt_bits.specs.Spots.{spot_at, IsEmptyAt};
ghost use Rattle.tt_bits.specs.Times.{shares_day, end_of};
ghost use Rattle.tt_occupancy.specs.Rooms.{classes_in, AreListed};
ghost use Rattle.tt_occupancy.specs.RoomDays.{classes_on, AreOnDays};
ghost use Rattle.tt_occupancy.specs.Clashes.{clash, clashes_in_room, clash_pairs, clash_count};

use std::alloc::{AllocError, Global};
use std::marker::Model;
use tt_bits::{Spot, Time};
use tt_pool::{Items, Pool};

/// The spots of the placed classes. Classes and rooms are named by their places in the problem.
#[derive(Drop)]
pub struct Occupancy {
    spots: Vec<Option<Spot>>,
    // The placed classes of each room, in order.
    by_room: Pool,
    // The placed classes of each room on each day of the week, in order: 7 lists for each room.
    by_day: Pool,
    rooms: u32,
    clashes: u64,
}

impl Model for Occupancy {
    ghost use Rattle.tt_occupancy.specs.Occupied.{Occupied};

    ghost Value = { Occupied };

    ghost use Rattle.tt_occupancy.specs.Kept.{occupied, OccupancyIsKept};

    ghost view = { occupied };

    ghost invariant = { OccupancyIsKept };
}

impl Occupancy {
    /// So many classes, none of them placed.
    pub fn new(alloc: Global, classes: u32, rooms: u32) -> Result<Occupancy, AllocError>
        requires { rooms ≤ most_rooms }
        ensures spots { IfOk result (λ o. o.spots ≡ replicate classes None) }
        ensures rooms { IfOk result (λ o. o.rooms ≡ rooms) }
    {
        if classes > 600_000_000 {
            // More than a pool finds room for on 7 days.
            return Err(AllocError);
        }
        let spots = vec![in alloc; None; classes as usize]?;
        let by_room = Pool::new(alloc, rooms, classes)?;
        let by_day = Pool::new(alloc, rooms * 7, classes * 7)?;
        Ok(Occupancy {
            spots,
            by_room,
            by_day,
            rooms,
            clashes: 0,
        })
    }

    /// Places a class that isn't placed.
    pub fn put(&mut self, class: u32, spot: Spot)
        requires place { IsEmptyAt self.old.spots class }
        requires room { IfSome spot.room (λ room. room < self.old.rooms) }
        ensures spots { self.new.spots ≡ slice_set self.old.spots class (Some spot) }
        ensures rooms { self.new.rooms ≡ self.old.rooms }
    {
        let more = self.clashes_with(spot, class);
        self.clashes += more;
        enter_days(self.spots.as_slice(), &mut self.by_day, class, spot);
        enter(self.spots.as_mut_slice(), &mut self.by_room, class, spot);
    }

    /// Takes its spot from a class that is placed, and answers it.
    pub fn take(&mut self, class: u32) -> Spot
        requires { IsSome (spot_at self.old.spots class) }
        ensures spot { spot_at self.old.spots class ≡ Some result }
        ensures spots { self.new.spots ≡ slice_set self.old.spots class None }
        ensures rooms { self.new.rooms ≡ self.old.rooms }
    {
        let Some(spot) = self.spots[class as usize] else {
            unreachable!()
        };
        let less = self.clashes_with(spot, class);
        self.clashes -= less;
        leave_days(self.spots.as_slice(), &mut self.by_day, class, spot);
        leave(self.spots.as_mut_slice(), &mut self.by_room, class, spot);
        spot
    }

    /// The spot of each class or none.
    pub fn spots(&self) -> &[Option<Spot>]
        ensures { result.now ≡ self.now.spots }
    {
        self.spots.as_slice()
    }

    /// How many pairs of placed classes have the same room and overlap.
    pub fn clashes(&self) -> u64
        ensures { result ≡ clash_pairs self.now.spots }
    {
        self.clashes
    }

    /// How many placed classes but one overlap the spot in its room.
    pub fn clashes_with(&self, spot: Spot, except: u32) -> u64
        ensures { result ≡ clash_count self.now.spots spot except }
    {
        let Some(classes) = self.classes_in(spot.room) else {
            return 0;
        };
        let spots = self.spots.as_slice();
        let mut count = 0;
        for class in classes {
            if clashes_in_room(spots, except, &spot, class) {
                count += 1;
            }
        }
        count
    }

    /// The placed classes that have a room, in order. `None` stands for no classes.
    pub fn classes_in(&self, room: Option<u32>) -> Option<Items>
        ensures { option_map_or (λ classes. classes) result [] ≡ classes_in self.now.spots room }
    {
        let room = room?;
        if room < self.rooms {
            Some(self.by_room.items(room))
        } else {
            None
        }
    }

    /// The placed classes that have a room on a day of the week, in order. `None` stands for no
    /// classes.
    pub fn classes_on(&self, room: Option<u32>, day: u8) -> Option<Items>
        requires { day < 7 }
        ensures { option_map_or (λ classes. classes) result []
            ≡ classes_on self.now.spots room day }
    {
        let room = room?;
        if room < self.rooms {
            Some(self.by_day.items(room * 7 + u32::from(day)))
        } else {
            None
        }
    }
}

/// Whether a class isn't the one excepted, is placed, and overlaps the spot in its room.
#[inline(always)]
#[tactic(auto, unfolding(crate::specs::Clashes::clash))]
pub fn clashes_in_room(spots: &[Option<Spot>], except: u32, spot: &Spot, class: u32) -> bool
    requires { class < length spots.now }
    ensures { result ≡ clashes_in_room spots.now except spot.now class }
{
    class != except
        && match &spots[class as usize] {
            None => false,
            Some(other) => may_overlap(&spot.time, &other.time) && clash(spot, other),
        }
}

// Whether two spots have the same room and overlap.
#[tactic(auto, unfolding(crate::specs::Clashes::clash))]
fn clash(a: &Spot, b: &Spot) -> bool
    ensures { result ≡ clash a.now b.now }
{
    a.shares_room(b) && a.time.overlaps(&b.time)
}

// Whether two times share a day and a slot. One number tells, without a branch for each part: most
// classes of a room fail here, some by their days and some by their slots.
#[inline(always)]
fn may_overlap(a: &Time, b: &Time) -> bool
    ensures { result
        ≡ (shares_day a.now b.now
        && nat_lt (max a.now.start b.now.start) (min (end_of a.now) (end_of b.now))) }
{
    // Below 0 it is a number above all slots.
    let behind = u32::from(b.end()).wrapping_sub(u32::from(a.start) + 1);
    let slots = u32::from(a.length) + u32::from(b.length) - 1;
    a.days.share(b.days) && behind < slots
}

// Gives a class that has no spot this one, and puts it into the list of its room.
fn enter(spots: &mut [Option<Spot>], by_room: &mut Pool, class: u32, spot: Spot)
    requires listed { AreListed spots.old by_room.old }
    requires place { IsEmptyAt spots.old class }
    requires room { IfSome spot.room (λ room. room < length by_room.old.lists) }
    ensures spots { spots.new ≡ slice_set spots.old class (Some spot) }
    ensures listed { AreListed spots.new by_room.new }
    ensures rooms { length by_room.new.lists ≡ length by_room.old.lists }
{
    spots[class as usize] = Some(spot);
    match spot.room {
        None => {}
        Some(room) => {
            by_room.insert_in_order(room, class);
        }
    }
}

// Takes its spot from a class, and the class out of the list of its room.
fn leave(spots: &mut [Option<Spot>], by_room: &mut Pool, class: u32, spot: Spot)
    requires listed { AreListed spots.old by_room.old }
    requires place { spot_at spots.old class ≡ Some spot }
    ensures spots { spots.new ≡ slice_set spots.old class None }
    ensures listed { AreListed spots.new by_room.new }
    ensures rooms { length by_room.new.lists ≡ length by_room.old.lists }
{
    spots[class as usize] = None;
    match spot.room {
        None => {}
        Some(room) => by_room.remove_item(room, class),
    }
}

// Puts a class that has no spot into the list of its room on each day of the spot that it gets.
fn enter_days(spots: &[Option<Spot>], by_day: &mut Pool, class: u32, spot: Spot)
    requires listed { AreOnDays spots.now by_day.old }
    requires place { IsEmptyAt spots.now class }
    requires room { IfSome spot.room (λ room. room * 7 + 7 ≤ length by_day.old.lists) }
    requires few { length by_day.old.lists ≤ 17500 }
    ensures listed { AreOnDays (slice_set spots.now class (Some spot)) by_day.new }
    ensures rooms { length by_day.new.lists ≡ length by_day.old.lists }
{
    let Some(room) = spot.room else {
        return;
    };
    for day in 0..7 {
        if spot.time.days.has(day) {
            by_day.insert_in_order(room * 7 + u32::from(day), class);
        }
    }
}

// Takes a class out of the list of its room on each day of the spot that it loses.
fn leave_days(spots: &[Option<Spot>], by_day: &mut Pool, class: u32, spot: Spot)
    requires listed { AreOnDays spots.now by_day.old }
    requires place { spot_at spots.now class ≡ Some spot }
    requires room { IfSome spot.room (λ room. room * 7 + 7 ≤ length by_day.old.lists) }
    requires few { length by_day.old.lists ≤ 17500 }
    ensures listed { AreOnDays (slice_set spots.now class None) by_day.new }
    ensures rooms { length by_day.new.lists ≡ length by_day.old.lists }
{
    let Some(room) = spot.room else {
        return;
    };
    for day in 0..7 {
        if spot.time.days.has(day) {
            by_day.remove_item(room * 7 + u32::from(day), class);
        }
    }
}
