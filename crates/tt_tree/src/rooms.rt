//! The rooms of a problem file, and the travel between them.

ghost use Rattle.std.specs.Prelude.{◌≡◌, ◌<◌, ◌≤◌, length, IfOk, OnOk};
ghost use Rattle.tt_base.specs.Limits.{most_rooms};
ghost use Rattle.tt_travel.specs.Table.{Table};
ghost use Rattle.tt_fields.specs.Answer.{Reads, Gives, part_of};
ghost use Rattle.tt_fields.specs.List.{items_of};
ghost use Rattle.tt_tree.specs.Context.{context_of, IsContext, HasIds};
ghost use Rattle.tt_tree.specs.Read.{rooms_read, IsTravelAmong, IsRooms};
ghost use Rattle.tt_tree.specs.Tables.{a_travel_entry, a_room, rooms_in, Rooms as RoomsSeen};

use crate::context::Context;
use crate::times::ClosedTable;
use indexmap::IndexSet;
use std::alloc::Global;
use tt_base::Row;
use tt_fields::{
    Fault, Field, FileFault, NextTable, PartList, add_id, as_object, list_or_none, number,
    read_each, read_onto, reference,
};
use tt_problem::RoomPart;
use tt_travel::Travel;

/// The rooms that have been read, their ids, and the travel between all rooms as far as it has been
/// read.
#[derive(Drop)]
pub struct Rooms {
    pub ids: IndexSet<u32>,
    pub rooms: Vec<RoomPart>,
    pub travel: Travel,
}

// The entries in the travel of the room at a place, one of so many rooms.
#[derive(Clone, Copy)]
struct EntryTable<'a> {
    context: &'a Context<'a>,
    count: u32,
    from: u32,
}

// Enters a travel that a room has.
#[tactic(auto, unfolding(crate::specs::Tables::a_travel_entry))]
fn enter_travel<'a>(
    entries: &EntryTable<'_>,
    item: &'a Field<'a>,
    travel: &mut Travel,
) -> Result<(), Fault<'a>>
    requires context { IsContext entries.now.context.now }
    requires room { entries.now.from < entries.now.count }
    requires among { IsTravelAmong entries.now.context.now entries.now.count travel.old }
    ensures reads { Reads (λ _. travel.new) result (a_travel_entry
        (context_of entries.now.context.now) entries.now.from (part_of item.now) travel.old) }
    ensures among { OnOk result
        (IsTravelAmong entries.now.context.now entries.now.count travel.new) }
{
    as_object(item)?;
    let to = reference(&entries.context.rooms, item, "room")?;
    let slots = number(item, "value", 0, 65_535)? as u16;
    travel.set(entries.from, to, slots);
    Ok(())
}

impl NextTable<Travel> for EntryTable<'_> {
    ghost Seen = { Table };

    ghost seen = { λ travel. travel };

    ghost reads = { λ t. a_travel_entry (context_of t.context.now) t.from };

    ghost most = { λ t. 4000 };

    ghost valid = { λ t place travel. IsContext t.context.now × (t.from < t.count) × IsTravelAmong t.context.now t.count travel };

    fn read_next(
        &self,
        _alloc: Global,
        _place: usize,
        item: &Field<'_>,
        before: &mut Travel,
    ) -> Result<(), FileFault> {
        Ok(enter_travel(self, &*item, before)?)
    }
}

// The rooms of a list of so many.
#[derive(Clone, Copy)]
struct RoomTable<'a> {
    context: &'a Context<'a>,
    count: u32,
}

impl NextTable<Rooms> for RoomTable<'_> {
    ghost Seen = { RoomsSeen };

    ghost seen = { rooms_read };

    ghost reads = { λ t. a_room (context_of t.context.now) };

    ghost most = { λ t. t.count };

    ghost valid = { λ t place s. IsContext t.context.now × IsRooms t.context.now t.count s × (length s.rooms.items ≡ place) };

    #[tactic(auto, using(crate::proofs::Pushed::rooms_push), unfolding(crate::specs::Tables::a_room))]
    fn read_next(
        &self,
        alloc: Global,
        place: usize,
        item: &Field<'_>,
        before: &mut Rooms,
    ) -> Result<(), FileFault> {
        let entries = EntryTable {
            context: self.context,
            count: self.count,
            from: place as u32,
        };
        as_object(item)?;
        let id = number(&*item, "id", 0, u32::MAX)?;
        add_id(item, id, &mut before.ids)?;
        let items = list_or_none(&*item, "travel", 4000)?;
        read_onto(alloc, &entries, &items, &mut before.travel)?;
        let unavailable = list_or_none(&*item, "unavailable", 1000)?;
        let table = ClosedTable {
            context: self.context,
        };
        let closed = read_each(alloc, &table, &unavailable)?;
        before.rooms.push(RoomPart {
            id,
            closed: Row::from_vec(closed),
        })?;
        Ok(())
    }
}

/// All rooms of a list, and the travel between them.
#[tactic(auto, using(crate::proofs::Places::items_length, crate::proofs::Pushed::none_distinct), unfolding(crate::specs::Tables::rooms_in))]
pub fn read_rooms(
    alloc: Global,
    context: &Context<'_>,
    items: &PartList<'_>,
) -> Result<Rooms, FileFault>
    requires context { IsContext context.now }
    requires few { length items.now.values.now ≤ most_rooms }
    requires known { HasIds context.now.rooms (length items.now.values.now) }
    ensures reads { Gives rooms_read result
        (rooms_in (context_of context.now) (items_of items.now)) }
    ensures rooms { IfOk result
        (λ rooms. IsRooms context.now (length items.now.values.now) rooms) }
    ensures count { IfOk result (λ rooms. length rooms.rooms.items ≡ length items.now.values.now) }
{
    let count = items.len() as u32;
    let mut rooms = Rooms {
        ids: IndexSet::new(alloc),
        rooms: Vec::new(alloc),
        travel: Travel::new(alloc, count)?,
    };
    let table = RoomTable { context, count };
    read_onto(alloc, &table, items, &mut rooms)?;
    Ok(rooms)
}
