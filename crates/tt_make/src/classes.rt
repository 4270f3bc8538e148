//! Classes: each has six times and four rooms, and every tenth one needs no room.

ghost use Rattle.std.specs.Prelude.{◌≡◌, ◌≤◌, ◌-◌, ◌++◌, OnOk, Some, None, ⊤};
ghost use Rattle.serde_json.specs.Written.{compact_text};
ghost use Rattle.tt_make.specs.Classes.{class as class_of, class_rooms as class_rooms_of};
ghost use Rattle.tt_make.specs.Pieces.{parent_text, rooms_text};

use crate::append::{push_field, push_text};
use crate::class_rooms::ClassRooms;
use crate::parts::{Made, push_list};
use crate::times::Times;
use rand_pcg::Lcg64Xsh32;
use std::alloc::{AllocError, Global};

/// The classes without a parent, by their ids.
#[derive(Drop)]
pub struct Parents {
    pub rooms: u32,
    pub ghost some: { 1 ≤ rooms },
    pub ghost few: { rooms ≤ 2002 },
}

/// The classes whose parent is the class two before them, by their ids.
#[derive(Drop)]
pub struct Children {
    pub rooms: u32,
    pub ghost some: { 1 ≤ rooms },
    pub ghost few: { rooms ≤ 2002 },
}

impl Made for Parents {
    ghost made = { λ classes id. class_of classes.rooms None id };

    ghost covers = { λ classes id. ⊤ };

    fn push(
        &self,
        alloc: Global,
        out: &mut Vec<u8>,
        random: &mut Lcg64Xsh32,
        id: u32,
    ) -> Result<(), AllocError> {
        push_class(alloc, out, random, self.rooms, None, id)
    }
}

impl Made for Children {
    ghost made = { λ classes id. class_of classes.rooms (Some (id - 2)) id };

    ghost covers = { λ classes id. 3 ≤ id };

    fn push(
        &self,
        alloc: Global,
        out: &mut Vec<u8>,
        random: &mut Lcg64Xsh32,
        id: u32,
    ) -> Result<(), AllocError> {
        push_class(alloc, out, random, self.rooms, Some(id - 2), id)
    }
}

// Draws a class and appends its text. The times are drawn before the rooms, and stand behind them.
fn push_class(
    alloc: Global,
    out: &mut Vec<u8>,
    random: &mut Lcg64Xsh32,
    rooms: u32,
    parent: Option<u32>,
    id: u32,
) -> Result<(), AllocError>
    requires some { 1 ≤ rooms }
    requires few { rooms ≤ 2002 }
    ensures text { OnOk result
        (out.new.items ≡ out.old.items ++ compact_text (class_of rooms parent id random.old).0) }
    ensures random { OnOk result (random.new ≡ (class_of rooms parent id random.old).1) }
{
    let mut times = Vec::new(alloc);
    push_list(alloc, &mut times, random, &Times, 0, 6)?;
    push_field(out, r#"{"id":"#, id)?;
    push_text(out, r#","limit":50"#)?;
    push_parent(out, parent)?;
    push_rooms(alloc, out, random, rooms, id)?;
    push_text(out, r#","times":"#)?;
    out.extend_from_slice(&times)?;
    push_text(out, "}")?;
    Ok(())
}

// Appends the parent of a class, where it has one.
fn push_parent(out: &mut Vec<u8>, parent: Option<u32>) -> Result<(), AllocError>
    ensures { OnOk result (out.new.items ≡ out.old.items ++ parent_text parent) }
{
    match parent {
        Some(id) => push_field(out, r#","parent":"#, id),
        None => Ok(()),
    }
}

// Appends the rooms of a class, which are drawn, or that it needs none.
#[tactic(auto, unfolding(crate::specs::Classes::class_rooms), using(std::proofs::Common::append_assoc))]
fn push_rooms(
    alloc: Global,
    out: &mut Vec<u8>,
    random: &mut Lcg64Xsh32,
    rooms: u32,
    id: u32,
) -> Result<(), AllocError>
    requires some { 1 ≤ rooms }
    requires few { rooms ≤ 2002 }
    ensures text { OnOk result
        (out.new.items ≡ out.old.items ++ rooms_text (class_rooms_of rooms id random.old).0) }
    ensures random { OnOk result (random.new ≡ (class_rooms_of rooms id random.old).1) }
{
    if id % 10 == 0 {
        push_text(out, r#","room":false"#)
    } else {
        push_text(out, r#","rooms":"#)?;
        push_list(alloc, out, random, &ClassRooms { rooms }, 0, 4)
    }
}
