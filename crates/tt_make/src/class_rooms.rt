//! The rooms that a class may have, each with its penalty.

ghost use Rattle.std.specs.Prelude.{◌≡◌, ◌≤◌, ◌++◌, OnOk, ⊤};
ghost use Rattle.serde_json.specs.Written.{compact_text};
ghost use Rattle.tt_make.specs.Classes.{class_room as class_room_of, class_room_data};

use crate::append::{push_field, push_text};
use crate::draws::draw;
use crate::parts::Made;
use rand_pcg::Lcg64Xsh32;
use std::alloc::{AllocError, Global};

/// The rooms that a class may have.
#[derive(Drop)]
pub struct ClassRooms {
    pub rooms: u32,
    pub ghost some: { 1 ≤ rooms },
    pub ghost few: { rooms ≤ 2002 },
}

impl Made for ClassRooms {
    ghost made = { λ class_rooms i. class_room_of class_rooms.rooms };

    ghost covers = { λ class_rooms i. ⊤ };

    #[tactic(auto, unfolding(crate::specs::Classes::class_room))]
    fn push(
        &self,
        _alloc: Global,
        out: &mut Vec<u8>,
        random: &mut Lcg64Xsh32,
        _i: u32,
    ) -> Result<(), AllocError> {
        let room = draw(random, self.rooms);
        let penalty = draw(random, 5);
        push_class_room(out, 1 + room, penalty)
    }
}

// Appends a room that a class may have: its id and its penalty.
fn push_class_room(out: &mut Vec<u8>, id: u32, penalty: u32) -> Result<(), AllocError>
    ensures { OnOk result
        (out.new.items ≡ out.old.items ++ compact_text (class_room_data id penalty)) }
{
    push_field(out, r#"{"id":"#, id)?;
    push_field(out, r#","penalty":"#, penalty)?;
    push_text(out, "}")?;
    Ok(())
}
