//! Rooms: each has travel to the one before it, and every fifth one is closed on Friday afternoons.

ghost use Rattle.std.specs.Prelude.{◌≡◌, ◌≤◌, ◌++◌, [], ◌∷◌, OnOk, Some};
ghost use Rattle.serde_json.specs.Written.{compact_text};
ghost use Rattle.tt_make.specs.Rooms.{room as room_of, travel as travel_of, travel_entry};
ghost use Rattle.tt_make.specs.Values.{list};
ghost use Rattle.tt_make.specs.Pieces.{closed_text, travel_text};

use crate::append::{push_field, push_text};
use crate::draws::draw;
use crate::parts::Made;
use rand_pcg::Lcg64Xsh32;
use std::alloc::{AllocError, Global};

/// The rooms of a problem, by their ids.
#[derive(Drop)]
pub struct Rooms;

impl Made for Rooms {
    ghost made = { λ rooms id. room_of id };

    ghost covers = { λ rooms id. 1 ≤ id };

    fn push(
        &self,
        _alloc: Global,
        out: &mut Vec<u8>,
        random: &mut Lcg64Xsh32,
        id: u32,
    ) -> Result<(), AllocError> {
        push_field(out, r#"{"capacity":60,"id":"#, id)?;
        push_travel(out, random, id)?;
        push_unavailable(out, id)?;
        push_text(out, "}")?;
        Ok(())
    }
}

// The travel to the room before this one, a drawn number of slots; none for the first room.
#[tactic(auto, unfolding(crate::specs::Rooms::travel))]
fn push_travel(out: &mut Vec<u8>, random: &mut Lcg64Xsh32, id: u32) -> Result<(), AllocError>
    requires { 1 ≤ id }
    ensures text { OnOk result
        (out.new.items ≡ out.old.items ++ travel_text (travel_of id random.old).0) }
    ensures random { OnOk result (random.new ≡ (travel_of id random.old).1) }
{
    if id == 1 {
        return Ok(());
    }
    let steps = draw(random, 3);
    push_entry(out, id - 1, 1 + steps)
}

// Appends the one entry of the travel.
fn push_entry(out: &mut Vec<u8>, room: u32, value: u32) -> Result<(), AllocError>
    ensures { OnOk result (out.new.items
        ≡ out.old.items ++ travel_text (Some (list (travel_entry room value ∷ [])))) }
{
    push_field(out, r#","travel":[{"room":"#, room)?;
    push_field(out, r#","value":"#, value)?;
    push_text(out, "}]")?;
    Ok(())
}

// Appends that a room is closed on Friday afternoons, where it is.
fn push_unavailable(out: &mut Vec<u8>, id: u32) -> Result<(), AllocError>
    ensures { OnOk result (out.new.items ≡ out.old.items ++ closed_text id) }
{
    if id % 5 == 0 {
        push_text(
            out,
            r#","unavailable":[{"days":"0000100","length":24,"start":192,"weeks":"1111111111111"}]"#,
        )
    } else {
        Ok(())
    }
}
