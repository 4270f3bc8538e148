//! Ids, and the references to what has them.

ghost use Rattle.std.specs.Prelude.{◌≡◌, ◌+◌, ◌<◌, ◌^◌, [], ◌∷◌, ◌++◌, length, codes, nat_eq, IfOk, OnOk, OnErr, IfSome, Ok, Some, None};
ghost use Rattle.std.specs.List.{IsDistinct};
ghost use Rattle.tt_fields.specs.Answer.{Reads, Gives, part_of};
ghost use Rattle.tt_fields.specs.Kinds.{required, optional, new_id, placed_in, place_of, a_reference};
ghost use Rattle.tt_fields.specs.List.{known_of, IsFew, IsAmong};
ghost use Rattle.tt_fields.specs.Path.{at, steps_of};

use crate::answer::FileFault;
use crate::faults::{Wrong, fault, fault_at};
use crate::field::{Fault, Field};
use crate::values::{as_number, found, required, value};
use indexmap::IndexSet;

/// Adds the id of an object to those of the objects of its kind before it. An id that stands twice,
/// at the key `id`, where it is one of them. After an error the ids are as before.
#[tactic(auto, unfolding(crate::specs::Kinds::new_id))]
pub fn add_id(object: &Field<'_>, id: u32, ids: &mut IndexSet<u32>) -> Result<(), FileFault>
    ensures reads { Gives (λ _. ids.new.keys) result (new_id id ids.old.keys (part_of object.now)) }
    ensures last { OnOk result (ids.new.keys ≡ ids.old.keys ++ id ∷ []) }
    ensures one { OnOk result (length ids.new.keys ≡ length ids.old.keys + 1) }
    ensures distinct { OnOk result (IsDistinct nat_eq ids.new.keys) }
    ensures kept { OnErr result (ids.new.keys ≡ ids.old.keys) }
{
    if ids.insert(id)? {
        Ok(())
    } else {
        Err(FileFault::from(fault_at(Wrong::IdTwice, object, "id")))
    }
}

/// The ids that references are looked up among, or none at all while references are not looked up.
#[derive(Clone, Copy)]
pub struct Known<'a> {
    ids: Option<&'a IndexSet<u32>>,
}

impl<'a> Known<'a> {
    /// No reference is looked up: each has place 0.
    pub fn none() -> Known<'a>
        ensures ids { known_of result ≡ None }
        ensures few { IsFew result }
    {
        Known { ids: None }
    }

    /// References are looked up among these ids.
    pub fn among(ids: &'a IndexSet<u32>) -> Known<'a>
        requires { length ids.now.keys < 2 ^ 32 }
        ensures ids { known_of result ≡ Some ids.now.keys }
        ensures few { IsFew result }
    {
        Known { ids: Some(ids) }
    }
}

// The place of an id among those that are known, and 0 where it is not looked up.
fn place_in(known: &Known<'_>, id: u32) -> Option<u32>
    requires { IsFew known.now }
    ensures place { result ≡ placed_in (known_of known.now) id }
    ensures below { IfSome result (λ n. IsAmong known.now n) }
{
    match known.ids {
        None => Some(0),
        Some(ids) => ids.get_index_of(&id).map(|place| place as u32),
    }
}

// The place of the id that a number is, or an unknown id.
fn as_place<'a>(known: &Known<'_>, part: &Field<'a>) -> Result<u32, Fault<'a>>
    requires { IsFew known.now }
    ensures place { Reads (λ n. n) result (place_of (known_of known.now) (part_of part.now)) }
    ensures below { IfOk result (λ n. IsAmong known.now n) }
{
    match place_in(known, as_number(part, 0, u32::MAX)?) {
        None => Err(fault(Wrong::UnknownId, part)),
        Some(place) => Ok(place),
    }
}

/// The place that a reference in a list names: a number, or an object whose id is a number. An
/// unknown id is at the path of the id where it is an object's.
#[tactic(auto, unfolding(crate::specs::Kinds::a_reference, crate::specs::Kinds::required))]
pub fn item_reference<'a>(known: &Known<'_>, item: &'a Field<'a>) -> Result<u32, Fault<'a>>
    requires { IsFew known.now }
    ensures place { Reads (λ n. n) result (a_reference (known_of known.now) (part_of item.now)) }
    ensures below { IfOk result (λ n. IsAmong known.now n) }
{
    match item.value.as_object() {
        None => as_place(known, item),
        Some(_) => as_place(known, &required(item, "id")?),
    }
}

// The id of the object that stands at a key of another, which is not kept while the id is read.
#[tactic(auto, unfolding(crate::specs::Kinds::value_at, crate::specs::Kinds::required))]
fn id_at<'a>(
    object: &'a Field<'a>,
    key: &'static str,
    part: &Field<'a>,
) -> Result<Field<'a>, Fault<'a>>
    requires { steps_of part.now.trail ≡ at (steps_of object.now.trail) key.now }
    ensures { Reads (λ p. part_of p) result (required Ok (codes "id") (part_of part.now)) }
{
    let trail = object.trail.id(key);
    match found(part.value, "id") {
        None => Err(Fault {
            alloc: object.alloc,
            wrong: Wrong::NotOfKind,
            trail,
        }),
        Some(value) => Ok(Field {
            alloc: object.alloc,
            trail,
            value,
        }),
    }
}

// The place that a reference at a key names.
#[tactic(auto, unfolding(crate::specs::Kinds::a_reference, crate::specs::Kinds::required))]
fn as_reference<'a>(
    known: &Known<'_>,
    object: &'a Field<'a>,
    key: &'static str,
    part: &Field<'a>,
) -> Result<u32, Fault<'a>>
    requires few { IsFew known.now }
    requires there { steps_of part.now.trail ≡ at (steps_of object.now.trail) key.now }
    ensures place { Reads (λ n. n) result (a_reference (known_of known.now) (part_of part.now)) }
    ensures below { IfOk result (λ n. IsAmong known.now n) }
{
    match part.value.as_object() {
        None => as_place(known, part),
        Some(_) => as_place(known, &id_at(object, key, part)?),
    }
}

/// The place that the reference at a key names, and `None` where the key is absent. Faults as in
/// [`item_reference`].
#[tactic(auto, unfolding(crate::specs::Kinds::optional, crate::specs::Kinds::or_else))]
pub fn optional_reference<'a>(
    known: &Known<'_>,
    object: &'a Field<'a>,
    key: &'static str,
) -> Result<Option<u32>, Fault<'a>>
    requires { IsFew known.now }
    ensures place { Reads (λ n. n) result
        (optional (a_reference (known_of known.now)) key.now (part_of object.now)) }
    ensures below { IfOk result (λ n. IfSome n (λ place. IsAmong known.now place)) }
{
    match value(object, key) {
        None => Ok(None),
        Some(part) => Ok(Some(as_reference(known, object, key, &part)?)),
    }
}

/// The place that the reference at a required key names. Faults as in [`item_reference`].
#[tactic(auto, unfolding(crate::specs::Kinds::required))]
pub fn reference<'a>(
    known: &Known<'_>,
    object: &'a Field<'a>,
    key: &'static str,
) -> Result<u32, Fault<'a>>
    requires { IsFew known.now }
    ensures place { Reads (λ n. n) result
        (required (a_reference (known_of known.now)) key.now (part_of object.now)) }
    ensures below { IfOk result (λ n. IsAmong known.now n) }
{
    match value(object, key) {
        None => Err(fault_at(Wrong::NotOfKind, object, key)),
        Some(part) => as_reference(known, object, key, &part),
    }
}

/// The place of the id that the number at a required key is, or an unknown id.
#[tactic(auto, unfolding(crate::specs::Kinds::required))]
pub fn known_id<'a>(
    known: &Known<'_>,
    object: &'a Field<'a>,
    key: &'static str,
) -> Result<u32, Fault<'a>>
    requires { IsFew known.now }
    ensures place { Reads (λ n. n) result
        (required (place_of (known_of known.now)) key.now (part_of object.now)) }
    ensures below { IfOk result (λ n. IsAmong known.now n) }
{
    as_place(known, &required(object, key)?)
}
