//! Reading a file that has no fault: its ids are gathered first, and then all is read once, each
//! reference looked up at once.

ghost use Rattle.std.specs.Prelude.{◌≡◌, Ok, IfOk, IfSome, IsTrue, length};
ghost use Rattle.tt_problem.specs.Valid.{IsValid};
ghost use Rattle.tt_fields.specs.Answer.{part_of};
ghost use Rattle.tt_read.specs.Read.{shape_read, HasLists, HasIdsOf, HasOwnIds, ArePartsOf, IsCourseListOf, IsRoomListOf, IsShape};
ghost use Rattle.tt_read.specs.Tables.{parts_of};

use crate::passes::{CourseList, Linked, RoomList, Shape, read_term, read_weights, second_pass};
use crate::sums::third_pass;
use indexmap::IndexSet;
use std::alloc::Global;
use tt_fields::{
    Field, FileFault, PartList, as_object, list, list_or_none, number, object as required_object,
};
use tt_problem::Parts;

// Adds the ids of the objects that a list leads to by these keys of lists. What is gathered is
// compared with the ids of the parts that are read with it.
fn gather_ids(
    items: &PartList<'_>,
    keys: &[&'static str],
    ids: &mut IndexSet<u32>,
) -> Result<(), FileFault> {
    for (i, value) in items.values.iter().enumerate() {
        let item = (&*items).item(i, value);
        match keys {
            [] => {
                ids.insert(number(&item, "id", 0, u32::MAX)?)?;
            }
            [key, below @ ..] => {
                let lists = list(&item, *key, 0, 20_000)?;
                gather_ids(&lists, below, ids)?;
            }
        }
    }
    Ok(())
}

// The ids that a list leads to by these keys.
fn ids_below(
    alloc: Global,
    items: &PartList<'_>,
    keys: &[&'static str],
) -> Result<IndexSet<u32>, FileFault> {
    let mut ids = IndexSet::new(alloc);
    gather_ids(items, keys, &mut ids)?;
    Ok(ids)
}

// The ids of a list's items, and `None` where one stands twice.
fn distinct_ids(alloc: Global, items: &PartList<'_>) -> Result<Option<IndexSet<u32>>, FileFault>
    ensures count { IfOk result
        (λ found. IfSome found (λ ids. length ids.keys ≡ length items.now.values.now)) }
{
    let ids = ids_below(alloc, items, &[])?;
    if ids.len() == items.len() {
        Ok(Some(ids))
    } else {
        Ok(None)
    }
}

// The list of rooms, and `None` where an id stands twice.
fn likely_rooms<'a>(alloc: Global, object: &'a Field<'a>) -> Result<Option<RoomList<'a>>, FileFault>
    ensures list { IfOk result (λ found. IfSome found (IsRoomListOf (part_of object.now))) }
{
    let items = list_or_none(object, "rooms", 2500)?;
    match distinct_ids(alloc, &items)? {
        None => Ok(None),
        Some(ids) => Ok(Some(RoomList { items, ids })),
    }
}

// The list of courses, and `None` where an id of a course stands twice, or there are too many ids of
// classes.
fn likely_courses<'a>(
    alloc: Global,
    object: &'a Field<'a>,
) -> Result<Option<CourseList<'a>>, FileFault>
    ensures list { IfOk result (λ found. IfSome found (IsCourseListOf (part_of object.now))) }
{
    let items = list(object, "courses", 0, 20_000)?;
    let Some(ids) = distinct_ids(alloc, &items)? else {
        return Ok(None);
    };
    let class_ids = ids_below(alloc, &items, &["configs", "subparts", "classes"])?;
    if class_ids.len() > 20_000 {
        return Ok(None);
    }
    Ok(Some(CourseList {
        items,
        ids,
        class_ids,
    }))
}

// The shape that the first pass finds if it finds no fault, and `None` where some id is missing or
// stands twice, or there are too many.
fn likely_shape<'a>(alloc: Global, object: &'a Field<'a>) -> Result<Option<Shape<'a>>, FileFault>
    ensures lists { IfOk result
        (λ found. IfSome found (λ shape. HasLists (part_of object.now) (shape_read shape))) }
    ensures valid { IfOk result (λ found. IfSome found IsShape) }
{
    as_object(object)?;
    let term = read_term(object)?;
    let optimization = required_object(object, "optimization")?;
    let weights = read_weights(&optimization)?;
    let distributions = list_or_none(object, "distributions", 20_000)?;
    let students = list_or_none(object, "students", 100_000)?;
    let Some(rooms) = likely_rooms(alloc, object)? else {
        return Ok(None);
    };
    let Some(courses) = likely_courses(alloc, object)? else {
        return Ok(None);
    };
    Ok(Some(Shape {
        term,
        weights,
        rooms,
        courses,
        distributions,
        students,
    }))
}

// Whether two sets have the same ids, in the same order.
fn are_keys(ids: &IndexSet<u32>, keys: &IndexSet<u32>) -> bool
    ensures { IsTrue result → ids.now.keys ≡ keys.now.keys }
{
    ids.as_slice() == keys.as_slice()
}

// Whether the ids of the parts are those of the shape.
fn has_ids(shape: &Shape<'_>, linked: &Linked) -> bool
    requires { HasOwnIds linked.now }
    ensures { IsTrue result → HasIdsOf (shape_read shape.now) linked.now.parts }
{
    are_keys(&linked.room_ids, &shape.rooms.ids)
        && are_keys(&linked.course_ids, &shape.courses.ids)
        && are_keys(&linked.class_ids, &shape.courses.class_ids)
}

// The parts of a shape, each reference looked up, and `None` where their ids aren't those of the
// shape.
fn linked_parts(alloc: Global, shape: &Shape<'_>) -> Result<Option<Parts>, FileFault>
    requires { IsShape shape.now }
    ensures { IfOk result (λ found. IfSome found (ArePartsOf shape.now)) }
{
    let linked = second_pass(alloc, shape)?;
    if has_ids(shape, &linked) {
        Ok(Some(linked.parts))
    } else {
        Ok(None)
    }
}

// The parts of a shape of the whole value, with their sums within the limits.
#[tactic(auto, using(crate::proofs::AtOnce::all_linked, crate::proofs::AtOnce::parts_are))]
fn parts_of_shape(
    alloc: Global,
    shape: &Shape<'_>,
    object: &Field<'_>,
) -> Result<Option<Parts>, FileFault>
    requires lists { HasLists (part_of object.now) (shape_read shape.now) }
    requires valid { IsShape shape.now }
    ensures reads { IfOk result
        (λ found. IfSome found (λ parts. parts_of (part_of object.now) ≡ Ok parts)) }
    ensures valid { IfOk result (λ found. IfSome found IsValid) }
{
    let Some(parts) = linked_parts(alloc, shape)? else {
        return Ok(None);
    };
    third_pass(alloc, &parts, object)?;
    Ok(Some(parts))
}

/// The parts that a file has in which no fault is found so; `None` or a fault where the passes must
/// tell.
pub fn read_at_once(alloc: Global, object: &Field<'_>) -> Result<Option<Parts>, FileFault>
    ensures reads { IfOk result
        (λ found. IfSome found (λ parts. parts_of (part_of object.now) ≡ Ok parts)) }
    ensures valid { IfOk result (λ found. IfSome found IsValid) }
{
    match likely_shape(alloc, &*object)? {
        None => Ok(None),
        Some(shape) => parts_of_shape(alloc, &shape, object),
    }
}
