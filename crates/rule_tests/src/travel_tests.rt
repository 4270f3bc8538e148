//! Tests of travel between rooms.

ghost use Rattle.std.specs.Prelude.{◌≡◌};

use std::alloc::{AllocError, Global};
use tt_travel::Travel;

// The slots between each room of three and each other, between a room and itself, and from or to none.
fn slots_between(travel: &Travel) -> [[u16; 4]; 2]
    requires { travel.now.rooms ≡ 3 }
{
    [
        [
            travel.between(Some(0), Some(1)),
            travel.between(Some(1), Some(0)),
            travel.between(Some(2), Some(1)),
            travel.between(Some(0), Some(2)),
        ],
        [
            travel.between(Some(2), Some(2)),
            travel.between(Some(1), None),
            travel.between(None, Some(1)),
            travel.between(None, None),
        ],
    ]
}

// The slots before and after some settings.
fn set_both_ways(travel: &mut Travel) -> [[[u16; 4]; 2]; 2]
    requires { travel.old.rooms ≡ 3 }
{
    let before = slots_between(travel);
    travel.set(0, 1, 3);
    travel.set(1, 0, 5);
    travel.set(1, 2, 65_535);
    travel.set(2, 2, 7);
    [before, slots_between(travel)]
}

// The same of a new table.
fn both_ways(alloc: Global) -> Result<[[[u16; 4]; 2]; 2], AllocError> {
    let mut travel = Travel::new(alloc, 3)?;
    Ok(set_both_ways(&mut travel))
}

#[test]
fn last_setting_counts_both_ways(rt: HostRuntime) {
    let after = [[5, 5, 65_535, 0], [0; 4]];
    assert!(rt; both_ways(rt.alloc()) == Ok([[[0; 4]; 2], after]));
}

// The most between two rooms, after a setting of a room to itself, one of two rooms, and two more.
fn set_most(travel: &mut Travel) -> [u16; 3]
    requires { travel.old.rooms ≡ 3 }
{
    travel.set(1, 1, 9);
    let to_itself = travel.most();
    travel.set(0, 1, 3);
    let first = travel.most();
    travel.set(1, 2, 65_535);
    travel.set(2, 0, 4);
    [to_itself, first, travel.most()]
}

// The same of a new table.
fn greatest(alloc: Global) -> Result<[u16; 3], AllocError> {
    let mut travel = Travel::new(alloc, 3)?;
    Ok(set_most(&mut travel))
}

#[test]
fn most_is_the_greatest_setting_between_two_rooms(rt: HostRuntime) {
    assert!(rt; greatest(rt.alloc()) == Ok([0, 3, 65_535]));
}

// The slots from the first room of the largest table to its last, once they are set to nine.
fn nine_across(alloc: Global) -> Result<u16, AllocError> {
    let mut travel = Travel::new(alloc, 2_500)?;
    travel.set(2_499, 0, 9);
    Ok(travel.between(Some(0), Some(2_499)))
}

#[test]
fn largest_table_is_made(rt: HostRuntime) {
    assert!(rt; nine_across(rt.alloc()) == Ok(9));
}
