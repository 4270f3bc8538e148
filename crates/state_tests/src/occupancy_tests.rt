//! Tests of where classes stand and clash.

ghost use Rattle.std.specs.Prelude.{◌≡◌, ◌<◌, ◌≤◌, None, IfSome, replicate};
ghost use Rattle.tt_base.specs.Limits.{most_rooms};

use std::alloc::{AllocError, Global};
use std::test::Fail;
use tt_bits::{Days, Spot, Time, Weeks};
use tt_occupancy::{Occupancy, clashes_in_room};

// A spot of 5 slots on some of three days.
fn spot_on(days: &str, weeks: &str, start: u16, room: Option<u32>) -> Option<Spot>
    ensures { IfSome result (λ x. x.room ≡ room) }
{
    let (days, weeks) = (Days::read(days, 3)?, Weeks::read(weeks, 2)?);
    let time = Time::new(days, weeks, start, 5)?;
    Some(Spot { time, room })
}

// A spot of 5 slots on the first two days.
fn spot(weeks: &str, start: u16, room: Option<u32>) -> Option<Spot>
    ensures { IfSome result (λ x. x.room ≡ room) }
{
    spot_on("110", weeks, start, room)
}

// The clashes of two classes that share several cells, of one of them alone, and of that one and a class
// right after it.
fn clashes_of_pairs(occupancy: &mut Occupancy) -> Option<[u64; 3]>
    requires spots { occupancy.old.spots ≡ replicate 3 None }
    requires rooms { occupancy.old.rooms ≡ 2 }
{
    let early = spot("11", 10, Some(1))?;
    let late = spot("11", 14, Some(1))?;
    let after = spot("01", 15, Some(1))?;
    occupancy.put(0, early);
    occupancy.put(2, late);
    let both = occupancy.clashes();
    if occupancy.take(2) != late || occupancy.spots().len() != 3 {
        return None;
    }
    let one = occupancy.clashes();
    occupancy.put(1, after);
    Some([both, one, occupancy.clashes()])
}

#[test]
fn a_pair_that_shares_several_cells_is_one_pair(rt: HostRuntime) -> Result<(), Fail> {
    let mut occupancy = Occupancy::new(rt.alloc(), 3, 2)?;
    let clashes = clashes_of_pairs(&mut occupancy);
    drop(occupancy);
    assert!(rt; clashes == Some([1, 0, 0]));
    Ok(())
}

// The clashes of two classes without a room and two in one each.
fn clashes_apart(occupancy: &mut Occupancy) -> Option<u64>
    requires spots { occupancy.old.spots ≡ replicate 4 None }
    requires rooms { occupancy.old.rooms ≡ 2 }
{
    let nowhere = spot("11", 10, None)?;
    let first = spot("11", 10, Some(0))?;
    let second = spot("11", 10, Some(1))?;
    occupancy.put(0, nowhere);
    occupancy.put(1, nowhere);
    occupancy.put(2, first);
    occupancy.put(3, second);
    Some(occupancy.clashes())
}

#[test]
fn classes_in_other_rooms_or_in_none_do_not_clash(rt: HostRuntime) -> Result<(), Fail> {
    let mut occupancy = Occupancy::new(rt.alloc(), 4, 2)?;
    let clashes = clashes_apart(&mut occupancy);
    drop(occupancy);
    assert!(rt; clashes == Some(0));
    Ok(())
}

// How many of two classes in a room clash with a spot there, but for one that isn't placed, and but for
// one that is; and whether the other one and that one clash with it but for the latter.
fn clashes_but_one(occupancy: &mut Occupancy) -> Option<([u64; 2], [bool; 2])>
    requires spots { occupancy.old.spots ≡ replicate 4 None }
    requires rooms { occupancy.old.rooms ≡ 2 }
{
    let spot = spot("10", 10, Some(0))?;
    occupancy.put(1, spot);
    occupancy.put(3, spot);
    let counts = [
        occupancy.clashes_with(spot, 0),
        occupancy.clashes_with(spot, 3),
    ];
    let told = [
        clashes_in_room(occupancy.spots(), 3, &spot, 1),
        clashes_in_room(occupancy.spots(), 3, &spot, 3),
    ];
    Some((counts, told))
}

#[test]
fn the_class_that_is_left_out_is_not_counted(rt: HostRuntime) -> Result<(), Fail> {
    let mut occupancy = Occupancy::new(rt.alloc(), 4, 2)?;
    let shown = clashes_but_one(&mut occupancy);
    drop(occupancy);
    assert!(rt; shown == Some(([2, 1], [true, false])));
    Ok(())
}

// The first two classes of a room on a day.
fn two_on(occupancy: &Occupancy, room: Option<u32>, day: u8) -> [Option<u32>; 2]
    requires { day < 7 }
{
    let Some(mut classes) = occupancy.classes_on(room, day) else {
        return [None, None];
    };
    [classes.next(), classes.next()]
}

// Who is in a room on each of three days, where class 2 meets there on two of them and class 0 on one;
// who is there on that day once class 2 has gone, and who in no room.
fn classes_on_days(occupancy: &mut Occupancy) -> Option<[[Option<u32>; 2]; 5]>
    requires spots { occupancy.old.spots ≡ replicate 3 None }
    requires rooms { occupancy.old.rooms ≡ 2 }
{
    let twice = spot_on("110", "11", 10, Some(1))?;
    let once = spot_on("010", "01", 30, Some(1))?;
    occupancy.put(2, twice);
    occupancy.put(0, once);
    let [first, second, third] = [
        two_on(occupancy, Some(1), 0),
        two_on(occupancy, Some(1), 1),
        two_on(occupancy, Some(1), 2),
    ];
    if occupancy.take(2) != twice {
        return None;
    }
    let left = two_on(occupancy, Some(1), 1);
    Some([first, second, third, left, two_on(occupancy, None, 1)])
}

#[test]
fn a_class_is_on_each_of_its_days_until_it_goes(rt: HostRuntime) -> Result<(), Fail> {
    let mut occupancy = Occupancy::new(rt.alloc(), 3, 2)?;
    let shown = classes_on_days(&mut occupancy);
    drop(occupancy);
    let nobody = [None, None];
    let both = [Some(0), Some(2)];
    let wanted = [[Some(2), None], both, nobody, [Some(0), None], nobody];
    assert!(rt; shown == Some(wanted));
    Ok(())
}

// The clashes and the classes of an occupancy that is made.
fn made(alloc: Global, classes: u32, rooms: u32) -> Result<(u64, usize), AllocError>
    requires { rooms ≤ most_rooms }
{
    let occupancy = Occupancy::new(alloc, classes, rooms)?;
    Ok((occupancy.clashes(), occupancy.spots().len()))
}

#[test]
fn largest_occupancy_and_one_without_rooms_are_made(rt: HostRuntime) -> Result<(), Fail> {
    assert!(rt; made(rt.alloc(), 20_000, 2_500)? == (0, 20_000));
    assert!(rt; made(rt.alloc(), 1, 0)? == (0, 1));
    Ok(())
}
