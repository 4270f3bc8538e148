//! Tests of the counts of the conflict-based statistics.

use std::alloc::AllocError;
use std::test::Fail;
use tt_bits::{Key, Value};
use tt_cbs::Cbs;

// The key of a class at the first of its values, for which another lost a value in this room.
fn key(class: u32, other: u32, room: u16) -> Key {
    Key {
        class,
        value: Value { time: 0, room: 0 },
        other,
        other_value: Value { time: 3, room },
    }
}

// Raises a count that may grow.
fn raise(counts: &mut Cbs, key: Key) -> Result<(), AllocError> {
    if counts.count(key) == u64::MAX {
        return Ok(());
    }
    counts.bump(key)
}

// Lowers a count that isn't 0.
fn lower(counts: &mut Cbs, key: Key) {
    if counts.count(key) > 0 {
        counts.drop_one(key);
    }
}

// The counts of a class as one number, a digit each, the first in front.
fn digits(counts: &Cbs, class: u32) -> u64 {
    let mut digits: u64 = 0;
    for (_key, count) in counts.of_class(class) {
        digits = digits.wrapping_mul(10).wrapping_add(count);
    }
    digits
}

#[test]
fn counts_by_class(rt: HostRuntime) -> Result<(), Fail> {
    let mut counts = Cbs::new(rt.alloc());
    raise(&mut counts, key(2, 1, 0))?;
    raise(&mut counts, key(1, 7, 4))?;
    raise(&mut counts, key(1, 3, 9))?;
    raise(&mut counts, key(1, 7, 4))?;
    assert_eq!(rt; counts.count(key(1, 7, 4)), 2);
    assert_eq!(rt; digits(&counts, 1), 12);
    lower(&mut counts, key(1, 3, 9));
    assert_eq!(rt; counts.count(key(1, 3, 9)), 0);
    assert_eq!(rt; digits(&counts, 1), 2);
    Ok(())
}
