//! Tests of rows.

use std::alloc::{AllocError, Global};
use tt_base::Row;

// Whether a row has three items, of which the last is this one, and they are all that it has.
fn has_three(row: &Row<u32>, items: &[u32], last: u32) -> bool {
    row.len() == 3
        && !row.is_empty()
        && row.get(2) == Some(&last)
        && row.get(3) == None
        && row.as_slice() == items
}

// Whether a row of three items keeps them, and gives them back.
fn keeps_items(alloc: Global) -> Result<[bool; 2], AllocError> {
    let row = Row::from_vec(vec![in alloc; 7, 8, 9]?);
    let kept = has_three(&row, &[7, 8, 9], 9);
    Ok([kept, row.into_vec().as_slice() == [7, 8, 9].as_slice()])
}

#[test]
fn a_row_keeps_the_items_of_its_vector(rt: HostRuntime) {
    assert!(rt; keeps_items(rt.alloc()) == Ok([true; 2]));
}
