//! Tests of the lists of a pool.

ghost use Rattle.std.specs.Prelude.{◌≡◌, ◌<◌, ◌≤◌, [], ◌∷◌, length, replicate};

use std::alloc::{AllocError, Global};
use tt_pool::{Pool, place_in_order};

// The first items of a list.
fn first_items(pool: &Pool, list: u32) -> [Option<u32>; 4]
    requires { list < length pool.now.lists }
{
    let mut items = pool.items(list);
    [items.next(), items.next(), items.next(), items.next()]
}

// Moves an item from one of two full lists to the other: how many items find room before that, which
// item it is, and how many find room while it is in no list. Then takes the first item out of the other
// list, which had the items that are told.
fn move_an_item(pool: &mut Pool) -> ([u32; 3], [Option<u32>; 4])
    requires lists { pool.old.lists ≡ replicate 2 [] }
    requires spare { pool.old.spare ≡ 3 }
    ensures { length pool.new.lists ≡ 2 }
{
    pool.insert(0, 0, 7);
    pool.insert(0, 0, 8);
    pool.insert(1, 0, 9);
    let full = pool.spare();
    let item = pool.remove(0, 1);
    let free = pool.spare();
    pool.insert(1, 1, 5);
    let items = first_items(pool, 1);
    pool.remove_item(1, 9);
    ([full, item, free], items)
}

// The same of two lists, with the length of each then, and how many items find room.
fn share_nodes(alloc: Global) -> Result<([u32; 3], [Option<u32>; 4], [u32; 3]), AllocError> {
    let mut pool = Pool::new(alloc, 2, 3)?;
    let (moved, items) = move_an_item(&mut pool);
    Ok((moved, items, [pool.len(1), pool.len(0), pool.spare()]))
}

#[test]
fn lists_share_the_nodes(rt: HostRuntime) {
    let items = [Some(9), Some(5), None, None];
    assert!(rt; share_nodes(rt.alloc()) == Ok(([0, 7, 1], items, [1, 1, 1])));
}

// Puts four items into an empty list: these, and how many there are.
fn put_in_order(pool: &mut Pool) -> ([Option<u32>; 4], u32)
    requires lists { pool.old.lists ≡ [] ∷ [] }
    requires spare { pool.old.spare ≡ 4 }
{
    pool.insert_in_order(0, 5);
    pool.insert_in_order(0, 9);
    pool.insert_in_order(0, 2);
    pool.insert_in_order(0, 7);
    (first_items(pool, 0), pool.len(0))
}

// The same of a new list.
fn ordered(alloc: Global) -> Result<([Option<u32>; 4], u32), AllocError> {
    let mut pool = Pool::new(alloc, 1, 4)?;
    Ok(put_in_order(&mut pool))
}

#[test]
fn items_go_into_their_order(rt: HostRuntime) {
    let items = [Some(2), Some(5), Some(7), Some(9)];
    assert!(rt; ordered(rt.alloc()) == Ok((items, 4)));
}

// Puts items into the first list, and takes the last one out again and again, with one item in the
// second list.
fn come_and_go(pool: &mut Pool)
    requires lists { pool.old.lists ≡ replicate 2 [] }
    requires spare { pool.old.spare ≡ 5 }
    ensures lists { pool.new.lists ≡ (2 ∷ 3 ∷ 5 ∷ []) ∷ (4 ∷ []) ∷ [] }
    ensures spare { pool.new.spare ≡ 1 }
{
    pool.insert_in_order(0, 2);
    pool.insert_in_order(1, 4);
    pool.insert_in_order(0, 5);
    pool.insert_in_order(0, 5);
    pool.remove_item(0, 5);
    pool.insert_in_order(0, 9);
    pool.remove_item(0, 9);
    pool.insert_in_order(0, 3);
}

// Empties the second list and fills it again: the first list, how long the second one was between, and
// the second one.
fn empty_and_fill(pool: &mut Pool) -> ([Option<u32>; 4], u32, [Option<u32>; 4])
    requires lists { pool.old.lists ≡ (2 ∷ 3 ∷ 5 ∷ []) ∷ (4 ∷ []) ∷ [] }
    requires spare { pool.old.spare ≡ 1 }
{
    let items = first_items(pool, 0);
    pool.remove_item(1, 4);
    let emptied = pool.len(1);
    pool.insert_in_order(1, 6);
    (items, emptied, first_items(pool, 1))
}

// The same of two new lists to which items came and from which they went.
fn emptied_and_filled(
    alloc: Global,
) -> Result<([Option<u32>; 4], u32, [Option<u32>; 4]), AllocError> {
    let mut pool = Pool::new(alloc, 2, 5)?;
    come_and_go(&mut pool);
    Ok(empty_and_fill(&mut pool))
}

#[test]
fn items_come_and_go_at_the_end(rt: HostRuntime) {
    let items = [Some(2), Some(3), Some(5), None];
    let filled = [Some(6), None, None, None];
    assert!(rt; emptied_and_filled(rt.alloc()) == Ok((items, 0, filled)));
}

// The items of an empty list after some that are in no order, and one that goes into it.
fn walk(pool: &mut Pool) -> [Option<u32>; 4]
    requires lists { pool.old.lists ≡ [] ∷ [] }
    requires spare { pool.old.spare ≡ 5 }
{
    pool.insert(0, 0, 2);
    pool.insert(0, 0, 9);
    pool.insert(0, 0, 2);
    pool.insert_in_order(0, 5);
    pool.remove_item(0, 2);
    first_items(pool, 0)
}

// The same of a new list.
fn walked(alloc: Global) -> Result<[Option<u32>; 4], AllocError> {
    let mut pool = Pool::new(alloc, 1, 5)?;
    Ok(walk(&mut pool))
}

#[test]
fn a_list_out_of_order_is_walked(rt: HostRuntime) {
    assert!(rt; walked(rt.alloc()) == Ok([Some(5), Some(9), Some(2), None]));
}

// Puts three items into an empty list, each before the others, and takes the one between out at its
// node: the items before and after.
fn put_first(pool: &mut Pool) -> ([Option<u32>; 4], [Option<u32>; 4])
    requires lists { pool.old.lists ≡ [] ∷ [] }
    requires nodes { pool.old.nodes ≡ [] ∷ [] }
    requires spare { pool.old.spare ≡ 4 }
{
    pool.insert_first(0, 2);
    let node = pool.insert_first(0, 9);
    pool.insert_first(0, 5);
    let items = first_items(pool, 0);
    pool.remove_at_node(0, 9, node);
    (items, first_items(pool, 0))
}

// The same of a new list.
fn put_and_taken(alloc: Global) -> Result<([Option<u32>; 4], [Option<u32>; 4]), AllocError> {
    let mut pool = Pool::new(alloc, 1, 4)?;
    Ok(put_first(&mut pool))
}

#[test]
fn an_item_that_came_first_goes_at_its_node(rt: HostRuntime) {
    let items = [Some(5), Some(9), Some(2), None];
    let left = [Some(5), Some(2), None, None];
    assert!(rt; put_and_taken(rt.alloc()) == Ok((items, left)));
}

// How many items find room in a new pool.
fn spare_of(alloc: Global, lists: u32, most: u32) -> Result<u32, AllocError>
    requires lists { lists ≤ 20000 }
    requires most { most ≤ 4000000 }
{
    Ok(Pool::new(alloc, lists, most)?.spare())
}

#[test]
fn largest_and_smallest_pool_are_made(rt: HostRuntime) {
    assert!(rt; spare_of(rt.alloc(), 20_000, 4_000_000) == Ok(4_000_000));
    assert!(rt; spare_of(rt.alloc(), 0, 0) == Ok(0));
}

#[test]
fn an_item_goes_before_the_first_that_is_above_it(rt: HostRuntime) {
    assert_eq!(rt; place_in_order(&[2, 5, 9], 5), 2);
    assert_eq!(rt; place_in_order(&[2, 5, 9], 1), 0);
    assert_eq!(rt; place_in_order(&[2, 5, 9], 10), 3);
}
