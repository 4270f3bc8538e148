//! Tests of the least choice, with two subparts of two classes each: of 0 and 1, and of 2 and 3.

ghost use Rattle.std.specs.Prelude.{◌≡◌, ℕ, ◌+◌, ◌*◌, ◌<◌, true, false, length, slice_index_or};
ghost use Rattle.tt_least.specs.Choices.{AreApart};
ghost use Rattle.tt_least.specs.Judged.{IsTable};
ghost use Rattle.tt_least.specs.Limits.{most_pairs};

use std::alloc::{AllocError, Global};
use tt_least::{Search, Table, least};
use tt_problem::Span;

// What each of the four classes costs, its parent, and whether 0 and 2, 0 and 3, 1 and 2, and 1 and 3
// conflict.
#[derive(Clone, Copy)]
struct Classes {
    weights: [u64; 4],
    parents: [Option<u32>; 4],
    pairs: [bool; 4],
}

// Which classes conflict, class by class: each with itself, and 0 with 2, 0 with 3, 1 with 2 and 1 with
// 3 as told.
fn conflicts_of(a: bool, b: bool, c: bool, d: bool) -> [bool; 16]
    ensures both_ways { (j k : ℕ) → j < 4 → k < 4
        → slice_index_or result (j * 4 + k) false ≡ slice_index_or result (k * 4 + j) false }
    ensures itself { (k : ℕ) → k < 4 → slice_index_or result (k * 4 + k) false ≡ true }
{
    [
        true, false, a, b, false, true, c, d, a, c, true, false, b, d, false, true,
    ]
}

// The table of the four classes.
fn table_of<'a>(
    subparts: &'a [Span; 2],
    weights: &'a [u64; 4],
    parents: &'a [Option<u32>; 4],
    conflicts: &'a [bool; 16],
) -> Table<'a>
    requires apart { AreApart 0 subparts.now 4 }
    requires both_ways { (j k : ℕ) → j < 4 → k < 4
        → slice_index_or conflicts.now (j * 4 + k) false
        ≡ slice_index_or conflicts.now (k * 4 + j) false }
    requires itself { (k : ℕ) → k < 4
        → slice_index_or conflicts.now (k * 4 + k) false ≡ true }
    ensures table { IsTable result }
    ensures size { result.size ≡ 4 }
    ensures parts { length result.subparts.now ≡ 2 }
{
    Table {
        subparts,
        first: 0,
        count: 4,
        size: 4,
        weights,
        parents,
        conflicts,
    }
}

// The fewest pairs of a choice of the classes that are left, if one has so many or fewer, and the first
// choice with the fewest.
fn found(
    alloc: Global,
    classes: &Classes,
    left: [bool; 4],
    most: u64,
) -> Result<Option<(u64, [u32; 2])>, AllocError>
    requires { most < most_pairs }
{
    let subparts = [Span { first: 0, after: 2 }, Span { first: 2, after: 4 }];
    let [a, b, c, d] = classes.pairs;
    let conflicts = conflicts_of(a, b, c, d);
    let table = table_of(&subparts, &classes.weights, &classes.parents, &conflicts);
    let mut search = Search::new(alloc, table.size as usize, table.subparts.len())?;
    search.left.as_mut_slice().copy_from_slice(&left);
    match least(&table, &mut search, most) {
        Some(pairs) => Ok(Some((pairs, [search.scratch.best[0], search.scratch.best[1]]))),
        None => Ok(None),
    }
}

const ALL: [bool; 4] = [true; 4];

// Each choice costs 5 but that of 1 and 3, which costs 4.
const ONE_IS_LEAST: Classes = Classes {
    weights: [2, 1, 3, 3],
    parents: [None; 4],
    pairs: [false, false, true, false],
};

#[test]
fn the_least_is_found_with_its_number(rt: HostRuntime) {
    assert!(rt; found(rt.alloc(), &ONE_IS_LEAST, ALL, 10) == Ok(Some((4, [1, 3]))));
}

#[test]
fn the_number_may_be_as_high_as_the_limit(rt: HostRuntime) {
    assert!(rt; found(rt.alloc(), &ONE_IS_LEAST, ALL, 4) == Ok(Some((4, [1, 3]))));
    assert!(rt; found(rt.alloc(), &ONE_IS_LEAST, ALL, 3) == Ok(None));
}

#[test]
fn a_class_that_is_not_left_is_not_taken(rt: HostRuntime) {
    let left = [true, false, true, true];
    assert!(rt; found(rt.alloc(), &ONE_IS_LEAST, left, 10) == Ok(Some((5, [0, 2]))));
    assert!(rt; found(rt.alloc(), &ONE_IS_LEAST, [true, true, false, false], 10) == Ok(None));
}

// The choices of 0 and 3 and of 1 and 2 cost 2, and the others 3.
const TWO_ARE_LEAST: Classes = Classes {
    weights: [1; 4],
    parents: [None; 4],
    pairs: [true, false, false, true],
};

#[test]
fn of_two_with_the_fewest_the_first_is_taken(rt: HostRuntime) {
    assert!(rt; found(rt.alloc(), &TWO_ARE_LEAST, ALL, 10) == Ok(Some((2, [0, 3]))));
}

// The choice of 0 and 2 costs nothing, but 2 needs 1. That of 0 and 3 costs 3, that of 1 and 2 costs 5,
// and that of 1 and 3 costs 8.
const WITH_PARENT: Classes = Classes {
    weights: [0, 5, 0, 3],
    parents: [None, None, Some(1), None],
    pairs: [false; 4],
};

#[test]
fn a_class_is_taken_only_with_its_parent(rt: HostRuntime) {
    let left = [true, true, true, false];
    assert!(rt; found(rt.alloc(), &WITH_PARENT, ALL, 10) == Ok(Some((3, [0, 3]))));
    assert!(rt; found(rt.alloc(), &WITH_PARENT, left, 10) == Ok(Some((5, [1, 2]))));
}
