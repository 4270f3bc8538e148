//! Tests of blocked values and conflict sets.

ghost use Rattle.std.specs.Prelude.{◌≡◌, length, replicate, None};
ghost use Rattle.tt_score.specs.Fits.{Fits, plan_of};

use std::alloc::{AllocError, Global};
use std::test::Fail;
use test_help::value;
use tt_clash::{Block, Closures, Listing, blocked};
use tt_plan::{Placement, spot};
use tt_problem::Problem;
use tt_read::read;
use tt_score::Score;

// Two classes that share a room, and two that need none: one day in all for the latter two, and no
// day that the second and the last both meet on.
const TEXT: &str = r#"{"nrDays":3,"nrWeeks":1,"slotsPerDay":288,
    "optimization":{"time":1,"room":1,"distribution":1,"student":1},
    "rooms":[{"id":71,"unavailable":[{"days":"100","start":0,"length":9,"weeks":"1"}]}],
    "courses":[{"id":40,"configs":[{"subparts":[{"classes":[
        {"id":21,"rooms":[{"id":71,"penalty":0}],"times":[
            {"days":"100","start":10,"length":4,"weeks":"1","penalty":0},
            {"days":"100","start":4,"length":4,"weeks":"1","penalty":0}]},
        {"id":22,"rooms":[{"id":71,"penalty":0}],"times":[
            {"days":"100","start":12,"length":4,"weeks":"1","penalty":0}]},
        {"id":23,"room":false,"times":[
            {"days":"010","start":30,"length":4,"weeks":"1","penalty":0},
            {"days":"110","start":30,"length":4,"weeks":"1","penalty":0}]},
        {"id":24,"room":false,"times":[
            {"days":"100","start":30,"length":4,"weeks":"1","penalty":0}]}]}]}]}],
    "distributions":[
        {"type":"SameStart","penalty":1,"classes":[21,22]},
        {"type":"MaxDays(1)","required":true,"classes":[23,24]},
        {"type":"DifferentDays","required":true,"classes":[22,24]}]}"#;

// Whether a value is blocked by its closed room, by the rule that the class alone breaks, or not.
fn says_why(problem: &Problem, closures: &Closures) -> bool {
    let Some(open) = value(problem, 0, 1, Some(71)) else {
        return false;
    };
    let Some(closed) = value(problem, 0, 2, Some(71)) else {
        return false;
    };
    let Some(long) = value(problem, 2, 2, None) else {
        return false;
    };
    blocked(problem, closures, 0, spot(problem, 0, open)) == None
        && blocked(problem, closures, 0, spot(problem, 0, closed)) == Some(Block::Closed)
        && blocked(problem, closures, 2, spot(problem, 2, long)) == Some(Block::Rule(1))
}

// Whether the class in the room has to go for another there.
fn makes_room(problem: &Problem, score: &mut Score, listing: &mut Listing) -> bool
    requires listing { listing.old.classes ≡ length problem.now.classes }
    requires fits { Fits problem.now score.old }
    requires plan { plan_of score.old ≡ replicate (length problem.now.classes) None }
{
    if problem.class_count() != 4 {
        return false;
    }
    let Some(there) = value(problem, 1, 1, Some(71)) else {
        return false;
    };
    let Some(value) = value(problem, 0, 1, Some(71)) else {
        return false;
    };
    score.place(problem, 1, there);
    if blocked(problem, score.closures(), 0, spot(problem, 0, value)).is_some() {
        return false;
    }
    score.conflicts(problem, 0, value, listing);
    listing.as_slice() == [1].as_slice() && listing.has(1) && !listing.has(0)
}

// Whether the class that breaks a pair rule has to go, and then the one that takes a day too many.
fn makes_days(problem: &Problem, score: &mut Score, listing: &mut Listing) -> bool
    requires listing { listing.old.classes ≡ length problem.now.classes }
    requires fits { Fits problem.now score.old }
    requires plan { plan_of score.old ≡ replicate (length problem.now.classes) None }
    ensures fits { Fits problem.now score.new }
    ensures listing { listing.new.classes ≡ listing.old.classes }
{
    if problem.class_count() != 4 {
        return false;
    }
    let Some(there) = value(problem, 1, 1, Some(71)) else {
        return false;
    };
    let Some(early) = value(problem, 2, 1, None) else {
        return false;
    };
    let Some(value) = value(problem, 3, 1, None) else {
        return false;
    };
    score.place(problem, 1, there);
    score.place(problem, 2, early);
    if blocked(problem, score.closures(), 3, spot(problem, 3, value)).is_some() {
        return false;
    }
    score.conflicts(problem, 3, value, listing);
    listing.as_slice() == [1, 2].as_slice() && score.totals().unplaced == 2
}

// What becomes of asking for no more than so many classes that have to go for the last class, where
// one breaks a pair rule with it, and another takes a day too many.
fn count_within(
    problem: &Problem,
    score: &mut Score,
    most: u32,
    listing: &mut Listing,
) -> Option<u32>
    requires listing { listing.old.classes ≡ length problem.now.classes }
    requires fits { Fits problem.now score.old }
    ensures fits { Fits problem.now score.new }
    ensures plan { plan_of score.new ≡ plan_of score.old }
    ensures listing { listing.new.classes ≡ listing.old.classes }
{
    if problem.class_count() != 4 {
        return None;
    }
    let value = value(problem, 3, 1, None)?;
    let placement = Placement::new(problem, 3, value);
    if blocked(problem, score.closures(), placement.class, placement.spot).is_some() {
        return None;
    }
    if score.conflict_set_within(problem, &placement, most, listing) {
        Some(listing.len())
    } else {
        None
    }
}

// Whether two classes have to go then, and none before.
fn counts_no_further(problem: &Problem, score: &mut Score, listing: &mut Listing) -> bool
    requires listing { listing.old.classes ≡ length problem.now.classes }
    requires fits { Fits problem.now score.old }
    requires plan { plan_of score.old ≡ replicate (length problem.now.classes) None }
{
    let before = count_within(problem, score, 0, listing);
    before == Some(0)
        && makes_days(problem, score, listing)
        && count_within(problem, score, 2, listing) == Some(2)
        && count_within(problem, score, 1, listing) == None
        && listing.len() == 0
}

#[test]
fn a_value_is_blocked_by_a_closed_room_or_a_rule(rt: HostRuntime) -> Result<(), Fail> {
    let problem = read(rt.alloc(), TEXT.as_bytes())?;
    let shown = says_why(&problem, &Closures::new(rt.alloc()));
    drop(problem);
    assert!(rt; shown);
    Ok(())
}

// Whether it has to go in a score that is made.
fn makes_room_in_a_score(alloc: Global, problem: &Problem) -> Result<bool, AllocError> {
    let mut listing = Listing::new(alloc, problem.class_count())?;
    let mut score = Score::new(alloc, problem)?;
    Ok(makes_room(problem, &mut score, &mut listing))
}

#[test]
fn a_class_in_the_room_has_to_go(rt: HostRuntime) -> Result<(), Fail> {
    let problem = read(rt.alloc(), TEXT.as_bytes())?;
    let shown = makes_room_in_a_score(rt.alloc(), &problem);
    drop(problem);
    assert_eq!(rt; shown, Ok(true));
    Ok(())
}

// Whether they have to go in a score that is made.
fn counts_in_a_score(alloc: Global, problem: &Problem) -> Result<bool, AllocError> {
    let mut listing = Listing::new(alloc, problem.class_count())?;
    let mut score = Score::new(alloc, problem)?;
    Ok(counts_no_further(problem, &mut score, &mut listing))
}

#[test]
fn classes_that_break_rules_have_to_go(rt: HostRuntime) -> Result<(), Fail> {
    let problem = read(rt.alloc(), TEXT.as_bytes())?;
    let shown = counts_in_a_score(rt.alloc(), &problem);
    drop(problem);
    assert_eq!(rt; shown, Ok(true));
    Ok(())
}
