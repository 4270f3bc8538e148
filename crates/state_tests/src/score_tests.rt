//! Tests of the score.

ghost use Rattle.std.specs.Prelude.{◌≡◌, length, replicate, None, []};
ghost use Rattle.tt_score.specs.Fits.{Fits, plan_of, closures_of};

use std::alloc::{AllocError, Global};
use std::test::Fail;
use test_help::{problem, value};
use tt_bits::{Days, Time, Value, Weeks};
use tt_problem::Problem;
use tt_score::{Score, Totals};

// Whether the sums of a new score are those of an empty plan.
fn starts_empty(score: &Score) -> bool {
    let totals = Totals {
        time: 0,
        room: 0,
        distribution: 0,
        student: 0,
        total: 0,
        hard: 0,
        unplaced: 3,
        unsectioned: 2,
    };
    let conflicts = [score.occupancy().clashes(), score.roster().conflicts()];
    score.totals() == totals && score.plan() == [None, None, None].as_slice() && conflicts == [0, 0]
}

// Whether two classes pay for their times and rooms and as their rules say, and a trial of one of
// them in the room of the other changes nothing.
fn places_two_classes(problem: &Problem, score: &mut Score) -> bool
    requires fits { Fits problem.now score.old }
    requires plan { plan_of score.old ≡ replicate (length problem.now.classes) None }
    ensures { Fits problem.now score.new }
{
    let Some(early) = value(problem, 0, 1, Some(71)) else {
        return false;
    };
    let Some(late) = value(problem, 2, 1, Some(72)) else {
        return false;
    };
    let Some(other) = value(problem, 0, 1, Some(72)) else {
        return false;
    };
    score.place(problem, 0, early);
    score.place(problem, 2, late);
    let trial = score.trial(problem, 0, other);
    let totals = Totals {
        time: 9,
        room: 7,
        distribution: 14,
        student: 0,
        total: 109,
        hard: 1,
        unplaced: 1,
        unsectioned: 2,
    };
    trial == 44 && score.totals() == totals
}

// Whether the amounts and costs of the rules are those of the two classes.
fn has_costs(problem: &Problem, score: &Score) -> bool
    requires { Fits problem.now score.now }
{
    if problem.rule_count() != 3 {
        return false;
    }
    let amounts = [score.amount(0), score.amount(1), score.amount(2)];
    let costs = [
        score.cost(problem, 0),
        score.cost(problem, 1),
        score.cost(problem, 2),
    ];
    amounts == [1, 1, 2] && costs == [10, 4, 0]
}

// Whether a class in a closed room is a hard conflict until it leaves.
fn places_in_a_closed_room(problem: &Problem, score: &mut Score) -> bool
    requires fits { Fits problem.now score.old }
    requires plan { plan_of score.old ≡ replicate (length problem.now.classes) None }
{
    let Some(value) = value(problem, 0, 2, Some(72)) else {
        return false;
    };
    score.place(problem, 0, value);
    let hard = score.totals().hard;
    let had = score.unplace(problem, 0);
    had == Value { time: 1, room: 1 } && [hard, score.totals().hard] == [1, 0]
}

// A time on the first day of both weeks.
fn on_the_first_day(start: u16, length: u16) -> Option<Time> {
    let days = Days::read("10", 2)?;
    let weeks = Weeks::read("11", 2)?;
    Time::new(days, weeks, start, length)
}

// The hard conflicts with a class from slot 10 to 14 of the second room, where the room is closed
// at one time and then at another; none where there is no such class.
fn hard_with_closures(problem: &Problem, score: &mut Score, times: [Time; 2]) -> Option<[u64; 2]>
    requires fits { Fits problem.now score.old }
    requires plan { plan_of score.old ≡ replicate (length problem.now.classes) None }
    requires closures { closures_of score.old ≡ [] }
{
    let value = value(problem, 0, 1, Some(72))?;
    score.place(problem, 0, value);
    let Ok(()) = score.close(problem, 1, times[0]) else {
        return None;
    };
    let first = score.totals().hard;
    let Ok(()) = score.close(problem, 1, times[1]) else {
        return None;
    };
    Some([first, score.totals().hard])
}

// Whether a score that is made starts empty, and then two classes cost what their rules say.
fn costs_in_a_score(alloc: Global, problem: &Problem) -> Result<[bool; 3], AllocError> {
    let mut score = Score::new(alloc, problem)?;
    Ok([
        starts_empty(&score),
        places_two_classes(problem, &mut score),
        has_costs(problem, &score),
    ])
}

#[test]
fn two_classes_cost_what_their_rules_say(rt: HostRuntime) -> Result<(), Fail> {
    let problem = problem(rt.alloc())?;
    let shown = costs_in_a_score(rt.alloc(), &problem);
    drop(problem);
    assert_eq!(rt; shown, Ok([true; 3]));
    Ok(())
}

// Whether a class in a closed room is hard in a score that is made.
fn closes_in_a_score(alloc: Global, problem: &Problem) -> Result<bool, AllocError> {
    let mut score = Score::new(alloc, problem)?;
    Ok(places_in_a_closed_room(problem, &mut score))
}

#[test]
fn a_closed_room_is_a_hard_conflict(rt: HostRuntime) -> Result<(), Fail> {
    let problem = problem(rt.alloc())?;
    let shown = closes_in_a_score(rt.alloc(), &problem);
    drop(problem);
    assert_eq!(rt; shown, Ok(true));
    Ok(())
}

// The hard conflicts of a score that is made.
fn hard_in_a_score(
    alloc: Global,
    problem: &Problem,
    times: [Time; 2],
) -> Result<Option<[u64; 2]>, AllocError> {
    let mut score = Score::new(alloc, problem)?;
    Ok(hard_with_closures(problem, &mut score, times))
}

#[test]
fn closures_that_overlap_a_class_count_it_once(rt: HostRuntime) -> Result<(), Fail> {
    let touching = on_the_first_day(14, 5).ok_or("a time")?;
    let within = on_the_first_day(13, 1).ok_or("a time")?;
    let problem = problem(rt.alloc())?;
    let first = hard_in_a_score(rt.alloc(), &problem, [touching, within]);
    let both = hard_in_a_score(rt.alloc(), &problem, [within, within]);
    drop(problem);
    assert_eq!(rt; [first, both], [Ok(Some([0, 1])), Ok(Some([1, 1]))]);
    Ok(())
}
