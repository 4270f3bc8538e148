//! Tests of what is hard, with closures of a session.

ghost use Rattle.tt_score.specs.Fits.{Fits};

use std::alloc::Global;
use tt_bits::{Days, Time, Weeks};
use tt_clash::Closures;
use tt_plan::find;
use tt_problem::Problem;
use tt_read::read;
use tt_score::Score;
use tt_text::Reply;
use tt_verify::{add_count, add_hard_violations, add_lines};

// A class with two rooms, of which the file closes the first at its time.
const TWO_ROOMS: &str = r#"{"nrDays":1,"nrWeeks":1,"slotsPerDay":288,
    "optimization":{"time":1,"room":1,"distribution":1,"student":1},
    "rooms":[
        {"id":1,"unavailable":[{"days":"1","start":0,"length":50,"weeks":"1"}]},
        {"id":2}],
    "courses":[{"id":1,"configs":[{"subparts":[{"classes":[
        {"id":9,"rooms":[{"id":1,"penalty":0},{"id":2,"penalty":1}],"times":[
            {"days":"1","start":10,"length":4,"weeks":"1","penalty":0}]}]}]}]}]}"#;

// A slot within the time of the class.
fn slot() -> Option<Time> {
    let days = Days::read("1", 1)?;
    let weeks = Weeks::read("1", 1)?;
    Time::new(days, weeks, 12, 1)
}

// Whether these are the lines on what is hard in a timetable.
fn writes(alloc: Global, problem: &Problem, closures: &Closures, score: &Score, want: &str) -> bool
    requires { Fits problem.now score.now }
{
    let Ok(mut out) = Reply::new(alloc) else {
        return false;
    };
    let mut found = Vec::new(alloc);
    let spots = score.occupancy().spots();
    add_hard_violations(alloc, problem, closures, spots, &mut found).is_ok()
        && add_lines(&mut out, problem, &found).is_ok()
        && add_count(&mut out, found.len() as u64).is_ok()
        && out.bytes() == want.as_bytes()
}

// The same where the class alone is placed, in the room with this id.
fn tells(alloc: Global, problem: &Problem, closures: &Closures, room: u32, want: &str) -> bool {
    if problem.class_count() == 0 {
        return false;
    }
    let Ok(value) = find(problem, 0, 1, Some(room)) else {
        return false;
    };
    let Ok(mut score) = Score::new(alloc, problem) else {
        return false;
    };
    score.place(problem, 0, value);
    writes(alloc, problem, closures, &score, want)
}

// Whether a closure of the second room counts, and no more once it is lifted.
fn counts_until_lifted(alloc: Global, problem: &Problem) -> bool {
    let Some(time) = slot() else {
        return false;
    };
    let mut closures = Closures::new(alloc);
    if closures.close(1, time).is_err() {
        return false;
    }
    let counts = tells(alloc, problem, &closures, 2, "closed 9\nviolations 1\n");
    closures.lift(0);
    counts && tells(alloc, problem, &closures, 2, "violations 0\n")
}

// Whether the file's closure of the first room counts where the class is in it, and the second room's
// closure until it is lifted.
fn closes_rooms(alloc: Global, problem: &Problem) -> [bool; 3] {
    let none = Closures::new(alloc);
    [
        tells(alloc, problem, &none, 1, "closed 9\nviolations 1\n"),
        tells(alloc, problem, &none, 2, "violations 0\n"),
        counts_until_lifted(alloc, problem),
    ]
}

// Whether all three hold of the problem that a text holds.
fn closes_rooms_of(alloc: Global, text: &str) -> bool {
    match read(alloc, text.as_bytes()) {
        Ok(problem) => closes_rooms(alloc, &problem) == [true; 3],
        Err(_) => false,
    }
}

#[test]
fn the_file_and_the_closures_close_rooms(rt: HostRuntime) {
    assert!(rt; closes_rooms_of(rt.alloc(), TWO_ROOMS));
}
