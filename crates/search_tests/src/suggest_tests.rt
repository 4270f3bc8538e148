//! Tests of the answers of `suggest`.

ghost use Rattle.std.specs.Prelude.{◌≤◌};

use std::alloc::{AllocError, Global};
use test_help::{assigns, state_of};
use tt_bits::Value;
use tt_state::State;
use tt_suggest::{Move, SuggestEnd, Suggested, suggest};
use tt_text::Reply;

// A room; a class with one time; and a class whose first time is the same, and whose second time
// costs less.
const ONE_ROOM: &str = r#"{"nrDays":1,"nrWeeks":1,"slotsPerDay":288,
    "optimization":{"time":1,"room":1,"distribution":1,"student":1},
    "rooms":[{"id":1}],
    "courses":[{"id":1,"configs":[{"subparts":[{"classes":[
        {"id":1,"rooms":[{"id":1,"penalty":0}],"times":[
            {"days":"1","start":10,"length":4,"weeks":"1","penalty":0}]},
        {"id":2,"rooms":[{"id":1,"penalty":0}],"times":[
            {"days":"1","start":10,"length":4,"weeks":"1","penalty":5},
            {"days":"1","start":20,"length":4,"weeks":"1","penalty":1}]}]}]}]}]}"#;

// There the first class gets its time, and the second one its second time.
static BOTH_MOVES: [Move; 2] = [
    Move {
        class: 0,
        value: Value { time: 0, room: 0 },
    },
    Move {
        class: 1,
        value: Value { time: 1, room: 0 },
    },
];

const FRONT: &str = r#"{"nrDays":1,"nrWeeks":1,"slotsPerDay":288,
    "optimization":{"time":1,"room":1,"distribution":1,"student":1},
    "courses":[{"id":1,"configs":[{"subparts":[{"classes":[{"id":1,"room":false,"times":["#;

const MIDDLE: &str = r#"]},{"id":2,"room":false,"times":["#;

const BACK: &str = r#"]}]}]}]}],
    "distributions":[{"type":"SameStart","required":true,"classes":[1,2]}]}"#;

const BEFORE: &str = r#"{"days":"1","start":"#;

const AFTER: &str = r#","length":1,"weeks":"1","penalty":0}"#;

// Appends a thousand times, one after another, the first with this start.
fn append_times(out: &mut Reply, first: u32) -> Result<(), AllocError>
    requires { first ≤ 60000 }
{
    for k in 0..1000 {
        if k > 0 {
            out.text(",")?;
        }
        out.field(BEFORE, u128::from(first + k))?;
        out.text(AFTER)?;
    }
    Ok(())
}

// Two classes that have to start together, with a thousand times each, of which none has a start of
// the other's.
fn wide_text(alloc: Global) -> Result<Reply, AllocError> {
    let mut out = Reply::new(alloc)?;
    out.text(FRONT)?;
    append_times(&mut out, 0)?;
    out.text(MIDDLE)?;
    append_times(&mut out, 1000)?;
    out.text(BACK)?;
    Ok(out)
}

// What is to be answered: so many values tried, and no suggestion; these moves with this total, by so
// many values; or that there are too many values.
#[derive(Clone, Copy)]
enum Want {
    Nothing {
        tried: u32,
    },
    Moves {
        tried: u32,
        moves: &'static [Move],
        total: u128,
    },
    TooMany,
}

// Whether so many values were tried, and the best suggestion has these moves and this total, and moves
// no published class.
fn is_best(found: &Suggested, tried: u32, moves: &[Move], total: u128) -> bool {
    let Some(best) = &found.best else {
        return false;
    };
    found.tried == tried && best.moves.as_slice() == moves && best.total == total && best.moved == 0
}

// Whether this was to be answered.
fn is_wanted(answer: &Result<Suggested, SuggestEnd>, want: Want) -> bool {
    match (answer, want) {
        (Ok(found), Want::Nothing { tried }) => found.tried == tried && found.best.is_none(),
        (
            Ok(found),
            Want::Moves {
                tried,
                moves,
                total,
            },
        ) => is_best(found, tried, moves, total),
        (Err(SuggestEnd::TooMany), Want::TooMany) => true,
        _ => false,
    }
}

// Whether the best way to place or move a class by so many placements is this.
fn suggests(alloc: Global, state: &mut State, class: u32, depth: u8, want: Want) -> bool
    requires some { 1 ≤ depth }
    requires few { depth ≤ 3 }
{
    if class >= state.problem().class_count() {
        return false;
    }
    is_wanted(&suggest(alloc, state, None, class, depth), want)
}

// Whether the best way to place the first of two classes by so many placements is this, once the second
// has its first time in the room with the id.
fn suggests_beside(alloc: Global, text: &[u8], room: Option<u32>, depth: u8, want: Want) -> bool
    requires some { 1 ≤ depth }
    requires few { depth ≤ 3 }
{
    let Ok(mut state) = state_of(alloc, text) else {
        return false;
    };
    assigns(&mut state, 1, 1, room) && suggests(alloc, &mut state, 0, depth, want)
}

#[test]
fn a_class_is_placed_by_moving_another(rt: HostRuntime) {
    let text = ONE_ROOM.as_bytes();
    let none = Want::Nothing { tried: 1 };
    assert!(rt; suggests_beside(rt.alloc(), text, Some(1), 1, none));
    let both = Want::Moves {
        tried: 3,
        moves: &BOTH_MOVES,
        total: 1,
    };
    assert!(rt; suggests_beside(rt.alloc(), text, Some(1), 2, both));
}

static SECOND_MOVE: [Move; 1] = [Move {
    class: 1,
    value: Value { time: 1, room: 0 },
}];

// Whether the second class, once it is locked, is moved for itself alone.
fn moves_locked(alloc: Global, state: &mut State) -> bool {
    let itself = Want::Moves {
        tried: 2,
        moves: &SECOND_MOVE,
        total: 1,
    };
    assigns(state, 1, 1, Some(1))
        && state.lock(1) == Ok(None)
        && suggests(alloc, state, 0, 2, Want::Nothing { tried: 1 })
        && suggests(alloc, state, 1, 1, itself)
        && state.is_locked(1)
}

// The same of a new state.
fn moves_locked_in(alloc: Global, text: &[u8]) -> bool {
    let Ok(mut state) = state_of(alloc, text) else {
        return false;
    };
    moves_locked(alloc, &mut state)
}

// No placement may push out a locked class, which moves itself where it is asked for.
#[test]
fn a_locked_class_is_moved_for_itself_alone(rt: HostRuntime) {
    assert!(rt; moves_locked_in(rt.alloc(), ONE_ROOM.as_bytes()));
}

// Whether the best way to place the first of the two classes with a thousand times each is this.
fn suggests_wide(alloc: Global, depth: u8, want: Want) -> Result<bool, AllocError>
    requires some { 1 ≤ depth }
    requires few { depth ≤ 3 }
{
    let text = wide_text(alloc)?;
    Ok(suggests_beside(alloc, text.bytes(), None, depth, want))
}

#[test]
fn more_than_a_million_values_are_too_many(rt: HostRuntime) {
    assert!(rt; suggests_wide(rt.alloc(), 1, Want::Nothing { tried: 1000 }) == Ok(true));
    assert!(rt; suggests_wide(rt.alloc(), 2, Want::TooMany) == Ok(true));
}
