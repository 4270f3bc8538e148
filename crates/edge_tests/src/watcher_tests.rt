//! How often the line on a long command is written, and what it says.

use std::alloc::{AllocError, Global};
use std::cell::Cell;
use std::fmt::Display;
use std::io;
use tt_watch::{Progress, StdWatcher, Watcher};

// A standard error that counts what it is handed.
#[derive(Drop)]
struct CountingError {
    calls: Cell<u32>,
}

impl Eprint for CountingError {
    fn eprint<D: Display + Drop>(&self, _value: D) -> io::Result<()> {
        self.calls.set(self.calls.get().saturating_add(1));
        Ok(())
    }

    fn eprintln<D: Display + Drop>(&self, value: D) -> io::Result<()> {
        self.eprint(value)
    }
}

// Tells so many turns, and the end.
fn tell_turns<P: Eprint>(watcher: &mut StdWatcher<P>, turns: u32) {
    for made in 0..turns {
        watcher.tell(Progress::Turns {
            made: made + 1,
            of: turns,
            unplaced: 3,
        });
    }
    watcher.end();
}

// How often standard error is written to in two searches of so many turns.
fn times_written(turns: u32, is_terminal: bool) -> u32 {
    let output = CountingError {
        calls: Cell::new(0),
    };
    let mut watcher = StdWatcher::new(&output, is_terminal);
    tell_turns(&mut watcher, turns);
    tell_turns(&mut watcher, turns);
    output.calls.get()
}

// The turns of a search, and how often two of them write. The line is wiped once where it was
// written.
static WRITTEN: [(u32, u32); 5] = [(0, 0), (1, 4), (7, 16), (100, 202), (5_000, 202)];

#[test]
fn a_search_is_told_a_hundred_times_at_most(rt: HostRuntime) {
    for (turns, times) in WRITTEN.iter() {
        assert_eq!(rt; times_written(*turns, true), *times, "{turns} turns");
    }
}

#[test]
fn nothing_is_told_but_to_a_terminal(rt: HostRuntime) {
    assert_eq!(rt; times_written(7, false), 0);
}

static TEXTS: [(Progress, &str); 3] = [
    (
        Progress::Turns {
            made: 30,
            of: 2_000,
            unplaced: 4,
        },
        "turn 30 of 2000, 4 unplaced",
    ),
    (Progress::Rounds { made: 1, of: 5 }, "round 1 of 5"),
    (Progress::Students { done: 7, of: 7 }, "student 7 of 7"),
];

fn text_of(alloc: Global, progress: Progress) -> Result<String, AllocError> {
    format!(in alloc; "{progress}")
}

// Whether the line says this.
fn says(alloc: Global, progress: Progress, want: &str) -> Result<bool, AllocError> {
    Ok(text_of(alloc, progress)?.as_str() == want)
}

#[test]
fn the_line_says_how_far_it_is(rt: HostRuntime) {
    for (progress, text) in TEXTS.iter() {
        assert!(rt; says(rt.alloc(), *progress, text) == Ok(true), "{text}");
    }
}
