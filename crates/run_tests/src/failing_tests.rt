//! One call on the files or the output that fails, at each place of each form of words.

use std::alloc::{AllocError, Global};
use std::test::Fail;
use tt_io::{MemFiles, MemSink};
use tt_top::run;

const ONE_CLASS: &str =
    r#"{"nrDays":1,"nrWeeks":1,"slotsPerDay":288,"optimization":{"time":2,"room":1,"distribution":1,"student":1},"courses":[{"id":1,"configs":[{"id":1,"subparts":[{"id":1,"classes":[{"id":1,"room":false,"times":[{"days":"1","start":10,"length":4,"weeks":"1","penalty":4}]}]}]}]}]}"#;

// Two classes that want one room at one time.
const ONE_ROOM: &str =
    r#"{"nrDays":1,"nrWeeks":1,"slotsPerDay":288,"optimization":{"time":1,"room":1,"distribution":1,"student":1},"rooms":[{"id":1,"capacity":9}],"courses":[{"id":1,"configs":[{"id":1,"subparts":[{"id":1,"classes":[{"id":1,"limit":9,"rooms":[{"id":1,"penalty":0}],"times":[{"days":"1","start":10,"length":4,"weeks":"1","penalty":0}]},{"id":2,"limit":9,"rooms":[{"id":1,"penalty":0}],"times":[{"days":"1","start":10,"length":4,"weeks":"1","penalty":0}]}]}]}]}]}"#;

const AT_ITS_TIME: &str =
    r#"{"classes":[{"days":"1","id":1,"start":10,"students":[],"weeks":"1"}]}"#;

const USAGE: &str =
    "usage: uttab run PROBLEM SCRIPT [PUBLISHED] | check PROBLEM | demo SEED CLASSES TURNS | make SEED CLASSES | verify PROBLEM SOLUTION\n";

const OPENED: &str = "open 1 0 0 0\n";

const PLACED: &str =
    "open 1 0 0 0\nok time 4 room 0 distribution 0 student 0 total 8 hard 0 unplaced 0 unsectioned 0 moved -\n";

const PLACED_AND_UNDONE: &str =
    "open 1 0 0 0\nok time 4 room 0 distribution 0 student 0 total 8 hard 0 unplaced 0 unsectioned 0 moved -\nok time 0 room 0 distribution 0 student 0 total 0 hard 0 unplaced 1 unsectioned 0 moved -\n";

const KEPT: &str =
    "open 1 0 0 0\nok time 4 room 0 distribution 0 student 0 total 8 hard 0 unplaced 0 unsectioned 0 moved 0\n";

const KEPT_AND_UNDONE: &str =
    "open 1 0 0 0\nok time 4 room 0 distribution 0 student 0 total 8 hard 0 unplaced 0 unsectioned 0 moved 0\nok time 0 room 0 distribution 0 student 0 total 0 hard 0 unplaced 1 unsectioned 0 moved 1\n";

static FILES: [(&str, &str); 5] = [
    ("problem", ONE_CLASS),
    ("published", AT_ITS_TIME),
    ("script", "assign 1 1 -\nundo\n"),
    ("quitting", "quit\n"),
    ("rooms", ONE_ROOM),
];

// No call has this number.
const NEVER: u64 = 99;

// The words, the numbers of the call on the files and of the write that fail, the status, and what is
// written. Each file is opened, read, and read to its end.
static FAILING: [(&str, u64, u64, u8, &str); 35] = [
    ("run problem script published", 1, NEVER, 5, ""),
    ("run problem script published", 2, NEVER, 5, ""),
    ("run problem script published", 3, NEVER, 5, ""),
    ("run problem script published", 4, NEVER, 5, ""),
    ("run problem script published", 5, NEVER, 5, ""),
    ("run problem script published", 6, NEVER, 5, ""),
    ("run problem script published", 7, NEVER, 5, OPENED),
    ("run problem script published", 8, NEVER, 5, OPENED),
    ("run problem script published", 9, NEVER, 5, KEPT_AND_UNDONE),
    (
        "run problem script published",
        10,
        NEVER,
        0,
        KEPT_AND_UNDONE,
    ),
    ("run problem script published", NEVER, 1, 6, ""),
    ("run problem script published", NEVER, 2, 6, OPENED),
    ("run problem script published", NEVER, 3, 6, KEPT),
    ("run problem script published", NEVER, 4, 0, KEPT_AND_UNDONE),
    ("run problem script", 1, NEVER, 5, ""),
    ("run problem script", 2, NEVER, 5, ""),
    ("run problem script", 3, NEVER, 5, ""),
    ("run problem script", 4, NEVER, 5, OPENED),
    ("run problem script", 5, NEVER, 5, OPENED),
    ("run problem script", 6, NEVER, 5, PLACED_AND_UNDONE),
    ("run problem script", 7, NEVER, 0, PLACED_AND_UNDONE),
    ("run problem quitting", 5, NEVER, 5, OPENED),
    ("run problem quitting", 6, NEVER, 0, OPENED),
    ("run problem script", NEVER, 1, 6, ""),
    ("run problem script", NEVER, 2, 6, OPENED),
    ("run problem script", NEVER, 3, 6, PLACED),
    ("check problem", 1, NEVER, 5, ""),
    ("check problem", 2, NEVER, 5, ""),
    ("check problem", 3, NEVER, 5, ""),
    ("check problem", 4, NEVER, 0, OPENED),
    ("check problem", NEVER, 1, 6, ""),
    ("check problem", NEVER, 2, 0, OPENED),
    ("make 1 1", NEVER, 1, 6, ""),
    ("run problem", 1, NEVER, 2, USAGE),
    ("run problem", NEVER, 1, 6, ""),
];

// The words of a line.
fn words_of(alloc: Global, line: &str) -> Result<Vec<String>, AllocError> {
    let mut words = Vec::new(alloc);
    for word in line.split_whitespace() {
        words.push(String::from_str(alloc, word)?)?;
    }
    Ok(words)
}

// The files, of which the call of this number fails.
fn failing_files(alloc: Global, failing: u64) -> Result<MemFiles, AllocError> {
    let mut files = MemFiles::new(alloc);
    for (name, text) in FILES.iter() {
        files.add(name, text.as_bytes())?;
    }
    files.fail_at(failing)?;
    Ok(files)
}

// An output of which the write of this number fails.
fn failing_sink(alloc: Global, failing: u64) -> Result<MemSink, AllocError> {
    let mut out = MemSink::new(alloc);
    out.fail_at(failing)?;
    Ok(out)
}

// The status of the run by these words over these files.
fn status_of(
    alloc: Global,
    line: &str,
    files: &mut MemFiles,
    out: &mut MemSink,
) -> Result<u8, AllocError> {
    let words = words_of(alloc, line)?;
    Ok(run(alloc, &words, files, out))
}

// Whether a run by these words in which these calls fail ends so.
fn ends_so(
    alloc: Global,
    line: &str,
    read: u64,
    write: u64,
    status: u8,
    output: &str,
) -> Result<bool, AllocError> {
    let mut files = failing_files(alloc, read)?;
    let mut out = failing_sink(alloc, write)?;
    let ended = status_of(alloc, line, &mut files, &mut out)?;
    Ok(ended == status && out.bytes() == Some(output.as_bytes()))
}

// The first call that fails ends the run, and what was written before it stays. The published file
// is read before the opening line is written, and the script after. Each reply is written before the
// script is read on, and after `quit` it isn't.
#[test]
fn failed_calls_end_the_run(rt: HostRuntime) -> Result<(), Fail> {
    for (line, read, write, status, output) in FAILING.iter() {
        let so = ends_so(rt.alloc(), line, *read, *write, *status, output)?;
        assert!(rt; so, "{line}: read {read}, write {write}");
    }
    Ok(())
}

// A script of `totals` and then a thousand searches, none of which ends before its last turn.
fn add_long_script(alloc: Global, files: &mut MemFiles) -> Result<(), AllocError> {
    let mut script = String::from_str(alloc, "totals\n")?;
    for _ in 0..1000 {
        script.push_str("search 1000000 1\n")?;
    }
    files.add("long", script.as_bytes())
}

// A reply is handed on before the next line is answered, also where both lines came in one piece:
// else the searches would take many minutes before the second write fails.
#[test]
fn a_reply_is_handed_on_before_the_next_line_is_answered(rt: HostRuntime) -> Result<(), Fail> {
    let alloc = rt.alloc();
    let mut files = failing_files(alloc, NEVER)?;
    add_long_script(alloc, &mut files)?;
    let mut out = failing_sink(alloc, 2)?;
    let status = status_of(alloc, "run rooms long", &mut files, &mut out)?;
    assert_eq!(rt; status, 6);
    assert!(rt; out.bytes() == Some(b"open 2 1 0 0\n".as_slice()));
    Ok(())
}
