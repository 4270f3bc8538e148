//! Runs whose script is read piece by piece.

ghost use Rattle.std.specs.Prelude.{◌||◌, is_some, None};

use std::alloc::{AllocError, Global};
use std::test::Fail;
use tt_io::{Failed, Files, MemFiles, MemSink, SureFiles, SureSink};
use tt_top::{run, run_within};
use tt_watch::Silent;

const ONE_CLASS: &str =
    r#"{"nrDays":1,"nrWeeks":1,"slotsPerDay":288,"optimization":{"time":2,"room":1,"distribution":1,"student":1},"courses":[{"id":1,"configs":[{"id":1,"subparts":[{"id":1,"classes":[{"id":1,"room":false,"times":[{"days":"1","start":10,"length":4,"weeks":"1","penalty":4}]}]}]}]}]}"#;

const OPENED: &str = "open 1 0 0 0\n";

const ONE_TOTAL: &str =
    "open 1 0 0 0\nok time 0 room 0 distribution 0 student 0 total 0 hard 0 unplaced 1 unsectioned 0 moved -\n";

const TWO_TOTALS: &str =
    "open 1 0 0 0\nok time 0 room 0 distribution 0 student 0 total 0 hard 0 unplaced 1 unsectioned 0 moved -\nok time 0 room 0 distribution 0 student 0 total 0 hard 0 unplaced 1 unsectioned 0 moved -\n";

const THREE_TOTALS: &str =
    "open 1 0 0 0\nok time 0 room 0 distribution 0 student 0 total 0 hard 0 unplaced 1 unsectioned 0 moved -\nok time 0 room 0 distribution 0 student 0 total 0 hard 0 unplaced 1 unsectioned 0 moved -\nok time 0 room 0 distribution 0 student 0 total 0 hard 0 unplaced 1 unsectioned 0 moved -\n";

// `run` over a problem and a script.
static WORDS: [&str; 3] = ["run", "problem", "script"];

fn words_of(alloc: Global) -> Result<Vec<String>, AllocError> {
    let mut words = Vec::new(alloc);
    for text in WORDS.iter() {
        words.push(String::from_str(alloc, text)?)?;
    }
    Ok(words)
}

const SIZE: usize = ONE_CLASS.len();

// The calls before the script is read, with reads of at most seven bytes.
const BEFORE_SCRIPT: u64 = (SIZE as u64 + 6) / 7 + 3;

// No call has this number.
const NEVER: u64 = 9_999;

// A problem and a script of three lines, each of which one read gives. The call of this number fails.
fn slow_files(alloc: Global, failing: u64) -> Result<MemFiles, AllocError> {
    let mut files = MemFiles::new(alloc);
    files.add("problem", ONE_CLASS.as_bytes())?;
    files.add("script", b"totals\ntotals\ntotals\n")?;
    files.limit_reads(7);
    files.fail_at(failing)?;
    Ok(files)
}

// Whether a run in which these calls fail ends so.
fn ends_so(
    alloc: Global,
    read: u64,
    write: u64,
    status: u8,
    output: &str,
) -> Result<bool, AllocError> {
    let mut files = slow_files(alloc, read)?;
    let mut out = MemSink::new(alloc);
    out.fail_at(write)?;
    let words = words_of(alloc)?;
    let ended = run(alloc, &words, &mut files, &mut out);
    Ok(ended == status && out.bytes() == Some(output.as_bytes()))
}

// The numbers of the call on the files and of the write that fail, the status, and what is written.
static FAILING: [(u64, u64, u8, &str); 8] = [
    (BEFORE_SCRIPT, NEVER, 5, OPENED),
    (BEFORE_SCRIPT + 1, NEVER, 5, OPENED),
    (BEFORE_SCRIPT + 3, NEVER, 5, TWO_TOTALS),
    (BEFORE_SCRIPT + 4, NEVER, 5, THREE_TOTALS),
    (BEFORE_SCRIPT + 5, NEVER, 0, THREE_TOTALS),
    (NEVER, 2, 6, OPENED),
    (BEFORE_SCRIPT + 2, 2, 6, OPENED),
    (BEFORE_SCRIPT + 3, 3, 6, ONE_TOTAL),
];

// Each reply is written before the script is read on: where a later read would fail, and the write of
// an earlier reply too, it is the write that ends the run.
#[test]
fn replies_are_written_before_the_script_is_read_on(rt: HostRuntime) -> Result<(), Fail> {
    for (read, write, status, output) in FAILING.iter() {
        let so = ends_so(rt.alloc(), *read, *write, *status, output)?;
        assert!(rt; so, "read {read}, write {write}");
    }
    Ok(())
}

// A script of so many line ends, and then these lines.
fn padded(alloc: Global, count: usize, lines: &str) -> Result<Vec<u8>, AllocError> {
    let mut script = vec![in alloc; b'\n'; count]?;
    script.extend_from_slice(lines.as_bytes())?;
    Ok(script)
}

// How many line ends there are, the lines after them, the status with a limit of the problem's size,
// and what is written.
static LIMITED: [(usize, &str, u8, &str); 6] = [
    // `quit` is whole within the limit.
    (SIZE - 5, "quit\nundo\n", 0, OPENED),
    // Its line end is beyond the limit.
    (SIZE - 4, "quit\nundo\n", 8, OPENED),
    // It is the last line, without a line end.
    (SIZE - 4, "quit", 0, OPENED),
    (SIZE - 3, "quit", 8, OPENED),
    // The line before the limit is answered, and the one that goes on beyond it is not.
    (SIZE - 7, "totals\nundo\n", 8, ONE_TOTAL),
    (SIZE - 14, "totals\ntotals\n", 0, TWO_TOTALS),
];

// Whether a run over such a script, read by at most so many bytes, but one at least, ends so.
fn ends_within(
    alloc: Global,
    script: &[u8],
    most: usize,
    status: u8,
    output: &str,
) -> Result<bool, AllocError> {
    let mut files = SureFiles::new(alloc);
    files.add("problem", ONE_CLASS.as_bytes())?;
    files.add("script", script)?;
    files.limit_reads(most.max(1));
    let mut out = SureSink::new(alloc);
    let words = words_of(alloc)?;
    let ended = run_within(
        SIZE as u64,
        alloc,
        &words,
        &mut files,
        &mut out,
        &mut Silent,
    );
    Ok(ended == status && out.bytes() == Some(output.as_bytes()))
}

#[test]
fn a_script_has_a_limit_up_to_quit(rt: HostRuntime) -> Result<(), Fail> {
    for most in [1, 7, 100_000] {
        for (count, lines, status, output) in LIMITED.iter() {
            let script = padded(rt.alloc(), *count, lines)?;
            let so = ends_within(rt.alloc(), &script, most, *status, output)?;
            assert!(rt; so, "{count} and {lines} by {most}");
        }
    }
    Ok(())
}

// The bytes of a long script.
const LONG: u64 = 30_000_000;

// A problem, and a script of comments that is nowhere held as a whole, a line for each read.
#[derive(Drop)]
struct LongScript {
    problem: SureFiles,
    left: Option<u64>,
}

impl Files for LongScript {
    ghost holds = { λ _ _. None };

    ghost left = { λ _. None };

    ghost is_open = { λ f. is_some f.left || is_some f.problem.left };

    ghost asked = { λ _. None };

    ghost faults = { λ _. 0 };

    fn open_file(&mut self, name: &str) -> Result<(), Failed> {
        if name == "script" {
            self.left = Some(LONG);
            return Ok(());
        }
        self.left = None;
        self.problem.open_file(name)
    }

    fn read(&mut self, buf: &mut [u8]) -> Result<usize, Failed> {
        let Some(left) = self.left else {
            return self.problem.read(buf);
        };
        let count = left.min(buf.len() as u64) as usize;
        buf.fill(b' ');
        if count > 0 {
            buf[0] = b'#';
            buf[count - 1] = b'\n';
        }
        self.left = Some(left - count as u64);
        Ok(count)
    }
}

// The status of a run over the long script, with this limit.
fn long_status(alloc: Global, limit: u64, out: &mut SureSink) -> Result<u8, AllocError> {
    let mut problem = SureFiles::new(alloc);
    problem.add("problem", ONE_CLASS.as_bytes())?;
    let mut files = LongScript {
        problem,
        left: None,
    };
    let words = words_of(alloc)?;
    Ok(run_within(limit, alloc, &words, &mut files, out, &mut Silent))
}

// A script that is made as it is read is answered to its end, or up to the limit.
#[test]
fn a_long_script_is_answered_as_it_is_read(rt: HostRuntime) -> Result<(), Fail> {
    for (limit, wanted) in [(u64::MAX, 0), (LONG, 0), (LONG - 1, 8)] {
        let mut out = SureSink::new(rt.alloc());
        let status = long_status(rt.alloc(), limit, &mut out)?;
        assert_eq!(rt; status, wanted);
        assert!(rt; out.bytes() == Some(OPENED.as_bytes()));
    }
    Ok(())
}
