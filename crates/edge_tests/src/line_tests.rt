//! That the lines of a file are given whatever the pieces in which it is read.

ghost use Rattle.std.specs.Prelude.{◌≡◌, ◌≤◌, true, IsTrue};

use std::alloc::{AllocError, Global};
use tt_io::{Files, LineEnd, LineStep, Lines, MemFiles, SureFiles};

// What the next line is, with the line itself where it is whole.
fn next_is<F: Files>(
    lines: &mut Lines,
    files: &mut F,
    limit: u64,
    step: Result<LineStep, LineEnd>,
    line: &str,
) -> bool
    requires { IsTrue (F.is_open files.old) }
    ensures is_open { IsTrue (F.is_open files.new) }
{
    let given = lines.next(files, limit);
    given == step && (given != Ok(LineStep::Whole) || lines.line() == line.as_bytes())
}

// Opens the file of this name.
fn open<F: Files>(files: &mut F, name: &str) -> bool
    ensures opens { result ≡ true → IsTrue (F.is_open files.new) }
{
    files.open_file(name).is_ok()
}

// One file, which is read by at most so many bytes.
fn one_file(alloc: Global, text: &[u8], most: usize) -> Result<SureFiles, AllocError>
    requires { 1 ≤ most }
{
    let mut files = SureFiles::new(alloc);
    files.add("file", text)?;
    files.limit_reads(most);
    Ok(files)
}

// Whether the file has just these lines.
fn has_lines(
    alloc: Global,
    text: &[u8],
    most: usize,
    limit: u64,
    wanted: &[(Result<LineStep, LineEnd>, &str)],
) -> Result<bool, AllocError>
    requires { 1 ≤ most }
{
    let mut files = one_file(alloc, text, most)?;
    let mut lines = Lines::new(alloc)?;
    if !open(&mut files, "file") {
        return Ok(false);
    }
    for want in wanted.iter() {
        let (step, line) = *want;
        if !next_is(&mut lines, &mut files, limit, step, line) {
            return Ok(false);
        }
    }
    Ok(true)
}

const TOO_LONG: Result<LineStep, LineEnd> = Err(LineEnd::TooLong);

const WHOLE: Result<LineStep, LineEnd> = Ok(LineStep::Whole);

const LONG: Result<LineStep, LineEnd> = Ok(LineStep::Long);

const END: Result<LineStep, LineEnd> = Ok(LineStep::End);

// A text, the limit, and what is given for it.
struct Case {
    text: &'static str,
    limit: u64,
    wanted: &'static [(Result<LineStep, LineEnd>, &'static str)],
}

static CASES: [Case; 10] = [
    Case {
        text: "ab\ncd",
        limit: 4,
        wanted: &[(WHOLE, "ab"), (TOO_LONG, "")],
    },
    Case {
        text: "ab\ncd",
        limit: 5,
        wanted: &[(WHOLE, "ab"), (WHOLE, "cd"), (END, "")],
    },
    Case {
        text: "ab\ncd",
        limit: 3,
        wanted: &[(WHOLE, "ab"), (TOO_LONG, "")],
    },
    Case {
        text: "ab\ncd",
        limit: 2,
        wanted: &[(TOO_LONG, "")],
    },
    Case {
        text: "ab\n",
        limit: 3,
        wanted: &[(WHOLE, "ab"), (END, "")],
    },
    Case {
        text: "",
        limit: 0,
        wanted: &[(END, ""), (END, "")],
    },
    Case {
        text: "\n",
        limit: 0,
        wanted: &[(TOO_LONG, "")],
    },
    Case {
        text: "\n\nx",
        limit: 9,
        wanted: &[(WHOLE, ""), (WHOLE, ""), (WHOLE, "x"), (END, "")],
    },
    // A carriage return belongs to the line, also where a read parts it from its line end.
    Case {
        text: "a\r\nb\r\n",
        limit: 9,
        wanted: &[(WHOLE, "a\r"), (WHOLE, "b\r"), (END, "")],
    },
    Case {
        text: "a\r",
        limit: 9,
        wanted: &[(WHOLE, "a\r"), (END, "")],
    },
];

#[test]
fn lines_are_given_whatever_the_pieces(rt: HostRuntime) {
    for most in [1, 2, 3, 4096] {
        for case in CASES.iter() {
            let so = has_lines(
                rt.alloc(),
                case.text.as_bytes(),
                most,
                case.limit,
                case.wanted,
            );
            assert!(rt;
                so == Ok(true),
                "{} with the limit {} by {most}",
                case.text,
                case.limit
            );
        }
    }
}

// So many bytes, a line end, and one byte more.
fn long_text(alloc: Global, count: usize) -> Result<Vec<u8>, AllocError> {
    let mut text = vec![in alloc; b'#'; count]?;
    text.extend_from_slice(b"\nx")?;
    Ok(text)
}

static AROUND_THE_MOST: [(usize, Result<LineStep, LineEnd>); 3] = [
    (65_535, WHOLE),
    (65_536, WHOLE),
    (65_537, LONG),
];

// Whether so many bytes are such a line, with another one after it.
fn is_line_of(
    alloc: Global,
    count: usize,
    most: usize,
    step: Result<LineStep, LineEnd>,
) -> Result<bool, AllocError>
    requires { 1 ≤ most }
{
    let mut files = one_file(alloc, &long_text(alloc, count)?, most)?;
    let mut lines = Lines::new(alloc)?;
    Ok(
        open(&mut files, "file")
            && lines.next(&mut files, 99_999) == step
            && (step == LONG || lines.line().len() == count)
            && next_is(&mut lines, &mut files, 99_999, WHOLE, "x")
            && next_is(&mut lines, &mut files, 99_999, END, ""),
    )
}

// A line of 65,536 bytes is whole, and one of a byte more is passed over once.
#[test]
fn long_lines_are_passed_over(rt: HostRuntime) {
    for most in [1, 65_536, 65_537, 1_000_000] {
        for (count, step) in AROUND_THE_MOST.iter() {
            let so = is_line_of(rt.alloc(), *count, most, *step);
            assert!(rt; so == Ok(true), "{count} bytes by {most}");
        }
    }
}

// Three lines, of which one read gives two. The call of this number fails.
fn failing_file(alloc: Global, failing: u64) -> Result<MemFiles, AllocError> {
    let mut files = MemFiles::new(alloc);
    files.add("file", b"a\nb\ncd")?;
    files.limit_reads(4);
    files.fail_at(failing)?;
    Ok(files)
}

const FAILED: Result<LineStep, LineEnd> = Err(LineEnd::Failed);

// What is given where this call fails: the file is opened by the first, read by the second and the
// third, and met at its end by the fourth.
static FAILING: [(u64, &[Result<LineStep, LineEnd>]); 4] = [
    (2, &[FAILED]),
    (3, &[WHOLE, WHOLE, FAILED]),
    (4, &[WHOLE, WHOLE, FAILED]),
    (5, &[WHOLE, WHOLE, WHOLE, END, END]),
];

// Whether the lines are such where this call fails.
fn fails_so(
    alloc: Global,
    failing: u64,
    steps: &[Result<LineStep, LineEnd>],
) -> Result<bool, AllocError> {
    let mut files = failing_file(alloc, failing)?;
    let mut lines = Lines::new(alloc)?;
    if !open(&mut files, "file") {
        return Ok(false);
    }
    for step in steps.iter() {
        if lines.next(&mut files, 9) != *step {
            return Ok(false);
        }
    }
    Ok(true)
}

// A failed read is not the end of the file, and a whole line that is in hand is given before the next
// read is made. The end of the file is met once.
#[test]
fn a_failed_read_is_told(rt: HostRuntime) {
    for (failing, steps) in FAILING.iter() {
        let so = fails_so(rt.alloc(), *failing, steps);
        assert!(rt; so == Ok(true), "call {failing}");
    }
}
