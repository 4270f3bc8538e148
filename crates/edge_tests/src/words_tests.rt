//! Tests of decimal numbers, the words of a line, and replies.

use std::alloc::{AllocError, Global};
use tt_text::{Reply, Words, decimal_number, read_decimal};

static NUMBERS: [(&str, Option<u128>); 4] = [
    ("007", Some(7)),
    ("99999999999999999999", Some(99_999_999_999_999_999_999)),
    ("000000000000000000000", None),
    ("7a", None),
];

#[test]
fn reads_numbers_of_up_to_twenty_digits(rt: HostRuntime) {
    for (word, want) in NUMBERS.iter() {
        assert!(rt; decimal_number(word.as_bytes()) == *want, "{word}");
    }
}

// A word, the most, and the number that the word is.
static NUMBERS_UP_TO: [(&str, u64, Option<u64>); 12] = [
    ("0", 0, Some(0)),
    ("7", 7, Some(7)),
    ("8", 7, None),
    ("00000000000000000042", 100, Some(42)),
    ("18446744073709551615", u64::MAX, Some(u64::MAX)),
    ("18446744073709551616", u64::MAX, None),
    ("99999999999999999999", u64::MAX, None),
    ("000000000000000000042", 100, None),
    ("", 100, None),
    ("-1", 100, None),
    ("+1", 100, None),
    ("1 ", 100, None),
];

#[test]
fn reads_numbers_up_to_the_most(rt: HostRuntime) {
    for (word, most, want) in NUMBERS_UP_TO.iter() {
        assert!(rt; read_decimal(word.as_bytes(), *most) == *want, "{word}");
    }
}

// The words of a line, each with a bar after it.
fn with_bars(alloc: Global, line: &[u8]) -> Result<Vec<u8>, AllocError> {
    let mut out = Vec::new(alloc);
    for word in Words::new(line) {
        out.extend_from_slice(word)?;
        out.push(b'|')?;
    }
    Ok(out)
}

static LINES: [(&str, &str); 5] = [
    ("", ""),
    (" \t ", ""),
    ("quit", "quit|"),
    ("assign 1\t2 -", "assign|1|2|-|"),
    ("\t undo \r\t", "undo|\r|"),
];

// Whether the words of a line are these.
fn has_words(alloc: Global, line: &str, want: &str) -> Result<bool, AllocError> {
    Ok(with_bars(alloc, line.as_bytes())?.as_slice() == want.as_bytes())
}

#[test]
fn a_line_is_parted_at_spaces_and_tabs(rt: HostRuntime) {
    for (line, want) in LINES.iter() {
        assert!(rt; has_words(rt.alloc(), line, want) == Ok(true), "{line}");
    }
}

// Whether a reply is empty, grows by texts and numbers, is empty once it is cleared, and grows again.
fn grows(reply: &mut Reply) -> Result<[bool; 4], AllocError> {
    let empty = reply.bytes().is_empty();
    reply.field("ok time ", 0)?;
    reply.text(" room ")?;
    reply.number(340282366920938463463374607431768211455)?;
    let added = reply.bytes()
        == b"ok time 0 room 340282366920938463463374607431768211455".as_slice();
    reply.clear();
    let cleared = reply.bytes().is_empty();
    reply.text("bye\n")?;
    let again = reply.bytes() == b"bye\n".as_slice();
    Ok([empty, added, cleared, again])
}

// The same of a new reply.
fn new_reply_grows(alloc: Global) -> Result<[bool; 4], AllocError> {
    let mut reply = Reply::new(alloc)?;
    grows(&mut reply)
}

#[test]
fn a_reply_grows_by_texts_and_numbers(rt: HostRuntime) {
    assert!(rt; new_reply_grows(rt.alloc()) == Ok([true; 4]));
}
