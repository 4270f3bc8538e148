//! Tests of the term of a problem file.

use crate::given::{Want, is_answer};
use std::alloc::Global;
use tt_fields::{FileFault, Wrong};
use tt_read::read;

// How many weeks the term of a problem has.
fn week_count(alloc: Global, text: &str) -> Result<u8, FileFault> {
    Ok(read(alloc, text.as_bytes())?.nr_weeks())
}

// After the version, `nrDays` and `nrWeeks` the next key that is read is `slotsPerDay`.
static TERMS: [(&str, Want<u8>); 16] = [
    (
        r#"{"nrDays":7,"nrWeeks":64}"#,
        Err((Wrong::NotOfKind, "/slotsPerDay")),
    ),
    (
        r#"{"nrDays":7,"nrWeeks":65}"#,
        Err((Wrong::OutOfRange, "/nrWeeks")),
    ),
    (
        r#"{"version":null,"nrDays":7,"nrWeeks":65}"#,
        Err((Wrong::OutOfRange, "/nrWeeks")),
    ),
    (
        r#"{"version":1,"nrDays":7,"nrWeeks":128}"#,
        Err((Wrong::OutOfRange, "/nrWeeks")),
    ),
    (
        r#"{"version":2,"nrDays":7,"nrWeeks":65}"#,
        Err((Wrong::NotOfKind, "/slotsPerDay")),
    ),
    (
        r#"{"version":"02","nrDays":"7","nrWeeks":"128"}"#,
        Err((Wrong::NotOfKind, "/slotsPerDay")),
    ),
    (
        r#"{"version":2,"nrDays":7,"nrWeeks":129}"#,
        Err((Wrong::OutOfRange, "/nrWeeks")),
    ),
    (
        r#"{"version":2,"nrDays":7,"nrWeeks":0}"#,
        Err((Wrong::OutOfRange, "/nrWeeks")),
    ),
    (
        r#"{"version":2,"nrDays":8,"nrWeeks":129}"#,
        Err((Wrong::OutOfRange, "/nrDays")),
    ),
    (r#"{"version":2}"#, Err((Wrong::NotOfKind, "/nrDays"))),
    (
        r#"{"version":3,"nrDays":8}"#,
        Err((Wrong::OutOfRange, "/version")),
    ),
    (r#"{"version":0}"#, Err((Wrong::OutOfRange, "/version"))),
    (r#"{"version":2.0}"#, Err((Wrong::NotOfKind, "/version"))),
    (r#"{"version":" 2"}"#, Err((Wrong::NotOfKind, "/version"))),
    (r#"{"version":{}}"#, Err((Wrong::NotOfKind, "/version"))),
    (
        r#"{"version":2,"nrDays":7,"nrWeeks":128,"slotsPerDay":1,"optimization":{"time":0,"room":0,"distribution":0,"student":0},"courses":[]}"#,
        Ok(128),
    ),
];

#[test]
fn a_term_is_as_long_as_its_version_lets_it(rt: HostRuntime) {
    for (text, want) in TERMS.iter() {
        assert!(rt; is_answer(week_count(rt.alloc(), text), *want), "{text}");
    }
}
