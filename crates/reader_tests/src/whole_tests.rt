//! Whole files, whose references lead forward as well as back.

use crate::given::{Want, is_answer};
use std::alloc::{AllocError, Global};
use std::test::Fail;
use tt_fields::{FileFault, Wrong};
use tt_read::read;

const HEAD: &str =
    r#"{"nrDays":1,"nrWeeks":1,"slotsPerDay":9,"optimization":{"time":0,"room":0,"distribution":0,"student":0},"rooms":["#;

const FIRST: &str = r#"],"courses":[{"id":1,"configs":[{"subparts":[{"classes":[{"#;

const SECOND: &str =
    r#","times":[{"days":"1","start":1,"length":1,"weeks":"1","penalty":0}]}]}]}]},{"id":2,"configs":[{"subparts":[{"classes":[{"#;

const LAST: &str =
    r#","times":[{"days":"1","start":1,"length":1,"weeks":"1","penalty":0}]}]}]}]}]"#;

// A file: its rooms, the keys of the class of the first course and of that of the second but for the
// times, and the lists after the courses.
struct File {
    rooms: &'static str,
    first: &'static str,
    second: &'static str,
    rest: &'static str,
    want: Want<Option<u32>>,
}

// The text of a file.
fn text_of(alloc: Global, file: &File) -> Result<String, AllocError> {
    let mut text = String::new(alloc);
    text.push_str(HEAD)?;
    text.push_str(file.rooms)?;
    text.push_str(FIRST)?;
    text.push_str(file.first)?;
    text.push_str(SECOND)?;
    text.push_str(file.second)?;
    text.push_str(LAST)?;
    text.push_str(file.rest)?;
    text.push('}')?;
    Ok(text)
}

// The place of the parent of the first class.
fn first_parent(alloc: Global, file: &File) -> Result<Option<u32>, FileFault> {
    let text = text_of(alloc, file)?;
    let problem = read(alloc, text.as_bytes())?;
    Ok(
        problem
            .parts()
            .classes
            .get(0)
            .and_then(|class| class.parent),
    )
}

const ROOMS: &str = r#"{"id":5,"travel":[{"room":{"id":7},"value":3}]},{"id":7}"#;

const CHILD: &str = r#""id":6,"parent":8,"rooms":[{"id":7,"penalty":0}]"#;

const LISTS: &str =
    r#","distributions":[{"type":"SameRoom","required":true,"classes":[8,6]}],"students":[{"id":3,"courses":[2,1]}]"#;

static FILES: [File; 9] = [
    File {
        rooms: ROOMS,
        first: CHILD,
        second: r#""id":8"#,
        rest: LISTS,
        want: Ok(Some(1)),
    },
    File {
        rooms: ROOMS,
        first: r#""id":6,"parent":9"#,
        second: r#""id":8"#,
        rest: LISTS,
        want: Err((
            Wrong::UnknownId,
            "/courses/0/configs/0/subparts/0/classes/0/parent",
        )),
    },
    File {
        rooms: ROOMS,
        first: r#""id":6,"rooms":[{"id":6,"penalty":0}]"#,
        second: r#""id":8"#,
        rest: LISTS,
        want: Err((
            Wrong::UnknownId,
            "/courses/0/configs/0/subparts/0/classes/0/rooms/0/id",
        )),
    },
    File {
        rooms: ROOMS,
        first: CHILD,
        second: r#""id":6"#,
        rest: LISTS,
        want: Err((
            Wrong::IdTwice,
            "/courses/1/configs/0/subparts/0/classes/0/id",
        )),
    },
    File {
        rooms: r#"{"id":7},{"id":7}"#,
        first: CHILD,
        second: r#""id":8"#,
        rest: LISTS,
        want: Err((Wrong::IdTwice, "/rooms/1/id")),
    },
    File {
        rooms: r#"{"id":5,"travel":[{"room":6,"value":3}]},{"id":7}"#,
        first: CHILD,
        second: r#""id":8"#,
        rest: LISTS,
        want: Err((Wrong::UnknownId, "/rooms/0/travel/0/room")),
    },
    File {
        rooms: ROOMS,
        first: CHILD,
        second: r#""id":8"#,
        rest: r#","students":[{"id":3,"courses":[2,3]}]"#,
        want: Err((Wrong::UnknownId, "/students/0/courses/1")),
    },
    // What has the wrong form is found before a reference that leads nowhere.
    File {
        rooms: ROOMS,
        first: r#""id":6,"parent":9"#,
        second: r#""id":8"#,
        rest: r#","students":[{"id":3}]"#,
        want: Err((Wrong::NotOfKind, "/students/0/courses")),
    },
    File {
        rooms: ROOMS,
        first: r#""id":6,"parent":9"#,
        second: r#""limit":8"#,
        rest: LISTS,
        want: Err((
            Wrong::NotOfKind,
            "/courses/1/configs/0/subparts/0/classes/0/id",
        )),
    },
];

#[test]
fn references_lead_forward_and_back(rt: HostRuntime) -> Result<(), Fail> {
    for (place, file) in FILES.iter().enumerate() {
        assert!(rt;
            is_answer(first_parent(rt.alloc(), file), file.want),
            "{place}"
        );
    }
    Ok(())
}
