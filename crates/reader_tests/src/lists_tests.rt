//! Tests of the tables of distributions and students.

ghost use Rattle.tt_fields.specs.List.{IsFew};

use crate::given::{Want, is_answer, parsed, two_ids};
use std::alloc::Global;
use std::test::Fail;
use tt_base::Row;
use tt_bits::PairKind;
use tt_fields::{Field, FileFault, Known, Wrong, list, whole};
use tt_lists::{read_rules, read_students};
use tt_problem::{DistKind, Rule, StudentPart};

// The distributions of the list at `/d` in a version of the form.
fn rules_in(
    alloc: Global,
    version: u8,
    known: &Known<'_>,
    text: &str,
) -> Result<Row<Rule>, FileFault>
    requires { IsFew known.now }
{
    let value = parsed(alloc, text)?;
    rules_at(alloc, version, known, &whole(alloc, &value))
}

fn rules_at(
    alloc: Global,
    version: u8,
    known: &Known<'_>,
    whole: &Field<'_>,
) -> Result<Row<Rule>, FileFault>
    requires { IsFew known.now }
{
    let items = list(whole, "d", 0, 9)?;
    read_rules(alloc, version, known, &items)
}

fn rule_count(alloc: Global, version: u8, known: &Known<'_>, text: &str) -> Result<usize, FileFault>
    requires { IsFew known.now }
{
    Ok(rules_in(alloc, version, known, text)?.len())
}

// Whether a rule is this one. A required rule has no penalty.
fn is_rule(rule: &Rule, kind: DistKind, penalty: Option<u32>, members: &[u32]) -> bool {
    rule.kind == kind
        && rule.required == penalty.is_none()
        && rule.penalty == penalty.unwrap_or(0)
        && rule.members.as_slice() == members
}

// Whether these are a rule of breaks with a penalty, and then one of rooms that is required.
fn are_two_rules(rules: &[Rule]) -> bool {
    let [first, second] = rules else {
        return false;
    };
    let (breaks, gap) = (1, 6);
    let kind = PairKind::SameRoom;
    is_rule(
        first,
        DistKind::MaxBreaks { breaks, gap },
        Some(1_000_000),
        &[1, 0],
    ) && is_rule(second, DistKind::Pair { kind }, None, &[])
}

#[test]
fn distributions_keep_their_order_and_drop_repeats(rt: HostRuntime) -> Result<(), Fail> {
    let alloc = rt.alloc();
    let ids = two_ids(alloc, 5, 7)?;
    let text =
        r#"{"d":[{"type":"MaxBreaks( 1, 6 )","penalty":1000000,"classes":[7,{"id":"5"},"07"]},{"type":"SameRoom","required":"true","penalty":[],"classes":[]}]}"#;
    let rules = rules_in(alloc, 1, &Known::among(&ids), text)?;
    assert!(rt; are_two_rules(rules.as_slice()));
    Ok(())
}

static FAULTS_OF_RULES: [(&str, Want<usize>); 8] = [
    (
        r#"{"d":[{"type":"SameRoom","classes":[5]}]}"#,
        Err((Wrong::NotOfKind, "/d/0/penalty")),
    ),
    (
        r#"{"d":[{"type":"SameRoom","penalty":1000001,"classes":[5]}]}"#,
        Err((Wrong::OutOfRange, "/d/0/penalty")),
    ),
    (
        r#"{"d":[{"type":"SameRoom","required":1,"classes":[5]}]}"#,
        Err((Wrong::NotOfKind, "/d/0/required")),
    ),
    (
        r#"{"d":[{"type":"SameStart()","classes":7}]}"#,
        Err((Wrong::NoType, "/d/0/type")),
    ),
    (
        r#"{"d":[{"type":7,"penalty":2,"classes":[5]}]}"#,
        Err((Wrong::NotOfKind, "/d/0/type")),
    ),
    (
        r#"{"d":[{"type":"SameRoom","required":true}]}"#,
        Err((Wrong::NotOfKind, "/d/0/classes")),
    ),
    (
        r#"{"d":[{"type":"SameRoom","required":true,"classes":[5,{"id":6}]}]}"#,
        Err((Wrong::UnknownId, "/d/0/classes/1/id")),
    ),
    (
        r#"{"d":[{"type":"SameRoom","required":true,"classes":[]},null]}"#,
        Err((Wrong::NotOfKind, "/d/1")),
    ),
];

#[test]
fn faults_of_distributions(rt: HostRuntime) -> Result<(), Fail> {
    let alloc = rt.alloc();
    let ids = two_ids(alloc, 5, 7)?;
    let known = Known::among(&ids);
    for (text, want) in FAULTS_OF_RULES.iter() {
        assert!(rt;
            is_answer(rule_count(alloc, 1, &known, text), *want),
            "{text}"
        );
    }
    Ok(())
}

// A type that version 2 alone has.
static RULES_OF_WEEKS: [(u8, Want<usize>); 2] = [
    (1, Err((Wrong::NoType, "/d/0/type"))),
    (2, Ok(1)),
];

#[test]
fn distributions_have_the_types_of_their_version(rt: HostRuntime) {
    let text = r#"{"d":[{"type":"MaxWeeks(1)","penalty":2,"classes":[5]}]}"#;
    for (version, want) in RULES_OF_WEEKS.iter() {
        let count = rule_count(rt.alloc(), *version, &Known::none(), text);
        assert!(rt; is_answer(count, *want), "{version}");
    }
}

// The students of the list at `/s`.
fn students_in(alloc: Global, known: &Known<'_>, text: &str) -> Result<Row<StudentPart>, FileFault>
    requires { IsFew known.now }
{
    let value = parsed(alloc, text)?;
    students_at(alloc, known, &whole(alloc, &value))
}

fn students_at(
    alloc: Global,
    known: &Known<'_>,
    whole: &Field<'_>,
) -> Result<Row<StudentPart>, FileFault>
    requires { IsFew known.now }
{
    let items = list(whole, "s", 0, 9)?;
    read_students(alloc, known, &items)
}

fn student_count(alloc: Global, known: &Known<'_>, text: &str) -> Result<usize, FileFault>
    requires { IsFew known.now }
{
    Ok(students_in(alloc, known, text)?.len())
}

// Whether a student is this one.
fn is_student(student: &StudentPart, id: u32, courses: &[u32]) -> bool {
    student.id == id && student.courses.as_slice() == courses
}

// Whether these are a student of two courses, and then one of none.
fn are_two_students(students: &[StudentPart]) -> bool {
    let [first, second] = students else {
        return false;
    };
    is_student(first, 9, &[1, 0]) && is_student(second, 4_294_967_295, &[])
}

#[test]
fn students_keep_their_order_and_drop_repeats(rt: HostRuntime) -> Result<(), Fail> {
    let alloc = rt.alloc();
    let ids = two_ids(alloc, 5, 7)?;
    let text = r#"{"s":[{"id":"9","courses":[7,{"id":7},5]},{"id":4294967295,"courses":[]}]}"#;
    let students = students_in(alloc, &Known::among(&ids), text)?;
    assert!(rt; are_two_students(students.as_slice()));
    Ok(())
}

// A student has forty courses at most.
static STUDENTS: [(&str, Want<usize>); 6] = [
    (
        r#"{"s":[{"id":1,"courses":[5,5,5,5,5,5,5,5,5,5,5,5,5,5,5,5,5,5,5,5,5,5,5,5,5,5,5,5,5,5,5,5,5,5,5,5,5,5,5,5]}]}"#,
        Ok(1),
    ),
    (
        r#"{"s":[{"id":1,"courses":[5,5,5,5,5,5,5,5,5,5,5,5,5,5,5,5,5,5,5,5,5,5,5,5,5,5,5,5,5,5,5,5,5,5,5,5,5,5,5,5,5]}]}"#,
        Err((Wrong::TooMany, "/s/0/courses")),
    ),
    (
        r#"{"s":[{"id":1,"courses":[5]},{"id":1,"courses":[]}]}"#,
        Err((Wrong::IdTwice, "/s/1/id")),
    ),
    (
        r#"{"s":[{"id":4294967296,"courses":[5]}]}"#,
        Err((Wrong::OutOfRange, "/s/0/id")),
    ),
    (
        r#"{"s":[{"id":1}]}"#,
        Err((Wrong::NotOfKind, "/s/0/courses")),
    ),
    (
        r#"{"s":[{"id":1,"courses":[5,6]}]}"#,
        Err((Wrong::UnknownId, "/s/0/courses/1")),
    ),
];

#[test]
fn students_and_their_faults(rt: HostRuntime) -> Result<(), Fail> {
    let alloc = rt.alloc();
    let ids = two_ids(alloc, 5, 7)?;
    let known = Known::among(&ids);
    for (text, want) in STUDENTS.iter() {
        assert!(rt;
            is_answer(student_count(alloc, &known, text), *want),
            "{text}"
        );
    }
    Ok(())
}

#[test]
fn unknown_ids_are_no_fault_before_ids_are_known(rt: HostRuntime) {
    let text = r#"{"s":[{"id":1,"courses":[6,7]}]}"#;
    assert!(rt; is_answer(student_count(rt.alloc(), &Known::none(), text), Ok(1)));
}
