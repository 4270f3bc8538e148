//! Tests of the texts of rule types.

use tt_bits::PairKind;
use tt_problem::DistKind;
use tt_types::read_type;

static PAIR_TYPES: [(&str, PairKind); 13] = [
    ("SameStart", PairKind::SameStart),
    ("SameTime", PairKind::SameTime),
    ("DifferentTime", PairKind::DifferentTime),
    ("SameDays", PairKind::SameDays),
    ("DifferentDays", PairKind::DifferentDays),
    ("SameWeeks", PairKind::SameWeeks),
    ("DifferentWeeks", PairKind::DifferentWeeks),
    ("Overlap", PairKind::Overlap),
    ("NotOverlap", PairKind::NotOverlap),
    ("SameRoom", PairKind::SameRoom),
    ("DifferentRoom", PairKind::DifferentRoom),
    ("SameAttendees", PairKind::SameAttendees),
    ("Precedence", PairKind::Precedence),
];

#[test]
fn a_name_on_its_own_is_a_pair_type(rt: HostRuntime) {
    for (text, kind) in PAIR_TYPES.iter() {
        let kind = *kind;
        assert_eq!(rt; read_type(text, 1), Some(DistKind::Pair { kind }), "{text}");
    }
}

static TYPES_OF_PARAMETERS: [(&str, DistKind); 7] = [
    (
        "WorkDay(120)",
        DistKind::Pair {
            kind: PairKind::WorkDay { span: 120 },
        },
    ),
    (
        "MinGap(  6 )",
        DistKind::Pair {
            kind: PairKind::MinGap { gap: 6 },
        },
    ),
    ("MaxDays(65535)", DistKind::MaxDays { most: 65_535 }),
    ("MaxDays(00003)", DistKind::MaxDays { most: 3 }),
    ("MaxDayLoad(0)", DistKind::MaxDayLoad { most: 0 }),
    (
        "MaxBreaks( 1, 6 )",
        DistKind::MaxBreaks { breaks: 1, gap: 6 },
    ),
    ("MaxBlock(48,6)", DistKind::MaxBlock { most: 48, gap: 6 }),
];

#[test]
fn parameters_stand_in_parentheses(rt: HostRuntime) {
    for (text, kind) in TYPES_OF_PARAMETERS.iter() {
        assert_eq!(rt; read_type(text, 1), Some(*kind), "{text}");
    }
}

static NO_TYPES: [&str; 27] = [
    "",
    "samestart",
    "SameStart ",
    " SameStart",
    "SameStart()",
    "SameStart(1)",
    "WorkDay",
    "WorkDay()",
    "WorkDay( )",
    "WorkDay (1)",
    "WorkDay(1) ",
    "WorkDay(1",
    "WorkDay(1))",
    "WorkDay(1,2)",
    "WorkDay(1,)",
    "WorkDay(1 2)",
    "WorkDay(-1)",
    "WorkDay(+1)",
    "WorkDay(\t1)",
    "MaxDays(65536)",
    "MaxDays(99999)",
    "MaxDays(000003)",
    "MaxBreaks(1)",
    "MaxBreaks(1,2,3)",
    "MaxBreaks(,6)",
    "MaxBreaks((1,6))",
    "MaxBlock(48;6)",
];

#[test]
fn any_other_text_is_no_type(rt: HostRuntime) {
    for text in NO_TYPES.iter() {
        assert_eq!(rt; read_type(text, 2), None, "{text}");
    }
}

static MOST_WEEKS: [(&str, Option<DistKind>); 7] = [
    ("MaxWeeks(0)", Some(DistKind::MaxWeeks { most: 0 })),
    ("MaxWeeks( 07 )", Some(DistKind::MaxWeeks { most: 7 })),
    ("MaxWeeks(65535)", Some(DistKind::MaxWeeks { most: 65_535 })),
    ("MaxWeeks(65536)", None),
    ("MaxWeeks(1,2)", None),
    ("MaxWeeks()", None),
    ("MaxWeeks", None),
];

#[test]
fn weeks_are_counted_from_version_2_on(rt: HostRuntime) {
    for (text, kind) in MOST_WEEKS.iter() {
        assert_eq!(rt; read_type(text, 2), *kind, "{text}");
        assert_eq!(rt; read_type(text, 1), None, "{text}");
    }
}

#[test]
fn version_2_has_the_types_of_version_1(rt: HostRuntime) {
    for (text, kind) in TYPES_OF_PARAMETERS.iter() {
        assert_eq!(rt; read_type(text, 2), Some(*kind), "{text}");
    }
}
