//! Tests of sets, times, and the conditions on a pair of spots.

use tt_bits::{BitWord, Days, PairKind, Spot, Time, Weeks, holds};

// A spot with no room, at the days and weeks of two texts.
fn spot(days: &str, weeks: &str, start: u16, length: u16) -> Option<Spot> {
    let days = Days::read(days, 7)?;
    let weeks = Weeks::read(weeks, 4)?;
    let time = Time::new(days, weeks, start, length)?;
    Some(Spot { time, room: None })
}

// A text, how many places it is read for, the first place of the set, and how many there are.
static SETS: [(&str, u8, u8, u8); 5] = [
    ("1000000", 7, 0, 1),
    ("0000001", 7, 6, 1),
    ("0110100", 7, 1, 3),
    ("11111", 5, 0, 5),
    ("1", 1, 0, 1),
];

// Whether a text is such a set of days and of weeks.
fn is_set(text: &str, n: u8, first: u8, count: u8) -> bool {
    if n > 7 {
        return false;
    }
    let (Some(days), Some(weeks)) = (Days::read(text, n), Weeks::read(text, n)) else {
        return false;
    };
    [days.first(), days.count()] == [first, count]
        && [weeks.first(), weeks.count()] == [first, count]
}

#[test]
fn a_text_of_zeros_and_ones_is_a_set(rt: HostRuntime) {
    for (text, n, first, count) in SETS.iter() {
        assert!(rt; is_set(text, *n, *first, *count), "{text}");
    }
}

const ONE_AT_THE_END: &str = "0000000000000000000000000000000000000000000000000000000000000001";

// The first place of a set of 64 weeks, and whether it has the places 63, 0 and 127.
fn last_of_64(text: &str) -> Option<(u8, [bool; 3])> {
    let weeks = Weeks::read(text, 64)?;
    Some((weeks.first(), [weeks.has(63), weeks.has(0), weeks.has(127)]))
}

#[test]
fn a_set_of_weeks_has_the_last_of_64_places(rt: HostRuntime) {
    assert!(rt; last_of_64(ONE_AT_THE_END) == Some((63, [true, false, false])));
}

static OTHER_TEXTS: [&str; 8] = [
    "", "1", "100000", "10000000", "0000000", "1000002", "100 000", "100000é",
];

#[test]
fn other_texts_are_none(rt: HostRuntime) {
    for text in OTHER_TEXTS.iter() {
        assert!(rt; Days::read(text, 7) == None, "{text}");
        assert!(rt; Weeks::read(text, 7) == None, "{text}");
    }
}

// Whether each of the first four places is in the set of days of a text.
fn first_days(text: &str) -> Option<[bool; 4]> {
    let days = Days::read(text, 7)?;
    Some([days.has(0), days.has(1), days.has(2), days.has(3)])
}

// The same of the set of weeks.
fn first_weeks(text: &str) -> Option<[bool; 4]> {
    let weeks = Weeks::read(text, 4)?;
    Some([weeks.has(0), weeks.has(1), weeks.has(2), weeks.has(3)])
}

#[test]
fn the_leftmost_character_is_place_0(rt: HostRuntime) {
    let held = Some([true, false, true, false]);
    assert!(rt; first_days("1010000") == held);
    assert!(rt; first_weeks("1010") == held);
}

// Two texts, whether their sets share a place, and whether the first is within the second.
static PAIRS: [(&str, &str, bool, bool); 5] = [
    ("1010", "1010", true, true),
    ("0010", "1010", true, true),
    ("1010", "0010", true, false),
    ("1100", "0110", true, false),
    ("1100", "0011", false, false),
];

// Whether two sets of days share a place, and whether the first is within the second.
fn days_meet(a: &str, b: &str) -> Option<(bool, bool)> {
    let (days, other) = (Days::read(a, 4)?, Days::read(b, 4)?);
    Some((days.share(other), days.within(other)))
}

// The same of two sets of weeks.
fn weeks_meet(a: &str, b: &str) -> Option<(bool, bool)> {
    let (weeks, other) = (Weeks::read(a, 4)?, Weeks::read(b, 4)?);
    Some((weeks.share(other), weeks.within(other)))
}

#[test]
fn sets_share_and_contain(rt: HostRuntime) {
    for (a, b, shared, within) in PAIRS.iter() {
        assert!(rt; days_meet(a, b) == Some((*shared, *within)), "{a} {b}");
        assert!(rt; weeks_meet(a, b) == Some((*shared, *within)), "{a} {b}");
    }
}

// How many cells three days of three weeks have.
fn nine_cells() -> Option<u16> {
    Some(spot("1010100", "1101", 10, 4)?.cells())
}

#[test]
fn a_spot_has_a_cell_for_each_day_of_each_week(rt: HostRuntime) {
    assert!(rt; nine_cells() == Some(9));
}

// The first slot, how many, and the slot after the last, where that is a time.
static TIMES: [(u16, u16, Option<u16>); 8] = [
    (0, 1, Some(1)),
    (90, 10, Some(100)),
    (65534, 1, Some(65535)),
    (0, 65535, Some(65535)),
    (0, 0, None),
    (65535, 1, None),
    (65534, 2, None),
    (65535, 65535, None),
];

// The slot after the last of a time.
fn end_of(start: u16, length: u16) -> Option<u16> {
    Some(spot("1000000", "1000", start, length)?.time.end())
}

#[test]
fn a_time_lasts_a_slot_and_ends_by_65535(rt: HostRuntime) {
    for (start, length, end) in TIMES.iter() {
        assert!(rt; end_of(*start, *length) == *end, "{start} {length}");
    }
}

// Whether just the kinds that are marked by `x` hold for two spots.
fn are_marked(kinds: &[PairKind], a: Spot, b: Spot, marks: &str, travel: u16) -> bool {
    for (kind, mark) in kinds.iter().zip(marks.as_bytes().iter()) {
        if holds(*kind, a, b, travel) != (*mark == b'x') {
            return false;
        }
    }
    kinds.len() == marks.len()
}

static KINDS_ON_SLOTS: [PairKind; 9] = [
    PairKind::SameStart,
    PairKind::SameTime,
    PairKind::DifferentTime,
    PairKind::Overlap,
    PairKind::NotOverlap,
    PairKind::SameAttendees,
    PairKind::Precedence,
    PairKind::WorkDay { span: 30 },
    PairKind::MinGap { gap: 7 },
];

// The first slot of the second spot, how many it has, and which kinds hold.
static SLOTS: [(u16, u16, &str); 22] = [
    (100, 10, "xx.x...x."),
    (100, 5, "xx.x...x."),
    (102, 6, ".x.x...x."),
    (90, 30, ".x.x...x."),
    (99, 10, "...x...x."),
    (101, 10, "...x...x."),
    (109, 1, ".x.x...x."),
    (110, 1, "..x.x.xx."),
    (114, 1, "..x.x.xx."),
    (115, 1, "..x.xxxx."),
    (116, 1, "..x.xxxx."),
    (117, 1, "..x.xxxxx"),
    (120, 10, "..x.xxxxx"),
    (121, 10, "..x.xxx.x"),
    (91, 10, "...x...x."),
    (90, 10, "..x.x..x."),
    (86, 10, "..x.x..x."),
    (85, 10, "..x.xx.x."),
    (84, 10, "..x.xx.x."),
    (83, 10, "..x.xx.xx"),
    (80, 10, "..x.xx.xx"),
    (79, 10, "..x.xx..x"),
];

// Which kinds on slots hold for ten slots from slot 100 on two days of two weeks, and then a spot on
// one of these.
fn hold_on_slots(start: u16, length: u16, marks: &str) -> bool {
    let (Some(a), Some(b)) = (
        spot("1010000", "0110", 100, 10),
        spot("1000000", "0100", start, length),
    ) else {
        return false;
    };
    are_marked(&KINDS_ON_SLOTS, a, b, marks, 5)
}

#[test]
fn kinds_on_slots_hold_up_to_their_edge(rt: HostRuntime) {
    for (start, length, marks) in SLOTS.iter() {
        assert!(rt; hold_on_slots(*start, *length, marks), "{start} {length}");
    }
}

static KINDS_ON_DAYS: [PairKind; 10] = [
    PairKind::SameDays,
    PairKind::DifferentDays,
    PairKind::SameWeeks,
    PairKind::DifferentWeeks,
    PairKind::Overlap,
    PairKind::NotOverlap,
    PairKind::SameAttendees,
    PairKind::Precedence,
    PairKind::WorkDay { span: 9 },
    PairKind::MinGap { gap: 0 },
];

// The days and the weeks of the second spot, and which kinds hold.
static DAYS: [(&str, &str, &str); 10] = [
    ("1010000", "0110", "x.x.x....."),
    ("1000000", "0110", "x.x.x....."),
    ("1011000", "1110", "x.x.x....."),
    ("1100000", "0110", "..x.x....."),
    ("0101000", "0110", ".xx..xxxxx"),
    ("1010000", "1010", "x...x....."),
    ("1010000", "1001", "x..x.xx.xx"),
    ("1000000", "0011", "x...x..x.."),
    ("0000001", "1000", ".x.x.xx.xx"),
    ("0100000", "0100", ".xx..xxxxx"),
];

// Which kinds on days hold for two days of two weeks, and then others at the same slots.
fn hold_on_days(days: &str, weeks: &str, marks: &str) -> bool {
    let (Some(a), Some(b)) = (spot("1010000", "0110", 100, 10), spot(days, weeks, 100, 10)) else {
        return false;
    };
    are_marked(&KINDS_ON_DAYS, a, b, marks, 0)
}

#[test]
fn kinds_on_days_and_weeks_hold_up_to_their_edge(rt: HostRuntime) {
    for (days, weeks, marks) in DAYS.iter() {
        assert!(rt; hold_on_days(days, weeks, marks), "{days} {weeks}");
    }
}

static KINDS_ON_ROOMS: [PairKind; 2] = [PairKind::SameRoom, PairKind::DifferentRoom];

// The rooms of two spots, and which kinds hold.
static ROOMS: [(Option<u32>, Option<u32>, &str); 5] = [
    (Some(1), Some(1), "x."),
    (Some(1), Some(2), ".x"),
    (Some(1), None, ".x"),
    (None, Some(1), ".x"),
    (None, None, "xx"),
];

// Which kinds on rooms hold for two spots at one time.
fn hold_on_rooms(room: Option<u32>, other: Option<u32>, marks: &str) -> bool {
    let Some(spot) = spot("1000000", "1000", 100, 10) else {
        return false;
    };
    let (a, b) = (
        Spot { room, ..spot },
        Spot {
            room: other,
            ..spot
        },
    );
    are_marked(&KINDS_ON_ROOMS, a, b, marks, 0)
}

#[test]
fn kinds_on_rooms_tell_rooms_apart(rt: HostRuntime) {
    for (room, other, marks) in ROOMS.iter() {
        assert!(rt; hold_on_rooms(*room, *other, marks), "{room:?} {other:?}");
    }
}

static GREAT_KINDS: [PairKind; 6] = [
    PairKind::DifferentTime,
    PairKind::SameAttendees,
    PairKind::WorkDay { span: 65535 },
    PairKind::WorkDay { span: 65534 },
    PairKind::MinGap { gap: 65534 },
    PairKind::MinGap { gap: 65533 },
];

// Which kinds hold for the slots at two numbers, with the greatest travel.
fn hold_at(start: u16, other: u16, marks: &str) -> bool {
    let (Some(a), Some(b)) = (
        spot("1000000", "1000", start, 1),
        spot("1000000", "1000", other, 1),
    ) else {
        return false;
    };
    are_marked(&GREAT_KINDS, a, b, marks, 65535)
}

#[test]
fn nothing_wraps_at_the_greatest_numbers(rt: HostRuntime) {
    assert!(rt; hold_at(0, 65534, "x.x..x"));
    assert!(rt; hold_at(65534, 0, "x.x..x"));
    assert!(rt; hold_at(65534, 65534, "..xx.."));
}

// Whether the word of a text, which is `0110`, is the sets that the text is.
fn are_of_one_text(text: &str) -> bool {
    let Some(word) = BitWord::read(text.as_bytes()) else {
        return false;
    };
    let (days, weeks) = (Days::of_word(word, 4), Weeks::of_word(word, 4));
    word == (BitWord { count: 4, bits: 6 })
        && days.is_some()
        && days == Days::read(text, 4)
        && weeks.is_some()
        && weeks == Weeks::read(text, 4)
}

// The first place of the set of 128 weeks that has the last alone.
fn last_of_128() -> Option<u8> {
    let last = BitWord {
        count: 128,
        bits: 1 << 127,
    };
    Some(Weeks::of_word(last, 128)?.first())
}

#[test]
fn a_word_of_as_many_characters_is_a_set(rt: HostRuntime) {
    assert!(rt; are_of_one_text("0110"));
    assert!(rt; last_of_128() == Some(127));
}

static OTHER_WORDS: [BitWord; 5] = [
    BitWord { count: 3, bits: 6 },
    BitWord { count: 5, bits: 6 },
    BitWord { count: 4, bits: 0 },
    BitWord { count: 4, bits: 48 },
    BitWord { count: 0, bits: 1 },
];

static NO_WORDS: [&str; 3] = ["", "012", "1 0"];

#[test]
fn other_words_are_no_set(rt: HostRuntime) {
    for word in OTHER_WORDS.iter() {
        assert!(rt; Days::of_word(*word, 4) == None, "{word:?}");
        assert!(rt; Weeks::of_word(*word, 4) == None, "{word:?}");
    }
    for text in NO_WORDS.iter() {
        assert!(rt; BitWord::read(text.as_bytes()) == None, "{text}");
    }
}
