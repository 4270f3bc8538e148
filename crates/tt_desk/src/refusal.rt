//! Why a line is refused, and what becomes of a line.

use tt_clash::Block;

/// Why a line is refused.
#[derive(Clone, Copy, Debug, PartialEq, Eq)]
pub enum Refusal {
    /// It is in no form.
    BadLine,
    /// No class has an id of the line.
    NoSuchClass,
    /// No student has the id.
    NoSuchStudent,
    /// The number of the time is 0, or above the number of the class's times.
    NoSuchTime,
    /// The class has rooms and the room is none of them, or it needs none and a room is named.
    RoomNotListed,
    /// No room has the id.
    NoSuchRoom,
    /// The class has no value.
    NotPlaced,
    /// The value is blocked.
    Blocked {
        reason: Block,
    },
    /// The class with this id is locked and would have to go, the first such of the conflict set.
    Held {
        class: u32,
    },
    /// The list is no valid enrolment of the student, or the student has none.
    NoEnrolment,
    /// The class with this id has no seat for the student, the first such in the order of the line.
    NoSeat {
        class: u32,
    },
    /// The student has no class.
    NotSectioned,
    /// There is no step.
    NothingToUndo,
    /// So many classes are unplaced and students unsectioned, and so much is in conflict.
    NotReady {
        unplaced: u32,
        unsectioned: u32,
        hard: u64,
    },
    /// No timetable is published.
    NothingPublished,
    /// The words of days or weeks have another number of characters than the problem has days or
    /// weeks, or no 1; or the length is 0, or the end is above 65,535.
    BadTime,
    /// The room has no closure of the session that isn't lifted.
    NothingClosed,
    /// There are more than 1,000,000 values to try.
    TooManyTries,
    /// There are 10,000 closures, lifted ones among them.
    TooManyClosures,
    /// The class is locked already.
    Locked,
    /// The class isn't locked.
    NotLocked,
}

/// What became of a line.
#[derive(Clone, Copy, Debug, PartialEq, Eq)]
pub enum Outcome {
    /// It is empty.
    Skipped,
    /// Its command was carried out.
    Accepted,
    /// It changed nothing.
    Refused(Refusal),
    /// It ends the script.
    Ended,
}
