//! The commands, and why a line gives none.

use thiserror::Error;
use tt_base::Row;
use tt_bits::BitWord;

/// Ids in the order of a line: contracts see the list of their numbers.
pub type Ids = Row<u32>;

/// What the office asks of the desk, with ids as they are written.
#[derive(Debug, Drop)]
pub enum Command {
    /// Give the class its time of this number, counted from 1, and the room with this id, or none.
    Assign {
        class: u32,
        time: u32,
        room: Option<u32>,
    },
    /// Take its value from the class.
    Unassign {
        class: u32,
    },
    /// The same as `Assign`, and take out the classes that are in conflict with it.
    Force {
        class: u32,
        time: u32,
        room: Option<u32>,
    },
    /// Give the student these classes in place of those he has.
    Section {
        student: u32,
        classes: Ids,
    },
    /// Take all classes from the student.
    Drop {
        student: u32,
    },
    /// Find classes for the student.
    Enrol {
        student: u32,
    },
    /// Find classes for each student who has none.
    EnrolAll,
    /// Search for a better timetable, by at most 1,000,000 turns.
    Search {
        turns: u32,
        seed: u64,
    },
    /// Search for one that is close to the published one, by at most 1,000,000 turns.
    Repair {
        turns: u32,
        seed: u64,
    },
    /// Search for more places, by at most 1,000,000 turns, in which each class weighs more the more often
    /// it was taken out.
    Place {
        turns: u32,
        seed: u64,
    },
    /// Improve the timetable by at most 1,000,000 rounds on one class or one course of a student each.
    Improve {
        rounds: u32,
        seed: u64,
    },
    /// Lower the total by at most 1,000,000 rounds below a level that sinks.
    Deluge {
        rounds: u32,
        seed: u64,
    },
    /// Go back to the published timetable.
    Recall,
    /// Close the room on these days in these weeks, from the slot `start` for `length` slots.
    Close {
        room: u32,
        days: BitWord,
        start: u16,
        length: u16,
        weeks: BitWord,
    },
    /// Lift all closures of the room.
    Reopen {
        room: u32,
    },
    /// Keep the class where it is: a command on the class itself, `recall` and `undo` alone move it.
    Lock {
        class: u32,
    },
    /// Keep each placed class where it is.
    LockAll,
    /// Let the class be moved again.
    Unlock {
        class: u32,
    },
    /// Let each class be moved again.
    UnlockAll,
    /// Go back by one step.
    Undo,
    /// Publish the timetable.
    Publish,
    /// Say what there is of the timetable, ready or not.
    Draft,
    /// Say the totals.
    Totals,
    /// Say all that is wrong with the timetable.
    Violations,
    /// Say what the total is made of.
    Costs,
    /// Say what a class costs.
    Explain {
        class: u32,
    },
    /// Say what would follow if the class had this value.
    Why {
        class: u32,
        time: u32,
        room: Option<u32>,
    },
    /// Say what each value of the class would cost.
    Values {
        class: u32,
    },
    /// Say with which other classes the class conflicts, and for how many students.
    Meets {
        class: u32,
    },
    /// Say which classes the student has, and which of them conflict.
    Student {
        student: u32,
    },
    /// Say how often the class took out others.
    Stats {
        class: u32,
    },
    /// Say how the class is best placed or moved by at most so many placements, 1 to 3.
    Suggest {
        class: u32,
        depth: u8,
    },
    /// End the script.
    Quit,
}

/// Why a line gives no command.
#[derive(Clone, Copy, Debug, PartialEq, Eq, Error)]
pub enum LineFault {
    /// The line is in no form.
    #[error("the line is in no form")]
    Bad,
    /// Memory wasn't found.
    #[error("out of memory")]
    Memory,
}
