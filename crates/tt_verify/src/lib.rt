//! The check of a published timetable against its problem. `verify` appends the text of its
//! definition, a line for each violation, the sums and the last line (`text`), and answers the
//! number of violations (`count`). `add_hard_violations` finds what is counted as hard in any spots
//! of the classes, with the closures of a session (`found`), and that is as much as the totals count
//! (`hard`); `add_lines` and `add_count` write what was found. All is counted from nothing, by lists
//! of this crate's own: its code calls nothing of the score, the rosters or the groups of the desk,
//! nor what these count blocks by, which no clause can say.
#![tactic(auto)]

mod amounts;
mod blocks;
mod checking;
mod clashes;
mod classes;
mod lines;
mod plan;
mod rules;
mod students;
mod sums;
mod violation;

pub use checking::{add_hard_violations, verify};
pub use lines::{add_count, add_lines};
pub use violation::Violation;
