//! The rooms and the courses of a problem file, as the tables of its definitions
//! (`specs/Tables.antt`) read them: what is read, or exactly the first fault (`reads`). A list is
//! read with no id known, so that no reference is looked up, or with the ids of rooms and classes.
//! What is read with ids known is read with none known too (`proofs/Unknown.antt`).
#![tactic(auto)]

mod context;
mod courses;
mod rooms;
mod times;

pub use context::Context;
pub use courses::{Classes, Configs, Courses, Subparts, read_courses};
pub use rooms::{Rooms, read_rooms};
