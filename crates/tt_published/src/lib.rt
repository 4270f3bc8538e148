//! The value of a published timetable: what a plan publishes, the value that it gives a class, and
//! how far a plan has moved from it. It knows of no file. `Published::of`, `with`, `classes`, `same`,
//! `has`, `classes_of`, `published_value`, `is_moved` and `moved` are their definitions, and `meetings`
//! is what a plan publishes of each class. A `ClassList` takes a class once in a row (`push`). An `Aim`
//! is a published timetable that something is to keep to, or none.
#![tactic(auto)]

mod aim;
mod class_list;
mod meeting;
mod moves;
mod published;
mod values;

pub use aim::Aim;
pub use class_list::ClassList;
pub use meeting::Meeting;
pub use moves::{is_moved, moved};
pub use published::{Published, meetings};
pub use values::published_value;
