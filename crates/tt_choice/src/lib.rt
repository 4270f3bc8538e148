//! The choices of a course: one class of each subpart of one of its configurations.
//! `least_of_course` gives the least of those that a student may take, or none exactly where none
//! is allowed (`choice`).
#![tactic(auto)]

mod ahead;
mod buffers;
mod course;
mod searched;
mod seating;
mod standing;

pub use buffers::ChoiceBuffers;
pub use course::{least_of_course, pairs_of};
pub use searched::SearchRoom;
pub use seating::seat;
