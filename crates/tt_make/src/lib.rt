//! Makes problems of any size, to try the desk on. A problem depends on its seed and its number of
//! classes alone. `make_text` is the text of its definition, one JSON value whose parts are drawn
//! in order; the code writes its pieces as it draws. Nothing says that a made problem has no fault.
#![tactic(auto)]

mod append;
mod class_rooms;
mod classes;
mod courses;
mod draws;
mod parts;
mod rooms;
mod rules;
mod students;
mod text;
mod times;

pub use text::make_text;
