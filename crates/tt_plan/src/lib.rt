//! The values that a class may have, its domain, and what each of them stands for. `domain_size`,
//! `value_at`, `spot`, `time_penalty` and `room_penalty` are what the list of a class's values says
//! (`size`, `value`, `spot`, `penalty`); no such list is built. `Placement` has a class, a value and
//! its spot together. `find` gives the value that a time and a room name, or exactly why there is none
//! (`value`).
#![tactic(auto)]

mod named;
mod placement;
mod values;

pub use named::{NoValue, find};
pub use placement::Placement;
pub use values::{domain_size, room_penalty, spot, time_penalty, value_at};
