//! The great deluge (Dueck 1993): rounds over classes, pairs of classes and students, each change of
//! which is made where the total after it is at most a level that sinks. `deluge` ends at the snapshot of
//! its definition, the first moment of the least total, after so many rounds and changes (`end`), as one
//! step (`desk`). Neither the total nor `hard` nor `unplaced` is above what it was (`total`, `hard`,
//! `unplaced`), nothing changed exactly where the answer counts no change (`changed`), the statistics,
//! closures and locks stay (`statistics`, `closures`, `locks`), and each locked class stays where it is
//! (`locked`). Where memory is wanting the state is as before (`err`), but for the conflict set found last.
#![tactic(auto)]

mod classes;
mod drawing;
mod exchange;
mod pouring;
mod students;
mod targets;
mod values;

pub use pouring::{Deluged, deluge};
