//! How far a long command has come: `Progress`, and `Watcher`, who is told of it. A watcher has no
//! clause, so whatever is proved holds with each. `Silent` takes no notice. `StdWatcher` writes one
//! line on standard error, at a terminal alone, over itself at each hundredth of a command (`rises`),
//! at most a hundred times a command (`most`).
#![tactic(auto)]

mod watcher;

pub use watcher::{Progress, Silent, StdWatcher, Watcher};
