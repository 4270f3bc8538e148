//! The least choice of one class of each subpart: with the fewest pairs of classes in conflict, and
//! of those the first. A search that takes subparts in any order says whether a choice of what is
//! left has so many pairs or fewer, and `least` finds the least by it.
#![tactic(auto)]

mod bound;
mod change;
mod choose;
mod dominate;
mod exchange;
mod gather;
mod groups;
mod leaf;
mod level;
mod narrow;
mod scratch;
mod search;
mod settle;
mod table;

pub use groups::Groups;
pub use level::Level;
pub use scratch::Scratch;
pub use search::Search;
pub use settle::least;
pub use table::Table;
