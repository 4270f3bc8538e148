//! What several crates cite, once: sets of days or weeks as numbers (place i is in the set where
//! bit i is 1), facts that a value needs, numbers in lists, the order and the least of lists, pairs
//! among the items of a list, the most members of a distribution. Its one piece of code is `Row`, a
//! list that contracts see as its items.
#![tactic(auto)]

mod rows;

pub use rows::Row;
