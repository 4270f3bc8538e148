//! Tests of the crates from the problem up to the state, over a problem that is read from a text.
//! They stand in a crate of their own, since each crate is proved with and without its tests. It has
//! no code of its own; `proofs/Examples.antt` has the entries of a step at a worked example.
#![tactic(auto)]

#[cfg(test)]
mod cbs_tests;
#[cfg(test)]
mod clash_tests;
#[cfg(test)]
mod force_tests;
#[cfg(test)]
mod journal_tests;
#[cfg(test)]
mod lock_tests;
#[cfg(test)]
mod occupancy_tests;
#[cfg(test)]
mod plan_tests;
#[cfg(test)]
mod problem_tests;
#[cfg(test)]
mod roster_tests;
#[cfg(test)]
mod score_tests;
#[cfg(test)]
mod state_tests;
