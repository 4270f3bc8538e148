//! Tests of whole runs over files and output in memory. It has no code of its own.
#![tactic(auto)]

#[cfg(test)]
mod desk_tests;
#[cfg(test)]
mod failing_tests;
#[cfg(test)]
mod piece_tests;
#[cfg(test)]
mod top_tests;
#[cfg(test)]
mod verify_run_tests;
#[cfg(test)]
mod watching_tests;
