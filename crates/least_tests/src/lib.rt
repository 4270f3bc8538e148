//! Tests of the least choice of one class of each subpart. They stand in a crate of their own, since
//! each crate is proved with and without its tests. It has no code of its own.
#![tactic(auto)]

#[cfg(test)]
mod least_tests;
