//! Tests of what is written: published timetables and drafts, the lines of `explain`, `why`, `stats`,
//! `values`, `student`, `meets`, `costs` and `violations`, and what is wrong with a whole timetable. It
//! has no code of its own.
#![tactic(auto)]

#[cfg(test)]
mod explain_tests;
#[cfg(test)]
mod hard_tests;
#[cfg(test)]
mod question_tests;
#[cfg(test)]
mod solution_tests;
#[cfg(test)]
mod verify_tests;
#[cfg(test)]
mod violations_tests;
