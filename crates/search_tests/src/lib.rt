//! Tests of what looks for a better timetable: the least enrolment, descent, the great deluge, the
//! search, the repair, `place` and `recall`, and suggestions. It has no code of its own.
#![tactic(auto)]

#[cfg(test)]
mod counting;
#[cfg(test)]
mod deluge_tests;
#[cfg(test)]
mod enrol_tests;
#[cfg(test)]
mod improve_tests;
#[cfg(test)]
mod search_tests;
#[cfg(test)]
mod suggest_tests;
