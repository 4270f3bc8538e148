//! A class at a spot, among classes that have theirs.

use tt_bits::Spot;
use tt_occupancy::Occupancy;
use tt_problem::Problem;

/// A class of a problem and the spot that it is placed at, among classes that have these spots.
#[derive(Clone, Copy)]
pub struct Placing<'a> {
    pub problem: &'a Problem,
    /// Where the classes stand.
    pub occupancy: &'a Occupancy,
    pub class: u32,
    pub spot: Spot,
}
