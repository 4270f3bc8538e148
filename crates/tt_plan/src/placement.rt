//! A class at one of its values.

ghost use Rattle.std.specs.Prelude.{◌≡◌};
ghost use Rattle.tt_plan.specs.Domain.{IsOfDomain};
ghost use Rattle.tt_plan.specs.Placements.{IsPlacement};

use crate::values::spot;
use tt_bits::{Spot, Value};
use tt_problem::Problem;

/// A class at one of its values, with the spot that this is: made once for all that is asked of it.
/// UniTime says placement too.
#[derive(Clone, Copy, Debug, PartialEq, Eq)]
pub struct Placement {
    /// The place of the class.
    pub class: u32,
    /// The value.
    pub value: Value,
    /// The time and the room of the value.
    pub spot: Spot,
}

impl Placement {
    /// The class at a place at a value.
    pub fn new(problem: &Problem, class: u32, value: Value) -> Placement
        requires { IsOfDomain problem.now class value }
        ensures class { result.class ≡ class }
        ensures value { result.value ≡ value }
        ensures placement { IsPlacement problem.now result }
    {
        Placement {
            class,
            value,
            spot: spot(problem, class, value),
        }
    }
}
