//! The value that a published timetable gives a class.

ghost use Rattle.std.specs.Prelude.{◌≡◌, ◌<◌, IfSome, length};
ghost use Rattle.tt_plan.specs.Domain.{IsOfDomain};
ghost use Rattle.tt_published.specs.Timetable.{IsTimetableOf};
ghost use Rattle.tt_published.specs.Published.{published_value};

use crate::published::Published;
use tt_bits::Value;
use tt_plan::{domain_size, value_at};
use tt_problem::Problem;

/// The first value of a class with which it meets as published, if it is published and has one.
#[tactic(auto, unfolding(crate::specs::Published::published_value))]
pub fn published_value(problem: &Problem, published: &Published, class: u32) -> Option<Value>
    requires belongs { IsTimetableOf problem.now published.now }
    requires class { class < length problem.now.classes }
    ensures value { result ≡ published_value problem.now published.now class }
    ensures domain { IfSome result (IsOfDomain problem.now class) }
{
    if !published.has(class) {
        return None;
    }
    for k in 0..domain_size(problem, class) {
        let value = value_at(problem, class, k);
        if published.same(problem, class, value) {
            return Some(value);
        }
    }
    None
}
