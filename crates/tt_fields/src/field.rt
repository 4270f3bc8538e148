//! A value of a file with where it stands, and what is wrong with one.

ghost use Rattle.std.specs.Prelude.{◌≡◌, []};
ghost use Rattle.serde_json.specs.View.{view};
ghost use Rattle.tt_fields.specs.Answer.{part_of};

use crate::faults::Wrong;
use crate::trail::Trail;
use serde_json::Value;
use std::alloc::Global;

/// A value of a file, and where it stands.
#[derive(Clone, Copy)]
pub struct Field<'a> {
    pub alloc: Global,
    pub trail: Trail<'a>,
    pub value: &'a Value,
}

/// What is wrong with a value, and where it stands. It takes no memory.
#[derive(Clone, Copy)]
pub struct Fault<'a> {
    pub alloc: Global,
    pub wrong: Wrong,
    pub trail: Trail<'a>,
}

/// The whole value of a file.
pub fn whole<'a>(alloc: Global, value: &'a Value) -> Field<'a>
    ensures { part_of result ≡ record { path = []; value = view value.now } }
{
    Field {
        alloc,
        trail: Trail::whole(),
        value,
    }
}
