//! What is wrong with a file, and where.

ghost use Rattle.std.specs.Prelude.{◌≡◌, codes};
ghost use Rattle.tt_fields.specs.Answer.{fault_of};
ghost use Rattle.tt_fields.specs.Faults.{fault_number};
ghost use Rattle.tt_fields.specs.Path.{at, shown, steps_of};
ghost use Rattle.tt_fields.specs.declared.faults.Wrong.TheVariants.{NoJson};

use crate::field::{Fault, Field};
use crate::trail::Trail;
use std::alloc::Global;

/// What is wrong with a file, or with a value in it.
#[derive(Clone, Copy, Debug, PartialEq, Eq)]
pub enum Wrong {
    /// The file is no JSON text, or one nested more than 127 deep.
    NoJson,
    /// A required key is absent, or a value isn't of its kind.
    NotOfKind,
    /// A number is outside its range.
    OutOfRange,
    /// An earlier part of the same kind has the id.
    IdTwice,
    /// No part has the id that is referred to.
    UnknownId,
    /// A text isn't a set of as many days or weeks.
    NoSet,
    /// A length is 0, or the time ends after slot 65,535.
    NoTime,
    /// A text is no distribution type of the file's version.
    NoType,
    /// A list has fewer items than it must.
    TooFew,
    /// A list, or a sum over lists, is above its limit.
    TooMany,
}

impl Wrong {
    /// The number that is printed.
    pub fn number(self) -> u8
        ensures { result ≡ fault_number self }
    {
        match self {
            Wrong::NoJson => 30,
            Wrong::NotOfKind => 31,
            Wrong::OutOfRange => 32,
            Wrong::IdTwice => 33,
            Wrong::UnknownId => 34,
            Wrong::NoSet => 35,
            Wrong::NoTime => 36,
            Wrong::NoType => 37,
            Wrong::TooFew => 38,
            Wrong::TooMany => 39,
        }
    }
}

/// The fault that a part has.
pub fn fault<'a>(wrong: Wrong, part: &Field<'a>) -> Fault<'a>
    ensures { fault_of result ≡ record { wrong = wrong; path = shown (steps_of part.now.trail) } }
{
    Fault {
        alloc: part.alloc,
        wrong,
        trail: part.trail,
    }
}

/// The fault at a key of an object, whether or not it has the key.
pub fn fault_at<'a>(wrong: Wrong, object: &'a Field<'a>, key: &'static str) -> Fault<'a>
    ensures { fault_of result
        ≡ record { wrong = wrong; path = shown (at (steps_of object.now.trail) key.now) } }
{
    Fault {
        alloc: object.alloc,
        wrong,
        trail: object.trail.key(key),
    }
}

/// The fault of a file that is no JSON text.
pub fn no_json<'a>(alloc: Global) -> Fault<'a>
    ensures { fault_of result ≡ record { wrong = NoJson; path = codes "/" } }
{
    Fault {
        alloc,
        wrong: Wrong::NoJson,
        trail: Trail::whole(),
    }
}
