//! What a search or a suggestion keeps to.

ghost use Rattle.std.specs.Prelude.{◌≡◌, Some, None};
ghost use Rattle.std.specs.Option.{option_copied};

use crate::published::Published;
use std::marker::Model;

/// What a search or a suggestion keeps to: a published timetable, or nothing. Contracts see the
/// timetable, if there is one.
#[derive(Drop)]
pub struct Aim<'a> {
    published: Option<&'a Published>,
}

impl<'a> Model for Aim<'a> {
    ghost use Rattle.std.specs.Prelude.{Option};
    ghost use Rattle.std.specs.Option.{option_copied};
    ghost use Rattle.tt_published.specs.Timetable.{Timetable};

    ghost Value = { Option Timetable };

    ghost view = { λ aim. option_copied aim.published };
}

impl<'a> Aim<'a> {
    /// Nothing is kept to.
    pub fn none() -> Aim<'a>
        ensures { result ≡ None }
    {
        Aim { published: None }
    }

    /// The aim to keep to a published timetable.
    pub fn to(published: &'a Published) -> Aim<'a>
        ensures { result ≡ Some published.now }
    {
        Aim {
            published: Some(published),
        }
    }

    /// The aim to keep to a published timetable, if there is one.
    pub fn of(published: Option<&'a Published>) -> Aim<'a>
        ensures { result ≡ option_copied published.entry }
    {
        Aim { published }
    }

    /// The timetable to keep to, if there is one.
    pub fn published(&self) -> Option<&'a Published>
        ensures { option_copied result ≡ self.now }
    {
        self.published
    }
}
