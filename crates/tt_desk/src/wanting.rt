//! For what of a command memory is wanting.

ghost use Rattle.std.specs.Prelude.{◌≡◌};
ghost use Rattle.tt_desk.specs.declared.wanting.Wanting.TheVariants.{Command as of_command};

use std::alloc::AllocError;

/// Why a line isn't answered: for what of its command memory is wanting.
#[derive(Clone, Copy, Debug, PartialEq, Eq)]
pub enum Wanting {
    /// What the command does, or the lines that it is asked for: nothing was done.
    Command,
    /// The lines on what was done, or the line of totals behind long ones: all was done.
    Reply,
}

impl From<AllocError> for Wanting {
    ghost from_gives = { λ _ wanting. wanting ≡ of_command };

    fn from(_error: AllocError) -> Wanting {
        Wanting::Command
    }
}
