//! Why a command isn't carried out, and what becomes of it then.

ghost use Rattle.std.specs.Prelude.{◌≡◌};
ghost use Rattle.tt_desk.specs.Carried.{is_quit, outcome_of};
ghost use Rattle.tt_desk.specs.declared.unmet.Unmet.TheVariants.{Refused as of_refusal, Wanting as of_wanting};
ghost use Rattle.tt_desk.specs.declared.wanting.Wanting.TheVariants.{Command as of_command};

use crate::refusal::{Outcome, Refusal};
use crate::wanting::Wanting;
use std::alloc::AllocError;
use tt_script::Command;

// Why a command isn't carried out with its lines.
#[derive(Clone, Copy)]
pub(crate) enum Unmet {
    // It is refused.
    Refused(Refusal),
    // Memory is wanting.
    Wanting(Wanting),
}

impl From<Refusal> for Unmet {
    ghost from_gives = { λ refusal unmet. unmet ≡ of_refusal refusal };

    fn from(refusal: Refusal) -> Unmet {
        Unmet::Refused(refusal)
    }
}

impl From<AllocError> for Unmet {
    ghost from_gives = { λ _ unmet. unmet ≡ of_wanting of_command };

    fn from(_error: AllocError) -> Unmet {
        Unmet::Wanting(Wanting::Command)
    }
}

// Whether a command ends the script.
pub(crate) fn is_quit(command: &Command) -> bool
    ensures { result ≡ is_quit command.now }
{
    matches!(command, Command::Quit)
}

// What becomes of a line, by whether its command ends the script and by how it was carried out.
pub(crate) fn outcome_of(ends: bool, carried: Result<(), Unmet>) -> Result<Outcome, Wanting>
    ensures { result ≡ outcome_of ends carried }
{
    match carried {
        Ok(()) => Ok(if ends {
            Outcome::Ended
        } else {
            Outcome::Accepted
        }),
        Err(Unmet::Refused(refusal)) => Ok(Outcome::Refused(refusal)),
        Err(Unmet::Wanting(wanting)) => Err(wanting),
    }
}
