//! The text of a type.

ghost use Rattle.std.specs.Prelude.{◌≡◌, ◌++◌, OnOk};
ghost use Rattle.tt_types.specs.TypeTexts.{parameters_text, type_text};

use std::alloc::AllocError;
use tt_problem::{DistKind, Parameters};
use tt_text::Reply;

// Appends parameters in parentheses.
#[tactic(auto, using(std::proofs::Common::append_assoc), unfolding(crate::specs::TypeTexts::parameters_text))]
fn add_parameters(out: &mut Reply, parameters: Parameters) -> Result<(), AllocError>
    ensures { OnOk result (out.new ≡ out.old ++ parameters_text parameters) }
{
    match parameters {
        Parameters::Plain => Ok(()),
        Parameters::One(n) => {
            out.field("(", u128::from(n))?;
            out.text(")")
        }
        Parameters::Two(m, n) => {
            out.field("(", u128::from(m))?;
            out.field(",", u128::from(n))?;
            out.text(")")
        }
    }
}

/// Appends a distribution type as a problem file writes it, without spaces or leading zeros.
#[tactic(auto, using(std::proofs::Common::append_assoc), unfolding(crate::specs::TypeTexts::type_text))]
pub fn add_type(out: &mut Reply, kind: DistKind) -> Result<(), AllocError>
    ensures { OnOk result (out.new ≡ out.old ++ type_text kind) }
{
    let naming = kind.naming();
    out.text(naming.name)?;
    add_parameters(out, naming.parameters)
}
