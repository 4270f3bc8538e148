//! What is drawn one after another, and written as it is drawn.

ghost use Rattle.std.specs.Prelude.{◌≡◌, ◌<◌, ◌≤◌, ◌+◌, ◌^◌, ℕ, ◌++◌, OnOk};
ghost use Rattle.serde_json.specs.Data.{Data};
ghost use Rattle.serde_json.specs.Written.{compact_text};
ghost use Rattle.tt_make.specs.Draws.{Draws, draw_each};
ghost use Rattle.tt_make.specs.Values.{list as list_data};

use crate::append::push_comma_if;
use rand_pcg::Lcg64Xsh32;
use std::alloc::{AllocError, Global};

/// What is made by drawing, one for each number of a range.
pub trait Made {
    /// What is made for a number.
    ghost made: { Self → ℕ → Draws Data };

    /// The numbers that it may be made for.
    ghost covers: { Self → ℕ → Type 0 };

    /// Draws the one for a number, and appends its text.
    fn push(
        &self,
        alloc: Global,
        out: &mut Vec<u8>,
        random: &mut Lcg64Xsh32,
        number: u32,
    ) -> Result<(), AllocError>
        requires { covers self.now number }
        ensures text { OnOk result
            (out.new.items ≡ out.old.items ++ compact_text (made self.now number random.old).0) }
        ensures random { OnOk result (random.new ≡ (made self.now number random.old).1) };
}

/// Appends the text of the list of the parts for `from` and the numbers after it, `count` in all.
pub fn push_list<P: Made>(
    alloc: Global,
    out: &mut Vec<u8>,
    random: &mut Lcg64Xsh32,
    part: &P,
    from: u32,
    count: u32,
) -> Result<(), AllocError>
    requires small { from + count < 2 ^ 32 }
    requires covers { (k : ℕ) → from ≤ k → k < from + count → P.covers part.now k }
    ensures text { OnOk result (out.new.items
        ≡ out.old.items
        ++ compact_text (list_data (draw_each from count (P.made part.now) random.old).0)) }
    ensures random { OnOk result
        (random.new ≡ (draw_each from count (P.made part.now) random.old).1) }
{
    out.push(b'[')?;
    for i in 0..count {
        push_comma_if(out, i > 0)?;
        part.push(alloc, out, random, from + i)?;
    }
    out.push(b']')?;
    Ok(())
}
