//! The text of a set.

ghost use Rattle.std.specs.Prelude.{◌≡◌, ◌≤◌, ◌∷◌, [], if◌then◌else◌, IfOk, string_bytes};
ghost use Rattle.tt_bits.specs.Sets.{set_text};

use std::alloc::{AllocError, Global};

// 1 for a place of a set, else 0.
fn digit(in_set: bool) -> &'static str
    ensures { result.now ≡ (if in_set then 49 else 48) ∷ [] }
{
    if in_set { "1" } else { "0" }
}

/// The text of the first `n` places, a 1 for each that is in the set, the leftmost for place 0.
#[tactic(auto, using(crate::proofs::TextLemmas::set_text_more, tt_base::proofs::SetLemmas::set_words))]
pub fn set_text(alloc: Global, set: u128, n: u8) -> Result<String, AllocError>
    requires { n ≤ 128 }
    ensures { IfOk result (λ text. string_bytes text ≡ set_text n set) }
{
    let mut text = String::new(alloc);
    for place in 0..n {
        text.push_str(digit((set >> place) & 1 == 1))?;
    }
    Ok(text)
}
