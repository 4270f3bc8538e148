//! Pieces of text, appended one after another.

ghost use Rattle.std.specs.Prelude.{◌≡◌, ◌++◌, OnOk, decimal};
ghost use Rattle.json.specs.Print.{escape, quoted};
ghost use Rattle.serde_json.specs.Written.{comma_if};

use itoa::Buffer;
use std::alloc::AllocError;

/// Appends a text.
pub fn push_text(out: &mut Vec<u8>, text: &str) -> Result<(), AllocError>
    ensures { OnOk result (out.new.items ≡ out.old.items ++ text.now) }
{
    out.extend_from_slice(text.as_bytes())
}

/// Appends a text, and a number in decimal digits.
#[tactic(auto, using(std::proofs::Common::append_assoc))]
pub fn push_field(out: &mut Vec<u8>, text: &str, n: u32) -> Result<(), AllocError>
    ensures { OnOk result (out.new.items ≡ out.old.items ++ (text.now ++ decimal n)) }
{
    push_text(out, text)?;
    let mut digits = Buffer::new();
    push_text(out, digits.format(n))
}

/// Appends a text, and in quotes a word that has nothing to escape.
pub fn push_word(out: &mut Vec<u8>, text: &str, word: &str) -> Result<(), AllocError>
    requires { escape word.now ≡ word.now }
    ensures { OnOk result (out.new.items ≡ out.old.items ++ (text.now ++ quoted word.now)) }
{
    push_text(out, text)?;
    out.push(b'"')?;
    push_text(out, word)?;
    out.push(b'"')?;
    Ok(())
}

/// Appends a comma, where something stands before.
pub fn push_comma_if(out: &mut Vec<u8>, later: bool) -> Result<(), AllocError>
    ensures { OnOk result (out.new.items ≡ out.old.items ++ comma_if later) }
{
    if later {
        out.push(b',')?;
    }
    Ok(())
}
