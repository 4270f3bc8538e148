//! A reply, made piece by piece.

ghost use Rattle.std.specs.Prelude.{◌≡◌, ◌<◌, ◌≤◌, ◌+◌, ◌⊎◌, ◌++◌, [], IfOk, OnErr, OnOk, decimal, length};
ghost use Rattle.tt_text.specs.Fields.{field};
ghost use Rattle.tt_text.specs.Reply.{kept_bytes, most_digits};

use itoa::Buffer;
use std::alloc::{AllocError, Global};
use std::marker::Model;

// For how many bytes a reply has memory from the start.
const KEPT_BYTES: usize = 1024;

/// A reply, made piece by piece: contracts see its bytes. It has memory for some of them from the
/// start, so that short ones want none.
#[derive(Drop)]
pub struct Reply {
    bytes: Vec<u8>,
}

impl Model for Reply {
    ghost use Rattle.std.specs.Prelude.{List, ℕ};

    ghost Value = { List ℕ };

    ghost use Rattle.std.specs.Prelude.{◌≤◌};
    ghost use Rattle.std.specs.Vec.{vec_capacity};
    ghost use Rattle.tt_text.specs.Reply.{kept_bytes};

    ghost view = { λ r. r.bytes.items };

    ghost invariant = { λ r. kept_bytes ≤ vec_capacity r.bytes };
}

impl Reply {
    /// An empty reply, with memory for 1,024 bytes.
    pub fn new(alloc: Global) -> Result<Reply, AllocError>
        ensures { IfOk result (λ reply. reply ≡ []) }
    {
        let bytes = Vec::with_capacity(alloc, KEPT_BYTES)?;
        Ok(Reply { bytes })
    }

    /// Appends bytes.
    pub fn append(&mut self, bytes: &[u8]) -> Result<(), AllocError>
        ensures ok { OnOk result (self.new ≡ self.old ++ bytes.now) }
        ensures err { OnErr result (self.new ≡ self.old) }
        ensures full { OnErr result (kept_bytes < length self.old + length bytes.now) }
    {
        self.bytes.extend_from_slice(bytes)
    }

    /// Appends a text.
    pub fn text(&mut self, t: &str) -> Result<(), AllocError>
        ensures ok { OnOk result (self.new ≡ self.old ++ t.now) }
        ensures err { OnErr result (self.new ≡ self.old) }
        ensures full { OnErr result (kept_bytes < length self.old + length t.now) }
    {
        self.append(t.as_bytes())
    }

    /// Appends a number's decimal digits, with no leading zero. The digits take no memory of their own.
    pub fn number(&mut self, n: u128) -> Result<(), AllocError>
        ensures ok { OnOk result (self.new ≡ self.old ++ decimal n) }
        ensures err { OnErr result (self.new ≡ self.old) }
        ensures full { OnErr result (kept_bytes < length self.old + length (decimal n)) }
        ensures short { length (decimal n) ≤ most_digits }
    {
        let mut digits = Buffer::new();
        self.text(digits.format(n))
    }

    /// Appends a text and a number. Where memory is wanting, the text may have been appended.
    #[tactic(auto, using(std::proofs::Common::append_assoc), unfolding(crate::specs::Fields::field))]
    pub fn field(&mut self, t: &str, n: u128) -> Result<(), AllocError>
        ensures ok { OnOk result (self.new ≡ self.old ++ field t.now n) }
        ensures err { OnErr result ((self.new ≡ self.old) ⊎ (self.new ≡ self.old ++ t.now)) }
        ensures full { OnErr result (kept_bytes < length self.old + length (field t.now n)) }
        ensures short { length (field t.now n) ≤ length t.now + most_digits }
    {
        self.text(t)?;
        self.number(n)
    }

    /// All that was appended since the reply was made or cleared.
    pub fn bytes(&self) -> &[u8]
        ensures { result.now ≡ self.now }
    {
        self.bytes.as_slice()
    }

    /// Empties the reply, and keeps its memory.
    pub fn clear(&mut self)
        ensures { self.new ≡ [] }
    {
        self.bytes.clear();
    }
}
