//! What a run over files is set to, and what it works with.

ghost use Rattle.std.specs.Prelude.{◌≡◌, IfOk};
ghost use Rattle.tt_io.specs.Lines.{new_reader};

use std::alloc::{AllocError, Global};
use tt_io::Lines;
use tt_text::Reply;

/// What a run over files is set to.
#[derive(Clone, Copy)]
pub struct Setting {
    /// The most bytes of a file.
    pub limit: u64,
    pub alloc: Global,
}

/// What a run over files works with. Its memory is taken before anything is written.
#[derive(Drop)]
pub struct Workspace {
    /// The lines of the script.
    pub lines: Lines,
    /// The reply to a line.
    pub reply: Reply,
}

impl Workspace {
    /// Nothing was read yet.
    pub fn new(alloc: Global) -> Result<Workspace, AllocError>
        ensures { IfOk result (λ w. w.lines ≡ new_reader) }
    {
        Ok(Workspace {
            lines: Lines::new(alloc)?,
            reply: Reply::new(alloc)?,
        })
    }
}
