//! The outside of a run: its files, its output, and who is told how far it has come.

ghost use Rattle.std.specs.Prelude.{◌≡◌};

use tt_io::{Files, Sink};
use tt_watch::Watcher;

/// The files, the output and the watcher of a run.
#[derive(Drop)]
pub struct Outside<'a, F: Files, S: Sink, W: Watcher> {
    pub files: &'a mut F,
    pub out: &'a mut S,
    pub watcher: &'a mut W,
}

impl<'a, F: Files, S: Sink, W: Watcher> Outside<'a, F, S, W> {
    /// These files, this output and this watcher.
    pub fn new(files: &'a mut F, out: &'a mut S, watcher: &'a mut W) -> Outside<'a, F, S, W>
        ensures same_files { result.files.ghost_name ≡ files.entry.ghost_name }
        ensures same_out { result.out.ghost_name ≡ out.entry.ghost_name }
        ensures files { result.files.now ≡ files.old }
        ensures out { result.out.now ≡ out.old }
    {
        Outside {
            files,
            out,
            watcher,
        }
    }
}
