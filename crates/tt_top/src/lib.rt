//! The top call, `run`: words, files, the phases of a run, and the theorem on what it writes, which
//! `docs/THEOREM.md` tells in words. Its clause `form` is `IsRun` of `specs/Run.antt`, for every
//! command line and every `Files` and `Sink`. `run_watched` has the same clause with every watcher,
//! and `run_within` over a limit of the caller's. Memory is taken before anything is written, but for
//! that of commands.
#![tactic(auto)]

mod end;
mod fetch;
mod file_run;
mod form;
mod outside;
mod pieces;
mod plain_run;
mod reply;
mod serve;
mod top;
mod verify_run;
mod workspace;

pub use top::{run, run_watched, run_within};
