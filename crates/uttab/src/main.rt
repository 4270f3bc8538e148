//! The program `uttab`: the top call over the files and the output of the system. An argument's
//! bytes are its word, an empty one where they aren't UTF-8 (`text`, `other`);
//! `NoArguments::status` is 9 or 7 (`absent`, `memory`); a `Reason` is shown as the line for 5 to
//! 9, with the name and the cause that it is given (`output`). What `main` does with them is tested
//! alone.
#![tactic(auto)]

mod arguments;
mod reason;

use arguments::arguments;
use reason::{Reason, shown_name, words_of};
use std::alloc::Global;
use std::io::{Error, IsTerminal};
use std::process::ExitCode;
use tt_io::{RealFiles, StdSink};
use tt_top::run_watched;
use tt_watch::StdWatcher;

// Says on standard error how a run ended whose output doesn't say it, where this is the name that was
// asked for last, and this the error of the call that failed. Where standard error takes nothing, the
// status alone says it.
fn tell(rt: &impl Eprint, alloc: Global, status: u8, name: Option<&str>, error: Option<Error>) {
    let words = match error {
        Some(error) => words_of(alloc, error).ok(),
        None => None,
    };
    let cause = match &words {
        Some(words) => words.as_str(),
        None => "a call failed",
    };
    if let Some(reason) = Reason::of(status, shown_name(name), cause) {
        let _ = rt.eprintln(reason);
    }
}

fn main(rt: HostRuntime) -> ExitCode {
    let alloc = rt.alloc();
    let mut files = RealFiles::new(alloc, rt);
    let mut out = StdSink::new(rt);
    let mut watcher = StdWatcher::new(rt, rt.stderr().is_terminal());
    let status = match arguments(&rt, alloc) {
        Ok(words) => run_watched(alloc, &words, &mut files, &mut out, &mut watcher),
        Err(end) => end.status(),
    };
    // Status 6 is that of the output. Where a call failed with another status, it was one on files.
    let error = if status == 6 {
        out.error()
    } else {
        files.error()
    };
    tell(&rt, alloc, status, files.name(), error);
    ExitCode::from(status)
}
