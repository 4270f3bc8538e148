//! That the watcher of a run is the one that its commands tell.

use std::alloc::{AllocError, Global};
use std::test::Fail;
use tt_io::{MemFiles, MemSink};
use tt_top::run_watched;
use tt_watch::{Progress, Watcher};

const ONE_CLASS: &str =
    r#"{"nrDays":1,"nrWeeks":1,"slotsPerDay":288,"optimization":{"time":2,"room":1,"distribution":1,"student":1},"courses":[{"id":1,"configs":[{"id":1,"subparts":[{"id":1,"classes":[{"id":1,"room":false,"times":[{"days":"1","start":10,"length":4,"weeks":"1","penalty":4}]}]}]}]}]}"#;

// A watcher that keeps what it was told last.
#[derive(Drop)]
struct Last {
    told: Option<Progress>,
}

impl Watcher for Last {
    fn tell(&mut self, progress: Progress) {
        self.told = Some(progress);
    }

    fn end(&mut self) {}
}

// The words of a run over the problem and the script.
fn words(alloc: Global) -> Result<Vec<String>, AllocError> {
    let mut words = Vec::new(alloc);
    for word in ["run", "problem", "script"] {
        words.push(String::from_str(alloc, word)?)?;
    }
    Ok(words)
}

#[test]
fn a_run_hands_its_watcher_on(rt: HostRuntime) -> Result<(), Fail> {
    let alloc = rt.alloc();
    let mut files = MemFiles::new(alloc);
    files.add("problem", ONE_CLASS.as_bytes())?;
    files.add("script", b"assign 1 1 -\nimprove 3 1\n")?;
    let mut out = MemSink::new(alloc);
    let mut watcher = Last { told: None };
    let words = words(alloc)?;
    let status = run_watched(alloc, &words, &mut files, &mut out, &mut watcher);
    assert_eq!(rt; status, 0);
    assert!(rt; watcher.told == Some(Progress::Rounds { made: 3, of: 3 }));
    Ok(())
}
