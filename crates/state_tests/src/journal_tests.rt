//! Tests of the journal.

use std::alloc::AllocError;
use std::test::Fail;
use tt_journal::{Entry, Journal};

// Adds two entries, and takes off the last three.
fn add_and_take(journal: &mut Journal) -> Result<(u64, [Option<Entry>; 3]), AllocError> {
    journal.mark(3)?;
    journal.reserve(1)?;
    journal.push(Entry::Point);
    let count = journal.len();
    Ok((count, [journal.pop(), journal.pop(), journal.pop()]))
}

#[test]
fn entries_come_back_newest_first(rt: HostRuntime) -> Result<(), Fail> {
    let mut journal = Journal::new(rt.alloc());
    let taken = add_and_take(&mut journal);
    drop(journal);
    let entries = [Some(Entry::Point), Some(Entry::Mark { points: 3 }), None];
    assert!(rt; taken == Ok((2, entries)));
    Ok(())
}
