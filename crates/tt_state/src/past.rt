//! What leads back: the entries, the newest first, with the room for more. How many points the last
//! step has is kept beside them and in each mark, which no contract needs to say.

ghost use Rattle.std.specs.Prelude.{◌≡◌, ◌+◌, ◌<◌, ◌≤◌, ◌^◌, [], ◌∷◌, MatchOption, OnOk, OnErr, false, length};
ghost use Rattle.tt_state.specs.History.{point_count};
ghost use Rattle.tt_state.specs.Kept.{begins_moment};
ghost use Rattle.tt_state.specs.Past.{begun};

use std::alloc::{AllocError, Global};
use std::marker::Model;
use tt_journal::{Entry, Journal};

/// How a change begins: as a step of its own, or as a moment more of the last step.
#[derive(Clone, Copy)]
pub enum Beginning {
    Step,
    Moment,
}

/// Entries, of which contracts see the list, the newest first, and for how many more there is room.
#[derive(Drop)]
pub struct Past {
    journal: Journal,
    // How many points the last step has.
    points: u64,
}

impl Model for Past {
    ghost use Rattle.tt_journal.specs.Entries.{Entries};
    ghost use Rattle.tt_state.specs.Kept.{HasPoints};

    ghost Value = { Entries };

    ghost view = { λ p. p.journal };

    ghost invariant = { λ p. HasPoints p.points p.journal.list };
}

/// Whether a moment begins with an entry: it notes no change.
pub fn begins_moment(entry: Entry) -> bool
    ensures { result ≡ begins_moment entry }
{
    matches!(entry, Entry::Mark { .. } | Entry::Point)
}

impl Past {
    /// No entries.
    pub fn new(alloc: Global) -> Self
        ensures { result.list ≡ [] }
    {
        Past {
            journal: Journal::new(alloc),
            points: 0,
        }
    }

    /// How many points the last step has.
    pub fn points(&self) -> u64
        ensures { result ≡ point_count self.now.list }
    {
        self.points
    }

    /// How many entries there are.
    pub fn len(&self) -> u64
        ensures { result ≡ length self.now.list }
    {
        self.journal.len()
    }

    /// Makes room for so many entries.
    pub fn reserve(&mut self, n: u32) -> Result<(), AllocError>
        ensures list { self.new.list ≡ self.old.list }
        ensures ok { OnOk result (n ≤ self.new.spare) }
    {
        self.journal.reserve(n)
    }

    /// Begins a step that changes nothing, for which it takes memory.
    pub fn begin_step(&mut self) -> Result<(), AllocError>
        ensures ok { OnOk result (self.new.list ≡ begun Beginning.Step self.old.list) }
        ensures err { OnErr result (self.new.list ≡ self.old.list) }
    {
        self.journal.mark(self.points)?;
        self.points = 0;
        Ok(())
    }

    /// Notes that a change begins, in the room that there is.
    #[tactic(auto, using(crate::proofs::TrailLemmas::few_points))]
    pub fn begin(&mut self, beginning: Beginning)
        requires { 1 ≤ self.old.spare }
        ensures entries { self.new.list ≡ begun beginning self.old.list }
        ensures spare { self.new.spare + 1 ≡ self.old.spare }
    {
        match beginning {
            Beginning::Step => {
                self.journal.push(Entry::Mark {
                    points: self.points,
                });
                self.points = 0;
            }
            Beginning::Moment => {
                self.journal.push(Entry::Point);
                self.points += 1;
            }
        }
    }

    /// Notes a change.
    pub fn note(&mut self, entry: Entry)
        requires spare { 1 ≤ self.old.spare }
        requires change { begins_moment entry ≡ false }
        ensures list { self.new.list ≡ entry ∷ self.old.list }
        ensures spare { self.new.spare + 1 ≡ self.old.spare }
        ensures few { length self.new.list < 2 ^ 63 }
    {
        self.journal.push(entry);
    }

    /// Takes the newest entry off.
    pub fn pop(&mut self) -> Option<Entry>
        ensures { MatchOption result ((self.old.list ≡ []) × (self.new.list ≡ []))
            (λ entry. self.old.list ≡ entry ∷ self.new.list) }
    {
        let entry = self.journal.pop()?;
        match entry {
            Entry::Mark { points } => self.points = points,
            Entry::Point => self.points -= 1,
            _ => {}
        }
        Some(entry)
    }
}
