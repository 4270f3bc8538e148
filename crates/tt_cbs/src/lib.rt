//! The counts of the conflict-based statistics (Müller 2005): a map from keys to positive counts,
//! walked in the order of the keys.
#![tactic(auto)]

ghost use Rattle.std.specs.Prelude.{◌≡◌, ◌-◌, ◌+◌, ◌<◌, ◌^◌, OnOk, OnErr};
ghost use Rattle.std.specs.FinMap as map;
ghost use Rattle.tt_cbs.specs.Counts.{count_at, bumped, dropped};
ghost use Rattle.tt_cbs.specs.Listed.{listed, of_class};

use std::alloc::{AllocError, Global};
use std::collections::{BTreeMap, btree_map};
use std::marker::Model;
use tt_bits::{Key, Value};

/// A count for each key, which contracts see as a map. A key that isn't in it has the count 0.
#[derive(Drop)]
pub struct Cbs {
    counts: BTreeMap<Key, u64>,
}

impl Model for Cbs {
    ghost use Rattle.std.specs.Prelude.{ℕ};
    ghost use Rattle.std.specs.FinMap as map;
    ghost use Rattle.std.specs.Coded.{coded_ℕ};
    ghost use Rattle.tt_cbs.specs.KeyOrder.{key_cmp, coded_key};

    ghost Value = { map.FinMap key_cmp ℕ };

    ghost coded = { map.code coded_key coded_ℕ };

    ghost use Rattle.tt_cbs.specs.Kept.{IsPositive};

    ghost view = { λ c. map.from_entries c.counts.entries };

    ghost invariant = { λ c. IsPositive c.counts.entries };
}

impl Cbs {
    /// No counts.
    pub fn new(alloc: Global) -> Self
        ensures { result ≡ map.empty }
    {
        Cbs {
            counts: BTreeMap::new(alloc),
        }
    }

    /// The count at a key, 0 where it has none.
    pub fn count(&self, key: Key) -> u64
        ensures { result ≡ count_at self.now key }
    {
        self.counts.get(&key).copied().unwrap_or(0)
    }

    /// Raises a count by one. `drop_one` takes that back.
    pub fn bump(&mut self, key: Key) -> Result<(), AllocError>
        requires { count_at self.old key < 2 ^ 64 - 1 }
        ensures ok { OnOk result (self.new ≡ bumped self.old key) }
        ensures back { OnOk result (dropped self.new key ≡ self.old) }
        ensures err { OnErr result (self.new ≡ self.old) }
    {
        let count = self.count(key);
        self.counts.insert(key, count + 1)?;
        Ok(())
    }

    /// Lowers a count by one, and takes the key out where none is left.
    pub fn drop_one(&mut self, key: Key)
        requires { 0 < count_at self.old key }
        ensures { self.new ≡ dropped self.old key }
    {
        let count = self.count(key);
        if count == 1 {
            let _ = self.counts.remove(&key);
        } else {
            let kept: Result<_, _> = self.counts.insert(key, count - 1);
            let _ = kept.unwrap();
        }
    }

    /// The keys of a class with their counts, in order of keys.
    pub fn of_class(&self, class: u32) -> Counts<'_>
        ensures { listed result ≡ of_class class (map.entries self.now) }
    {
        let first = Key {
            class,
            value: Value { time: 0, room: 0 },
            other: 0,
            other_value: Value { time: 0, room: 0 },
        };
        Counts {
            class,
            done: false,
            inner: self.counts.range(first..),
        }
    }
}

/// The keys of a class with their counts, in order of keys.
#[derive(Drop)]
pub struct Counts<'a> {
    class: u32,
    done: bool,
    inner: btree_map::Range<'a, Key, u64>,
}

impl<'a> Iterator for Counts<'a> {
    type Item = (Key, u64);

    ghost use Rattle.tt_cbs.specs.Listed.{listed};
    ghost use Rattle.std.specs.Iterator.{YieldsFirst, item_count};

    ghost next_gives = { YieldsFirst listed };

    ghost remaining = { item_count listed };

    fn next(&mut self) -> Option<(Key, u64)> {
        if self.done {
            return None;
        }
        let (key, count) = self.inner.next()?;
        if key.class == self.class {
            Some((*key, *count))
        } else {
            self.done = true;
            None
        }
    }
}
