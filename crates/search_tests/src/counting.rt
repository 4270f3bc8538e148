//! A watcher that counts what it is told.

use tt_watch::{Progress, Watcher};

/// A watcher that counts what it is told, and keeps the last.
#[derive(Drop)]
pub struct Counting {
    pub times: u32,
    pub last: Option<Progress>,
}

impl Counting {
    /// Nothing was told yet.
    pub fn new() -> Counting {
        Counting {
            times: 0,
            last: None,
        }
    }
}

impl Watcher for Counting {
    fn tell(&mut self, progress: Progress) {
        self.times = self.times.saturating_add(1);
        self.last = Some(progress);
    }

    fn end(&mut self) {}
}
