//! How far a long command has come, and who is told of it.

ghost use Rattle.std.specs.Prelude.{◌≡◌, ◌<◌, ◌≤◌, max, true, false};

use std::fmt;

/// How far a command has come.
#[derive(Clone, Copy, Debug, PartialEq, Eq)]
pub enum Progress {
    /// Turns made, of how many, and the unplaced classes of the best snapshot so far.
    Turns { made: u32, of: u32, unplaced: u32 },
    /// Rounds made, of how many.
    Rounds { made: u32, of: u32 },
    /// Students gone over, of how many.
    Students { done: u32, of: u32 },
}

impl Progress {
    // How much is done, and of how much.
    fn done_of(&self) -> (u32, u32) {
        match *self {
            Progress::Turns { made, of, .. } => (made, of),
            Progress::Rounds { made, of } => (made, of),
            Progress::Students { done, of } => (done, of),
        }
    }

    // The hundredths that are done, at most a hundred.
    fn hundredths(&self) -> u64
        ensures { result ≤ 100 }
    {
        let (done, of) = self.done_of();
        let hundredths = u64::from(done) * 100 / u64::from(of).max(1);
        hundredths.min(100)
    }
}

impl fmt::Display for Progress {
    fn fmt<W: fmt::Write>(&self, f: &mut fmt::Formatter<W>) -> fmt::Result {
        match *self {
            Progress::Turns { made, of, unplaced } => {
                write!(f, "turn {made} of {of}, {unplaced} unplaced")
            }
            Progress::Rounds { made, of } => write!(f, "round {made} of {of}"),
            Progress::Students { done, of } => write!(f, "student {done} of {of}"),
        }
    }
}

/// Who is told how far a command has come. What a command does and answers doesn't depend on it.
pub trait Watcher {
    /// The command has come so far.
    fn tell(&mut self, progress: Progress);

    /// The command is over.
    fn end(&mut self);
}

/// A watcher that takes no notice.
#[derive(Clone, Copy, Debug)]
pub struct Silent;

impl Watcher for Silent {
    fn tell(&mut self, _progress: Progress) {}

    fn end(&mut self) {}
}

// Whether the hundredths rose, which are kept then. From 0 they do at most a hundred times.
fn rises(told: &mut u64, progress: Progress) -> bool
    ensures rises { result ≡ true → told.old < told.new }
    ensures stays { result ≡ false → told.new ≡ told.old }
    ensures most { told.new ≤ max told.old 100 }
{
    let hundredths = progress.hundredths();
    if hundredths <= *told {
        return false;
    }
    *told = hundredths;
    true
}

/// A line on standard error, written over at each hundredth of a command and wiped at its end. What
/// standard error doesn't take is passed over.
#[derive(Drop)]
pub struct StdWatcher<P> {
    rt: P,
    is_terminal: bool,
    // The hundredths of the present command that the line tells.
    told: u64,
}

impl<P: Eprint> StdWatcher<P> {
    /// The watcher of this runtime, which writes nothing unless standard error is a terminal.
    pub fn new(rt: P, is_terminal: bool) -> Self {
        StdWatcher {
            rt,
            is_terminal,
            told: 0,
        }
    }
}

impl<P: Eprint> Watcher for StdWatcher<P> {
    fn tell(&mut self, progress: Progress) {
        if self.is_terminal && rises(&mut self.told, progress) {
            let _ = eprint!(self.rt; "\r{progress}\x1b[K");
        }
    }

    fn end(&mut self) {
        if self.told > 0 {
            let _ = eprint!(self.rt; "\r\x1b[K");
        }
        self.told = 0;
    }
}
