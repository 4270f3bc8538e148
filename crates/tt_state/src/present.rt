//! What a state is at present: its score, its statistics and its locks, which contracts see as a
//! snapshot.

ghost use Rattle.std.specs.Prelude.{◌≡◌, ◌<◌, None, length};
ghost use Rattle.tt_score.specs.Fits.{Fits};
ghost use Rattle.tt_state.specs.Snapshots.{is_locked_in, with_lock, with_value};
ghost use Rattle.tt_state.specs.History.{undone, with_seat, without_seat};
ghost use Rattle.tt_state.specs.Kept.{MayLeave, MaySeat, MayUndo, snapshot_of};
ghost use Rattle.tt_state.specs.Values.{MayHave};

use tt_bits::Value;
use tt_cbs::Cbs;
use tt_journal::Entry;
use tt_problem::Problem;
use tt_score::Score;

/// The score of the present plan, lists and closures, the statistics, and which classes are locked.
#[derive(Drop)]
pub struct Present {
    pub score: Score,
    pub statistics: Cbs,
    pub locks: Vec<bool>,
}

impl Present {
    // Takes its value from a class, if it has one.
    fn clear(&mut self, problem: &Problem, class: u32)
        requires fits { Fits problem.now self.old.score }
        requires within { class < length problem.now.classes }
        ensures fits { Fits problem.now self.new.score }
        ensures now { snapshot_of self.new ≡ with_value (snapshot_of self.old) class None }
    {
        if self.score.value(class).is_some() {
            self.score.unplace(problem, class);
        }
    }

    /// Gives a class a value or none.
    pub fn set_value(&mut self, problem: &Problem, class: u32, to: Option<Value>)
        requires fits { Fits problem.now self.old.score }
        requires may { MayHave problem.now class to }
        ensures fits { Fits problem.now self.new.score }
        ensures now { snapshot_of self.new ≡ with_value (snapshot_of self.old) class to }
    {
        self.clear(problem, class);
        if let Some(value) = to {
            self.score.place(problem, class, value);
        }
    }

    /// Whether a class is locked.
    pub fn is_locked(&self, class: u32) -> bool
        ensures { result ≡ is_locked_in (snapshot_of self.now) class }
    {
        match self.locks.get(class as usize) {
            None => false,
            Some(locked) => *locked,
        }
    }

    /// Locks a class, or takes its lock off.
    pub fn set_lock(&mut self, class: u32, lock: bool)
        requires { class < length (snapshot_of self.old).locks }
        ensures score { self.new.score ≡ self.old.score }
        ensures now { snapshot_of self.new ≡ with_lock (snapshot_of self.old) class lock }
    {
        self.locks[class as usize] = lock;
    }

    // Gives a student a class more.
    fn seat(&mut self, problem: &Problem, student: u32, class: u32)
        requires fits { Fits problem.now self.old.score }
        requires may { MaySeat problem.now (snapshot_of self.old).lists student class }
        ensures fits { Fits problem.now self.new.score }
        ensures now { snapshot_of self.new ≡ with_seat (snapshot_of self.old) student class }
    {
        self.score.seat(problem, student, class);
    }

    // Takes a class from a student.
    fn leave(&mut self, problem: &Problem, student: u32, class: u32)
        requires fits { Fits problem.now self.old.score }
        requires may { MayLeave problem.now (snapshot_of self.old).lists student class }
        ensures fits { Fits problem.now self.new.score }
        ensures now { snapshot_of self.new ≡ without_seat (snapshot_of self.old) student class }
    {
        self.score.leave(problem, student, class);
    }

    /// Undoes the change that an entry notes.
    pub fn undo(&mut self, problem: &Problem, entry: Entry)
        requires fits { Fits problem.now self.old.score }
        requires may { MayUndo problem.now (snapshot_of self.old) entry }
        ensures fits { Fits problem.now self.new.score }
        ensures now { snapshot_of self.new ≡ undone entry (snapshot_of self.old) }
    {
        match entry {
            Entry::Mark { points: _ } => {}
            Entry::Point => {}
            Entry::Placed { class, before } => self.set_value(problem, class, before),
            Entry::Left { student, class } => self.seat(problem, student, class),
            Entry::Seated { student, class } => self.leave(problem, student, class),
            Entry::Bumped { key } => self.statistics.drop_one(key),
            Entry::Closed => self.score.open_last(problem),
            Entry::Lifted { at } => self.score.unlift(problem, at),
            Entry::Locked { class } => self.set_lock(class, false),
            Entry::Unlocked { class } => self.set_lock(class, true),
        }
    }
}
