//! The great deluge: its level, its rounds, and its best moment.

ghost use Rattle.std.specs.Prelude.{◌≡◌, ◌↔◌, ℕ, ◌<◌, ◌≤◌, ◌^◌, [], ◌∷◌, IfOk, OnErr, OnOk, false, if◌then◌else◌, length, map, nat_lt};
ghost use Rattle.tt_state.specs.Desk.{stepped};
ghost use Rattle.tt_state.specs.History.{IsWithinStep, desk_of, earlier, trail, with_taken};
ghost use Rattle.tt_state.specs.Snapshots.{StaysLocked, totals_in};
ghost use Rattle.tt_improve.specs.Classes.{total_of};
ghost use Rattle.tt_improve.specs.Targets.{movable_classes};
ghost use Rattle.tt_deluge.specs.ClassRounds.{class_round};
ghost use Rattle.tt_deluge.specs.StudentRounds.{choices_in};
ghost use Rattle.tt_deluge.specs.Deluged.{best_moment, deluged, found_by};
ghost use Rattle.tt_deluge.specs.Pouring.{IsMomentOf, IsPouring};
ghost use Rattle.tt_deluge.specs.Reading.{random_of};
ghost use Rattle.tt_deluge.specs.Standing.{IsRound, StandsAs};
ghost use Rattle.tt_deluge.specs.UnderWay.{ended_at};
ghost use Rattle.tt_deluge.specs.Views.{target_of, targets_in};
ghost use Rattle.tt_deluge.specs.Pieces.{student_round, are_none, is_on_class, level_at, targets_at};

use crate::classes::class_round;
use crate::drawing::draw_below;
use crate::students::{StudentBuffers, student_round};
use crate::targets::{Choice, Targets};
use rand_pcg::Lcg64Xsh32;
use std::alloc::{AllocError, Global};
use tt_plan::domain_size;
use tt_state::State;
use tt_watch::{Progress, Watcher};

/// How many rounds were made, and how many changes led to where they end.
#[derive(Clone, Copy, Debug, PartialEq, Eq)]
pub struct Deluged {
    pub rounds: u32,
    pub changed: u32,
}

// A moment on the way: its total, how many changes led to it, and its place in the trail of the last
// step.
#[derive(Clone, Copy, Debug, PartialEq, Eq)]
struct Moment {
    total: u128,
    changed: u32,
    place: u64,
}

// What a deluge works with: the targets, and room for what a student's round looks at.
#[derive(Drop)]
struct Work {
    targets: Targets,
    buffers: StudentBuffers,
}

impl Work {
    // Before the first round.
    fn new(alloc: Global, state: &State) -> Result<Work, AllocError>
        ensures targets { IfOk result
            (λ work. targets_in work.targets ≡ targets_at state.now.problem state.now.present) }
        ensures few_classes { IfOk result (λ work. length work.targets.classes.items ≤ 2 ^ 32) }
        ensures few_choices { IfOk result (λ work. length work.targets.choices.items ≤ 2 ^ 32) }
    {
        let targets = Targets::new(alloc, state)?;
        let buffers = StudentBuffers::new(alloc);
        Ok(Work { targets, buffers })
    }
}

// Whether there is nothing to change.
fn are_none(targets: &Targets) -> bool
    ensures { result ≡ are_none (targets_in targets.now) }
{
    targets.classes.is_empty() && targets.choices.is_empty()
}

// Whether a round of a kind is one on a class.
fn is_on_class(targets: &Targets, kind: u32) -> bool
    ensures { result ≡ is_on_class (targets_in targets.now) kind }
{
    targets.choices.is_empty() || (!targets.classes.is_empty() && kind % 2 == 1)
}

// The present total.
fn total_now(state: &State) -> u128
    ensures total { result ≡ total_of state.now.problem state.now.present }
    ensures small { result < 2 ^ 127 }
{
    state.score().totals().total
}

// The present moment, to which so many changes led.
fn moment_now(state: &State, changed: u32) -> Moment
    ensures moment { IsMomentOf state.now.problem state.now.present (trail state.now) result }
    ensures changed { result.changed ≡ changed }
{
    Moment {
        total: total_now(state),
        changed,
        place: state.mark_now(),
    }
}

// The later moment, where its total is below that of the earlier one, and otherwise the earlier one.
fn lower_moment(best: Moment, now: Moment) -> Moment
    ensures { result ≡ (if nat_lt now.total best.total then now else best) }
{
    if now.total < best.total { now } else { best }
}

// The level in a round of so many, counted from 0: it sinks from the first total to 0, but not below the
// present one. What it has sunk by is the first total times the round, divided by the rounds; a product
// of the two could be too large.
fn level_at(first: u128, rounds: u32, round: u32, present: u128) -> u128
    requires { round < rounds }
    ensures { result ≡ level_at first rounds round present }
{
    let (all, made) = (u128::from(rounds), u128::from(round));
    let sunk = first / all * made + first % all * made / all;
    present.max(first - sunk)
}

// A round on a class that a random word draws, in the last step, with a place in its domain that the
// next one draws. Whether it changes something.
fn round_on_class(
    state: &mut State,
    classes: &[u32],
    kind: u32,
    random: &mut Lcg64Xsh32,
    level: u128,
) -> Result<bool, AllocError>
    requires classes { classes.now ≡ movable_classes state.old.problem state.old.present }
    requires some { 0 < length classes.now }
    requires few { length classes.now ≤ 2 ^ 32 }
    requires level { level < 2 ^ 127 }
    requires step { 0 < length (earlier state.old) }
    ensures step { IsWithinStep (with_taken state.old []) (with_taken state.new []) }
    ensures random { OnOk result (random_of random.new
        ≡ (class_round state.old.problem state.old.present kind (random_of random.old)).1) }
    ensures round { IfOk result (IsRound level
        (class_round state.old.problem state.old.present kind (random_of random.old)).0
        (with_taken state.old []) (with_taken state.new [])) }
{
    state.soundness();
    let class = classes[draw_below(random, classes.len() as u64) as usize];
    let size = domain_size(state.problem(), class);
    let place = draw_below(random, u64::from(size)) as u32;
    class_round(state, class, kind, place, level)
}

// A round on a course of a student that a random word draws, in the last step. Whether it changes
// something.
fn round_on_student(
    state: &mut State,
    choices: &[Choice],
    random: &mut Lcg64Xsh32,
    level: u128,
    buffers: &mut StudentBuffers,
) -> Result<bool, AllocError>
    requires choices { map target_of choices.now ≡ choices_in state.old.problem state.old.present }
    requires some { 0 < length choices.now }
    requires few { length choices.now ≤ 2 ^ 32 }
    requires step { 0 < length (earlier state.old) }
    ensures step { IsWithinStep (with_taken state.old []) (with_taken state.new []) }
    ensures random { OnOk result (random_of random.new
        ≡ (student_round state.old.problem state.old.present (random_of random.old)).1) }
    ensures round { IfOk result (IsRound level
        (student_round state.old.problem state.old.present (random_of random.old)).0
        (with_taken state.old []) (with_taken state.new [])) }
{
    let choice = choices[draw_below(random, choices.len() as u64) as usize];
    student_round(state, choice, random, level, buffers)
}

// A round of a kind that a random word draws, in the last step. Whether it changes something.
fn make_round(
    state: &mut State,
    work: &mut Work,
    random: &mut Lcg64Xsh32,
    level: u128,
) -> Result<bool, AllocError>
    requires targets { targets_in work.old.targets
        ≡ targets_at state.old.problem state.old.present }
    requires some { are_none (targets_in work.old.targets) ≡ false }
    requires few_classes { length work.old.targets.classes.items ≤ 2 ^ 32 }
    requires few_choices { length work.old.targets.choices.items ≤ 2 ^ 32 }
    requires level { level < 2 ^ 127 }
    requires step { 0 < length (earlier state.old) }
    ensures targets { work.new.targets ≡ work.old.targets }
    ensures step { IsWithinStep (with_taken state.old []) (with_taken state.new []) }
    ensures random { OnOk result (random_of random.new
        ≡ (found_by state.old.problem state.old.present (random_of random.old)).1) }
    ensures round { IfOk result (IsRound level
        (found_by state.old.problem state.old.present (random_of random.old)).0
        (with_taken state.old []) (with_taken state.new [])) }
{
    let kind = draw_below(random, 32) as u32;
    if is_on_class(&work.targets, kind) {
        round_on_class(state, work.targets.classes.as_slice(), kind, random, level)
    } else {
        round_on_student(
            state,
            work.targets.choices.as_slice(),
            random,
            level,
            &mut work.buffers,
        )
    }
}

// Makes so many rounds in the last step, and answers the first moment of the least total. The watcher is
// told of each round.
fn pour<W: Watcher>(
    state: &mut State,
    work: &mut Work,
    rounds: u32,
    seed: u64,
    watcher: &mut W,
) -> Result<Moment, AllocError>
    requires targets { targets_in work.old.targets
        ≡ targets_at state.old.problem state.old.present }
    requires some { are_none (targets_in work.old.targets) ≡ false }
    requires few_classes { length work.old.targets.classes.items ≤ 2 ^ 32 }
    requires few_choices { length work.old.targets.choices.items ≤ 2 ^ 32 }
    requires step { 0 < length (earlier state.old) }
    ensures step { IsWithinStep (with_taken state.old []) (with_taken state.new []) }
    ensures way { IfOk result (λ best.
        IsPouring state.old.problem state.old.present (trail state.new) [] best
        (best_moment state.old.problem rounds seed state.old.present)) }
{
    let mut random = Lcg64Xsh32::new(seed, 1);
    let start = moment_now(state, 0);
    let mut now = start;
    let mut best = start;
    for made in 0..rounds {
        let level = level_at(start.total, rounds, made, now.total);
        let changes = make_round(state, work, &mut random, level)?;
        now = moment_now(state, now.changed + u32::from(changes));
        best = lower_moment(best, now);
        watcher.tell(Progress::Rounds {
            made: made + 1,
            of: rounds,
        });
    }
    Ok(best)
}

// Makes rounds, as one step, and goes back to the first moment of the least total. Where memory runs out,
// the step is undone.
fn deluge_in_step<W: Watcher>(
    alloc: Global,
    state: &mut State,
    rounds: u32,
    seed: u64,
    watcher: &mut W,
) -> Result<Deluged, AllocError>
    ensures problem { state.new.problem ≡ state.old.problem }
    ensures earlier { OnOk result (earlier state.new ≡ state.old.present ∷ earlier state.old) }
    ensures end { IfOk result (λ n.
        ended_at state.new.present n.rounds n.changed
        ≡ deluged state.old.problem rounds seed state.old.present) }
    ensures total { OnOk result (total_of state.old.problem state.new.present
        ≤ total_of state.old.problem state.old.present) }
    ensures changed { IfOk result (λ n. (n.changed ≡ 0) ↔ (state.new.present ≡ state.old.present)) }
    ensures stands { OnOk result (StandsAs state.old.problem state.old.present state.new.present) }
    ensures present { OnErr result (state.new.present ≡ state.old.present) }
    ensures entries { OnErr result (state.new.entries ≡ state.old.entries) }
{
    let mut work = Work::new(alloc, state)?;
    state.begin()?;
    if are_none(&work.targets) {
        return Ok(Deluged {
            rounds: 0,
            changed: 0,
        });
    }
    match pour(state, &mut work, rounds, seed, watcher) {
        Ok(best) => {
            state.roll_back(best.place);
            Ok(Deluged {
                rounds,
                changed: best.changed,
            })
        }
        Err(error) => {
            state.take_back();
            Err(error)
        }
    }
}

/// Makes so many rounds of the great deluge (Dueck 1993) from the present snapshot, and ends at the first
/// moment of the least total, the beginning included, all as one step. A random word draws of what kind a
/// round is. One on a class draws a placed class that isn't locked, and a value: the class gets it where it
/// is free, exchanges its place with the one class in its way, or walks on to the next free value. One on
/// a student draws a course with a choice, and other classes of it. A change is made where the total after
/// it is at most a level, which sinks from the first total to 0, but not below the present one. Where there
/// is nothing to change, no round is made. The answer is how many rounds were made, and how many changes
/// led to the end. Neither the total nor the hard conflicts nor the unplaced classes rise, the statistics,
/// closures and locks stay, and each locked class stays where it is. Where memory is wanting, only the
/// conflict set found last may differ. The watcher is told of each round.
pub fn deluge<W: Watcher>(
    alloc: Global,
    state: &mut State,
    rounds: u32,
    seed: u64,
    watcher: &mut W,
) -> Result<Deluged, AllocError>
    ensures desk { OnOk result (desk_of state.new ≡ stepped (desk_of state.old) state.new.present) }
    ensures end { IfOk result (λ n.
        ended_at state.new.present n.rounds n.changed
        ≡ deluged state.old.problem rounds seed state.old.present) }
    ensures total { OnOk result ((totals_in state.old.problem state.new.present).total
        ≤ (totals_in state.old.problem state.old.present).total) }
    ensures hard { OnOk result ((totals_in state.old.problem state.new.present).hard
        ≤ (totals_in state.old.problem state.old.present).hard) }
    ensures unplaced { OnOk result ((totals_in state.old.problem state.new.present).unplaced
        ≤ (totals_in state.old.problem state.old.present).unplaced) }
    ensures changed { IfOk result (λ n. (n.changed ≡ 0) ↔ (state.new.present ≡ state.old.present)) }
    ensures statistics { OnOk result (state.new.present.statistics ≡ state.old.present.statistics) }
    ensures closures { OnOk result (state.new.present.closures ≡ state.old.present.closures) }
    ensures locks { OnOk result (state.new.present.locks ≡ state.old.present.locks) }
    ensures locked { OnOk result
        ((class : ℕ) → StaysLocked state.old.present state.new.present class) }
    ensures err { OnErr result (with_taken state.new [] ≡ with_taken state.old []) }
{
    deluge_in_step(alloc, state, rounds, seed, watcher)
}
