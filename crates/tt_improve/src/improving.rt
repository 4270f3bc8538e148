//! The descent: its rounds, and `improve`.

ghost use Rattle.std.specs.Prelude.{◌≡◌, ℕ, ◌+◌, ◌<◌, ◌≤◌, ◌^◌, ◌∷◌, [], None, Some, IfOk, OnOk, OnErr, if◌then◌else◌, false, length};
ghost use Rattle.tt_state.specs.Desk.{stepped};
ghost use Rattle.tt_state.specs.History.{IsWithinStep, desk_of, earlier, with_taken};
ghost use Rattle.tt_state.specs.Snapshots.{StaysLocked, totals_in};
ghost use Rattle.tt_choice.specs.Ready.{HasRoomToChoose};
ghost use Rattle.tt_improve.specs.Idle.{KnowsIdle, changed_at, targets_in};
ghost use Rattle.tt_improve.specs.Targets.{targets_of};
ghost use Rattle.tt_improve.specs.Rounds.{changed_by, improved};
ghost use Rattle.tt_improve.specs.Standing.{IsNoWorse, IsTargetOf};
ghost use Rattle.tt_improve.specs.Touched.{IsTableOf};
ghost use Rattle.tt_improve.specs.UnderWay.{so_far};

use crate::classes::change_class;
use crate::courses::change_student;
use crate::targets::{Looked, Target, Targets};
use crate::touched::Touched;
use rand_core::Rng;
use rand_pcg::Lcg64Xsh32;
use std::alloc::{AllocError, Global};
use tt_choice::ChoiceBuffers;
use tt_state::State;
use tt_watch::{Progress, Watcher};

/// How many rounds were made, and how many of them changed something.
#[derive(Clone, Copy, Debug, PartialEq, Eq)]
pub struct Improved {
    pub rounds: u32,
    pub changed: u32,
}

// What a descent works with: the targets, which of them a change touched, and room for the walks over
// the choices of a course.
#[derive(Drop)]
struct Descent {
    targets: Targets,
    touched: Touched,
    buffers: ChoiceBuffers,
}

impl Descent {
    // Before the first round.
    fn new(alloc: Global, state: &State) -> Result<Descent, AllocError>
        ensures targets { IfOk result (λ descent.
            targets_in descent.targets ≡ targets_of state.now.problem state.now.present) }
        ensures few { IfOk result (λ descent. length (targets_in descent.targets) ≤ 2 ^ 32) }
        ensures whole { IfOk result (λ descent. IsTableOf state.now.problem descent.touched) }
        ensures idle { IfOk result (λ descent.
            KnowsIdle state.now.problem state.now.present descent.targets descent.touched 1) }
        ensures room { IfOk result (λ descent. HasRoomToChoose state.now.problem descent.buffers) }
    {
        let targets = Targets::new(alloc, state)?;
        let touched = Touched::new(alloc, state.problem())?;
        let buffers = ChoiceBuffers::new(alloc, state.problem())?;
        Ok(Descent {
            targets,
            touched,
            buffers,
        })
    }
}

// A round on a target, in the last step. Whether it changes something.
#[tactic(auto, unfolding(crate::specs::Rounds::changed_by, crate::specs::Changed::changed_class, crate::specs::Changed::changed_student))]
fn make_round(
    alloc: Global,
    state: &mut State,
    target: Target,
    buffers: &mut ChoiceBuffers,
) -> Result<bool, AllocError>
    requires target { IsTargetOf state.old.problem state.old.present target }
    requires step { 0 < length (earlier state.old) }
    requires room { HasRoomToChoose state.old.problem buffers.old }
    ensures room { HasRoomToChoose state.old.problem buffers.new }
    ensures step { IsWithinStep (with_taken state.old []) (with_taken state.new []) }
    ensures changes { IfOk result (λ changes.
        changed_by state.old.problem state.old.present target
        ≡ (if changes then Some state.new.present else None)) }
    ensures same { IfOk result
        (λ changes. changes ≡ false → state.new.present ≡ state.old.present) }
    ensures no_worse { OnOk result
        (IsNoWorse state.old.problem state.old.present state.new.present) }
{
    match target {
        Target::Class { class } => change_class(state, class),
        Target::Course { student, course } => change_student(
            alloc, state, student, course, buffers,
        ),
    }
}

// A round in a stage on the target at a place, in the last step. One that is known to change nothing
// is left out. Whether it changes something.
fn make_round_at(
    alloc: Global,
    state: &mut State,
    descent: &mut Descent,
    place: usize,
    stage: u32,
) -> Result<bool, AllocError>
    requires targets { targets_in descent.old.targets
        ≡ targets_of state.old.problem state.old.present }
    requires place { place < length (targets_in descent.old.targets) }
    requires whole { IsTableOf state.old.problem descent.old.touched }
    requires idle { KnowsIdle state.old.problem state.old.present descent.old.targets
        descent.old.touched stage }
    requires step { 0 < length (earlier state.old) }
    requires room { HasRoomToChoose state.old.problem descent.old.buffers }
    ensures room { HasRoomToChoose state.old.problem descent.new.buffers }
    ensures whole { IsTableOf state.old.problem descent.new.touched }
    ensures step { IsWithinStep (with_taken state.old []) (with_taken state.new []) }
    ensures targets { targets_in descent.new.targets ≡ targets_in descent.old.targets }
    ensures changes { IfOk result (λ changes.
        changed_at state.old.problem state.old.present (targets_in descent.old.targets) place
        ≡ (if changes then Some state.new.present else None)) }
    ensures same { IfOk result
        (λ changes. changes ≡ false → state.new.present ≡ state.old.present) }
    ensures idle { IfOk result (λ changes.
        KnowsIdle state.old.problem state.new.present descent.new.targets descent.new.touched
        (stage + (if changes then 1 else 0))) }
    ensures no_worse { OnOk result
        (IsNoWorse state.old.problem state.old.present state.new.present) }
{
    state.problem().validity();
    state.soundness();
    let Looked {
        target,
        stage: looked,
    } = descent.targets.at(place);
    if descent.touched.last(state, target) < looked {
        return Ok(false);
    }
    let changes = make_round(alloc, state, target, &mut descent.buffers)?;
    descent.targets.note(place, stage);
    if !changes {
        return Ok(false);
    }
    descent.touched.note(state, target, stage);
    Ok(true)
}

// Makes rounds in the last step, until so many are made or there is no target. The watcher is told of
// each.
fn make_rounds<W: Watcher>(
    alloc: Global,
    state: &mut State,
    descent: &mut Descent,
    rounds: u32,
    seed: u64,
    watcher: &mut W,
) -> Result<Improved, AllocError>
    requires targets { targets_in descent.old.targets
        ≡ targets_of state.old.problem state.old.present }
    requires few { length (targets_in descent.old.targets) ≤ 2 ^ 32 }
    requires whole { IsTableOf state.old.problem descent.old.touched }
    requires idle { KnowsIdle state.old.problem state.old.present descent.old.targets
        descent.old.touched 1 }
    requires room { HasRoomToChoose state.old.problem descent.old.buffers }
    requires step { 0 < length (earlier state.old) }
    ensures step { IsWithinStep (with_taken state.old []) (with_taken state.new []) }
    ensures end { IfOk result (λ n.
        so_far state.new.present n.rounds n.changed
        ≡ improved state.old.problem rounds seed state.old.present) }
    ensures no_worse { OnOk result
        (IsNoWorse state.old.problem state.old.present state.new.present) }
{
    let mut random = Lcg64Xsh32::new(seed, 1);
    let mut changed = 0;
    for made in 0..rounds {
        let Some(place) = descent.targets.draw(random.next_u32()) else {
            return Ok(Improved {
                rounds: made,
                changed,
            });
        };
        let changes = make_round_at(alloc, state, descent, place, changed + 1)?;
        changed += u32::from(changes);
        watcher.tell(Progress::Rounds {
            made: made + 1,
            of: rounds,
        });
    }
    Ok(Improved { rounds, changed })
}

// Makes rounds, as one step. Where memory runs out, the step is undone.
fn improve_in_step<W: Watcher>(
    alloc: Global,
    state: &mut State,
    rounds: u32,
    seed: u64,
    watcher: &mut W,
) -> Result<Improved, AllocError>
    ensures problem { state.new.problem ≡ state.old.problem }
    ensures earlier { OnOk result (earlier state.new ≡ state.old.present ∷ earlier state.old) }
    ensures end { IfOk result (λ n.
        so_far state.new.present n.rounds n.changed
        ≡ improved state.old.problem rounds seed state.old.present) }
    ensures no_worse { OnOk result
        (IsNoWorse state.old.problem state.old.present state.new.present) }
    ensures present { OnErr result (state.new.present ≡ state.old.present) }
    ensures entries { OnErr result (state.new.entries ≡ state.old.entries) }
{
    let mut descent = Descent::new(alloc, state)?;
    state.begin()?;
    match make_rounds(alloc, state, &mut descent, rounds, seed, watcher) {
        Ok(improved) => Ok(improved),
        Err(error) => {
            state.take_back();
            Err(error)
        }
    }
}

/// Improves the present snapshot by so many rounds, or until there is no target, as one step. In a
/// round a random word draws a placed class that isn't locked, or a course of a student who has
/// classes. A class gets that of its values with which the total is least, among those that aren't
/// blocked and push no class out, where the total falls. A student's classes of a course are replaced
/// by the choice that adds the fewest conflicting pairs, among those with which the list is a valid
/// enrolment and each class has a seat, where it adds fewer. So neither the total nor the hard
/// conflicts rise, the statistics and closures stay, and each locked class stays where it is. Where
/// memory is wanting, only the conflict set found last may differ. The watcher is told of each round.
pub fn improve<W: Watcher>(
    alloc: Global,
    state: &mut State,
    rounds: u32,
    seed: u64,
    watcher: &mut W,
) -> Result<Improved, AllocError>
    ensures desk { OnOk result (desk_of state.new ≡ stepped (desk_of state.old) state.new.present) }
    ensures end { IfOk result (λ n.
        so_far state.new.present n.rounds n.changed
        ≡ improved state.old.problem rounds seed state.old.present) }
    ensures total { OnOk result ((totals_in state.old.problem state.new.present).total
        ≤ (totals_in state.old.problem state.old.present).total) }
    ensures hard { OnOk result ((totals_in state.old.problem state.new.present).hard
        ≤ (totals_in state.old.problem state.old.present).hard) }
    ensures statistics { OnOk result (state.new.present.statistics ≡ state.old.present.statistics) }
    ensures closures { OnOk result (state.new.present.closures ≡ state.old.present.closures) }
    ensures locked { OnOk result
        ((class : ℕ) → StaysLocked state.old.present state.new.present class) }
    ensures err { OnErr result (with_taken state.new [] ≡ with_taken state.old []) }
{
    improve_in_step(alloc, state, rounds, seed, watcher)
}
