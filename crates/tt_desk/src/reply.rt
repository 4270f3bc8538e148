//! The reply to a line: own lines, and the line of totals or refusal.

ghost use Rattle.std.specs.Prelude.{◌≡◌, ◌<◌, ◌≤◌, ◌+◌, ◌++◌, [], IfOk, OnOk, OnErr, codes, decimal, length, option_map};
ghost use Rattle.std.specs.List.{flat_map};
ghost use Rattle.std.specs.Option.{option_map_or};
ghost use Rattle.tt_problem.specs.Places.{class_id};
ghost use Rattle.tt_text.specs.Fields.{field};
ghost use Rattle.tt_text.specs.Reply.{kept_bytes, most_digits};
ghost use Rattle.tt_state.specs.History.{desk_of};
ghost use Rattle.tt_published.specs.Timetable.{IsTimetableOf};
ghost use Rattle.tt_published.specs.Published.{timetable_of};
ghost use Rattle.tt_desk.specs.Desk.{best_lines, counted_line, draft_line, moved_text, result_line, set_line, suggested_lines, taken_lines};
ghost use Rattle.tt_desk.specs.Refusals.{refusal_text};
ghost use Rattle.tt_desk.specs.Lines.{refusal_line};
ghost use Rattle.tt_desk.specs.Lengths.{most_counts_bytes, most_moved_bytes, most_refusal_bytes, most_sums_bytes, most_totals_bytes};
ghost use Rattle.tt_desk.specs.Replies.{counts_text, reply_to, sums_text, totals_line};

use crate::refusal::{Outcome, Refusal};
use crate::session::Session;
use std::alloc::{AllocError, Global};
use tt_enrol::Enrolled;
use tt_explain::{add_block, add_value};
use tt_problem::Problem;
use tt_published::{Aim, Published};
use tt_score::Totals;
use tt_solution::{publish, write_published};
use tt_state::State;
use tt_suggest::{Move, Suggested, Suggestion};
use tt_text::Reply;

// Appends a number, or a dash where there is none.
fn add_number_or_dash(reply: &mut Reply, moved: Option<u32>) -> Result<(), AllocError>
    ensures text { OnOk result (reply.new ≡ reply.old ++ option_map_or decimal moved (codes "-")) }
    ensures full { OnErr result (kept_bytes < length reply.old + most_digits) }
    ensures short { OnOk result (length reply.new ≤ length reply.old + most_digits) }
{
    match moved {
        None => reply.text("-"),
        Some(moved) => reply.number(u128::from(moved)),
    }
}

// Appends the sums of a line of totals.
fn add_sums(reply: &mut Reply, totals: &Totals) -> Result<(), AllocError>
    ensures text { OnOk result (reply.new ≡ reply.old ++ sums_text totals.now) }
    ensures full { OnErr result (kept_bytes < length reply.old + most_sums_bytes) }
    ensures short { OnOk result (length reply.new ≤ length reply.old + most_sums_bytes) }
{
    reply.field("ok time ", u128::from(totals.time))?;
    reply.field(" room ", u128::from(totals.room))?;
    reply.field(" distribution ", totals.distribution)?;
    reply.field(" student ", u128::from(totals.student))?;
    reply.field(" total ", totals.total)
}

// Appends the counts of a line of totals.
fn add_counts(reply: &mut Reply, totals: &Totals) -> Result<(), AllocError>
    ensures text { OnOk result (reply.new ≡ reply.old ++ counts_text totals.now) }
    ensures full { OnErr result (kept_bytes < length reply.old + most_counts_bytes) }
    ensures short { OnOk result (length reply.new ≤ length reply.old + most_counts_bytes) }
{
    reply.field(" hard ", u128::from(totals.hard))?;
    reply.field(" unplaced ", u128::from(totals.unplaced))?;
    reply.field(" unsectioned ", u128::from(totals.unsectioned))
}

// Appends the end of a line: how many published classes moved.
fn add_moved(reply: &mut Reply, moved: Option<u32>) -> Result<(), AllocError>
    ensures text { OnOk result (reply.new ≡ reply.old ++ moved_text moved) }
    ensures full { OnErr result (kept_bytes < length reply.old + most_moved_bytes) }
{
    reply.text(" moved ")?;
    add_number_or_dash(reply, moved)?;
    reply.text("\n")
}

// Appends the line of totals. It takes no memory behind a reply that leaves so many of its kept
// bytes.
fn add_totals(reply: &mut Reply, totals: &Totals, moved: Option<u32>) -> Result<(), AllocError>
    ensures text { OnOk result (reply.new ≡ reply.old ++ totals_line totals.now moved) }
    ensures full { OnErr result (kept_bytes < length reply.old + most_totals_bytes) }
{
    add_sums(reply, totals)?;
    add_counts(reply, totals)?;
    add_moved(reply, moved)
}

// Appends how much isn't ready.
fn add_not_ready(
    reply: &mut Reply,
    unplaced: u32,
    unsectioned: u32,
    hard: u64,
) -> Result<(), AllocError>
    ensures text { OnOk result (reply.new
        ≡ reply.old
        ++ field (codes "22 not ready ") unplaced
        ++ field (codes " ") unsectioned
        ++ field (codes " ") hard) }
    ensures full { OnErr result (kept_bytes < length reply.old + most_refusal_bytes) }
    ensures short { OnOk result (length reply.new ≤ length reply.old + most_refusal_bytes) }
{
    reply.field("22 not ready ", u128::from(unplaced))?;
    reply.field(" ", u128::from(unsectioned))?;
    reply.field(" ", u128::from(hard))
}

// Appends the number and the words of a refusal.
#[tactic(auto, using(std::proofs::Common::append_assoc))]
fn add_refusal(reply: &mut Reply, refusal: Refusal) -> Result<(), AllocError>
    ensures text { OnOk result (reply.new ≡ reply.old ++ refusal_text refusal) }
    ensures full { OnErr result (kept_bytes < length reply.old + most_refusal_bytes) }
    ensures short { OnOk result (length reply.new ≤ length reply.old + most_refusal_bytes) }
{
    match refusal {
        Refusal::BadLine => reply.text("10 bad line"),
        Refusal::NoSuchClass => reply.text("11 no such class"),
        Refusal::NoSuchStudent => reply.text("12 no such student"),
        Refusal::NoSuchTime => reply.text("13 no such time"),
        Refusal::RoomNotListed => reply.text("14 room not in the list"),
        Refusal::NoSuchRoom => reply.text("15 no such room"),
        Refusal::NotPlaced => reply.text("16 not placed"),
        Refusal::Blocked { reason } => {
            reply.text("17 ")?;
            add_block(reply, reason)
        }
        Refusal::Held { class } => reply.field("17 blocked locked ", u128::from(class)),
        Refusal::NoEnrolment => reply.text("18 no valid enrolment"),
        Refusal::NoSeat { class } => reply.field("19 no seat in class ", u128::from(class)),
        Refusal::NotSectioned => reply.text("20 not sectioned"),
        Refusal::NothingToUndo => reply.text("21 nothing to undo"),
        Refusal::NotReady {
            unplaced,
            unsectioned,
            hard,
        } => add_not_ready(reply, unplaced, unsectioned, hard),
        Refusal::NothingPublished => reply.text("23 nothing published"),
        Refusal::BadTime => reply.text("24 bad time"),
        Refusal::NothingClosed => reply.text("25 nothing closed"),
        Refusal::TooManyTries => reply.text("26 too many tries"),
        Refusal::TooManyClosures => reply.text("27 too many closures"),
        Refusal::Locked => reply.text("28 locked"),
        Refusal::NotLocked => reply.text("29 not locked"),
    }
}

// The line of a refusal, in an empty reply. It takes no memory.
pub(crate) fn put_refusal(reply: &mut Reply, refusal: Refusal)
    requires { reply.old ≡ [] }
    ensures { reply.new ≡ refusal_line refusal }
{
    reply.text("refused ").unwrap();
    add_refusal(reply, refusal).unwrap();
    reply.text("\n").unwrap();
}

// Appends the text that would be published, ready or not, and the end of its line.
#[tactic(auto, using(std::proofs::Common::append_assoc))]
pub(crate) fn add_draft(alloc: Global, state: &State, reply: &mut Reply) -> Result<(), AllocError>
    ensures { OnOk result (reply.new ≡ reply.old ++ draft_line (desk_of state.now)) }
{
    state.soundness();
    let score = state.score();
    write_published(alloc, state.problem(), score.plan(), score.roster(), reply)?;
    reply.text("\n")
}

// The present timetable, whose line it appends, the same as `add_draft`.
#[tactic(auto, using(std::proofs::Common::append_assoc))]
pub(crate) fn add_published(
    alloc: Global,
    state: &State,
    reply: &mut Reply,
) -> Result<Published, AllocError>
    ensures timetable { IfOk result
        (λ t. t ≡ timetable_of state.now.problem state.now.present.plan state.now.present.lists) }
    ensures belongs { IfOk result (λ t. IsTimetableOf state.now.problem t) }
    ensures text { OnOk result (reply.new ≡ reply.old ++ draft_line (desk_of state.now)) }
{
    state.soundness();
    let score = state.score();
    let published = publish(alloc, state.problem(), score.plan(), score.roster(), reply)?;
    reply.text("\n")?;
    Ok(published)
}

// Appends a line for a class that was taken out.
#[tactic(auto, using(std::proofs::Common::append_assoc))]
fn add_taken_line(reply: &mut Reply, problem: &Problem, class: u32) -> Result<(), AllocError>
    ensures { OnOk result (reply.new
        ≡ reply.old ++ counted_line (codes "out ") (class_id problem.now class)) }
{
    reply.field("out ", u128::from(problem.class_id(class)))?;
    reply.text("\n")
}

// Appends a line for each class that was taken out.
pub(crate) fn add_taken(
    reply: &mut Reply,
    problem: &Problem,
    classes: &[u32],
) -> Result<(), AllocError>
    ensures { OnOk result (reply.new ≡ reply.old ++ taken_lines problem.now classes.now) }
{
    for class in classes {
        add_taken_line(reply, problem, *class)?;
    }
    Ok(())
}

// Appends a line for a placement.
#[tactic(auto, using(std::proofs::Common::append_assoc))]
fn add_set(reply: &mut Reply, problem: &Problem, step: &Move) -> Result<(), AllocError>
    ensures { OnOk result (reply.new ≡ reply.old ++ set_line problem.now step.now) }
{
    reply.field("set ", u128::from(problem.class_id(step.class)))?;
    reply.text(" ")?;
    add_value(reply, problem, step.class, step.value)?;
    reply.text("\n")
}

// Appends a line for each of some placements.
fn add_sets(reply: &mut Reply, problem: &Problem, moves: &[Move]) -> Result<(), AllocError>
    ensures { OnOk result (reply.new ≡ reply.old ++ flat_map (set_line problem.now) moves.now) }
{
    for step in moves {
        add_set(reply, problem, step)?;
    }
    Ok(())
}

// How many published classes are moved with a suggestion, while there is a published timetable.
fn moved_then(aim: &Aim, suggestion: &Suggestion) -> Option<u32>
    ensures { result ≡ option_map (λ t. suggestion.now.moved) aim.now }
{
    match aim.published() {
        None => None,
        Some(_) => Some(suggestion.moved),
    }
}

// Appends the line on what a suggestion comes to.
fn add_result(reply: &mut Reply, aim: &Aim, suggestion: &Suggestion) -> Result<(), AllocError>
    ensures { OnOk result (reply.new ≡ reply.old ++ result_line aim.now suggestion.now) }
{
    let moved = moved_then(aim, suggestion);
    reply.field("result total ", suggestion.total)?;
    add_moved(reply, moved)
}

// Appends a line for each placement of the best suggestion and what it comes to, or `none`.
#[tactic(auto, using(std::proofs::Common::append_assoc))]
fn add_best(
    reply: &mut Reply,
    problem: &Problem,
    aim: &Aim,
    best: &Option<Suggestion>,
) -> Result<(), AllocError>
    ensures { OnOk result (reply.new ≡ reply.old ++ best_lines problem.now aim.now best.now) }
{
    match best {
        None => reply.text("none\n"),
        Some(suggestion) => {
            add_sets(reply, problem, suggestion.moves.as_slice())?;
            add_result(reply, aim, suggestion)
        }
    }
}

// How many students were enrolled and how many are left, in an empty reply.
pub(crate) fn put_enrolled(reply: &mut Reply, counts: Enrolled)
    requires { reply.old ≡ [] }
    ensures { reply.new
        ≡ field (codes "enrolled ") counts.enrolled
        ++ field (codes " left ") counts.left
        ++ codes "\n" }
{
    reply
        .field("enrolled ", u128::from(counts.enrolled))
        .unwrap();
    reply.field(" left ", u128::from(counts.left)).unwrap();
    reply.text("\n").unwrap();
}

// How many classes became locked, in an empty reply.
pub(crate) fn put_locked(reply: &mut Reply, count: u32)
    requires { reply.old ≡ [] }
    ensures { reply.new ≡ field (codes "locked ") count ++ codes "\n" }
{
    reply.field("locked ", u128::from(count)).unwrap();
    reply.text("\n").unwrap();
}

// From how many classes the lock was taken, in an empty reply.
pub(crate) fn put_unlocked(reply: &mut Reply, count: u32)
    requires { reply.old ≡ [] }
    ensures { reply.new ≡ field (codes "unlocked ") count ++ codes "\n" }
{
    reply.field("unlocked ", u128::from(count)).unwrap();
    reply.text("\n").unwrap();
}

// How many turns were made, in an empty reply.
pub(crate) fn put_turns(reply: &mut Reply, made: u32)
    requires { reply.old ≡ [] }
    ensures { reply.new ≡ field (codes "turns ") made ++ codes "\n" }
{
    reply.field("turns ", u128::from(made)).unwrap();
    reply.text("\n").unwrap();
}

// How many rounds were made and how many changed something, in an empty reply.
pub(crate) fn put_rounds(reply: &mut Reply, rounds: u32, changed: u32)
    requires { reply.old ≡ [] }
    ensures { reply.new
        ≡ field (codes "rounds ") rounds ++ field (codes " changed ") changed ++ codes "\n" }
{
    reply.field("rounds ", u128::from(rounds)).unwrap();
    reply.field(" changed ", u128::from(changed)).unwrap();
    reply.text("\n").unwrap();
}

// Appends how many values were tried, and the best suggestion.
#[tactic(auto, using(std::proofs::Common::append_assoc), unfolding(crate::specs::Desk::suggested_lines))]
pub(crate) fn add_suggested(
    reply: &mut Reply,
    problem: &Problem,
    aim: &Aim,
    found: &Suggested,
) -> Result<(), AllocError>
    ensures { OnOk result
        (reply.new ≡ reply.old ++ suggested_lines problem.now aim.now found.now) }
{
    reply.field("tried ", u128::from(found.tried))?;
    reply.text("\n")?;
    add_best(reply, problem, aim, &found.best)
}

impl Session {
    // Makes the reply to a line, by what became of it. For an accepted command the reply has the
    // command's own lines before. Only a line of totals behind long ones takes memory.
    pub(crate) fn finish_reply(&self, reply: &mut Reply, outcome: Outcome) -> Result<(), AllocError>
        ensures ok { OnOk result (reply.new ≡ reply_to self.now reply.old outcome) }
        ensures accepted { OnErr result (outcome ≡ Outcome.Accepted) }
        ensures full { OnErr result (kept_bytes < length reply.old + most_totals_bytes) }
    {
        match outcome {
            Outcome::Accepted => add_totals(reply, &self.totals(), self.moved()),
            Outcome::Skipped | Outcome::Ended => {
                reply.clear();
                Ok(())
            }
            Outcome::Refused(refusal) => {
                reply.clear();
                put_refusal(reply, refusal);
                Ok(())
            }
        }
    }
}
