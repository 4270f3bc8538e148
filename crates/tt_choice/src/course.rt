//! The least allowed choice of a course.

ghost use Rattle.std.specs.Prelude.{◌≡◌, ℕ, ◌+◌, ◌-◌, ◌<◌, ◌≤◌, ◌++◌, ◌∷◌, [], None, true, false, length, take, IfNone, IfSome, All};
ghost use Rattle.tt_base.specs.Limits.{most_classes};
ghost use Rattle.tt_choice.specs.Limits.{most_added, most_added_with, most_already};
ghost use Rattle.tt_choice.specs.Least.{pairs_added, least_choice};
ghost use Rattle.tt_choice.specs.Passed.{better, passed};
ghost use Rattle.tt_choice.specs.Ahead.{AreSure, IsSure};
ghost use Rattle.tt_problem.specs.Spans.{IsSpanWithin};
ghost use Rattle.tt_choice.specs.Tables.{AreTables};
ghost use Rattle.tt_choice.specs.Searched.{AreInTurn, HasPlaceFor, lacks_none};
ghost use Rattle.tt_least.specs.Choices.{AreApart};
ghost use Rattle.tt_choice.specs.Choices.{choices_at, choices_of};
ghost use Rattle.tt_choice.specs.Pieces.{choices_of_course};
ghost use Rattle.tt_choice.specs.Ready.{HasRoomToChoose, HasRoomFor};
ghost use Rattle.tt_choice.specs.Situations.{situation_of};
ghost use Rattle.tt_choice.specs.Standings.{situation_in};
ghost use Rattle.tt_choice.specs.Found.{IfEnded, IsEnded, chosen, chosen_by, has_fewer, IsFoundIn, IsInVain};

use crate::ahead::{can_all_be_filled, look_ahead, may_come, sure_across};
use crate::buffers::ChoiceBuffers;
use crate::searched::classes_of;
use crate::standing::Standing;
use tt_problem::Span;
use tt_state::State;

// The most pairs that a choice adds.
const MOST_ADDED: u64 = 16400000000;

// After so many steps a walk over choices that may be searched is left.
const MOST_STEPS: u64 = 1000;

/// A choice found: how many classes it has, and how many conflicting pairs it adds.
#[derive(Clone, Copy)]
pub struct Found {
    count: usize,
    pairs: u64,
}

// Whether a number of pairs is fewer than the best so far adds, if there is one.
fn is_fewer(found: Option<Found>, pairs: u64) -> bool
    ensures { result ≡ has_fewer found pairs }
{
    match found {
        None => true,
        Some(best) => pairs < best.pairs,
    }
}

// How many pairs a front adds together with one more class.
fn pairs_with(standing: &Standing, front: &[u32], pairs: u64, class: u32) -> u64
    requires pairs { pairs ≡ pairs_added (situation_in standing.now) front.now }
    requires few { length front.now ≤ most_classes }
    ensures pairs { result ≡ pairs_added (situation_in standing.now) (front.now ++ class ∷ []) }
    ensures few { result ≤ most_added_with }
{
    pairs + standing.pairs_with_already(class) as u64 + standing.pairs_with(front, class) as u64
}

// Whether a choice that goes on from a front with a class of each later subpart may be taken for the
// best. `ahead` pairs of these classes are sure to come, beside those with the front. Before the last
// subpart but one nothing more is asked, since to walk it takes no longer.
fn leads_on(
    standing: &Standing,
    front: &[u32],
    rest: &[Span],
    pairs: u64,
    ahead: u64,
    found: Option<Found>,
) -> bool
    requires pairs { pairs ≡ pairs_added (situation_in standing.now) front.now }
    requires sure { IsSure (situation_in standing.now) rest.now ahead }
    requires few_front { length front.now ≤ most_classes }
    requires few_rest { length rest.now ≤ most_classes }
    requires few_pairs { pairs ≤ most_added_with }
    requires few_ahead { ahead ≤ most_added }
    ensures { result ≡ false → IsInVain (situation_in standing.now) found front.now rest.now }
{
    let sure = pairs + ahead;
    if !is_fewer(found, sure) {
        return false;
    }
    if rest.len() < 2 {
        return true;
    }
    if !can_all_be_filled(standing, front, rest) {
        return false;
    }
    let across = sure_across(standing, front, rest);
    is_fewer(found, sure + across)
}

// How many pairs a front adds, from how many it adds without its last class, and `None` where no
// choice that goes on from it can be taken for the best.
fn pairs_through(
    standing: &Standing,
    front: &[u32],
    rest: &[Span],
    pairs: u64,
    ahead: u64,
    found: Option<Found>,
) -> Option<u64>
    requires some { 0 < length front.now }
    requires pairs { pairs
        ≡ pairs_added (situation_in standing.now) (take (length front.now - 1) front.now) }
    requires sure { IsSure (situation_in standing.now) rest.now ahead }
    requires few_front { length front.now ≤ most_classes }
    requires few_rest { length rest.now ≤ most_classes }
    requires few_ahead { ahead ≤ most_added }
    ensures some { IfSome result
        (λ more. more ≡ pairs_added (situation_in standing.now) front.now) }
    ensures none { IfNone result (IsInVain (situation_in standing.now) found front.now rest.now) }
{
    if !is_fewer(found, pairs + ahead) {
        return None;
    }
    let last = front.len() - 1;
    let class = front[last];
    if !may_come(standing, front, rest, class) {
        return None;
    }
    let more = pairs_with(standing, &front[..last], pairs, class);
    if leads_on(standing, front, rest, more, ahead, found) {
        Some(more)
    } else {
        None
    }
}

// Takes a whole choice for the best where it adds fewer pairs and is allowed.
fn keep(
    standing: &Standing,
    choice: &[u32],
    pairs: u64,
    best: &mut [u32],
    found: Option<Found>,
) -> Option<Found>
    requires pairs { pairs ≡ pairs_added (situation_in standing.now) choice.now }
    requires room { length choice.now ≤ length best.old }
    requires found { IfSome found (IsFoundIn (situation_in standing.now) best.old) }
    ensures best { chosen best.new result
        ≡ better (situation_in standing.now) (chosen best.old found) choice.now }
    ensures found { IfSome result (IsFoundIn (situation_in standing.now) best.new) }
{
    if is_fewer(found, pairs) && standing.is_allowed(choice) {
        best[..choice.len()].copy_from_slice(choice);
        Some(Found {
            count: choice.len(),
            pairs,
        })
    } else {
        found
    }
}

// How a walk over the choices of a configuration ended.
enum Walk {
    // All choices are passed; the best, if there is one.
    Ended(Option<Found>),
    // It took all of its steps.
    Stopped,
}

// Takes one of the steps that are left, where these are limited; whether one was left.
fn take_step(steps: &mut Option<u64>) -> bool
    ensures { steps.old ≡ None → (result ≡ true) × (steps.new ≡ None) }
{
    match *steps {
        None => true,
        Some(0) => false,
        Some(left) => {
            *steps = Some(left - 1);
            true
        }
    }
}

// Passes all choices of a configuration of these subparts, and keeps the best, or stops where it has
// made all of its steps, if these are limited. `front` has the classes chosen so far, `class` is the
// next to be tried. A class with which the front leads on to no better choice is passed over.
fn best_choice(
    standing: &Standing,
    subparts: &[Span],
    buffers: &mut ChoiceBuffers,
    found: Option<Found>,
    steps: Option<u64>,
) -> Walk
    requires sure { AreSure (situation_in standing.now) subparts.now buffers.old.ahead.items }
    requires some { 0 < length subparts.now }
    requires spans { All (λ s. s.after ≤ most_classes) subparts.now }
    requires few { length subparts.now ≤ most_classes }
    requires room { HasRoomFor (length subparts.now) buffers.old }
    requires found { IfSome found (IsFoundIn (situation_in standing.now) buffers.old.best.items) }
    ensures room { (count : ℕ) → HasRoomFor count buffers.old → HasRoomFor count buffers.new }
    ensures ended { IfEnded result (λ best. chosen buffers.new.best.items best
        ≡ passed (situation_in standing.now) (chosen buffers.old.best.items found)
        (choices_of subparts.now)) }
    ensures found { IfEnded result
        (λ best. IfSome best (IsFoundIn (situation_in standing.now) buffers.new.best.items)) }
    ensures unlimited { steps ≡ None → IsEnded result }
    ensures long { length buffers.new.best.items ≡ length buffers.old.best.items }
    ensures before { buffers.new.before.items ≡ buffers.old.before.items }
    ensures search { buffers.new.search ≡ buffers.old.search }
{
    let ahead = buffers.ahead.as_slice();
    let front = buffers.front.as_mut_slice();
    let best = buffers.best.as_mut_slice();
    let mut found = found;
    let mut steps = steps;
    let mut depth = 0;
    let mut pairs = 0;
    let mut class = subparts[0].first;
    'walk: loop {
        if !take_step(&mut steps) {
            return Walk::Stopped;
        }
        if class < subparts[depth].after {
            front[depth] = class;
            match pairs_through(
                standing,
                &front[..depth + 1],
                &subparts[depth + 1..],
                pairs,
                ahead[depth + 1],
                found,
            ) {
                None => class += 1,
                Some(more) => {
                    if depth + 1 < subparts.len() {
                        depth += 1;
                        pairs = more;
                        class = subparts[depth].first;
                    } else {
                        found = keep(standing, &front[..depth + 1], more, best, found);
                        class += 1;
                    }
                }
            }
        } else if depth == 0 {
            return Walk::Ended(found);
        } else {
            depth -= 1;
            class = front[depth];
            pairs = pairs_before(standing, &front[..depth], pairs, class);
            class += 1;
        }
    }
}

// Copies a choice found from the front of one buffer to that of another one.
fn copy_found(from: &[u32], to: &mut [u32], found: Option<Found>)
    requires from { IfSome found (λ choice. choice.count ≤ length from.now) }
    requires to { IfSome found (λ choice. choice.count ≤ length to.old) }
    ensures long { length to.new ≡ length to.old }
    ensures same { chosen to.new found ≡ chosen from.now found }
{
    if let Some(choice) = found {
        to[..choice.count].copy_from_slice(&from[..choice.count]);
    }
}

// The most pairs that are fewer than the best so far adds, or that any choice adds where there is
// none; `None` where there are none so few.
fn most_fewer(found: Option<Found>) -> Option<u64>
    ensures most { IfSome result (λ most. most ≤ most_added) }
    ensures fewer { IfSome result (λ most. (n : ℕ) → n ≤ most
        → has_fewer found n ≡ true) }
    ensures more { IfSome result (λ most. (n : ℕ) → n ≤ most_added → most < n
        → has_fewer found n ≡ false) }
    ensures none { result ≡ None → (n : ℕ) → has_fewer found n ≡ false }
{
    match found {
        None => Some(MOST_ADDED),
        Some(best) if best.pairs == 0 => None,
        Some(best) => Some((best.pairs - 1).min(MOST_ADDED)),
    }
}

// The same by a search, for a configuration of these classes.
fn best_by_search(
    standing: &Standing,
    subparts: &[Span],
    classes: Span,
    buffers: &mut ChoiceBuffers,
    found: Option<Found>,
) -> Option<Found>
    requires apart { AreApart classes.first subparts.now classes.after }
    requires few_classes { classes.after ≤ most_classes }
    requires few_already { length (situation_in standing.now).already ≤ most_already }
    requires few { length subparts.now ≤ most_classes }
    requires lacks { lacks_none (situation_in standing.now) ≡ true }
    requires room { HasRoomFor (length subparts.now) buffers.old }
    requires place { HasPlaceFor (length subparts.now) classes buffers.old.search }
    requires found { IfSome found (IsFoundIn (situation_in standing.now) buffers.old.best.items) }
    ensures room { (count : ℕ) → HasRoomFor count buffers.old → HasRoomFor count buffers.new }
    ensures best { chosen buffers.new.best.items result
        ≡ passed (situation_in standing.now) (chosen buffers.old.best.items found)
        (choices_of subparts.now) }
    ensures found { IfSome result (IsFoundIn (situation_in standing.now) buffers.new.best.items) }
{
    let Some(most) = most_fewer(found) else {
        return found;
    };
    let Some(pairs) = buffers.search.find(standing, subparts, classes, most) else {
        return found;
    };
    let found = Some(Found {
        count: subparts.len(),
        pairs,
    });
    copy_found(
        buffers.search.search.scratch.best.as_slice(),
        buffers.best.as_mut_slice(),
        found,
    );
    found
}

// The same by a walk, where it ends soon, and else by a search.
fn best_by_both(
    standing: &Standing,
    subparts: &[Span],
    classes: Span,
    buffers: &mut ChoiceBuffers,
    found: Option<Found>,
) -> Option<Found>
    requires sure { AreSure (situation_in standing.now) subparts.now buffers.old.ahead.items }
    requires some { 0 < length subparts.now }
    requires spans { All (λ s. s.after ≤ most_classes) subparts.now }
    requires apart { AreApart classes.first subparts.now classes.after }
    requires few_classes { classes.after ≤ most_classes }
    requires few { length subparts.now ≤ most_classes }
    requires lacks { lacks_none (situation_in standing.now) ≡ true }
    requires room { HasRoomFor (length subparts.now) buffers.old }
    requires place { HasPlaceFor (length subparts.now) classes buffers.old.search }
    requires found { IfSome found (IsFoundIn (situation_in standing.now) buffers.old.best.items) }
    ensures room { (count : ℕ) → HasRoomFor count buffers.old → HasRoomFor count buffers.new }
    ensures best { chosen buffers.new.best.items result
        ≡ passed (situation_in standing.now) (chosen buffers.old.best.items found)
        (choices_of subparts.now) }
    ensures found { IfSome result (IsFoundIn (situation_in standing.now) buffers.new.best.items) }
{
    copy_found(
        buffers.best.as_slice(),
        buffers.before.as_mut_slice(),
        found,
    );
    match best_choice(standing, subparts, buffers, found, Some(MOST_STEPS)) {
        Walk::Ended(best) => best,
        Walk::Stopped => {
            copy_found(
                buffers.before.as_slice(),
                buffers.best.as_mut_slice(),
                found,
            );
            best_by_search(standing, subparts, classes, buffers, found)
        }
    }
}

// The same, where each subpart has a class that could be in a choice; else what was found stays.
fn best_if_open(
    standing: &Standing,
    subparts: &[Span],
    buffers: &mut ChoiceBuffers,
    found: Option<Found>,
) -> Option<Found>
    requires turn { AreInTurn subparts.now }
    requires some { 0 < length subparts.now }
    requires spans { All (λ s. s.after ≤ most_classes) subparts.now }
    requires few { length subparts.now ≤ most_classes }
    requires room { HasRoomFor (length subparts.now) buffers.old }
    requires found { IfSome found (IsFoundIn (situation_in standing.now) buffers.old.best.items) }
    ensures room { (count : ℕ) → HasRoomFor count buffers.old → HasRoomFor count buffers.new }
    ensures best { chosen buffers.new.best.items result
        ≡ passed (situation_in standing.now) (chosen buffers.old.best.items found)
        (choices_of subparts.now) }
    ensures found { IfSome result (IsFoundIn (situation_in standing.now) buffers.new.best.items) }
{
    if !can_all_be_filled(standing, &[], subparts) {
        return found;
    }
    look_ahead(standing, subparts, buffers.ahead.as_mut_slice());
    let classes = classes_of(subparts);
    if buffers.search.can_search(subparts.len(), classes) && standing.lacks_none() {
        return best_by_both(standing, subparts, classes, buffers, found);
    }
    match best_choice(standing, subparts, buffers, found, None) {
        Walk::Ended(best) => best,
        Walk::Stopped => found,
    }
}

// How many pairs a front adds, from how many it adds together with one more class.
fn pairs_before(standing: &Standing, front: &[u32], pairs: u64, class: u32) -> u64
    requires pairs { pairs ≡ pairs_added (situation_in standing.now) (front.now ++ class ∷ []) }
    ensures { result ≡ pairs_added (situation_in standing.now) front.now }
{
    pairs - standing.pairs_with_already(class) as u64 - standing.pairs_with(front, class) as u64
}

// The least allowed choice of a course: how many classes it has, which then stand at the front of
// the buffer of the best, and `None` where no choice is allowed. `configs` are the configurations of
// all courses, and `subparts` the subparts of all configurations.
fn least_choice(
    standing: &Standing,
    configs: &[Span],
    subparts: &[Span],
    course: Span,
    buffers: &mut ChoiceBuffers,
) -> Option<usize>
    requires tables { AreTables configs.now subparts.now }
    requires course { IsSpanWithin (length configs.now) course }
    requires room { HasRoomFor (length subparts.now) buffers.old }
    ensures room { HasRoomFor (length subparts.now) buffers.new }
    ensures within { IfSome result (λ count. count ≤ length buffers.new.best.items) }
    ensures choice { chosen_by buffers.new.best.items result
        ≡ least_choice (situation_in standing.now)
        (choices_of_course configs.now subparts.now course) }
{
    let mut found = None;
    for place in course.first..course.after {
        let config = configs[place as usize];
        let parts = &subparts[config.first as usize..config.after as usize];
        found = best_if_open(standing, parts, buffers, found);
    }
    match found {
        None => None,
        Some(choice) => Some(choice.count),
    }
}

// How many conflicting pairs a choice adds to the classes taken, pairs inside it among them.
fn pairs_in(standing: &Standing, choice: &[u32]) -> u64
    requires few { length choice.now ≤ most_classes }
    ensures { result ≡ pairs_added (situation_in standing.now) choice.now }
{
    let mut pairs = 0;
    for place in 0..choice.len() {
        pairs = pairs_with(standing, &choice[..place], pairs, choice[place]);
    }
    pairs
}

/// The least allowed choice of a course for a student who has taken these classes, some of which may
/// still lack their parent: how many classes it has, which then stand at the front of the buffer of
/// the best, and `None` where no choice is allowed. The student's own list takes no seats.
#[tactic(auto, unfolding(crate::specs::Choices::choices_at, crate::specs::Choices::configurations_of))]
pub fn least_of_course(
    state: &State,
    student: u32,
    course: u32,
    wanting: &[u32],
    already: &[u32],
    buffers: &mut ChoiceBuffers,
) -> Option<usize>
    requires student { student < length state.now.problem.students }
    requires course { course < length state.now.problem.courses }
    requires few_already { length already.now ≤ most_already }
    requires room { HasRoomToChoose state.now.problem buffers.old }
    ensures room { HasRoomToChoose state.now.problem buffers.new }
    ensures choice { chosen_by buffers.new.best.items result
        ≡ least_choice
        (situation_of state.now.problem state.now.present student wanting.now already.now)
        (choices_at state.now.problem course) }
    ensures within { IfSome result (λ count. count ≤ length buffers.new.best.items) }
    ensures few { IfSome result (λ count. count ≤ length state.now.problem.subparts) }
{
    let problem = state.problem();
    problem.validity();
    let parts = problem.parts();
    let standing = Standing::new(state, student, wanting, already);
    least_choice(
        &standing,
        parts.configs.as_slice(),
        parts.subparts.as_slice(),
        problem.course(course).configs,
        buffers,
    )
}

/// How many conflicting pairs a choice adds to classes that a student has taken, pairs inside it
/// among them.
pub fn pairs_of(state: &State, student: u32, already: &[u32], choice: &[u32]) -> u64
    requires student { student < length state.now.problem.students }
    requires few_already { length already.now ≤ most_already }
    requires few { length choice.now ≤ most_classes }
    ensures { result
        ≡ pairs_added (situation_of state.now.problem state.now.present student [] already.now)
        choice.now }
{
    let standing = Standing::new(state, student, &[], already);
    pairs_in(&standing, choice)
}
