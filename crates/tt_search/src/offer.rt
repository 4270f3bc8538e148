//! Which values of a class may come beside the least so far.

ghost use Rattle.std.specs.Prelude.{◌≡◌, ◌⊎◌, None, IsTrue, true, false, length};
ghost use Rattle.tt_plan.specs.Placements.{IsPlacement};
ghost use Rattle.tt_state.specs.History.{with_taken};
ghost use Rattle.tt_state.specs.Values.{blocked_of, conflict_set_of};
ghost use Rattle.tt_search.specs.Turns.{is_available};
ghost use Rattle.tt_search.specs.Numbers.{WeighsLess};

use crate::drawing::is_open;
use crate::price::Price;
use tt_plan::Placement;
use tt_state::State;

// Finds the conflict set of a class at a value that isn't blocked, unless it has more classes than the
// least so far weigh, and so weighs more. Whether it was found.
fn find_lighter(state: &mut State, placement: &Placement, least: Option<Price>) -> bool
    requires placement { IsPlacement state.old.problem placement.now }
    requires open { blocked_of state.old.problem state.old.present.closures placement.now.class
        placement.now.value
        ≡ None }
    ensures found { IsTrue result
        → state.new
        ≡ with_taken state.old (conflict_set_of state.old.problem state.old.present
        placement.now.class placement.now.value) }
    ensures heavier { result ≡ false
        → WeighsLess least
        (length (conflict_set_of state.old.problem state.old.present placement.now.class
        placement.now.value)) }
    ensures problem { state.new.problem ≡ state.old.problem }
    ensures present { state.new.present ≡ state.old.present }
    ensures entries { state.new.entries ≡ state.old.entries }
{
    match least.and_then(|price| u32::try_from(price.weight).ok()) {
        Some(most) => state.find_conflict_set_within(placement, most),
        None => {
            state.find_conflicts(placement.class, placement.value);
            true
        }
    }
}

// Whether a value may come beside those with the least price so far: nothing stands in its way, and its
// conflict set has no more classes than theirs weigh. The conflict set is found then.
pub(crate) fn may_be_offered(state: &mut State, placement: &Placement, least: Option<Price>) -> bool
    requires { IsPlacement state.old.problem placement.now }
    ensures found { IsTrue result
        → state.new
        ≡ with_taken state.old (conflict_set_of state.old.problem state.old.present
        placement.now.class placement.now.value) }
    ensures available { IsTrue result
        → is_available state.old.problem state.old.present placement.now.class
        placement.now.value
        ≡ true }
    ensures passed { result ≡ false
        → (is_available state.old.problem state.old.present placement.now.class
        placement.now.value
        ≡ false)
        ⊎ WeighsLess least
        (length (conflict_set_of state.old.problem state.old.present placement.now.class
        placement.now.value)) }
    ensures problem { state.new.problem ≡ state.old.problem }
    ensures present { state.new.present ≡ state.old.present }
    ensures entries { state.new.entries ≡ state.old.entries }
{
    if !is_open(state, placement) || !find_lighter(state, placement, least) {
        return false;
    }
    state.first_locked().is_none()
}
