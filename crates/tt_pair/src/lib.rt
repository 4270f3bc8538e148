//! Rules on pairs of classes, fifteen types: the number of pairs of placed members that break the
//! rule, kept while members come and go. A `PairGroup` is a `Measure`: its amount is the
//! definition's (`new`), and `gain` says by how much a spot raises it.
#![tactic(auto)]

ghost use Rattle.std.specs.Prelude.{◌≡◌, ◌+◌, ◌-◌, ◌*◌, ◌/◌, ◌<◌, ◌≤◌, pos, false, Some, None, IfOk, IfSome, length, count_by};
ghost use Rattle.std.specs.Option.{option_map_or};
ghost use Rattle.tt_travel.specs.Table.{IsRoomOf};
ghost use Rattle.tt_base.specs.Limits.{most_members};
ghost use Rattle.tt_measure.specs.Limits.{most_weeks};
ghost use Rattle.tt_bits.specs.Spots.{placed};
ghost use Rattle.tt_measure.specs.Held.{AreRoomsOf};
ghost use Rattle.tt_measure.specs.NewGroups.{IsNewGroup};
ghost use Rattle.tt_pair.specs.ViolatedPairs.{is_violated, violated_pairs, violated_with};
ghost use Rattle.tt_pair.specs.Listed.{is_violated_by};
ghost use Rattle.tt_pair.specs.PairShapes.{pair_shape, kind_of};
ghost use Rattle.tt_pair.specs.PairLaws.{violated_pairs-empty, violated_pairs-split, violated_pairs-most, few_pairs};
ghost use Rattle.tt_measure.proofs.HeldLemmas.{AreBelow-all};

use std::alloc::{AllocError, Global};
use tt_bits::{PairKind, Spot, holds_between};
use tt_measure::Measure;
use tt_travel::Travel;

/// A rule on pairs over its members. Its amount is the number of pairs of placed members that
/// break the rule, as ITC 2019 counts them.
#[derive(Drop)]
pub struct PairGroup {
    kind: PairKind,
    held: Vec<Option<Spot>>,
    amount: u64,
    ghost few: { length held.items ≤ most_members },
}

impl PairGroup {
    /// A group of so many members, none of them placed.
    pub fn new(alloc: Global, kind: PairKind, members: u32) -> Result<PairGroup, AllocError>
        requires { members ≤ most_members }
        ensures new { IfOk result (IsNewGroup ⟦<PairGroup as Measure>⟧ record {
          members = members;
          weeks = most_weeks;
          shape = pair_shape kind members;
          sum = λ t h. violated_pairs kind t h;
          delta = λ t h p x. pos (violated_with kind t h p x);
          most = λ n. n * (n - 1) / 2;
        }) }
    {
        let held = vec![in alloc; None; members as usize]?;
        Ok(PairGroup {
            kind,
            held,
            amount: 0,
        })
    }

    // How many placed members, but for the one at the place, break the rule with the spot there.
    fn violated_with(&self, travel: &Travel, place: usize, spot: &Spot) -> u64
        requires rooms { AreRoomsOf travel.now self.now.held.items }
        requires room { IsRoomOf travel.now spot.now.room }
        requires place { place < length self.now.held.items }
        ensures count { result
            ≡ violated_with self.now.kind travel.now self.now.held.items place spot.now }
        ensures few { result ≤ most_members }
    {
        let held = self.held.as_slice();
        violated_by(self.kind, travel, spot, Listed::Before, &held[..place])
            + violated_by(self.kind, travel, spot, Listed::After, &held[place + 1..])
    }
}

impl Measure for PairGroup {
    ghost use Rattle.tt_pair.specs.Groups.{held_of, shape_of, IsOfTable};

    ghost held = { held_of };

    ghost weeks = { λ _. most_weeks };

    ghost shape = { shape_of };

    ghost fits = { IsOfTable };

    ghost sum = { λ sh t h. violated_pairs (kind_of sh) t h };

    ghost delta = { λ sh t h p x. pos (violated_with (kind_of sh) t h p x) };

    ghost most = { λ _ n. n * (n - 1) / 2 };

    ghost empty = { λ sh t n. violated_pairs-empty (kind_of sh) t n };

    ghost split = { λ sh t h p x e. violated_pairs-split (kind_of sh) t h p x e };

    ghost bound = { λ sh t h. violated_pairs-most (kind_of sh) t h };

    ghost small = { λ g. few_pairs (length (held_of g)) g.few };

    ghost rooms = { λ g t kept. kept.rooms };

    ghost in_weeks = { λ g t kept. AreBelow-all (held_of g) };

    fn amount(&self) -> u64 {
        self.amount
    }

    fn gain(&self, travel: &Travel, place: u32, spot: Spot) -> i64 {
        self.violated_with(travel, place as usize, &spot) as i64
    }

    fn put(&mut self, travel: &Travel, place: u32, spot: Spot) {
        let place = place as usize;
        self.amount += self.violated_with(travel, place, &spot);
        self.held[place] = Some(spot);
    }

    fn take(&mut self, travel: &Travel, place: u32) -> Spot {
        let place = place as usize;
        let Some(spot) = self.held[place] else {
            unreachable!()
        };
        self.amount -= self.violated_with(travel, place, &spot);
        self.held[place] = None;
        spot
    }
}

/// Where another member stands in the list of a rule's members. By ITC 2019, the first spot of a
/// pair is that of the member listed earlier.
#[derive(Clone, Copy, Debug, PartialEq, Eq)]
pub enum Listed {
    /// Its spot is the first of the pair.
    Before,
    /// Its spot is the second of the pair.
    After,
}

// How many of the other members, all listed before or all after, are placed and break the rule
// with the spot.
fn violated_by(
    kind: PairKind,
    travel: &Travel,
    spot: &Spot,
    listed: Listed,
    members: &[Option<Spot>],
) -> u64
    requires room { IsRoomOf travel.now spot.now.room }
    requires rooms { AreRoomsOf travel.now members.now }
    ensures count { result
        ≡ count_by (is_violated_by kind travel.now spot.now listed) (placed members.now) }
    ensures few { result ≤ length members.now }
{
    let mut violated = 0;
    for member in members {
        if is_violated_by(kind, travel, spot, listed, member) {
            violated += 1;
        }
    }
    violated
}

/// Whether another member, listed before or after, is placed and breaks the rule with the spot: its
/// spot comes first in the pair where it is listed before.
pub fn is_violated_by(
    kind: PairKind,
    travel: &Travel,
    spot: &Spot,
    listed: Listed,
    member: &Option<Spot>,
) -> bool
    requires room { IsRoomOf travel.now spot.now.room }
    requires other_room { IfSome member.now (λ y. IsRoomOf travel.now y.room) }
    ensures { result
        ≡ option_map_or (is_violated_by kind travel.now spot.now listed) member.now false }
{
    let Some(other) = member else {
        return false;
    };
    match listed {
        Listed::Before => is_violated(kind, travel, other, spot),
        Listed::After => is_violated(kind, travel, spot, other),
    }
}

// Whether two spots break the rule, the first that of the member listed earlier.
#[tactic(auto, unfolding(crate::specs::ViolatedPairs::is_violated))]
fn is_violated(kind: PairKind, travel: &Travel, a: &Spot, b: &Spot) -> bool
    requires first { IsRoomOf travel.now a.now.room }
    requires second { IsRoomOf travel.now b.now.room }
    ensures { result ≡ is_violated kind travel.now a.now b.now }
{
    !holds_between(kind, a, b, travel.between(a.room, b.room))
}
