//! Places in a chain, and what finds the one that a call means.

ghost use Rattle.std.specs.Prelude.{◌≡◌, ◌≢◌, ℕ, ◌==◌, ◌+◌, ◌<◌, ◌≤◌, true, [], ◌∷◌, ◌++◌, length, map, nat_lt, slice_index};
ghost use Rattle.std.specs.List.{remove, position_or_len};
ghost use Rattle.std.specs.List.Sorted.{IsNonDecreasing};
ghost use Rattle.tt_pool.specs.Chains.{chain_of, uses, item_of, IsChain, IsPlace, StandsAt, LeadsBack};

use crate::chain::{Chain, Link, Node, node_after};

/// A place in a chain: so many nodes stand before it, and the last of them, where there is one.
#[derive(Clone, Copy)]
pub struct Place {
    pub at: u32,
    pub before: Link,
}

/// The place in a chain with so many nodes before it.
pub fn place_at(nodes: &[Node], chain: Chain, at: u32) -> Place
    requires chain { IsChain nodes.now (chain_of nodes.now chain) }
    requires at { at ≤ chain.len }
    ensures place { IsPlace nodes.now chain result }
    ensures at { result.at ≡ at }
{
    if at == 0 {
        return Place {
            at,
            before: chain.first,
        };
    }
    let before = node_after(nodes, chain.first, at - 1);
    Place { at, before }
}

// The place of the first node in a chain that has this item, and the end where none has it.
fn place_of(nodes: &[Node], chain: Chain, item: u32) -> Place
    requires { IsChain nodes.now (chain_of nodes.now chain) }
    ensures place { IsPlace nodes.now chain result }
    ensures at { result.at
        ≡ position_or_len (λ x. x == item) (map (item_of nodes.now) (chain_of nodes.now chain)) }
{
    let mut before = chain.first;
    let mut node = chain.first;
    for at in 0..chain.len {
        let here = nodes[node.0 as usize];
        if here.item == item {
            return Place { at, before };
        }
        before = node;
        node = here.next;
    }
    Place {
        at: chain.len,
        before,
    }
}

// The place of the first node in a chain whose item is above this one, and the end where none is.
fn place_above(nodes: &[Node], chain: Chain, item: u32) -> Place
    requires { IsChain nodes.now (chain_of nodes.now chain) }
    ensures place { IsPlace nodes.now chain result }
    ensures at { result.at
        ≡ position_or_len (nat_lt item) (map (item_of nodes.now) (chain_of nodes.now chain)) }
{
    let mut before = chain.first;
    let mut node = chain.first;
    for at in 0..chain.len {
        let here = nodes[node.0 as usize];
        if item < here.item {
            return Place { at, before };
        }
        before = node;
        node = here.next;
    }
    Place {
        at: chain.len,
        before,
    }
}

/// Where an item goes into a chain: before the first node whose item is above it. In a list that is
/// in order the last item tells whether there is such a node.
pub fn place_to_put(
    nodes: &[Node],
    backs: &[Link],
    chain: Chain,
    end: usize,
    ordered: bool,
    item: u32,
) -> Place
    requires chain { IsChain nodes.now (chain_of nodes.now chain) }
    requires back { LeadsBack backs.now end (chain_of nodes.now chain) }
    requires end { end < length backs.now }
    requires order { ordered ≡ true
        → IsNonDecreasing (map (item_of nodes.now) (chain_of nodes.now chain)) }
    ensures place { IsPlace nodes.now chain result }
    ensures at { result.at
        ≡ position_or_len (nat_lt item) (map (item_of nodes.now) (chain_of nodes.now chain)) }
{
    if ordered && chain.len > 0 {
        let last = backs[end];
        if nodes[last.0 as usize].item <= item {
            return Place {
                at: chain.len,
                before: last,
            };
        }
    }
    place_above(nodes, chain, item)
}

/// The place of a node in a chain that has this item, so that the list without it is the list without
/// the first such item. In a list that is in order it may be the last node.
pub fn place_to_take(
    nodes: &[Node],
    backs: &[Link],
    chain: Chain,
    end: usize,
    ordered: bool,
    item: u32,
) -> Place
    requires chain { IsChain nodes.now (chain_of nodes.now chain) }
    requires back { LeadsBack backs.now end (chain_of nodes.now chain) }
    requires end { end < length backs.now }
    requires nodes { length nodes.now ≤ length backs.now }
    requires order { ordered ≡ true
        → IsNonDecreasing (map (item_of nodes.now) (chain_of nodes.now chain)) }
    requires found { 0 < uses item (map (item_of nodes.now) (chain_of nodes.now chain)) }
    ensures place { IsPlace nodes.now chain result }
    ensures at { result.at < chain.len }
    ensures rest { remove (map (item_of nodes.now) (chain_of nodes.now chain)) result.at
        ≡ remove (map (item_of nodes.now) (chain_of nodes.now chain)) (position_or_len
        (λ x. x == item) (map (item_of nodes.now) (chain_of nodes.now chain))) }
{
    if ordered {
        let last = backs[end];
        if nodes[last.0 as usize].item == item {
            return Place {
                at: chain.len - 1,
                before: backs[last.0 as usize],
            };
        }
    }
    place_of(nodes, chain, item)
}

/// The place behind the node at this one.
pub fn next_place(nodes: &[Node], chain: Chain, place: Place) -> Place
    requires chain { IsChain nodes.now (chain_of nodes.now chain) }
    requires place { IsPlace nodes.now chain place }
    requires at { place.at < chain.len }
    ensures place { IsPlace nodes.now chain result }
    ensures at { result.at ≡ place.at + 1 }
{
    let at = place.at + 1;
    if place.at == 0 {
        return Place {
            at,
            before: chain.first,
        };
    }
    Place {
        at,
        before: nodes[place.before.0 as usize].next,
    }
}

/// The number of the node at a place, and at the end that of the end.
pub fn node_at(nodes: &[Node], chain: Chain, place: Place, end: usize) -> usize
    requires chain { IsChain nodes.now (chain_of nodes.now chain) }
    requires place { IsPlace nodes.now chain place }
    ensures { result ≡ slice_index (chain_of nodes.now chain ++ end ∷ []) place.at }
{
    if place.at == chain.len {
        return end;
    }
    let next = next_place(nodes, chain, place);
    next.before.0 as usize
}

/// What stands behind a node of a chain: the next node, and behind the last one the end.
pub fn behind_node(nodes: &[Node], backs: &[Link], end: usize, node: Link) -> usize
    requires node { node.0 < length nodes.now }
    requires end { end < length backs.now }
    ensures { (chain : Chain) (at : ℕ)
        → StandsAt nodes.now backs.now end chain at node
        → result ≡ slice_index (chain_of nodes.now chain ++ end ∷ []) (at + 1) }
{
    if backs[end].0 == node.0 {
        return end;
    }
    nodes[node.0 as usize].next.0 as usize
}

/// The node before a place, 0 where none is.
pub fn back_from(place: Place) -> Link
    ensures first { place.at ≡ 0 → result.0 ≡ 0 }
    ensures other { place.at ≢ 0 → result.0 ≡ place.before.0 }
{
    if place.at == 0 { Link(0) } else { place.before }
}
