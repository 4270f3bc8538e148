//! Chains of nodes, and what moves a node, and with it an item, into a list and out of it.

ghost use Rattle.std.specs.Prelude.{◌≡◌, ℕ, ◌+◌, ◌<◌, ◌≤◌, [], ◌++◌, length, slice_index, slice_index_or, slice_set};
ghost use Rattle.std.specs.List.{insert, remove};
ghost use Rattle.tt_pool.specs.Chains.{after, chain_of, uses, IsChain, IsPlace, IsNodeAt, ArePair, KeepsOthers, KeepsItems};
ghost use Rattle.tt_pool.specs.Pools.{chain_at, chains_of, lists_of, IsPool, IsBacked, node_bound};

use crate::places::{Place, back_from, behind_node, node_at};

/// The number of a node in a pool.
#[derive(Clone, Copy)]
pub struct Link(pub u32);

/// An item of a chain, and the node that comes next.
#[derive(Clone, Copy)]
pub struct Node {
    pub item: u32,
    pub next: Link,
}

/// So many nodes, from the first on.
#[derive(Clone, Copy)]
pub struct Chain {
    pub first: Link,
    pub len: u32,
}

/// The node that is so many steps from the first.
#[tactic(auto, using(crate::proofs::Paths::after_more))]
pub fn node_after(nodes: &[Node], first: Link, steps: u32) -> Link
    requires { (k : ℕ) → k ≤ steps → after nodes.now k first.0 < length nodes.now }
    ensures { result.0 ≡ after nodes.now steps first.0 }
{
    let mut node = first;
    for step in 0..steps {
        node = nodes[node.0 as usize].next;
    }
    node
}

// Puts a node into a chain.
fn attach(nodes: &mut [Node], chain: Chain, place: Place, node: Link) -> Chain
    requires chain { IsChain nodes.old (chain_of nodes.old chain) }
    requires node { node.0 < length nodes.old }
    requires new { uses node.0 (chain_of nodes.old chain) ≡ 0 }
    requires place { IsPlace nodes.old chain place }
    requires room { chain.len < node_bound }
    ensures chain { chain_of nodes.new result ≡ insert (chain_of nodes.old chain) place.at node.0 }
    ensures len { result.len ≡ chain.len + 1 }
    ensures others { KeepsOthers (insert (chain_of nodes.old chain) place.at node.0) nodes.old
        nodes.new }
    ensures items { KeepsItems nodes.old nodes.new }
{
    let Place { at, before } = place;
    let len = chain.len + 1;
    if at == 0 {
        nodes[node.0 as usize].next = chain.first;
        Chain { first: node, len }
    } else {
        nodes[node.0 as usize].next = nodes[before.0 as usize].next;
        nodes[before.0 as usize].next = node;
        Chain {
            first: chain.first,
            len,
        }
    }
}

// Takes a node out of a chain. `before` is the node before it, where there is one.
fn detach(nodes: &mut [Node], chain: Chain, node: Link, before: Link) -> Chain
    ghost at: { ℕ }
    requires chain { IsChain nodes.old (chain_of nodes.old chain) }
    requires node { IsNodeAt nodes.old chain at node before }
    ensures chain { chain_of nodes.new result ≡ remove (chain_of nodes.old chain) at }
    ensures len { result.len + 1 ≡ chain.len }
    ensures others { KeepsOthers (chain_of nodes.old chain) nodes.old nodes.new }
    ensures items { KeepsItems nodes.old nodes.new }
{
    let next = nodes[node.0 as usize].next;
    let len = chain.len - 1;
    if node.0 == chain.first.0 {
        Chain { first: next, len }
    } else {
        nodes[before.0 as usize].next = next;
        Chain {
            first: chain.first,
            len,
        }
    }
}

// What two chains are after a node went from one into the other.
#[derive(Clone, Copy)]
struct Moved {
    from: Chain,
    to: Chain,
}

// Moves a node of one chain to a place in another.
fn transfer(
    nodes: &mut [Node],
    from: Chain,
    node: Link,
    before: Link,
    to: Chain,
    place: Place,
) -> Moved
    ghost at: { ℕ }
    requires chains { ArePair nodes.old (chain_of nodes.old from) (chain_of nodes.old to) }
    requires node { IsNodeAt nodes.old from at node before }
    requires place { IsPlace nodes.old to place }
    requires room { to.len < node_bound }
    ensures from { chain_of nodes.new result.from ≡ remove (chain_of nodes.old from) at }
    ensures to { chain_of nodes.new result.to ≡ insert (chain_of nodes.old to) place.at node.0 }
    ensures less { result.from.len + 1 ≡ from.len }
    ensures more { result.to.len ≡ to.len + 1 }
    ensures others { KeepsOthers (chain_of nodes.old from ++ chain_of nodes.old to) nodes.old
        nodes.new }
    ensures items { KeepsItems nodes.old nodes.new }
{
    let from = detach(nodes, from, node, before);
    let to = attach(nodes, to, place, node);
    Moved { from, to }
}

// Puts an item into a list, in the first free node. Answers the other free nodes.
fn put_in(
    nodes: &mut [Node],
    lists: &mut [Chain],
    free: Chain,
    list: u32,
    place: Place,
    item: u32,
) -> Chain
    requires pool { IsPool nodes.old lists.old free }
    requires list { list < length lists.old }
    requires place { IsPlace nodes.old (chain_at lists.old list) place }
    requires spare { 1 ≤ free.len }
    ensures pool { IsPool nodes.new lists.new result }
    ensures lists { lists_of nodes.new lists.new
        ≡ slice_set (lists_of nodes.old lists.old) list
        (insert (slice_index_or (lists_of nodes.old lists.old) list []) place.at item) }
    ensures chains { chains_of nodes.new lists.new
        ≡ slice_set (chains_of nodes.old lists.old) list (insert
        (slice_index_or (chains_of nodes.old lists.old) list []) place.at free.first.0) }
    ensures spare { result.len + 1 ≡ free.len }
{
    let node = free.first;
    let moved = transfer(nodes, free, node, node, lists[list as usize], place);
    nodes[node.0 as usize].item = item;
    lists[list as usize] = moved.to;
    moved.from
}

// Takes the item at a node out of a list. Answers the free nodes, now with this one, and the item.
fn take_out(
    nodes: &mut [Node],
    lists: &mut [Chain],
    free: Chain,
    list: u32,
    node: Link,
    before: Link,
) -> (Chain, u32)
    ghost at: { ℕ }
    requires pool { IsPool nodes.old lists.old free }
    requires list { list < length lists.old }
    requires node { IsNodeAt nodes.old (chain_at lists.old list) at node before }
    ensures pool { IsPool nodes.new lists.new result.0 }
    ensures lists { lists_of nodes.new lists.new
        ≡ slice_set (lists_of nodes.old lists.old) list
        (remove (slice_index_or (lists_of nodes.old lists.old) list []) at) }
    ensures chains { chains_of nodes.new lists.new
        ≡ slice_set (chains_of nodes.old lists.old) list
        (remove (slice_index_or (chains_of nodes.old lists.old) list []) at) }
    ensures item { result.1
        ≡ slice_index (slice_index_or (lists_of nodes.old lists.old) list []) at }
    ensures spare { result.0.len ≡ free.len + 1 }
{
    let first = Place {
        at: 0,
        before: free.first,
    };
    let moved = transfer(nodes, lists[list as usize], node, before, free, first);
    lists[list as usize] = moved.from;
    (moved.to, nodes[node.0 as usize].item)
}

/// Puts an item into a list, and notes the way back.
pub fn put(
    nodes: &mut [Node],
    lists: &mut [Chain],
    backs: &mut [Link],
    free: Chain,
    list: u32,
    place: Place,
    item: u32,
) -> Chain
    requires pool { IsPool nodes.old lists.old free }
    requires backs { IsBacked backs.old (length nodes.old) (chains_of nodes.old lists.old) }
    requires list { list < length lists.old }
    requires place { IsPlace nodes.old (chain_at lists.old list) place }
    requires spare { 1 ≤ free.len }
    ensures pool { IsPool nodes.new lists.new result }
    ensures backs { IsBacked backs.new (length nodes.new) (chains_of nodes.new lists.new) }
    ensures lists { lists_of nodes.new lists.new
        ≡ slice_set (lists_of nodes.old lists.old) list
        (insert (slice_index_or (lists_of nodes.old lists.old) list []) place.at item) }
    ensures chains { chains_of nodes.new lists.new
        ≡ slice_set (chains_of nodes.old lists.old) list (insert
        (slice_index_or (chains_of nodes.old lists.old) list []) place.at free.first.0) }
    ensures spare { result.len + 1 ≡ free.len }
{
    let end = nodes.len() + list as usize;
    let behind = node_at(nodes, lists[list as usize], place, end);
    let before = back_from(place);
    backs[free.first.0 as usize] = before;
    backs[behind] = free.first;
    put_in(nodes, lists, free, list, place, item)
}

/// Takes the item at a node out of a list, and notes the way back. Answers the free nodes, now with
/// this one, and the item.
pub fn take(
    nodes: &mut [Node],
    lists: &mut [Chain],
    backs: &mut [Link],
    free: Chain,
    list: u32,
    node: Link,
) -> (Chain, u32)
    ghost at: { ℕ }
    requires pool { IsPool nodes.old lists.old free }
    requires backs { IsBacked backs.old (length nodes.old) (chains_of nodes.old lists.old) }
    requires list { list < length lists.old }
    requires at { at < (chain_at lists.old list).len }
    requires node { node.0 ≡ after nodes.old at (chain_at lists.old list).first.0 }
    ensures pool { IsPool nodes.new lists.new result.0 }
    ensures backs { IsBacked backs.new (length nodes.new) (chains_of nodes.new lists.new) }
    ensures lists { lists_of nodes.new lists.new
        ≡ slice_set (lists_of nodes.old lists.old) list
        (remove (slice_index_or (lists_of nodes.old lists.old) list []) at) }
    ensures chains { chains_of nodes.new lists.new
        ≡ slice_set (chains_of nodes.old lists.old) list
        (remove (slice_index_or (chains_of nodes.old lists.old) list []) at) }
    ensures item { result.1
        ≡ slice_index (slice_index_or (lists_of nodes.old lists.old) list []) at }
    ensures spare { result.0.len ≡ free.len + 1 }
{
    let end = nodes.len() + list as usize;
    let behind = behind_node(nodes, backs, end, node);
    let before = backs[node.0 as usize];
    backs[behind] = before;
    take_out(nodes, lists, free, list, node, before)
}
