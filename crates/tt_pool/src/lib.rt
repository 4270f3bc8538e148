//! Many lists of numbers in one vector of nodes. After any calls each list is what `insert`,
//! `insert_first`, `insert_in_order`, `remove`, `remove_item` and `remove_at_node` make of it, and
//! `spare` is how many items more find room (`lists`, `spare`). Where it is told (`nodes`), an item
//! stands at one node until it goes, and by that goes with no list gone over. Only `new` takes memory.
#![tactic(auto)]

ghost use Rattle.std.specs.Prelude.{◌≡◌, ℕ, ◌==◌, ◌+◌, ◌<◌, ◌≤◌, List, [], ◌∷◌, length, map, IfOk, nat_lt, slice_index, slice_set, replicate, count_by};
ghost use Rattle.std.specs.List.{insert, remove, position_or_len};
ghost use Rattle.std.specs.Iterator.{YieldsFirst, item_count};
ghost use Rattle.tt_pool.specs.Chains.{after, path, item_of};
ghost use Rattle.tt_pool.specs.Pools.{Pooled, list_at, nodes_at, lists_of, KeepsNodes, node_bound};

mod chain;
mod order;
mod places;

use chain::{Chain, Link, Node, node_after, put, take};
pub use order::place_in_order;
use places::{Place, next_place, place_at, place_to_put, place_to_take};
use std::alloc::{AllocError, Global};
use std::marker::Model;

/// Many lists of numbers in one vector of nodes. Contracts see the lists, the node of each of their
/// items and how many items more find room.
#[derive(Drop)]
pub struct Pool {
    nodes: Vec<Node>,
    lists: Vec<Chain>,
    // The node before each node of a list, and behind these the last node of each list. 0 where none is.
    backs: Vec<Link>,
    free: Chain,
    // Whether each list is in order, as it is while no item was put at a place that a caller named.
    ordered: bool,
}

impl Model for Pool {
    ghost use Rattle.tt_pool.specs.Pools.{Pooled};

    ghost Value = { Pooled };

    ghost use Rattle.tt_pool.specs.Pools.{chains_of, lists_of, PoolIsKept};

    ghost view = { λ p. record {
      lists = lists_of p.nodes.items p.lists.items;
      nodes = chains_of p.nodes.items p.lists.items;
      spare = p.free.len;
    } };

    ghost invariant = { λ p. PoolIsKept p.nodes.items p.lists.items p.backs.items p.free p.ordered };
}

impl Pool {
    /// Empty lists, with room for so many items.
    pub fn new(alloc: Global, lists: u32, nodes: u32) -> Result<Pool, AllocError>
        requires { nodes < node_bound }
        ensures lists { IfOk result (λ p. p.lists ≡ replicate lists []) }
        ensures nodes { IfOk result (λ p. p.nodes ≡ replicate lists []) }
        ensures spare { IfOk result (λ p. p.spare ≡ nodes) }
    {
        let none = Chain {
            first: Link(0),
            len: 0,
        };
        let backs = vec![in alloc; Link(0); nodes as usize + lists as usize]?;
        let lists = vec![in alloc; none; lists as usize]?;
        let mut links = Vec::with_capacity(alloc, nodes as usize)?;
        for node in 0..nodes {
            links.push(Node {
                item: 0,
                next: Link(node + 1),
            })?;
        }
        let free = Chain {
            first: Link(0),
            len: nodes,
        };
        Ok(Pool {
            nodes: links,
            lists,
            backs,
            free,
            ordered: true,
        })
    }

    /// Puts an item into a list, before the one at this place.
    pub fn insert(&mut self, list: u32, at: u32, item: u32)
        requires list { list < length self.old.lists }
        requires at { at ≤ length (list_at self.old list) }
        requires spare { 1 ≤ self.old.spare }
        ensures lists { self.new.lists
            ≡ slice_set self.old.lists list (insert (list_at self.old list) at item) }
        ensures others { KeepsNodes list self.old self.new }
        ensures spare { self.new.spare + 1 ≡ self.old.spare }
    {
        let nodes = self.nodes.as_mut_slice();
        let lists = self.lists.as_mut_slice();
        let backs = self.backs.as_mut_slice();
        let place = place_at(nodes, lists[list as usize], at);
        self.ordered = false;
        self.free = put(nodes, lists, backs, self.free, list, place, item);
    }

    /// Puts an item into a list, before all others. Answers the node at which it stands from then on.
    pub fn insert_first(&mut self, list: u32, item: u32) -> u32
        requires list { list < length self.old.lists }
        requires spare { 1 ≤ self.old.spare }
        ensures lists { self.new.lists
            ≡ slice_set self.old.lists list (item ∷ list_at self.old list) }
        ensures nodes { self.new.nodes
            ≡ slice_set self.old.nodes list (result ∷ nodes_at self.old list) }
        ensures spare { self.new.spare + 1 ≡ self.old.spare }
    {
        let nodes = self.nodes.as_mut_slice();
        let lists = self.lists.as_mut_slice();
        let backs = self.backs.as_mut_slice();
        let node = self.free.first.0;
        let place = Place {
            at: 0,
            before: self.free.first,
        };
        self.ordered = false;
        self.free = put(nodes, lists, backs, self.free, list, place, item);
        node
    }

    /// Puts an item into a list, before the first that is above it.
    pub fn insert_in_order(&mut self, list: u32, item: u32)
        requires list { list < length self.old.lists }
        requires spare { 1 ≤ self.old.spare }
        ensures lists { self.new.lists
            ≡ slice_set self.old.lists list (insert (list_at self.old list)
            (position_or_len (nat_lt item) (list_at self.old list)) item) }
        ensures others { KeepsNodes list self.old self.new }
        ensures spare { self.new.spare + 1 ≡ self.old.spare }
    {
        let nodes = self.nodes.as_mut_slice();
        let lists = self.lists.as_mut_slice();
        let backs = self.backs.as_mut_slice();
        let end = nodes.len() + list as usize;
        let chain = lists[list as usize];
        let place = place_to_put(nodes, backs, chain, end, self.ordered, item);
        self.free = put(nodes, lists, backs, self.free, list, place, item);
    }

    /// Takes the item at a place out of a list.
    pub fn remove(&mut self, list: u32, at: u32) -> u32
        requires list { list < length self.old.lists }
        requires at { at < length (list_at self.old list) }
        ensures lists { self.new.lists
            ≡ slice_set self.old.lists list (remove (list_at self.old list) at) }
        ensures nodes { self.new.nodes
            ≡ slice_set self.old.nodes list (remove (nodes_at self.old list) at) }
        ensures item { result ≡ slice_index (list_at self.old list) at }
        ensures spare { self.new.spare ≡ self.old.spare + 1 }
    {
        let nodes = self.nodes.as_mut_slice();
        let lists = self.lists.as_mut_slice();
        let backs = self.backs.as_mut_slice();
        let node = node_after(nodes, lists[list as usize].first, at);
        let (free, item) = take(nodes, lists, backs, self.free, list, node);
        self.free = free;
        item
    }

    /// Takes the first of this item out of a list that has it.
    pub fn remove_item(&mut self, list: u32, item: u32)
        requires list { list < length self.old.lists }
        requires found { 0 < count_by (λ x. x == item) (list_at self.old list) }
        ensures lists { self.new.lists
            ≡ slice_set self.old.lists list (remove (list_at self.old list)
            (position_or_len (λ x. x == item) (list_at self.old list))) }
        ensures others { KeepsNodes list self.old self.new }
        ensures spare { self.new.spare ≡ self.old.spare + 1 }
    {
        let nodes = self.nodes.as_mut_slice();
        let lists = self.lists.as_mut_slice();
        let backs = self.backs.as_mut_slice();
        let end = nodes.len() + list as usize;
        let chain = lists[list as usize];
        let place = place_to_take(nodes, backs, chain, end, self.ordered, item);
        let behind = next_place(nodes, chain, place);
        let (free, _) = take(nodes, lists, backs, self.free, list, behind.before);
        self.free = free;
    }

    /// The same, where the node of the first of this item is known: no list is gone over.
    pub fn remove_at_node(&mut self, list: u32, item: u32, node: u32)
        requires list { list < length self.old.lists }
        requires found { 0 < count_by (λ x. x == item) (list_at self.old list) }
        requires node { node
            ≡ slice_index (nodes_at self.old list)
            (position_or_len (λ x. x == item) (list_at self.old list)) }
        ensures lists { self.new.lists
            ≡ slice_set self.old.lists list (remove (list_at self.old list)
            (position_or_len (λ x. x == item) (list_at self.old list))) }
        ensures nodes { self.new.nodes
            ≡ slice_set self.old.nodes list (remove (nodes_at self.old list)
            (position_or_len (λ x. x == item) (list_at self.old list))) }
        ensures spare { self.new.spare ≡ self.old.spare + 1 }
    {
        let nodes = self.nodes.as_mut_slice();
        let lists = self.lists.as_mut_slice();
        let backs = self.backs.as_mut_slice();
        prove!(nodes[node as usize].item == item);
        let (free, _) = take(nodes, lists, backs, self.free, list, Link(node));
        self.free = free;
    }

    /// How many items a list has.
    pub fn len(&self, list: u32) -> u32
        requires { list < length self.now.lists }
        ensures { result ≡ length (list_at self.now list) }
    {
        self.lists[list as usize].len
    }

    /// The items of a list, in order.
    pub fn items(&self, list: u32) -> Items
        requires { list < length self.now.lists }
        ensures items { result ≡ list_at self.now list }
        ensures few { length result < node_bound }
    {
        let chain = self.lists[list as usize];
        Items {
            nodes: self.nodes.as_slice(),
            next: chain.first,
            left: chain.len,
        }
    }

    /// How many items more find room.
    pub fn spare(&self) -> u32
        ensures { result ≡ self.now.spare }
    {
        self.free.len
    }
}

/// The items of a list, in order: contracts see those still to come.
#[derive(Drop)]
pub struct Items<'a> {
    nodes: &'a [Node],
    next: Link,
    left: u32,
}

impl<'a> Model for Items<'a> {
    ghost use Rattle.std.specs.Prelude.{List, ℕ, map, length, ◌<◌};
    ghost use Rattle.tt_pool.specs.Chains.{after, path, item_of};

    ghost Value = { List ℕ };

    ghost view = { λ i. map (item_of i.nodes.now) (path i.nodes.now i.left i.next.0) };

    ghost invariant = { λ i. (k : ℕ) → k < i.left → after i.nodes.now k i.next.0 < length i.nodes.now };
}

impl<'a> Iterator for Items<'a> {
    type Item = u32;

    ghost next_gives = { YieldsFirst (λ items. items) };

    ghost remaining = { item_count (λ items. items) };

    fn next(&mut self) -> Option<u32> {
        if self.left == 0 {
            return None;
        }
        let node = self.nodes[self.next.0 as usize];
        self.next = node.next;
        self.left -= 1;
        Some(node.item)
    }
}
