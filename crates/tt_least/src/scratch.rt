//! What a search works in.

use crate::groups::Groups;

/// What a search works in: tables of groups, what each class costs by one of them, what the
/// cheapest of each subpart costs, and the choice that is looked at and the one that was found
/// last, by subpart.
#[derive(Drop)]
pub struct Scratch {
    pub groups: Vec<Groups>,
    pub costs: Vec<u64>,
    pub leasts: Vec<u64>,
    pub front: Vec<u32>,
    pub best: Vec<u32>,
}
