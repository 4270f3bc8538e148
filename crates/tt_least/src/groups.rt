//! Groups of classes that all conflict with one another, and their prices.

/// A group for each class, of which any two classes conflict, named by the place of the class that
/// it was gathered round; the names of the groups, at the front, and how many there are; a price
/// for each group, and what is owed for the prices. For a change of the prices, how many subparts
/// have their cheapest classes in the group alone, and how many of the cheapest classes are in it.
#[derive(Drop)]
pub struct Groups {
    pub group_of: Vec<u32>,
    pub names: Vec<u32>,
    pub count: usize,
    pub prices: Vec<u64>,
    pub owed: u64,
    pub alone: Vec<u64>,
    pub among: Vec<u64>,
}
