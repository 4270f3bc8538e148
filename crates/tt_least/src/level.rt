//! A node of the search.

ghost use Rattle.std.specs.Prelude.{◌≡◌, ℕ, length, None, slice_index_or};
ghost use Rattle.tt_least.specs.Judged.{IsTable};
ghost use Rattle.tt_least.specs.Nodes.{HasPlaces, IsNode};

use crate::table::Table;

/// A node of the search: by class which are left, which are of a subpart whose class is still to
/// come, and what each costs with those that are chosen; by subpart the class that is chosen; and
/// how many pairs are counted.
#[derive(Drop)]
pub struct Level {
    pub left: Vec<bool>,
    pub to_come: Vec<bool>,
    pub weights: Vec<u64>,
    pub chosen: Vec<Option<u32>>,
    pub pairs: u64,
}

/// Begins with the node in which no class is chosen.
pub(crate) fn start(table: &Table, level: &mut Level, left: &[bool])
    requires table { IsTable table.now }
    requires places { HasPlaces table.now.size level.old }
    requires left { length left.now ≡ table.now.size }
    ensures places { HasPlaces table.now.size level.new }
    ensures left { level.new.left.items ≡ left.now }
    ensures none { (k : ℕ) → slice_index_or level.new.chosen.items k None ≡ None }
    ensures node { IsNode table.now level.new }
{
    level.left.as_mut_slice().copy_from_slice(left);
    level.to_come.as_mut_slice().fill(true);
    level.weights.as_mut_slice().copy_from_slice(table.weights);
    level.chosen.as_mut_slice().fill(None);
    level.pairs = 0;
}
