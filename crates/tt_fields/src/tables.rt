//! Tables of lists: a table for one item, and the loop that reads all items by it.

ghost use Rattle.std.specs.Prelude.{◌≡◌, ◌+◌, ◌<◌, ◌≤◌, ℕ, length, All, IfOk, OnOk};
ghost use Rattle.tt_fields.specs.Answer.{Gives, part_of};
ghost use Rattle.tt_fields.specs.Kinds.{each, each_as};
ghost use Rattle.tt_fields.specs.List.{items_of};
ghost use Rattle.tt_fields.specs.Table.{Reading, ReadingOnto};

use crate::answer::FileFault;
use crate::field::Field;
use crate::lists::PartList;
use std::alloc::Global;

/// A table by which an item of a list is read by itself.
pub trait ItemTable<X> {
    /// What an item is read as.
    ghost reads: { Self → Reading X };

    /// What holds of each item that was read.
    ghost valid: { Self → X → Type 0 };

    /// What the table needs.
    ghost ready: { Self → Type 0 };

    /// Reads an item.
    fn read_item(&self, alloc: Global, item: &Field<'_>) -> Result<X, FileFault>
        requires { ready self.now }
        ensures reads { Gives (λ x. x) result (reads self.now (part_of item.now)) }
        ensures valid { IfOk result (λ x. valid self.now x) };
}

/// The items of a list, each read by itself.
#[tactic(auto, using(crate::proofs::Walk::collects_more, crate::proofs::Walk::collects_fault, crate::proofs::Walk::collects_all))]
pub fn read_each<X: Drop, T: ItemTable<X>>(
    alloc: Global,
    table: &T,
    items: &PartList<'_>,
) -> Result<Vec<X>, FileFault>
    requires { T.ready table.now }
    ensures reads { Gives (λ list. list.items) result
        (each_as (T.reads table.now) (items_of items.now)) }
    ensures valid { IfOk result (λ list. All (T.valid table.now) list.items) }
    ensures count { IfOk result (λ list. length list.items ≡ length items.now.values.now) }
{
    let mut list = Vec::with_capacity(alloc, items.values.len())?;
    for (i, value) in items.values.iter().enumerate() {
        let item = (&*items).item(i, value);
        let read = table.read_item(alloc, &item)?;
        list.push(read)?;
    }
    Ok(list)
}

/// A table by which an item of a list is read onto what was read before it.
pub trait NextTable<S> {
    /// What contracts see of what was read.
    ghost Seen: { Type 0 };

    /// The same, of what the code keeps.
    ghost seen: { S → Seen };

    /// What there is after an item.
    ghost reads: { Self → ReadingOnto Seen };

    /// The most items of a list.
    ghost most: { Self → ℕ };

    /// What holds before the item at a place of the list.
    ghost valid: { Self → ℕ → S → Type 0 };

    /// Reads the item at a place of the list.
    fn read_next(
        &self,
        alloc: Global,
        place: usize,
        item: &Field<'_>,
        before: &mut S,
    ) -> Result<(), FileFault>
        requires few { place < most self.now }
        requires valid { valid self.now place before.old }
        ensures reads { Gives (λ _. seen before.new) result
            (reads self.now (part_of item.now) (seen before.old)) }
        ensures valid { OnOk result (valid self.now (place + 1) before.new) };
}

/// Reads the items of a list onto what was read before it.
#[tactic(auto, using(crate::proofs::Walk::threads_more, crate::proofs::Walk::threads_fault, crate::proofs::Walk::threads_all))]
pub fn read_onto<S, T: NextTable<S>>(
    alloc: Global,
    table: &T,
    items: &PartList<'_>,
    before: &mut S,
) -> Result<(), FileFault>
    requires few { length items.now.values.now ≤ T.most table.now }
    requires valid { T.valid table.now 0 before.old }
    ensures reads { Gives (λ _. T.seen before.new) result
        (each (T.reads table.now) (items_of items.now) (T.seen before.old)) }
    ensures valid { OnOk result (T.valid table.now (length items.now.values.now) before.new) }
{
    for (i, value) in items.values.iter().enumerate() {
        let item = (&*items).item(i, value);
        table.read_next(alloc, i, &item, before)?;
    }
    Ok(())
}
