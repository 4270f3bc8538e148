//! What choices are judged by.

ghost use Rattle.std.specs.Prelude.{◌≡◌, ℕ, ◌-◌, false, length, slice_index_or};
ghost use Rattle.tt_least.specs.Judged.{IsIn, IsSized, conflict_in, is_flagged, parent_in, weight_in};

use tt_problem::Span;

/// What choices are judged by: the subparts, and for the classes from a first one on what each
/// costs, its parent, and with which it conflicts, class by class. There is a place for `size`
/// classes, of which `count` stand in it.
#[derive(Clone, Copy)]
pub struct Table<'a> {
    pub subparts: &'a [Span],
    pub first: u32,
    pub count: u32,
    pub size: u32,
    pub weights: &'a [u64],
    pub parents: &'a [Option<u32>],
    pub conflicts: &'a [bool],
}

impl Table<'_> {
    // The place of a class.
    fn place(&self, class: u32) -> usize
        requires class { IsIn self.now class }
        ensures { result ≡ class - self.now.first }
    {
        (class - self.first) as usize
    }

    /// Whether two classes conflict.
    pub(crate) fn conflict(&self, class: u32, other: u32) -> bool
        requires sized { IsSized self.now }
        requires class { IsIn self.now class }
        requires other { IsIn self.now other }
        ensures { result ≡ conflict_in self.now class other }
    {
        self.conflicts[self.place(class) * self.size as usize + self.place(other)]
    }

    /// What a class costs by itself.
    pub(crate) fn weight(&self, class: u32) -> u64
        requires sized { IsSized self.now }
        requires class { IsIn self.now class }
        ensures { result ≡ weight_in self.now class }
    {
        self.weights[self.place(class)]
    }

    /// The parent of a class, if it has one.
    pub(crate) fn parent(&self, class: u32) -> Option<u32>
        requires sized { IsSized self.now }
        requires class { IsIn self.now class }
        ensures { result ≡ parent_in self.now class }
    {
        self.parents[self.place(class)]
    }

    /// Whether a class is among those that are flagged.
    pub(crate) fn has(&self, flags: &[bool], class: u32) -> bool
        requires sized { IsSized self.now }
        requires class { IsIn self.now class }
        requires flags { length flags.now ≡ self.now.size }
        ensures { result ≡ is_flagged self.now flags.now class }
    {
        flags[self.place(class)]
    }

    /// Whether a class conflicts with each of the others, by place.
    pub(crate) fn row(&self, class: u32) -> &[bool]
        requires sized { IsSized self.now }
        requires class { IsIn self.now class }
        ensures len { length result.now ≡ self.now.size }
        ensures row { (d : ℕ) → IsIn self.now d
            → slice_index_or result.now (d - self.now.first) false
            ≡ conflict_in self.now class d }
    {
        let start = self.place(class) * self.size as usize;
        &self.conflicts[start..start + self.size as usize]
    }

    /// Whether a class is one of the table's that are flagged.
    pub(crate) fn is_left(&self, flags: &[bool], class: u32) -> bool
        requires sized { IsSized self.now }
        requires flags { length flags.now ≡ self.now.size }
        ensures { IsIn self.now class → result ≡ is_flagged self.now flags.now class }
    {
        self.first <= class && class < self.first + self.count && self.has(flags, class)
    }
}
