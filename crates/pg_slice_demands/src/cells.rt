//! Cells at places on a line.

ghost use Rattle.std.specs.Prelude.{◌≡◌, ◌<◌, ◌≤◌, ◌⊎◌, ◌||◌, ℕ, Bool, false, Option, Some, None, OnOk, OnErr, IfSome, IfNone, unwrap_or};
ghost use Rattle.std.specs.Prelude.{◌==◌, if◌then◌else◌, length};
ghost use Rattle.std.specs.Ordering.{nat_cmp};
ghost use Rattle.std.specs.BTreeMap.{get};
ghost use Rattle.pg_slice_demands.specs.CellLists.{cell_at};

use std::alloc::{AllocError, Global};
use std::collections::BTreeMap;
use std::marker::Model;

/// Cells by their places, and a range of places that is known to have none: from `empty_from` on to before `empty_to`. A cell
/// tells whether all of it has to be known, or only the bounds of the pointer that it holds.
#[derive(Drop)]
pub(crate) struct Cells {
    by_place: BTreeMap<u64, bool>,
    empty_from: u64,
    empty_to: u64,
}

impl Model for Cells {
    ghost use Rattle.pg_slice_demands.specs.CellLists.{CellList, IsEmptyIn};

    ghost Value = { CellList };

    ghost view = { λ c. c.by_place.entries };

    ghost invariant = { λ c. IsEmptyIn c.by_place.entries c.empty_from c.empty_to };
}

impl Cells {
    /// No cells.
    pub(crate) fn new(alloc: Global) -> Cells
        ensures { (q : ℕ) → cell_at result q ≡ None }
    {
        Cells {
            by_place: BTreeMap::new(alloc),
            empty_from: 0,
            empty_to: u64::MAX,
        }
    }

    /// The cell at a place has to be known, whole or its bounds alone. One that has to be known whole still has.
    pub(crate) fn put(&mut self, place: u64, whole: bool) -> Result<(), AllocError>
        ensures only { OnOk result ((q : ℕ) (w : Bool) → cell_at self.new q ≡ Some w → (cell_at self.old q ≡ Some w) ⊎ ((q ≡ place) × (w ≡ whole))) }
        ensures asked { OnOk result (cell_at self.new place ≡ Some (whole || unwrap_or (cell_at self.old place) false)) }
        ensures rest { OnOk result ((q : ℕ) → (q ≡ place → ⊥) → cell_at self.new q ≡ cell_at self.old q) }
        ensures err { OnErr result ((q : ℕ) → cell_at self.new q ≡ cell_at self.old q) }
    {
        self.empty_from = behind(self.empty_from, self.empty_to, place);
        insert(&mut self.by_place, place, whole)
    }

    /// Nothing is asked of the cell at a place any more; gives what was.
    pub(crate) fn take(&mut self, place: u64) -> Option<bool>
        ensures was { result ≡ cell_at self.old place }
        ensures rest { (q : ℕ) → cell_at self.new q ≡ (if q == place then None else cell_at self.old q) }
        ensures no_more { length self.new ≤ length self.old }
        ensures less { IfSome result (λ w. length self.new < length self.old) }
    {
        self.by_place.remove(&place)
    }

    /// The first place in a range of places whose cell has to be known.
    pub(crate) fn first_in(&self, from: u64, to: u64) -> Option<u64>
        ensures some { IfSome result (λ q. (from ≤ q) × (q < to) × ((w : Bool) × (cell_at self.now q ≡ Some w))) }
        ensures first { IfSome result (λ q. (k : ℕ) (w : Bool) → from ≤ k → k < to → cell_at self.now k ≡ Some w → q ≤ k) }
        ensures none { IfNone result ((q : ℕ) → from ≤ q → q < to → cell_at self.now q ≡ None) }
    {
        match self.by_place.range(from..).next() {
            Some((place, _)) if *place < to => Some(*place),
            _ => None,
        }
    }

    /// Nothing is asked any more of the cells of a range of places before the first place of it that has none.
    fn take_row(&mut self, from: u64, to: u64)
        ensures only { (q : ℕ) (w : Bool) → cell_at self.new q ≡ Some w → cell_at self.old q ≡ Some w }
        ensures rest { (q : ℕ) → (from ≤ q → q < to → ⊥) → cell_at self.new q ≡ cell_at self.old q }
        ensures no_more { length self.new ≤ length self.old }
    {
        for place in from..to {
            if self.take(place).is_none() {
                return;
            }
        }
    }

    /// Nothing is asked of the cells in a range of places any more. The range that is known to have none stays as it is.
    pub(crate) fn clear(&mut self, from: u64, to: u64)
        ensures only { (q : ℕ) (w : Bool) → cell_at self.new q ≡ Some w → (cell_at self.old q ≡ Some w) × (from ≤ q → q < to → ⊥) }
        ensures rest { (q : ℕ) → (from ≤ q → q < to → ⊥) → cell_at self.new q ≡ cell_at self.old q }
    {
        while let Some(place) = self.first_in(from, to) {
            let _was = self.take(place);
            self.take_row(place + 1, to);
        }
    }

    /// The same, and it is known afterwards that the range has no cell. Where that is known before, nothing is looked for.
    pub(crate) fn clear_known(&mut self, from: u64, to: u64)
        ensures only { (q : ℕ) (w : Bool) → cell_at self.new q ≡ Some w → (cell_at self.old q ≡ Some w) × (from ≤ q → q < to → ⊥) }
        ensures rest { (q : ℕ) → (from ≤ q → q < to → ⊥) → cell_at self.new q ≡ cell_at self.old q }
    {
        if self.empty_from <= from && to <= self.empty_to {
            return;
        }
        self.clear(from, to);
        if from <= self.empty_to && self.empty_from <= to {
            self.empty_from = self.empty_from.min(from);
            self.empty_to = self.empty_to.max(to);
        } else {
            self.empty_from = from;
            self.empty_to = to;
        }
    }
}

/// Where a range begins without a place: behind it, if it was in the range.
fn behind(from: u64, to: u64, place: u64) -> u64
    ensures later { from ≤ result }
    ensures out { place < to → place < result }
{
    if from <= place && place < to {
        place + 1
    } else {
        from
    }
}

/// The cell at a place, if there is one.
fn at(cells: &BTreeMap<u64, bool>, place: u64) -> Option<bool>
    ensures { result ≡ get nat_cmp cells.now place }
{
    cells.get(&place).copied()
}

/// The cell at a place has to be known, whole or its bounds alone.
fn insert(cells: &mut BTreeMap<u64, bool>, place: u64, whole: bool) -> Result<(), AllocError>
    ensures only { OnOk result ((q : ℕ) (w : Bool) → get nat_cmp cells.new q ≡ Some w → (get nat_cmp cells.old q ≡ Some w) ⊎ ((q ≡ place) × (w ≡ whole))) }
    ensures asked { OnOk result (get nat_cmp cells.new place ≡ Some (whole || unwrap_or (get nat_cmp cells.old place) false)) }
    ensures rest { OnOk result ((q : ℕ) → (q ≡ place → ⊥) → get nat_cmp cells.new q ≡ get nat_cmp cells.old q) }
    ensures err { OnErr result ((q : ℕ) → get nat_cmp cells.new q ≡ get nat_cmp cells.old q) }
{
    if whole || at(cells, place).is_none() {
        cells.insert(place, whole)?;
    }
    Ok(())
}
