//! Rows of footprints. In a run the same bytes are accessed many times between two turns: a footprint that is equal to a kept one
//! isn't kept again, and footprints of a step that stand one behind another take one row.

ghost use Rattle.std.specs.Prelude.{◌≡◌, ◌+◌, ◌<◌, ◌≤◌, ◌^◌, ◌++◌, ◌∷◌, [], true, Some, OnOk, length, slice_get};
ghost use Rattle.pg_slice_passes.specs.Rows.{AddsNumber, Begins, in_row};

use crate::footprints::Owner;
use pg_slice_conflicts::Footprint;
use std::alloc::AllocError;

/// How many slots there are for the numbers of kept footprints.
pub(crate) const SLOTS: usize = 16384;

/// Footprints of a step that stand one behind another: so many of the kept ones, from this number on.
#[derive(Clone, Copy)]
pub struct Row {
    pub owner: Owner,
    pub from: usize,
    pub count: usize,
}

/// The row with this number.
pub(crate) fn row_at(rows: &[Row], i: usize) -> Row
    requires { i < length rows.now }
    ensures { slice_get rows.now i ≡ Some result }
{
    rows[i]
}

/// The footprints of a row, of those that are kept.
pub(crate) fn footprints_of(kept: &[Footprint], row: Row) -> &[Footprint]
    requires { row.from + row.count ≤ length kept.now }
    ensures footprints { result.now ≡ in_row kept.now row }
    ensures count { length result.now ≡ row.count }
{
    let rest = &kept[row.from..];
    &rest[..row.count]
}

/// The marks of a row's footprints, of those of the kept ones.
pub(crate) fn marks_of(marks: &[bool], row: Row) -> &[bool]
    requires { row.from + row.count ≤ length marks.now }
    ensures marks { result.now ≡ in_row marks.now row }
    ensures count { length result.now ≡ row.count }
{
    let rest = &marks[row.from..];
    &rest[..row.count]
}

/// The kept footprint with this number, if there is one.
fn kept_at(kept: &[Footprint], number: usize) -> Option<Footprint>
    ensures { result ≡ slice_get kept.now number }
{
    kept.get(number).copied()
}

/// Whether the kept footprint with this number is this one.
pub(crate) fn is_kept(kept: &[Footprint], number: usize, footprint: Footprint) -> bool
    ensures { result ≡ true → slice_get kept.now number ≡ Some footprint }
{
    match kept_at(kept, number) {
        Some(there) => there == footprint,
        None => false,
    }
}

/// The slot of a footprint.
fn slot_of(footprint: Footprint) -> usize {
    let number = footprint.start / 8
        + 1031 * u64::from(footprint.low)
        + 97 * u64::from(footprint.thread.0);
    (number % SLOTS as u64) as usize
}

/// The number behind that of the last row's last footprint; 0 where there is no row.
fn behind_last(rows: &[Row]) -> usize {
    match rows.last() {
        Some(row) => row.from.saturating_add(row.count),
        None => 0,
    }
}

/// The number that the kept footprint may have that is equal to this one: the one behind the last row's, or that of its slot.
pub(crate) fn guess(
    kept: &[Footprint],
    rows: &[Row],
    slots: &[usize],
    footprint: Footprint,
) -> usize {
    let next = behind_last(rows);
    if is_kept(kept, next, footprint) {
        return next;
    }
    match slots.get(slot_of(footprint)) {
        Some(number) => *number,
        None => 0,
    }
}

/// Notes the number of a kept footprint in its slot.
pub(crate) fn remember(slots: &mut [usize], footprint: Footprint, number: usize) {
    let slot = slot_of(footprint);
    if slot < slots.len() {
        slots[slot] = number;
    }
}

/// Whether a row goes on with the kept footprint of this number, for this step.
fn goes_on(row: Row, owner: Owner, number: usize) -> bool
    ensures owner { result ≡ true → row.owner ≡ owner }
    ensures number { result ≡ true → number ≡ row.from + row.count }
    ensures room { result ≡ true → row.count + 1 < 2 ^ 64 }
{
    if row.count == usize::MAX || number < row.from || number - row.from != row.count {
        return false;
    }
    row.owner == owner
}

/// A row with the kept footprint of this number alone.
fn begin(rows: &mut Vec<Row>, owner: Owner, number: usize) -> Result<(), AllocError>
    ensures { OnOk result (Begins owner number rows.old.items rows.new.items) }
{
    rows.push(Row {
        owner,
        from: number,
        count: 1,
    })?;
    Ok(())
}

/// A row, and for a step the kept footprint of this number: in the row, if that goes on with it, or else in one of its own.
fn add_behind(rows: &mut Vec<Row>, row: Row, owner: Owner, number: usize) -> Result<(), AllocError>
    ensures { OnOk result (AddsNumber owner number (rows.old.items ++ row ∷ []) rows.new.items) }
{
    if goes_on(row, owner, number) {
        rows.push(Row {
            owner,
            from: row.from,
            count: row.count + 1,
        })?;
        return Ok(());
    }
    rows.push(row)?;
    begin(rows, owner, number)?;
    Ok(())
}

/// For a step the kept footprint of this number more: in the last row, if that goes on with it, or else in one of its own.
pub(crate) fn add_number(rows: &mut Vec<Row>, owner: Owner, number: usize) -> Result<(), AllocError>
    ensures { OnOk result (AddsNumber owner number rows.old.items rows.new.items) }
{
    match rows.pop() {
        Some(row) => add_behind(rows, row, owner, number),
        None => begin(rows, owner, number),
    }
}
