//! Which touches are answered by another, before or behind.

ghost use Rattle.std.specs.Prelude.{◌≡◌, ◌<◌, ◌≤◌, ◌+◌, ◌%◌, [], IfOk, OnOk, None, Some, length, nat_eq, nat_le, slice_get, ◌/◌};
ghost use Rattle.indexmap.specs.IndexMap.{get};
ghost use Rattle.pg_schedule.specs.Cells.{AreBest, Noted, cell_at, is_above};
ghost use Rattle.pg_schedule.specs.Touches.{any_byte, before_in, behind_in, range_of};

use crate::block::{self, no_cells};
use crate::table::Table;
use crate::touch::Touch;
use std::alloc::{AllocError, Global};

/// The byte with this number of a touch, from 0 on.
fn byte_of(touch: &Touch, i: u8) -> u64
    ensures { result ≡ touch.now.start + i }
{
    u64::from(touch.start) + u64::from(i)
}

/// Whether the byte has a rank of another thread above the one that the touch needs.
fn is_above(table: &Table, touch: &Touch, byte: u64) -> bool
    ensures { result ≡ is_above (cell_at table.now) touch.now byte }
{
    let best = table.at(byte).met_by(touch.writes);
    touch.need < best.other(touch.thread)
}

/// Whether one of the touch's bytes has a rank of another thread above the one that it needs, byte by byte.
fn is_met_anywhere(table: &Table, touch: &Touch) -> bool
    ensures { result ≡ any_byte (is_above (cell_at table.now) touch.now) touch.now.start touch.now.bytes }
{
    for i in 0..touch.bytes {
        if is_above(table, touch, byte_of(touch, i)) {
            return true;
        }
    }
    false
}

/// Notes the touch at each of its bytes, byte by byte.
fn note_anywhere(table: &mut Table, touch: &Touch) -> Result<(), AllocError>
    requires { AreBest (cell_at table.old) }
    ensures { OnOk result (Noted (cell_at table.old) (cell_at table.new) (range_of touch.now) touch.now) }
{
    for i in 0..touch.bytes {
        let byte = byte_of(touch, i);
        let cell = table.at(byte).with(touch);
        table.set(byte, cell)?;
    }
    Ok(())
}

/// Whether the touch's bytes are of one block.
fn is_in_block(touch: &Touch) -> bool
    ensures { result ≡ nat_le (touch.now.start % 8 + touch.now.bytes) 8 }
{
    touch.start % 8 + u32::from(touch.bytes) <= 8
}

/// Whether one of the touch's bytes, which are of one block, has a rank of another thread above the one that
/// it needs.
fn is_met_in_block(table: &Table, touch: &Touch) -> bool
    requires { touch.now.start % 8 + touch.now.bytes ≤ 8 }
    ensures { result ≡ any_byte (is_above (cell_at table.now) touch.now) touch.now.start touch.now.bytes }
{
    let at = (touch.start % 8) as usize;
    match table.blocks.get(&((touch.start / 8) as u64)) {
        Some(cells) => block::is_met(cells, touch, at),
        None => false,
    }
}

/// Notes the touch in a block, which is its bytes', of which the table has none yet.
fn note_in_new(table: &mut Table, touch: &Touch) -> Result<(), AllocError>
    requires within { touch.now.start % 8 + touch.now.bytes ≤ 8 }
    requires none { get nat_eq table.old.blocks (touch.now.start / 8) ≡ None }
    requires best { AreBest (cell_at table.old) }
    ensures { OnOk result (Noted (cell_at table.old) (cell_at table.new) (range_of touch.now) touch.now) }
{
    let mut cells = no_cells();
    block::note(&mut cells, touch, (touch.start % 8) as usize);
    table.put((touch.start / 8) as u64, cells)?;
    Ok(())
}

/// Notes the touch at each of its bytes, which are of one block.
fn note_in_block(table: &mut Table, touch: &Touch) -> Result<(), AllocError>
    requires within { touch.now.start % 8 + touch.now.bytes ≤ 8 }
    requires best { AreBest (cell_at table.old) }
    ensures { OnOk result (Noted (cell_at table.old) (cell_at table.new) (range_of touch.now) touch.now) }
{
    let at = (touch.start % 8) as usize;
    match table.blocks.get_mut(&((touch.start / 8) as u64)) {
        Some(cells) => {
            block::note(cells, touch, at);
            Ok(())
        }
        None => note_in_new(table, touch),
    }
}

/// Whether one of the touch's bytes has a rank of another thread above the one that it needs.
fn is_met(table: &Table, touch: &Touch) -> bool
    ensures { result ≡ any_byte (is_above (cell_at table.now) touch.now) touch.now.start touch.now.bytes }
{
    if is_in_block(touch) {
        is_met_in_block(table, touch)
    } else {
        is_met_anywhere(table, touch)
    }
}

/// Notes the touch at each of its bytes.
fn note(table: &mut Table, touch: &Touch) -> Result<(), AllocError>
    requires { AreBest (cell_at table.old) }
    ensures { OnOk result (Noted (cell_at table.old) (cell_at table.new) (range_of touch.now) touch.now) }
{
    if is_in_block(touch) {
        note_in_block(table, touch)
    } else {
        note_anywhere(table, touch)
    }
}

/// The touch with this number.
fn touch_at(touches: &[Touch], i: usize) -> Touch
    requires { i < length touches.now }
    ensures { slice_get touches.now i ≡ Some result }
{
    touches[i]
}

/// Of each touch whether one before it answers it.
///
/// # Errors
///
/// Where no memory is left.
pub fn answered_before(alloc: Global, touches: &[Touch]) -> Result<Vec<bool>, AllocError>
    ensures { IfOk result (λ v. v.items ≡ before_in [] touches.now) }
{
    let mut table = Table::new(alloc);
    let mut answered = Vec::with_capacity(alloc, touches.len())?;
    for i in 0..touches.len() {
        let touch = touch_at(touches, i);
        answered.push(is_met(&table, &touch))?;
        note(&mut table, &touch)?;
    }
    Ok(answered)
}

/// Of each touch whether one behind it answers it.
///
/// # Errors
///
/// Where no memory is left.
pub fn answered_behind(alloc: Global, touches: &[Touch]) -> Result<Vec<bool>, AllocError>
    ensures { IfOk result (λ v. v.items ≡ behind_in touches.now) }
{
    let mut table = Table::new(alloc);
    let mut answered = Vec::with_capacity(alloc, touches.len())?;
    for k in 0..touches.len() {
        let touch = touch_at(touches, touches.len() - 1 - k);
        answered.push(is_met(&table, &touch))?;
        note(&mut table, &touch)?;
    }
    answered.reverse();
    Ok(answered)
}
