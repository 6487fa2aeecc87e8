//! The cells of eight bytes beside each other.

ghost use Rattle.std.specs.Prelude.{◌≡◌, ◌<◌, ◌≤◌, ◌+◌, ℕ, replicate};
ghost use Rattle.pg_run_trace.specs.Best.{IsBest};
ghost use Rattle.pg_schedule.specs.Cells.{Noted, is_above, nth_cell, no_cell};
ghost use Rattle.pg_schedule.specs.Touches.{any_byte};

use crate::cell::Cell;
use crate::touch::Touch;

/// The cells of a block without accesses.
pub(crate) fn no_cells() -> [Cell; 8]
    ensures { result ≡ replicate 8 no_cell }
{
    let none = Cell::none();
    [none; 8]
}

/// The cell at this place.
fn nth(cells: &[Cell; 8], at: usize) -> Cell
    requires { at < 8 }
    ensures { result ≡ nth_cell cells.now at }
{
    cells[at]
}

/// Whether the cell has a rank of another thread above the one that the touch needs.
fn is_above(cells: &[Cell; 8], touch: &Touch, at: usize) -> bool
    requires { at < 8 }
    ensures { result ≡ is_above (nth_cell cells.now) touch.now at }
{
    let best = nth(cells, at).met_by(touch.writes);
    touch.need < best.other(touch.thread)
}

/// Whether one of the cells of a touch, from this one on, has a rank of another thread above the one that
/// it needs.
pub(crate) fn is_met(cells: &[Cell; 8], touch: &Touch, at: usize) -> bool
    requires { at + touch.now.bytes ≤ 8 }
    ensures { result ≡ any_byte (is_above (nth_cell cells.now) touch.now) at touch.now.bytes }
{
    for i in 0..touch.bytes {
        if is_above(cells, touch, at + i as usize) {
            return true;
        }
    }
    false
}

/// Notes the touch in each of its cells, from this one on.
pub(crate) fn note(cells: &mut [Cell; 8], touch: &Touch, at: usize)
    requires within { at + touch.now.bytes ≤ 8 }
    requires best { (i : ℕ) → i < 8 → IsBest (nth_cell cells.old i).all × IsBest (nth_cell cells.old i).writes }
    ensures { Noted (nth_cell cells.old) (nth_cell cells.new) (record { start = at; bytes = touch.now.bytes }) touch.now }
{
    for i in 0..touch.bytes {
        let k = at + i as usize;
        let cell = nth(cells, k).with(touch);
        cells[k] = cell;
    }
}
