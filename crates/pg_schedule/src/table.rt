//! The cells of bytes.

ghost use Rattle.std.specs.Prelude.{◌≡◌, ◌==◌, ℕ, IfOk, OnOk, Some, if◌then◌else◌, nat_eq};
ghost use Rattle.indexmap.specs.IndexMap.{get};
ghost use Rattle.pg_schedule.specs.Cells.{cell_at, cell_in, no_cell, nth_cell};

use crate::block::no_cells;
use crate::cell::Cell;
use indexmap::IndexMap;
use std::alloc::{AllocError, Global};

/// The cells of the bytes that were accessed, in blocks of eight.
#[derive(Drop)]
pub(crate) struct Table {
    pub blocks: IndexMap<u64, [Cell; 8]>,
}

impl Table {
    /// The table without accesses.
    pub fn new(alloc: Global) -> Table
        ensures { (b : ℕ) → cell_at result b ≡ no_cell }
    {
        Table {
            blocks: IndexMap::new(alloc),
        }
    }

    /// The cell of a byte.
    pub fn at(&self, byte: u64) -> Cell
        ensures { result ≡ cell_at self.now byte }
    {
        match self.blocks.get(&(byte / 8)) {
            Some(cells) => cells[(byte % 8) as usize],
            None => Cell::none(),
        }
    }

    /// The cells of a block.
    fn block(&self, block: u64) -> [Cell; 8]
        ensures { (i : ℕ) → nth_cell result i ≡ cell_in (get nat_eq self.now.blocks block) i }
    {
        match self.blocks.get(&block) {
            Some(cells) => *cells,
            None => no_cells(),
        }
    }

    /// Changes the cells of a block.
    pub fn put(&mut self, block: u64, cells: [Cell; 8]) -> Result<(), AllocError>
        ensures { OnOk result ((k : ℕ) → get nat_eq self.new.blocks k ≡ (if block == k then Some cells else get nat_eq self.old.blocks k)) }
    {
        match self.blocks.insert(block, cells) {
            Ok(_) => Ok(()),
            Err(_) => Err(AllocError),
        }
    }

    /// Changes the cell of a byte.
    pub fn set(&mut self, byte: u64, cell: Cell) -> Result<(), AllocError>
        ensures { OnOk result ((b : ℕ) → cell_at self.new b ≡ (if b == byte then cell else cell_at self.old b)) }
    {
        let mut cells = self.block(byte / 8);
        cells[(byte % 8) as usize] = cell;
        self.put(byte / 8, cells)?;
        Ok(())
    }
}
