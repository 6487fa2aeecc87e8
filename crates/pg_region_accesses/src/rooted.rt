//! Accesses whose root paths are known.

use pg_region_paths::RootPath;
use pg_region_paths::pg_ir::InstrId;

/// An access of a load or store instruction: whether it writes, and the root path of its pointer.
#[derive(Clone, Copy, Debug, PartialEq, Eq)]
pub struct Rooted {
    pub instr: InstrId,
    pub writes: bool,
    pub path: RootPath,
}

/// What a quiet function accesses, in text order, those of a called function in the place of the call.
#[derive(Debug, Drop)]
pub struct Summary {
    pub accesses: Vec<Rooted>,
}
