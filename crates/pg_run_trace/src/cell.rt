//! A step in the room of three words.

use pg_ir::{InstrId, ThreadNo};

/// What a cell of a trace keeps of its step.
#[derive(Clone, Copy, Debug, PartialEq, Eq)]
pub(crate) enum CellKind {
    Other,
    /// The condition.
    Branch,
    /// The operand and the result.
    Allocation,
    /// The pointer and the number.
    Load,
    Store,
    /// As of a load and a store, which are events.
    GatedLoad,
    GatedStore,
    /// The index of the event among those of the trace.
    Event,
}

/// A step of a trace in the room of three words: two numbers, by its kind, and how many bytes an access has.
#[derive(Clone, Copy, Debug, PartialEq, Eq)]
pub(crate) struct Cell {
    pub(crate) first: u64,
    pub(crate) second: u64,
    pub(crate) instr: InstrId,
    pub(crate) thread: ThreadNo,
    pub(crate) kind: CellKind,
    pub(crate) bytes: u8,
}

const _: () = prove!(size_of::<Cell>() == 24);
