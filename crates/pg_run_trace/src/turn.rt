//! Turns: events in a list.

use pg_ir::{InstrId, ThreadNo};

/// The kinds of events: those that a thread asks for, and loads and stores whose instruction is gated.
#[derive(Clone, Copy, Debug, PartialEq, Eq)]
pub enum TurnKind {
    Start,
    Exit,
    Create,
    Join,
    MutexInit,
    Lock,
    Trylock,
    Unlock,
    MutexDestroy,
    CondInit,
    Wait,
    Wake,
    Signal,
    Broadcast,
    CondDestroy,
    BarrierInit,
    Arrive,
    Leave,
    BarrierDestroy,
    Out,
    Putchar,
    Load,
    Store,
}

/// An event in a list: its thread, its instruction, its kind and its object.
#[derive(Clone, Copy, Debug, PartialEq, Eq)]
pub struct Turn {
    pub thread: ThreadNo,
    pub instr: InstrId,
    pub kind: TurnKind,
    pub object: u64,
}

/// A load or store instruction with a racing step: the first such step, and the first that races with it.
#[derive(Clone, Copy, Debug, PartialEq, Eq)]
pub struct Race {
    pub instr: InstrId,
    pub step: usize,
    pub with: usize,
}
