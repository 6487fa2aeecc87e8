//! A step to go along.

use pg_ir::{Instr, Program};
use pg_run_trace::{Access, Event, Step};
use pg_slice_decisions::DecisionSet;
use pg_slice_replay::ReferenceRun;
use pg_slice_values::SymbolicNode;
use std::alloc::Global;

/// A step to go along: its number in a run, its instruction, what it did, the decisions that are taken, and the memory.
#[derive(Clone, Copy)]
pub(crate) struct StepAt<'a> {
    pub alloc: Global,
    pub p: &'a Program,
    pub x: &'a Instr,
    pub step: &'a Step,
    pub d: &'a DecisionSet,
    pub r: &'a ReferenceRun,
    pub n: usize,
}

/// A load or a store of a run: what it accessed, the number of its step, and whether this is exact.
#[derive(Clone, Copy)]
pub(crate) struct AccessAt {
    pub access: Access,
    pub number: usize,
    pub exact: bool,
}

/// An event of a thread: the function of its present call, and what is known of the thread's word.
#[derive(Clone, Copy)]
pub(crate) struct EventAt {
    pub event: Event,
    pub function: u32,
    pub argument: SymbolicNode,
}
