//! A step to go back over.

use crate::registers::Counts;
use pg_ir::{Instr, Program};
use pg_run_trace::Step;
use pg_slice_passes::pg_slice_replay::ReferenceRun;

/// A step to go back over: its number in a run of a program and the run's replay, its instruction, what it did, and how many
/// registers the call that does it and the one under it have.
#[derive(Clone, Copy)]
pub struct StepAt<'a> {
    pub program: &'a Program,
    pub reference: &'a ReferenceRun,
    pub instr: &'a Instr,
    pub step: &'a Step,
    pub counts: Counts,
    pub number: usize,
}
