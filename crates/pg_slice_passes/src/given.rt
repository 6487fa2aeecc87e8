//! What a slice is made of.

use pg_ir::Program;
use pg_run_trace::Trace;
use pg_schedule::Interval;
use pg_slice_replay::ReferenceRun;

/// A run of a program, the intervals of its steps, and its replay.
#[derive(Clone, Copy)]
pub struct GivenRun<'a> {
    pub p: &'a Program,
    pub t: &'a Trace,
    pub intervals: &'a [Interval],
    pub r: &'a ReferenceRun,
}
