//! A run that is replayed.

use crate::found::Regions;
use pg_ir::Program;
use pg_run_trace::Trace;

/// A run that is replayed: its program, its steps, and the regions of those blocks of which it is known.
#[derive(Clone, Copy)]
pub(crate) struct TracedRun<'a> {
    pub program: &'a Program,
    pub trace: &'a Trace,
    pub regions: &'a Regions,
}
