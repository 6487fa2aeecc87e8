//! What a run is of.

use crate::gated::Gated;
use pg_run_trace::pg_ir::Program;
use std::alloc::Global;

/// What a run is of: a program, its input, and the loads and stores that are events; and the memory that it takes.
#[derive(Clone, Copy)]
pub(crate) struct Run<'a> {
    pub(crate) alloc: Global,
    pub(crate) program: &'a Program,
    pub(crate) input: &'a [i64],
    pub(crate) gated: &'a Gated,
}
