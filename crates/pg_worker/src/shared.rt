//! What the workers of a run share.

use pg_seats::RunWords;
use pg_seats::pg_ir::Program;
use pg_seats::pg_run::Gated;
use pg_seats::pg_run_trace::Schedule;
use std::sync::atomic::AtomicU64;

/// What the workers of a run share: the words, what the run is computed from, which of the runs on these words it is, and the loads
/// and stores that are events.
#[derive(Drop)]
pub struct Shared<'a> {
    pub words: RunWords,
    pub program: &'a Program,
    pub schedule: &'a Schedule,
    pub input: &'a [i64],
    pub epoch: u64,
    pub gated: Gated,
    /// How many workers are under way at once: a worker waits for its turn only while there is another one. No proof rests on it.
    pub under_way: AtomicU64,
}
