//! A run as plain data, and what a seat knows of it. No value of these is ever made.

use pg_law_course::pg_ir::Program;
use pg_law_course::pg_run_trace::Schedule;
use std::collections::LinkedList;

/// A run along a schedule: what the full guided run is computed from; and which of the runs on these words it is, counted from 0.
pub struct Run {
    pub program: Program,
    pub schedule: Schedule,
    pub input: LinkedList<i64>,
    pub epoch: u64,
}

/// What the seat of a thread knows: how many of its shared steps of the full guided run are done; whether the next of these is
/// known to be the next turn, and how many of the parts of this turn are done; how many turns are known to be done; and how often
/// the turn word was read through this seat.
pub struct Standing {
    pub run: Run,
    pub thread: u64,
    pub done: u64,
    pub due: bool,
    pub parts: u64,
    pub seen: u64,
    pub looks: u64,
}

/// What a seat knows.
pub enum View {
    /// So many runs were made. All words are 0, and no other seat is alive but old notes.
    Idle(u64),
    /// The words are made ready for this run: granules below this number hold the bytes that the run begins with.
    Laying(Run, u64),
    /// The seats of the threads below the first number were split off, and those of the threads below the second taken back.
    Pool(Run, u64, u64),
    /// A thread's seat.
    Worker(Standing),
    /// So many turns are known to be done.
    Note(Run, u64),
    /// The run is over: words below this number are 0 again, and so are those that it never wrote.
    Sweeping(Run, u64),
    /// What is left of a seat that was joined into another: nothing is known.
    Spent,
}
