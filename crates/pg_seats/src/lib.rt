//! Seats on shared words: what a thread's seat knows of a run along a schedule, the rule that words and seats keep, and each
//! atomic step under it. At every moment words and seats stand at a cut of the full guided run, apart from the done parts of the one
//! turn that is due.
// How goals are searched for: see docs/CONTRIBUTING.md.
#![tactic(auto)]

pub mod accesses;
pub mod begin;
pub mod end;
pub mod laws;
pub mod rule;
pub mod run;
pub mod seats;
pub mod steps;
pub mod turns;

pub use pg_law_course::{pg_ir, pg_num, pg_run, pg_run_thread, pg_run_trace};
pub use rule::{Place, RunWords};
