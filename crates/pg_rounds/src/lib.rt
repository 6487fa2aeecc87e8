//! Runs along a schedule by workers, round by round: what such a run prints, how it ends, and how many turns it does are those of the
//! guided run.
// How goals are searched for: see docs/CONTRIBUTING.md.
#![tactic(auto)]

mod ended;
mod merge;
mod next_turn;
mod run;

pub use ended::Ended;
pub use merge::reserve;
pub use pg_room;
pub use pg_room::{pg_crew, pg_ir, pg_num, pg_run, pg_run_trace};
pub use run::rounds;
