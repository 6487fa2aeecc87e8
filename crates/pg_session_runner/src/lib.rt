//! Records the runs of a program, and runs it along the schedules of its entries: what a session asks of a program.
// How goals are searched for: see docs/CONTRIBUTING.md.
#![tactic(auto)]

mod along;
mod conditions;
mod crew_in_room;
pub mod laws;
mod loading;
mod recording;
mod runner;
mod shows;

pub use conditions::{conditions_freely, conditions_in_rotation};
pub use loading::{LoadFault, load_turns};
pub use pg_cache;
pub use pg_free;
pub use pg_go;
pub use pg_go::{pg_ir, pg_num, pg_run, pg_run_trace};
pub use pg_law_reuse::{Entry, FromFault, pg_law_order};
pub use pg_session;
pub use runner::{FreeRunner, ProgramRunner, TestedRunner};
pub use shows::{show_freely, show_in_rotation};
