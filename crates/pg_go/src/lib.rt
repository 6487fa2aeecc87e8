//! Whole runs by workers: a run along a good schedule is made ready in a room, a crew runs its workers round by round, and the room
//! comes back at rest.
// How goals are searched for: see docs/CONTRIBUTING.md.
#![tactic(auto)]

pub mod laws;
mod prepared;

pub use pg_rounds::pg_crew::{
    AnyHook, AnyParkers, ByLength, Crew, Hook, OneByOne, Park, Parkers, Parking, Together,
};
pub use pg_rounds::pg_room::{NotPrepared, Room};
pub use pg_rounds::{Ended, pg_ir, pg_num, pg_run, pg_run_trace};
pub use prepared::{Prepared, prepare, prepare_in};
