//! A room: shared words that serve one run after another. A run is made ready in it, with a worker for each of its threads, and behind
//! the run the words that it wrote are made 0 again.
// How goals are searched for: see docs/CONTRIBUTING.md.
#![tactic(auto)]

mod gathering;
mod laying;
mod made;
mod parts;
mod ready;
mod resting;
mod room;
mod sweeping;
mod threads;

pub use parts::Ready;
pub use pg_crew;
pub use pg_crew::{pg_ir, pg_num, pg_run, pg_run_trace, pg_worker};
pub use ready::prepare_in;
pub use resting::rest;
pub use room::{NotPrepared, Room};
