//! Crews: who runs the workers of a run, round by round, in one host thread or in several.
// How goals are searched for: see docs/CONTRIBUTING.md.
#![tactic(auto)]

mod by_length;
mod counts;
mod crew;
mod hooks;
mod meeting;
mod one_by_one;
mod parkers;
mod parking;
mod together;

pub use by_length::{ByLength, LONG_RUN};
pub use crew::Crew;
pub use hooks::AnyHook;
pub use one_by_one::OneByOne;
pub use parkers::{AnyParkers, Park, Parkers};
pub use parking::Parking;
pub use pg_worker;
pub use pg_worker::{Hook, pg_ir, pg_num, pg_run, pg_run_trace, pg_seats};
pub use together::Together;
