//! Workers: each runs one thread of a program along a schedule over words that it shares with the others, freely between its turns.
//! A worker's own state is what the full guided run has for its thread behind the worker's steps so far.
// How goals are searched for: see docs/CONTRIBUTING.md.
#![tactic(auto)]

mod awaits;
mod hook;
pub mod pages;
mod requests;
mod segment;
mod shared;
mod starts;
mod steps;
mod turn_lists;
mod turns;
mod unseated;
mod worker;

pub use hook::{Hook, NoHook};
pub use pg_seats;
pub use pg_seats::{pg_ir, pg_num, pg_run, pg_run_trace};
pub use shared::Shared;
pub use unseated::Unseated;
pub use worker::{Paused, Worker};
