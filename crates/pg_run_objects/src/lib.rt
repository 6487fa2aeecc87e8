//! The synchronisation objects of POSIX threads: mutexes, condition variables, barriers, and threads.
// How goals are searched for: see docs/CONTRIBUTING.md.
#![tactic(auto)]

mod apply;
mod asks;
mod barriers;
mod check;
mod conditions;
pub mod errno;
mod kinds;
pub mod laws;
mod lifecycle;
mod mutexes;
mod object;
mod reply;
mod state;
mod status;
mod table;
mod threads;
mod waiters;

pub use object::{Entry, Object};
pub use reply::{Reply, SyncTrap};
pub use state::SyncState;
pub use status::{Stage, Status, Waiter};
