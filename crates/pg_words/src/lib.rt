//! Words that host threads share without a lock, under a rule that the crate above states: the turn word, a word for each
//! thread, and a word for each granule of memory. A thread steps with a seat, a token of no bytes that carries what the thread
//! knows. Each call is one atomic step, but for the store of a part of a granule, which is two.
// How goals are searched for: see docs/CONTRIBUTING.md.
#![tactic(auto)]

pub mod layout;
mod words;

pub use words::{RunSeat, Words};
