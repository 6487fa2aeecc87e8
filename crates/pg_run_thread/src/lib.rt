//! One thread by itself: what its next step is, and the state after it.
// How goals are searched for: see docs/CONTRIBUTING.md.
#![tactic(auto)]

mod action;
mod advance;
mod compute;
mod decide;
mod edges;
mod fiber;
mod head;
pub mod laws;
mod library;
mod numbers;
mod operands;
mod optional;
mod present;
mod readers;
mod room;
mod steps;
mod thread_memory;

pub use action::Action;
pub use advance::{Advance, LocalStep};
pub use fiber::Fiber;
pub use thread_memory::ThreadMemory;
