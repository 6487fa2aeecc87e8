//! What is known along a reference run, as symbolic values over one list of nodes.
// How goals are searched for: see docs/CONTRIBUTING.md.
#![tactic(auto)]

mod call;
mod edges;
mod entered;
mod events;
mod given;
pub mod laws;
mod operands;
mod registers;
mod step;
mod steps;
mod thread;
mod threads;
mod words;

pub use edges::phi_operand;
pub use entered::register_count;
pub use given::operand;
pub use step::OpStep;
pub use thread::SymbolicRegisters;
pub use threads::after_create;
pub use words::words_after;
