//! The reader of operations.
//!
//! A function reads from a place in the tokens and gives what it read and the place after it. It fails where
//! memory runs out, and else with the first token with which what it reads can't go on, and its fault.
// How goals are searched for: see docs/CONTRIBUTING.md.
#![tactic(auto)]

mod branches;
mod calls;
mod elements;
mod listing;
mod memory;
mod numbers;
mod operations;
mod phi;
mod written;

pub use calls::call;
pub use elements::gep_op_tail;
pub use numbers::cast_tail;
pub use operations::simple_op;
