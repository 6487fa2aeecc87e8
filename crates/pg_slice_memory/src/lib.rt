//! What is known of each byte of memory along a reference run: the bytes of numbers of nodes, and the decisions that are
//! blamed for the rest. All within given bounds is forgotten without going over the bytes.
// How goals are searched for: see docs/CONTRIBUTING.md.
#![tactic(auto)]

mod change;
mod initial;
pub mod laws;
mod load;
mod memory;
mod parts;
mod places;
mod symbolic_node;

pub use change::Change;
pub use memory::SymbolicMemory;
pub use pg_slice_values;
pub use pg_slice_values::pg_slice_rules;
pub use places::place_of;
pub use symbolic_node::{Held, SymbolicByte};
