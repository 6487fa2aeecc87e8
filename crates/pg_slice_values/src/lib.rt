//! What is known of values along a reference run, as numbers of nodes of one list.
// How goals are searched for: see docs/CONTRIBUTING.md.
#![tactic(auto)]

mod form;
mod growing;
pub mod laws;
mod operations;
mod pointers;
mod symbolic_node;
mod values;

pub use growing::added;
pub use operations::operation;
pub use pg_slice_rules;
pub use symbolic_node::SymbolicNode;
pub use values::{constant, from_input, input_length, low_byte, offset, unset, value, within};
