//! What quiet basic blocks access: each load and store with the root path of its pointer, those of a call in the place of
//! the call.
// How goals are searched for: see docs/CONTRIBUTING.md.
#![tactic(auto)]

mod access;
mod block;
mod count;
pub mod laws;
mod register_sets;
mod rooted;

pub use block::{accesses_of, loud_blocks};
pub use count::block_count;
pub use register_sets::{add_set, add_sets, gated_table, sets_of};
pub use rooted::{Rooted, Summary};
