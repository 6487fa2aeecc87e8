//! The numbered program of a program text that isn't refused.
// How goals are searched for: see docs/CONTRIBUTING.md.
#![tactic(auto)]

mod block_rows;
mod calls;
mod edges;
mod function_rows;
mod function_scope;
mod index_operands;
mod instructions;
mod line_rows;
mod operands;
mod operations;
mod program;
mod scope;

pub use pg_law_numbering;
pub use program::{ProgramParts, program_parts};
