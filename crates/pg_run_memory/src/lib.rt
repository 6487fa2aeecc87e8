//! The memory of a run: bytes, read and written as little-endian numbers of 1, 2, 4 or 8 bytes.
// How goals are searched for: see docs/CONTRIBUTING.md.
#![tactic(auto)]

mod delta;
mod field;
mod globals;
pub mod laws;
mod lazy_words;
mod memory;
mod pages;
mod words;

pub use delta::Delta;
pub use field::field_delta;
pub use memory::Memory;
