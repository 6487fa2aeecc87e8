//! The grammar of program texts: the classes of tokens, the definitions and their laws.
// How goals are searched for: see docs/CONTRIBUTING.md.
#![tactic(auto)]

mod class;
mod fault;
pub mod laws;
mod nesting;
mod token;
mod words;

pub use class::{Class, WORDS, WordClass};
pub use fault::ReadFault;
pub use nesting::INNER_NESTING_LIMIT;
pub use token::{Fault, ReadError, ReadRefusal, Token};
pub use words::classify;
