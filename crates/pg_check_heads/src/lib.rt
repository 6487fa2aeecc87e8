//! What the type items, the globals and the heads of functions of a program text are refused for.
// How goals are searched for: see docs/CONTRIBUTING.md.
#![tactic(auto)]

mod circles;
mod definitions;
mod global_ends;
mod globals;
mod heads;
mod initialiser_rows;
mod initialisers;
mod phases;
mod ranked_items;
mod ranks;
mod type_items;
mod wrong_constants;

pub use globals::globals_refusal;
pub use phases::heads_refusal;
pub use type_items::types_refusal;
