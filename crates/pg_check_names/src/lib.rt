//! The names of a function's own: its labels and its registers.
// How goals are searched for: see docs/CONTRIBUTING.md.
#![tactic(auto)]

mod naming;
mod numbered_names;
mod register_type;
mod results;

pub use naming::{OwnNames, own_names};
pub use register_type::RegisterType;
pub use results::gives;
