//! The canonical text of a module is a text of the same module.
// How goals are searched for: see docs/CONTRIBUTING.md.
#![tactic(auto)]

pub mod laws;
