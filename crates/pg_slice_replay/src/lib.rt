//! A reference run replayed: what its trace lacks of each step.
// How goals are searched for: see docs/CONTRIBUTING.md.
#![tactic(auto)]

mod apart;
mod at;
mod edge;
mod follow;
mod found;
mod free;
mod given;
pub mod laws;
mod may_set;
mod replay;
mod row;
mod run;
mod seek;
mod share;
mod step;
mod targets;

pub use follow::{cell_start, offsets};
pub use replay::reference;
pub use run::{FreeAccess, ReferenceRun};
