//! Numbers that are computed of an input, what they must be, and whether an input meets that: the conditions under which an
//! order of events may be used again (a path condition, with only those nodes that its checks need).
// How goals are searched for: see docs/CONTRIBUTING.md.
#![tactic(auto)]

mod check;
mod checks;
mod kept;
mod marks;
mod node;
mod nodes;
mod number;
mod operation;
mod places;
mod precondition;
mod pruned;
mod scratch;

pub use check::{Check, Test};
pub use checks::admits;
pub use node::{CastKind, Node, Operation};
pub use nodes::Nodes;
pub use precondition::Precondition;
pub use pruned::needed;
pub use scratch::Scratch;
