//! That an entry's turns serve every input that it admits: nothing here runs.
// How goals are searched for: see docs/CONTRIBUTING.md.
#![tactic(auto)]

pub mod laws;

pub use pg_law_admitted::pg_law_order;
pub use pg_session_entry::{Entry, FromFault, Record, from_recorded, from_turns, record};
