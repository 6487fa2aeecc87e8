//! The checks of a program text's syntax tree, and the numbered program that it stands for.
// How goals are searched for: see docs/CONTRIBUTING.md.
#![tactic(auto)]

mod checking;
mod first;
mod main_function;

pub use checking::check;
pub use pg_check_program::pg_law_numbering;
pub use pg_check_rules;
pub use pg_check_rules::{CheckFault, CheckKind};
