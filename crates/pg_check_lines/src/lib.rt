//! What the lines of functions are refused for by themselves.
// How goals are searched for: see docs/CONTRIBUTING.md.
#![tactic(auto)]

mod cases;
mod demands;
mod labels;
mod line_types;
mod line_uses;
mod operands;
mod paths;

pub use cases::equal_cases;
pub use demands::op_demands;
pub use labels::missing_labels;
pub use line_types::types_of_line;
pub use line_uses::{function_uses, unknown_uses, wrong_uses};
pub use operands::{UseNode, operands_of_line};
pub use paths::{wrong_name, wrong_path, wrong_return};
