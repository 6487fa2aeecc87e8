//! The canonical text of a module.

mod functions;
mod items;
mod modules;
mod names;
mod numbers;
mod ops;
mod types;
mod values;
mod voids;

pub use modules::print_module;
pub use numbers::NextNumber;
pub use voids::has_result;
