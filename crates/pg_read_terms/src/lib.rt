//! The reader of types, values, constants, attributes, arguments and metadata.
//!
//! A function reads from a place in the tokens and gives what it read and the place after it. It fails where
//! memory runs out, and else with the first token with which what it reads can't go on, and its fault.
// How goals are searched for: see docs/CONTRIBUTING.md.
#![tactic(auto)]

mod arguments;
mod attribute_lists;
mod constants;
mod line_metadata;
mod reader;
mod sets;
mod skips;
mod types;
mod values;

pub use arguments::argument;
pub use attribute_lists::{attribute, attributes};
pub use constants::constant;
pub use line_metadata::{metadata, metadata_tail};
pub use reader::{Read, Text, is_class, keep, literal, name, next_is, take, too_deep, unsupported};
pub use sets::{ClassSet, contains, next_in, take_in};
pub use skips::{flags, skip_to};
pub use types::{type_node, types_to};
pub use values::{gep_tail, int_to_ptr_tail, plain_value, typed_value_in, value};
