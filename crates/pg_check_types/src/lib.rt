//! Types with their names read through: their numbers in a table, how they lie in memory, and literals of a width.
// How goals are searched for: see docs/CONTRIBUTING.md.
#![tactic(auto)]

mod cap;
mod items;
mod kind;
mod known;
pub mod laws;
mod layout;
mod literals;
mod measures;
mod names;
mod resolving;
mod shape;
mod table;
mod types;

pub use cap::LAYOUT_CAP;
pub use items::index_items;
pub use kind::TypeKind;
pub use known::KnownTypes;
pub use layout::Layout;
pub use literals::{element_count, literal_in};
pub use measures::{bytes_of, round_up};
pub use names::{index_names, place_of_name};
pub use shape::Shape;
pub use types::TypeNumbers;
