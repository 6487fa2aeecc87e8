//! The numbers of constants: words of pointers, bytes of initialisers, and globals.
// How goals are searched for: see docs/CONTRIBUTING.md.
#![tactic(auto)]

mod bytes;
mod constants;
mod fields;
mod global_rows;
mod globals;
mod indices;
mod initialisers;

pub use constants::kind_word;
pub use fields::size_or_none;
pub use global_rows::add_globals;
pub use globals::{Globals, index_globals};
pub use indices::index_scales;
