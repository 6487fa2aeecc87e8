//! Root paths: pointers by the roots from which they are loaded.
// How goals are searched for: see docs/CONTRIBUTING.md.
#![tactic(auto)]

mod entry;
pub mod laws;
mod path;
mod root_paths;

pub use entry::Entry;
pub use path::{Loads, Path, Root, RootPath};
pub use pg_ir;
pub use pg_ir::pg_num;
pub use root_paths::RootPaths;
