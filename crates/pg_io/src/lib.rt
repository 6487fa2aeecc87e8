//! Where bytes come from and go to: a source that is read, a sink that is written to, and a shelf of texts by name.
//!
//! Each keeps a count of its faults, so that a caller can tell a fault of the outside from its own.
// How goals are searched for: see docs/CONTRIBUTING.md.
#![tactic(auto)]

mod adapters;
mod counts;
mod fault;
mod files;
mod memory;
mod shelf;
mod shelves;
mod short;
mod sink;
mod source;
mod streams;

pub use adapters::{ReaderSource, WriterSink};
pub use fault::Failed;
pub use files::FileShelf;
pub use memory::{MemorySink, MemorySource, SureSource};
pub use shelf::{FetchFault, Shelf};
pub use shelves::{MemoryShelf, SureShelf};
pub use short::ShortSink;
pub use sink::Sink;
pub use source::Source;
pub use streams::{ReadAllFault, read_all, write_all};
