//! What the commands of these tests are given: words, a shelf in memory, and a source in memory.

use pg_io::{MemoryShelf, MemorySource};
use std::alloc::{AllocError, Global};

/// The words of a line.
pub(crate) fn words_of(alloc: Global, line: &str) -> Result<Vec<String>, AllocError> {
    let mut words = Vec::new(alloc);
    for word in line.split_whitespace() {
        words.push(String::from_str(alloc, word)?)?;
    }
    Ok(words)
}

/// A shelf that has this text under the name `x`.
pub(crate) fn shelf_of(alloc: Global, text: &[u8]) -> Result<MemoryShelf, AllocError> {
    let name = String::from_str(alloc, "x")?;
    let mut files = Vec::new(alloc);
    files.push((name, text.to_vec(alloc)?))?;
    Ok(MemoryShelf::new(alloc, files, Vec::new(alloc)))
}

/// A source that has these bytes, and gives 4,096 of them at most at each read.
pub(crate) fn source_of(alloc: Global, input: &[u8]) -> Result<MemorySource, AllocError> {
    let bytes = input.to_vec(alloc)?;
    Ok(MemorySource::new(bytes, 4_096, Vec::new(alloc)))
}
