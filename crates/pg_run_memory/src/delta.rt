//! Changes of words by a sum or a difference.

/// A change of one word by a sum or a difference, modulo two to the 64.
#[derive(Clone, Copy, Debug, PartialEq, Eq)]
pub enum Delta {
    /// This number is added.
    Add(u64),
    /// This number is subtracted.
    Sub(u64),
}
