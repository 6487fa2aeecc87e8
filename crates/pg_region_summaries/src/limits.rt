//! The most accesses of a summary.

/// The most accesses that the summary of a quiet function has.
pub const SUMMARY_LIMIT: usize = 1_024;
