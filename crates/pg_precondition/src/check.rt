//! Tests of numbers, and checks of nodes.

/// What a number must be.
#[derive(Clone, Copy, Debug, PartialEq, Eq)]
pub enum Test {
    /// It is this number.
    Eq(u64),
    /// It is another number.
    Ne(u64),
    /// It is the word of a pointer whose bounds begin at this granule and hold so many bytes.
    Bounds(u32, u32),
}

/// A node's number meets a test. A node without a number meets none.
#[derive(Clone, Copy, Debug, PartialEq, Eq)]
pub struct Check {
    pub node: u32,
    pub test: Test,
}
