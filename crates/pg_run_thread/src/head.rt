//! A call that waits for the one above it.

/// A call that waits for the one above it: its function, the number of its instruction, how many
/// registers it has, and how many granules of the stack it and the calls below it have.
#[derive(Clone, Copy, Debug, PartialEq, Eq)]
pub(crate) struct Head {
    pub(crate) function: u32,
    pub(crate) place: u32,
    pub(crate) count: u32,
    pub(crate) height: u32,
}
