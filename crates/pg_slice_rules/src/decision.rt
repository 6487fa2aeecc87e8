//! Decisions: what is fixed of a reference run.

/// What is fixed of a reference run, whose steps are numbered from 0.
#[derive(Clone, Copy, Debug, PartialEq, Eq)]
pub enum Decision {
    /// The step at a conditional branch or a switch takes the same edge again.
    Pinned(usize),
    /// The step at a load or a store accesses the same place again.
    Exact(usize),
}

/// The decisions that are taken of a reference run: its pinned steps and its exact steps, each list ascending.
#[derive(Debug, Drop)]
pub struct Decisions {
    pub pinned: Vec<usize>,
    pub exact: Vec<usize>,
}
