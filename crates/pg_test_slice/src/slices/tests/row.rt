//! What is worked out of a recording by hand.

use pg_precondition::Test;
use pg_run::GuidedEnd;
use pg_slice_rules::Decision;

/// A recording of a program on an input with so many steps a turn, and what is worked out of the guided run along its schedule.
/// The steps of a run are counted from 0: a thread's start and its exit are steps, and the `phi`s of a block are set with the
/// branch that leads there.
#[derive(Clone, Copy)]
pub(crate) struct Row {
    pub(crate) input: &'static [i64],
    pub(crate) quantum: u32,
    /// The steps at branches that are free, each with the block at which its extent ends.
    pub(crate) free: &'static [(usize, u32)],
    /// The steps that are pinned and exact in the slice.
    pub(crate) pinned: &'static [usize],
    pub(crate) exact: &'static [usize],
    /// How many checks the precondition has, and the tests of the first of them, of all where they are few.
    pub(crate) checks: usize,
    pub(crate) tests: &'static [Test],
    /// How many reads of the input, or of its length, the checks rest on.
    pub(crate) reads: usize,
    /// Inputs that the slice admits, and such that it doesn't.
    pub(crate) admitted: &'static [&'static [i64]],
    pub(crate) others: &'static [&'static [i64]],
    pub(crate) passes: &'static [Ask],
    pub(crate) runs: &'static [Guided],
}

/// With these decisions taken a pass misses those, and no others.
#[derive(Clone, Copy)]
pub(crate) struct Ask {
    pub(crate) taken: &'static [Decision],
    pub(crate) missing: &'static [Decision],
}

/// An input, whether the slice admits it, and of the guided run on it along the schedule what that prints, how it ends, and how
/// many turns it does.
#[derive(Clone, Copy)]
pub(crate) struct Guided {
    pub(crate) input: &'static [i64],
    pub(crate) admitted: bool,
    pub(crate) output: &'static [u8],
    pub(crate) end: GuidedEnd,
    pub(crate) turns: u32,
}
