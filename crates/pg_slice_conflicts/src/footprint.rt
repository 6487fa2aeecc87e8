//! Footprints: ranges of bytes that steps may access.

ghost use Rattle.std.specs.Prelude.{◌≡◌, ◌<◌, Some, length, slice_get};

use pg_run_trace::pg_ir::ThreadNo;

/// A range of bytes that a step may access: the thread of the step and its interval among the turns, the first
/// byte and how many there are, whether they may be written, and whether the range is that of a region's access.
#[derive(Clone, Copy, Debug, PartialEq, Eq)]
pub struct Footprint {
    pub thread: ThreadNo,
    pub low: u32,
    pub high: u32,
    pub start: u64,
    pub bytes: u64,
    pub writes: bool,
    pub of_region: bool,
}

/// The footprint with this number.
pub(crate) fn footprint_at(footprints: &[Footprint], i: usize) -> Footprint
    requires { i < length footprints.now }
    ensures { slice_get footprints.now i ≡ Some result }
{
    footprints[i]
}
