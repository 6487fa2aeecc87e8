//! One pass over all footprints, in one direction.

ghost use Rattle.std.specs.Prelude.{◌≡◌, map, IfOk};
ghost use Rattle.pg_slice_conflicts.specs.Passes.{touch_of};

use crate::places::Placed;
use pg_run_trace::pg_ir::ThreadNo;
use std::alloc::{AllocError, Global};

/// A footprint in one pass over all: its thread, its places, the rank that it gives to those of other threads and
/// the one that it needs of them, and whether it gives and asks at all.
#[derive(Clone, Copy)]
pub(crate) struct Touch {
    pub thread: ThreadNo,
    pub first: usize,
    pub end: usize,
    pub rank: u64,
    pub need: u64,
    pub gives: bool,
    pub asks: bool,
}

/// A pass over all footprints, from the last to the first where it goes backward. Those ask that write as it says and
/// are of regions as it says.
#[derive(Clone, Copy)]
pub(crate) struct Pass {
    pub backward: bool,
    pub writes: bool,
    pub of_region: bool,
}

impl Pass {
    /// A footprint as a touch of this pass.
    fn touch(self, placed: &Placed) -> Touch
        ensures { result ≡ touch_of self placed.now }
    {
        let footprint = placed.footprint;
        let high = u64::from(footprint.high);
        let low = u64::from(footprint.low);
        let bound = u64::from(u32::MAX);
        Touch {
            thread: footprint.thread,
            first: placed.first,
            end: placed.end,
            rank: if self.backward {
                bound + 1 - low
            } else {
                high + 1
            },
            need: if self.backward { bound - high } else { low },
            gives: (self.writes || footprint.writes) && (self.of_region || !footprint.of_region),
            asks: self.writes == footprint.writes && self.of_region == footprint.of_region,
        }
    }

    /// The footprints as touches of this pass.
    pub fn touches(self, alloc: Global, placed: &[Placed]) -> Result<Vec<Touch>, AllocError>
        ensures { IfOk result (λ v. v.items ≡ map (touch_of self) placed.now) }
    {
        let mut touches = Vec::with_capacity(alloc, placed.len())?;
        for one in placed {
            touches.push(self.touch(one))?;
        }
        Ok(touches)
    }
}
