//! A change of what is known of memory.

ghost use Rattle.std.specs.Prelude.{◌≡◌, ◌≤◌, ◌-◌, ◌<◌};
ghost use Rattle.pg_slice_memory.specs.SymbolicNodes.{IsPlaceIn, part_of};

use crate::symbolic_node::{Held, SymbolicByte};

/// The bytes from a place on that are from then on those of a number, or are not known any more.
#[derive(Clone, Copy)]
pub struct Change {
    pub start: u64,
    pub bytes: u64,
    pub to: Held,
}

impl Change {
    /// What is known of a byte after the change.
    pub(crate) fn symbolic_node(&self, byte: u64) -> SymbolicByte
        requires from { self.now.start ≤ byte }
        requires place { IsPlaceIn self.now.to (byte - self.now.start) }
        ensures symbolic_node { result ≡ part_of self.now.to (byte - self.now.start) }
    {
        match self.to {
            Held::Known(of) => SymbolicByte::Part {
                of,
                at: (byte - self.start) as u8,
            },
            Held::Unknown(by) => SymbolicByte::Unknown(by),
        }
    }
}
