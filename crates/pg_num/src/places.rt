//! The places of accesses in memory.

use std::marker::Model;

/// Why an access has no place.
#[derive(Clone, Copy, Debug, PartialEq, Eq)]
pub enum PlaceFault {
    /// The bytes don't lie within the pointer's bounds, or not within memory.
    OutOfRange,
    /// The offset is no multiple of the number of bytes.
    Misaligned,
}

/// An aligned range of 1, 2, 4 or 8 bytes in one granule of memory.
#[derive(Clone, Copy, Debug, PartialEq, Eq)]
pub struct Place {
    granule: u32,
    first: u8,
    bytes: u8,
}

impl Model for Place {
    ghost use Rattle.std.specs.Prelude.{◌+◌, ◌*◌, ◌/◌, ◌%◌};
    ghost use Rattle.pg_num.specs.Places.{ByteRange, IsWithinGranule};

    ghost Value = { ByteRange };

    ghost view = { λ p. record { start = 8 * p.granule + p.first; bytes = p.bytes } };

    ghost invariant = { λ p. IsWithinGranule p.granule p.first p.bytes };

    ghost inverse = { λ r. record { granule = r.start / 8; first = r.start % 8; bytes = r.bytes } };
}

impl Place {
    ghost use Rattle.std.specs.Prelude.{◌≡◌, ◌+◌, ◌*◌, ◌/◌, ◌%◌, ◌<◌, ◌≤◌, IsTrue};
    ghost use Rattle.pg_num.specs.Places.{IsPlace, IsWithinGranule, is_size, meet};
    ghost use Rattle.pg_num.specs.declared.layout.TheConstants.{GRANULE_COUNT};

    /// The range of `bytes` bytes in a granule, from its byte `first` on.
    pub(crate) fn new(granule: u32, first: u8, bytes: u8) -> Place
        requires { IsWithinGranule granule first bytes }
        ensures { result ≡ record { start = 8 * granule + first; bytes = bytes } }
    {
        Place {
            granule,
            first,
            bytes,
        }
    }

    /// All eight bytes of a granule of memory.
    pub fn whole_granule(granule: u32) -> Place
        requires { granule < GRANULE_COUNT }
        ensures { result ≡ record { start = 8 * granule; bytes = 8 } }
    {
        Place::new(granule, 0, 8)
    }

    /// The place of the first byte.
    pub fn start(self) -> u32
        ensures value { result ≡ self.start }
        ensures place { IsPlace self }
    {
        8 * self.granule + self.first as u32
    }

    /// How many bytes the range has: 1, 2, 4 or 8.
    pub fn bytes(self) -> u8
        ensures value { result ≡ self.bytes }
        ensures size { IsTrue (is_size result) }
    {
        self.bytes
    }

    /// The granule in which the range lies.
    pub fn granule(self) -> u32
        ensures value { result ≡ self.start / 8 }
        ensures in_memory { result < GRANULE_COUNT }
    {
        self.granule
    }

    /// The place of the first byte in its granule.
    pub fn first(self) -> u8
        ensures value { result ≡ self.start % 8 }
        ensures in_granule { result + self.bytes ≤ 8 }
    {
        self.first
    }

    /// Whether the two ranges have a byte in common.
    pub fn meets(self, other: Place) -> bool
        ensures { result ≡ meet self other }
    {
        self.start() < other.start() + other.bytes as u32
            && other.start() < self.start() + self.bytes as u32
    }
}
