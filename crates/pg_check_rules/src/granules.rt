//! How many granules globals take.

ghost use Rattle.std.specs.Prelude.{◌≡◌, ◌≤◌, ◌+◌, ◌/◌};
ghost use Rattle.pg_ir.specs.WellFormed.{granules_for};
ghost use Rattle.pg_check_types.specs.declared.cap.TheConstants.{LAYOUT_CAP};

/// The granules of 8 bytes that a global of a size takes: as many as the size needs, and at least one.
pub fn granules_for(size: u32) -> u32
    requires { size ≤ LAYOUT_CAP }
    ensures granules { result ≡ granules_for size }
    ensures few { result ≤ size / 8 + 1 }
{
    ((size + 7) / 8).max(1)
}
