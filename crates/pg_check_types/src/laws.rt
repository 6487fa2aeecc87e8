//! What holds of sizes as they are kept: each law is the clause of a function that does nothing.

ghost use Rattle.std.specs.Prelude.{◌≡◌, ◌*◌, ◌<◌};
ghost use Rattle.pg_read_ast.specs.pg_num.declared.layout.TheConstants.{GLOBALS_END, GRANULE_BYTES};
ghost use Rattle.pg_read_ast.specs.pg_num.declared.limits.TheConstants.{SIZE_LIMIT};
ghost use Rattle.pg_check_types.specs.declared.cap.TheConstants.{LAYOUT_CAP};

/// Sizes are kept exactly up to 33,554,432 bytes, which is more than a type or all globals together may take.
pub fn sizes_are_kept_up_to_this_number()
    ensures number { LAYOUT_CAP ≡ 33554432 }
    ensures types { SIZE_LIMIT < LAYOUT_CAP }
    ensures globals { GLOBALS_END * GRANULE_BYTES < LAYOUT_CAP }
{}
