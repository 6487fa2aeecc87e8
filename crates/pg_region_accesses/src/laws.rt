//! Laws on what sets of blocks access.

ghost use Rattle.pg_region_accesses.specs.Laws.{PartsAreQuiet, QuietSetsPassQuiet, RootsAreOutside};

/// What is quiet in a set of blocks is quiet in each part of it, and each block accesses the same there.
pub fn parts_are_quiet()
    ensures { PartsAreQuiet }
{}

/// The blocks of a quiet set have no gated access, no `alloca`, no call but of quiet functions and of those that read the
/// input, and no `ret` where there may be none.
pub fn quiet_sets_pass_quiet()
    ensures { QuietSetsPassQuiet }
{}

/// What a quiet set of blocks accesses begins at a global, at a constant or at a register that the set doesn't set.
pub fn roots_are_outside()
    ensures { RootsAreOutside }
{}
