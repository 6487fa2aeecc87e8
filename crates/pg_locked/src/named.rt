//! The name of a run, so that what comes from under a lock is known to be of it.

use std::marker::Brand;

/// Which run it is. Each call picks it.
pub trait Named {
    ghost use Rattle.pg_locked.specs.Standing.{Given};

    ghost run: { Given };
}

impl Named for Brand {
    ghost use Rattle.pg_locked.specs.Standing.{no_run};

    ghost run = { no_run };
}
