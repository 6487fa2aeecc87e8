//! What an operation answers.

ghost use Rattle.std.specs.Prelude.{◌≡◌};
ghost use Rattle.pg_run_objects.specs.Sync.{answer};

use pg_ir::{ThreadNo, TrapName};

/// What an operation answers: the number that its call returns, and for a join the thread whose exit
/// value is written.
#[derive(Clone, Copy, Debug, PartialEq, Eq)]
pub struct Reply {
    pub value: u64,
    pub exit_of: Option<ThreadNo>,
}

/// An operation that can't be done.
#[derive(Clone, Copy, Debug, PartialEq, Eq)]
pub struct SyncTrap(pub TrapName);

pub(crate) fn answer(value: u64) -> Reply
    ensures { result ≡ answer value }
{
    Reply {
        value,
        exit_of: None,
    }
}
