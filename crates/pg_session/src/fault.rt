//! Why a session ends before its input does.
ghost use Rattle.std.specs.Prelude.{◌≡◌};
ghost use Rattle.pg_session.specs.Faults.{fault_of};
ghost use Rattle.pg_session.specs.declared.fault.ReplyFault.TheVariants as reply;
ghost use Rattle.pg_session.specs.declared.fault.ServeFault.TheVariants as serve;

use pg_io::Failed;
use std::alloc::AllocError;

/// Why a reply was not written, or only a front of it.
#[derive(Clone, Copy, Debug, PartialEq, Eq)]
pub(crate) enum ReplyFault {
    /// A write failed.
    WriteFault,
    /// There was no memory.
    OutOfMemory,
}

impl From<AllocError> for ReplyFault {
    ghost from_gives = { λ _ e. e ≡ reply.OutOfMemory };

    fn from(_e: AllocError) -> ReplyFault {
        ReplyFault::OutOfMemory
    }
}

impl From<Failed> for ReplyFault {
    ghost from_gives = { λ _ e. e ≡ reply.WriteFault };

    fn from(_e: Failed) -> ReplyFault {
        ReplyFault::WriteFault
    }
}

/// Why a session ends before its input does.
#[derive(Clone, Copy, Debug, PartialEq, Eq)]
pub enum ServeFault {
    /// A read failed.
    ReadFault,
    /// A write failed.
    WriteFault,
    /// The input is longer than that of a session may be.
    InputLimit,
    /// There was no memory.
    OutOfMemory,
}

impl From<AllocError> for ServeFault {
    ghost from_gives = { λ _ e. e ≡ serve.OutOfMemory };

    fn from(_e: AllocError) -> ServeFault {
        ServeFault::OutOfMemory
    }
}

impl From<ReplyFault> for ServeFault {
    ghost from_gives = { λ r e. e ≡ fault_of r };

    fn from(fault: ReplyFault) -> ServeFault {
        match fault {
            ReplyFault::WriteFault => ServeFault::WriteFault,
            ReplyFault::OutOfMemory => ServeFault::OutOfMemory,
        }
    }
}
