//! Synchronisation objects.

use pg_ir::ThreadNo;

/// A synchronisation object (POSIX.1-2017).
#[derive(Clone, Copy, Debug, PartialEq, Eq)]
pub enum Object {
    /// A mutex of the normal type, and the thread that holds it.
    Mutex { holder: Option<ThreadNo> },
    /// A condition variable.
    Condition,
    /// A barrier for `count` threads, of which `arrived` wait in this round.
    Barrier { count: u32, arrived: u32 },
}

/// An object and the byte place by which it is named.
#[derive(Clone, Copy, Debug, PartialEq, Eq)]
pub struct Entry {
    pub place: u32,
    pub object: Object,
}
