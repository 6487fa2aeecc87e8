//! What a thread's next step is.

use pg_ir::pg_num::Place;
use pg_ir::{Request, TrapName};

/// What a thread's next step is.
#[derive(Clone, Copy, Debug, PartialEq, Eq)]
pub enum Action {
    /// A step that only the thread's own state decides and sees.
    Local,
    /// Reads the input's number at this index, which is 0 outside of the input.
    In(i64),
    /// Reads how many numbers the input has.
    InLen,
    /// Reads the bytes of this place.
    Load(Place),
    /// Writes this number to the bytes of this place.
    Store(Place, u64),
    /// A synchronisation operation, a start, an exit, or a print.
    Event(Request),
    /// The step can't be taken.
    Trap(TrapName),
    /// The thread has no step left.
    Ended,
}
