//! Touches: accesses with ranks.

use pg_ir::ThreadNo;

/// An access of some bytes, of none where nothing is accessed: its thread, the first byte and how many
/// there are, whether it writes, the rank that it has, and the rank that it needs: it is answered by an
/// access of another thread to one of its bytes, one of the two a write, whose rank is greater.
#[derive(Clone, Copy)]
pub struct Touch {
    pub thread: ThreadNo,
    pub start: u32,
    pub bytes: u8,
    pub writes: bool,
    pub rank: u64,
    pub need: u64,
}
