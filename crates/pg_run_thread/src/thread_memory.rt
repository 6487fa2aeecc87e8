//! A thread's memory: its stack and its heap.

ghost use Rattle.std.specs.Prelude.{◌≡◌, ◌+◌, ◌*◌, ◌<◌, ◌≤◌, ◌^◌, IsTrue};
ghost use Rattle.pg_ir.specs.pg_num.declared.layout.TheConstants.{THREAD_GRANULES};
ghost use Rattle.pg_ir.specs.pg_num.declared.limits.TheConstants.{THREAD_LIMIT};
ghost use Rattle.pg_ir.specs.WellFormed.{granules_for};
ghost use Rattle.pg_run_thread.specs.Step.{has_room, pushed, allocated, heap_with};

use pg_ir::pg_num::layout::{GLOBALS_END, THREAD_GRANULES};
use pg_ir::pg_num::{Pointer, pack};

/// What a thread has taken of its memory: how many granules of 8 bytes its stack has at the
/// front, and its heap at the end.
#[derive(Clone, Copy, Debug, PartialEq, Eq)]
pub struct ThreadMemory {
    pub thread: u8,
    pub stack: u32,
    pub heap: u32,
}

/// How many granules a size in bytes takes, at least one.
pub(crate) fn granules_for(bytes: u128) -> u128
    ensures count { result ≡ granules_for bytes }
    ensures some { 1 ≤ result }
    ensures holds { bytes ≤ 8 * result }
    ensures few { result ≤ 2 ^ 126 }
{
    let whole = bytes / 8;
    if bytes == 0 {
        1
    } else if bytes % 8 == 0 {
        whole
    } else {
        whole + 1
    }
}

/// Whether stack and heap have room for so many granules more.
pub(crate) fn has_room(memory: ThreadMemory, granules: u128) -> bool
    requires few { granules ≤ 2 ^ 126 }
    ensures { result ≡ has_room memory granules }
{
    memory.stack as u128 + granules + memory.heap as u128 <= THREAD_GRANULES as u128
}

/// The pointer to a new range of the stack.
pub(crate) fn pushed(memory: ThreadMemory, bytes: u128) -> u64
    requires thread { memory.thread < THREAD_LIMIT }
    requires room { IsTrue (has_room memory (granules_for bytes)) }
    ensures { result ≡ pushed memory bytes }
{
    // Called for the proof: see docs/CONTRIBUTING.md.
    let _granules = granules_for(bytes);
    pack(Pointer {
        start: GLOBALS_END + memory.thread as u32 * THREAD_GRANULES + memory.stack,
        length: bytes as u32,
        offset: 0,
    })
}

/// The pointer to a new range of the heap, or null where there is no room.
pub(crate) fn allocated(memory: ThreadMemory, bytes: u64) -> u64
    requires thread { memory.thread < THREAD_LIMIT }
    ensures { result ≡ allocated memory bytes }
{
    let granules = granules_for(bytes as u128);
    if !has_room(memory, granules) {
        return 0;
    }
    let from_start = THREAD_GRANULES - memory.heap - granules as u32;
    pack(Pointer {
        start: GLOBALS_END + memory.thread as u32 * THREAD_GRANULES + from_start,
        length: bytes as u32,
        offset: 0,
    })
}

/// The granules of the heap after an allocation.
pub(crate) fn heap_with(memory: ThreadMemory, bytes: u64) -> u32
    ensures { result ≡ heap_with memory bytes }
{
    let granules = granules_for(bytes as u128);
    if has_room(memory, granules) {
        memory.heap + granules as u32
    } else {
        memory.heap
    }
}
