//! How memory is laid out. A granule is eight bytes; granule 0 is never used, globals lie from granule 1 on, and
//! behind the globals' part each thread has memory of its own.

/// The bytes of one granule.
pub const GRANULE_BYTES: u32 = 8;

/// The granules of a memory.
pub const GRANULE_COUNT: u32 = 0x40_0000;

/// The bytes of a memory: 32 MiB.
pub const MEMORY_BYTES: u32 = 0x200_0000;

/// The granule at which every global has ended, and the memory of thread 0 begins.
pub const GLOBALS_END: u32 = 0x20_0000;

/// The granules of one thread's memory.
pub const THREAD_GRANULES: u32 = 0x8000;
