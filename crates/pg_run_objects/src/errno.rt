//! What pthread calls answer with where they don't answer 0 (POSIX.1-2017; the numbers are those of Linux).

/// The answer of a trylock of a mutex that is held.
pub const EBUSY: u64 = 16;

/// The answer of a barrier's init with the count 0.
pub const EINVAL: u64 = 22;

/// The answer of a barrier's wait to the last thread to arrive: -1, as a number of 32 bits.
pub const PTHREAD_BARRIER_SERIAL_THREAD: u64 = 4_294_967_295;
