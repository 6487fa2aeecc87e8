//! How the footprints of a test are made.

ghost use Rattle.std.specs.Prelude.{◌<◌};

/// How footprints are made: of how many threads, among how many bytes, and how long they and their intervals are.
#[derive(Clone, Copy)]
pub(crate) struct Kind {
    pub(crate) threads: u64,
    pub(crate) bytes: u64,
    pub(crate) length: u64,
    pub(crate) turns: u64,
    ghost some_threads: { 0 < threads },
    ghost some_bytes: { 0 < bytes },
    ghost some_length: { 0 < length },
    ghost some_turns: { 0 < turns },
}
