//! Tests of entries: small programs, recorded and followed along given turns, and runs along their entries.

mod guided;
mod recorded;
mod shared_steps;
mod turns;
