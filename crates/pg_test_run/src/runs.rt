//! Tests of runs: rotation runs and guided runs of sample programs.

mod follow;
mod guided;
mod recorded;
mod rotation;
