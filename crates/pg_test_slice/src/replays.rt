//! Tests of replays: rotation runs of small programs, with what is told of each step.

mod programs;
mod runs;
