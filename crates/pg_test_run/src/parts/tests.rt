//! Tests of memory, synchronisation, threads' steps and traces.

mod memory;
mod objects;
mod programs;
mod steps;
mod traces;
