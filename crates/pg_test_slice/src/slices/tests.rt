//! Tests of slices.

mod checks;
mod programs;
mod row;
mod runs;
mod slices;
mod symbolic_nodes;
