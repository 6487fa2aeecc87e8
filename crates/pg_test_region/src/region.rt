//! Tests of walks in graphs and of regions.

mod graphs;
mod programs;
mod regions;
