//! Tests of quiet functions and their summaries.

mod programs;
mod rows;
