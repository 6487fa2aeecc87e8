//! Tests of preconditions over needed nodes: a worked row.

mod rows;
