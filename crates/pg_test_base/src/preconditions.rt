//! Worked rows of preconditions.

mod quotient;
pub mod rows;
