//! Symbolic values of worked operations.

mod moved;
