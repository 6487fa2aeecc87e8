//! What is known of a byte or of a stored number.

use pg_slice_values::pg_slice_rules::Decision;

/// What is known of a byte.
#[derive(Clone, Copy, Debug, PartialEq, Eq)]
pub enum SymbolicByte {
    /// It is as before the first step.
    Initial,
    /// The byte `at` of the number of node `of`, from 0 to 7, the lowest first.
    Part { of: u32, at: u8 },
    /// Nothing; the decision is blamed.
    Unknown(Decision),
}

/// What is known of a number that is stored or loaded.
#[derive(Clone, Copy, Debug, PartialEq, Eq)]
pub enum Held {
    /// The number of this node.
    Known(u32),
    /// Nothing; the decision is blamed.
    Unknown(Decision),
}
