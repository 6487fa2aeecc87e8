//! The rows of `phi`s and `switch`es.

use crate::ids::BlockNo;
use crate::value::Value;

/// The value that a `phi` takes where its basic block is entered from `block`.
#[derive(Clone, Copy, Debug, PartialEq, Eq)]
pub struct Incoming {
    pub block: BlockNo,
    pub value: Value,
}

/// A case of a `switch`: the block that is next where the operand is `value`.
#[derive(Clone, Copy, Debug, PartialEq, Eq)]
pub struct Case {
    pub value: u64,
    pub to: BlockNo,
}
