//! Functions, basic blocks and globals.

use crate::ids::{BlockNo, InstrId};
use crate::lists::{Bytes, Scalars};
use crate::value::Scalar;

/// A function: the first `params` of its registers are its parameters, its blocks are `blocks`
/// consecutive ones from `first_block` on, and `result` is missing where it returns `void`.
#[derive(Debug, Drop)]
pub struct Function {
    pub params: u32,
    pub registers: Scalars,
    pub first_block: BlockNo,
    pub blocks: u32,
    pub result: Option<Scalar>,
}

/// A basic block: `count` consecutive instructions of `function`, from `first` on.
#[derive(Clone, Copy, Debug, PartialEq, Eq)]
pub struct Block {
    pub function: u32,
    pub first: InstrId,
    pub count: u32,
}

/// A global: the granule of 8 bytes at which it starts, its size in bytes, and its first bytes.
#[derive(Debug, Drop)]
pub struct GlobalInfo {
    pub start: u32,
    pub size: u32,
    pub bytes: Bytes,
}
