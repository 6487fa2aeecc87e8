//! The numbers of threads, instructions and blocks.

/// The number of a thread: main is 0, and each create gives the next number.
#[derive(Clone, Copy, Debug, PartialEq, Eq, PartialOrd, Ord, Hash)]
pub struct ThreadNo(pub u8);

/// The number of an instruction in the whole program: functions in text order, instructions in
/// text order, from 0.
#[derive(Clone, Copy, Debug, PartialEq, Eq, PartialOrd, Ord, Hash)]
pub struct InstrId(pub u32);

/// The number of a basic block in the whole program, in text order from 0.
#[derive(Clone, Copy, Debug, PartialEq, Eq, PartialOrd, Ord, Hash)]
pub struct BlockNo(pub u32);
