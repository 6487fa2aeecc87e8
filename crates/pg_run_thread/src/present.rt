//! By what a thread's next step is decided.

use crate::thread_memory::ThreadMemory;

/// By what the next step of a thread is decided, beside its present instruction: the registers of
/// the present frame, the thread's memory, whether it has done the first half of a wait, and how
/// many frames there are, with how many registers together.
#[derive(Clone, Copy)]
pub(crate) struct Present<'a> {
    pub(crate) registers: &'a [Option<u64>],
    pub(crate) memory: ThreadMemory,
    pub(crate) halfway: bool,
    pub(crate) depth: u32,
    pub(crate) used: u32,
}
