//! What a replay keeps of each step.

/// A step at a branch that is freeable: which of the regions it has, and where its accesses begin among those of all steps.
#[derive(Clone, Copy)]
pub struct FreeStep {
    pub(crate) region: u32,
    pub(crate) first: u32,
}

/// What is kept of a step: how deep its thread's calls are, the block that its edge enters, the register of the caller
/// that a return sets, the function of the present call, and what makes it freeable.
#[derive(Clone, Copy)]
pub struct Row {
    pub(crate) depth: u32,
    pub(crate) function: u32,
    pub(crate) edge: Option<u32>,
    pub(crate) target: Option<u32>,
    pub(crate) free: Option<FreeStep>,
}
