//! What is read of a step.

ghost use Rattle.std.specs.Prelude.{◌≡◌, ◌&&◌, not};

/// What is read of a reference run at a step that is neither an access nor an event.
#[derive(Clone, Copy, Debug, PartialEq, Eq)]
pub struct OpStep {
    /// The number of the step.
    pub number: usize,
    /// Whether the step is pinned.
    pub pinned: bool,
    /// Whether the step is at a branch that is freeable.
    pub freed: bool,
    /// The block to which it goes on, where it takes an edge.
    pub edge: Option<u32>,
    /// The register of the caller that gets the value of a return.
    pub target: Option<u32>,
    /// The word of the pointer that an allocation gave.
    pub word: u64,
}

impl OpStep {
    /// Whether the step is an instance of its branch's region: the branch is freeable, and the step isn't pinned.
    pub(crate) fn is_instance(self) -> bool
        ensures { result ≡ (self.freed && not self.pinned) }
    {
        self.freed && !self.pinned
    }
}
