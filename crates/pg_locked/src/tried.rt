//! What a thread that tries to take its next step is answered.

/// The answer. The first four are tested in this order, and the first that holds is given.
#[derive(Clone, Copy, Debug, PartialEq, Eq)]
pub enum Tried {
    /// The thread isn't made.
    NotMade,
    /// The thread has ended, or has none of the turns that are left.
    Ended,
    /// The thread's own state makes it trap, or it has taken all the steps that a thread may take.
    Stopped,
    /// The next step is an event that isn't the next turn.
    Waiting,
    /// One step was taken.
    Did,
    /// There was no memory for the step.
    OutOfMemory,
}
