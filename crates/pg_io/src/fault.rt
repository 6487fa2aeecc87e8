//! The one error of the traits of the outside.

/// A call on the outside failed. Which call, and how often, the count of faults of its object tells.
#[derive(Clone, Copy, Debug, PartialEq, Eq)]
pub struct Failed;
