//! A bounded cache whose values say themselves which inputs they answer.
// How goals are searched for: see docs/CONTRIBUTING.md.
#![tactic(auto)]

mod cache;

pub use cache::{Admits, Cache};
