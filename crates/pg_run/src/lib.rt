//! Runs: the machine of a program's threads, its step, the rotation run and guided runs.
// How goals are searched for: see docs/CONTRIBUTING.md.
#![tactic(auto)]

mod advance;
mod alone;
mod answer;
mod gated;
mod guided;
mod guided_due;
mod guided_end;
mod guided_follow;
pub mod guided_laws;
mod guided_left;
mod guided_walk;
pub mod laws;
mod machine;
mod outcome;
mod recording;
mod rotation;
mod run;
mod share;
mod state;
mod tell;

pub use alone::{Counted, rotate_alone};
pub use answer::number_at;
pub use gated::{Gated, is_among};
pub use guided::{Guided, guide};
pub use guided_end::GuidedEnd;
pub use guided_follow::{Followed, follow, follow_into};
pub use machine::{Machine, Next, Stepped};
pub use outcome::{Outcome, Refusal};
pub use rotation::{Ended, Recorded, rotate, rotate_into};
