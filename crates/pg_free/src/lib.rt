//! Recordings in any order of the threads: each thread of a program has a worker that takes its steps, and all steps are those of
//! one machine under a lock.
// How goals are searched for: see docs/CONTRIBUTING.md.
#![tactic(auto)]

mod crew;
mod free;
mod noted;
mod prefer;
mod record;
mod seeded;
mod shared;
mod state;

pub use crew::FreeCrew;
pub use free::Free;
pub use noted::Noted;
pub use prefer::Prefer;
pub use record::free_record;
pub use seeded::Seeded;
pub use shared::{FreeShared, FreeWorker};
pub use state::FreeState;
