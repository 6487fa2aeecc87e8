//! The end of a run of workers.

use pg_room::pg_run::GuidedEnd;

/// What a run of workers printed, how it ended, and how many turns it did.
#[derive(Drop)]
pub struct Ended {
    pub output: Vec<u8>,
    pub end: GuidedEnd,
    pub turns: u32,
}
