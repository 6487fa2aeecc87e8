//! What a run takes memory for.

use pg_crew::pg_run::Gated;
use pg_crew::pg_worker::pages::Pages;
use pg_crew::pg_worker::{Unseated, Worker};

/// What a run takes memory for: its threads, room for as many workers, a mark for each page, and one for each load and store that is
/// an event.
#[derive(Drop)]
pub(crate) struct Threads {
    pub(crate) threads: Vec<Unseated>,
    pub(crate) workers: Vec<Worker>,
    pub(crate) laid: Pages,
    pub(crate) gated: Gated,
}
