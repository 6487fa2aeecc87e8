//! What a run that is made ready consists of.

use pg_crew::pg_seats::Place;
use pg_crew::pg_worker::pages::Pages;
use pg_crew::pg_worker::{Shared, Worker};

/// A run that is made ready: what its workers share, a worker for each of its threads, the seat from which theirs were split off, and
/// the pages that were written before the first step.
#[derive(Drop)]
pub struct Ready<'a> {
    pub shared: Shared<'a>,
    pub workers: Vec<Worker>,
    pub pool: Place,
    pub laid: Pages,
}
