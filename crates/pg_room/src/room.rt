//! The words between two runs.

ghost use Rattle.std.specs.Prelude.{◌≡◌, []};
ghost use Rattle.pg_crew.specs.pg_seats.declared.run.View.TheVariants.{Idle};

use pg_crew::pg_seats::{Place, RunWords, begin};
use std::alloc::{AllocError, Global};

/// Words at rest, which serve one run after another: all of them are 0, and the pool's seat alone is there. A run needs 33 MB of words,
/// which are written once, when a room is made.
#[derive(Drop)]
pub struct Room {
    pub(crate) words: RunWords,
    pub(crate) pool: Place,
    /// How many runs were made in it.
    pub(crate) epoch: u64,
    pub ghost own: { pool.table_id ≡ words.table.shared.table_id },
    pub ghost idle: { pool.me ≡ (Idle epoch, []) },
}

/// A run that was not made ready: there was no memory left for it, or the room has served all runs that can be counted. The room is
/// as it was.
#[derive(Drop)]
pub struct NotPrepared {
    pub room: Room,
}

impl Room {
    /// A room for runs of any program.
    ///
    /// # Errors
    ///
    /// Where no memory is left for the words.
    pub fn new(alloc: Global) -> Result<Room, AllocError> {
        let (words, pool) = begin::new(alloc)?;
        Ok(Room {
            words,
            pool,
            epoch: 0,
        })
    }
}
