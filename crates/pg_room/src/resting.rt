//! The end of a run: its words become a room again.

ghost use Rattle.std.specs.Prelude.{◌≡◌, suc};
ghost use Rattle.pg_crew.specs.pg_worker.Standing.{run_in, table_in};
ghost use Rattle.pg_crew.specs.Workers.{HaveEnded};
ghost use Rattle.pg_room.specs.Ready.{IsReady};

use crate::gathering::gather_all;
use crate::parts::Ready;
use crate::room::Room;
use crate::sweeping::{clear_threads, sweep};
use pg_crew::pg_seats::end;
use pg_crew::pg_worker::Shared;

/// Takes back the seats of all workers, and makes the words that the run wrote 0 again: the room that it was made ready in. Takes no
/// memory.
pub fn rest(run: Ready<'_>) -> Room
    requires ready { IsReady run }
    requires ended { HaveEnded (run_in run.shared) (table_in run.shared) run.workers.items }
    ensures { result.epoch ≡ suc run.entry.shared.epoch }
{
    let Ready {
        shared,
        workers,
        mut pool,
        laid,
    } = run;
    let mut written = laid;
    gather_all(&shared, &mut pool, workers, &mut written);
    end::close(&shared.words, &mut pool);
    clear_threads(&shared, &mut pool);
    sweep(&shared, &mut pool, &written);
    end::rest(&shared.words, &mut pool);
    let Shared {
        words,
        program: _,
        schedule: _,
        input: _,
        epoch,
        gated: _,
        under_way: _,
    } = shared;
    Room {
        words,
        pool,
        epoch: epoch + 1,
    }
}
