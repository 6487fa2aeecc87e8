//! The count of the turns that are done in a round.

ghost use Rattle.std.specs.Prelude.{◌≡◌, ◌<◌, ◌≤◌, ℕ, length, slice_get, slice_index};
ghost use Rattle.pg_worker.specs.pg_num.declared.limits.TheConstants.{THREAD_LIMIT};
ghost use Rattle.pg_crew.specs.Workers.{counted, done_by, turns_since};

use pg_worker::Worker;
use pg_worker::pg_num::limits::THREAD_LIMIT;

/// How many turns each of the workers has done.
#[derive(Drop)]
pub(crate) struct Done {
    turns: [u64; THREAD_LIMIT as usize],
}

impl Done {
    /// By these workers.
    pub(crate) fn of(workers: &[Worker]) -> Done
        requires { length workers.now ≤ THREAD_LIMIT }
        ensures { (t : ℕ) → t < length workers.now → slice_index result.turns t ≡ done_by (slice_get workers.now t) }
    {
        let mut turns = [0; THREAD_LIMIT as usize];
        for t in 0..workers.len() {
            turns[t] = workers[t].turns_done() as u64;
        }
        Done { turns }
    }

    /// A count, and what the workers have done since.
    pub(crate) fn counted(&self, count: u64, workers: &[Worker]) -> u64
        requires few { length workers.now ≤ THREAD_LIMIT }
        requires since { (t : ℕ) → t < length workers.now → slice_index self.now.turns t ≤ done_by (slice_get workers.now t) }
        ensures { result ≡ counted count (turns_since (length workers.now) self.now.turns workers.now) }
    {
        let mut count = count;
        for t in 0..workers.len() {
            count = count.saturating_add(workers[t].turns_done() as u64 - self.turns[t]);
        }
        count
    }
}
