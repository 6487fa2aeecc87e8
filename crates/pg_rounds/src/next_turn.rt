//! The next turn of a run, and how its owner may be stopped there.

ghost use Rattle.std.specs.Prelude.{◌≡◌, ◌<◌, IfNone, IfSome, Some, false, length, slice_index_or, true, ℕ};
ghost use Rattle.pg_room.specs.pg_run_thread.States.{IsOf};
ghost use Rattle.pg_room.specs.pg_worker.declared.worker.Worker.{Worker as WorkerData};
ghost use Rattle.pg_room.specs.pg_worker.Standing.{is_stopped};
ghost use Rattle.pg_rounds.specs.Turns.{AreDone, IsAwaited, IsNext, IsOver, IsSooner, is_strayed};

use pg_room::pg_ir::Program;
use pg_room::pg_run::GuidedEnd;
use pg_room::pg_worker::Worker;

/// The least of the numbers of the workers' next turns, and whose it is: the next turn of the run, where a turn is left.
pub(crate) fn next_turn(workers: &[Worker]) -> Option<(usize, u64)>
    ensures none { IfNone result (AreDone workers.now) }
    ensures some { IfSome result (λ n. IsNext workers.now n.0 n.1) }
{
    let mut found: Option<(usize, u64)> = None;
    for t in 0..workers.len() {
        let next = workers[t].next();
        found = sooner(found, t, next);
    }
    found
}

/// The sooner of two turns.
fn sooner(found: Option<(usize, u64)>, t: usize, next: Option<u64>) -> Option<(usize, u64)>
    ensures { IsSooner found t next result }
{
    match (found, next) {
        (_, None) => found,
        (Some((_, least)), Some(number)) if least <= number => found,
        (_, Some(number)) => Some((t, number)),
    }
}

/// Whether an end of a guided run is none of a worker that is stopped.
fn strays(end: GuidedEnd) -> bool
    ensures { result ≡ is_strayed end }
{
    match end {
        GuidedEnd::Strayed => true,
        GuidedEnd::Exit(_) | GuidedEnd::Trap(_, _) | GuidedEnd::Budget(_) => false,
    }
}

/// Whether a worker can take no step.
fn is_stopped(p: &Program, worker: &Worker) -> bool
    requires { IsOf p.now worker.now.fiber }
    ensures { result ≡ is_stopped p.now worker.now }
{
    !strays(worker.end(p))
}

/// The next turn of the run, and whose it is, where a turn is left and its owner isn't stopped.
pub(crate) fn awaited(p: &Program, workers: &[Worker]) -> Option<(usize, u64)>
    requires of { (t : ℕ) (d : WorkerData) → t < length workers.now → IsOf p.now (slice_index_or workers.now t d).fiber }
    ensures none { IfNone result (IsOver p.now workers.now) }
    ensures some { IfSome result (λ n. IsAwaited p.now workers.now n.0 n.1) }
{
    let (t, number) = next_turn(workers)?;
    if is_stopped(p, &workers[t]) {
        return None;
    }
    Some((t, number))
}
