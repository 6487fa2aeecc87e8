//! The hooks of a crew, one a worker.

ghost use Rattle.std.specs.Prelude.{◌≡◌};
ghost use Rattle.pg_crew.specs.Workers.{HasGone};
ghost use Rattle.pg_worker.specs.Standing.{HasPaused, IsAt, run_in, table_in};

use pg_worker::pg_ir::{InstrId, ThreadNo};
use pg_worker::{Hook, NoHook, Paused, Shared, Worker};

/// A hook that was handed in.
#[derive(Drop)]
pub struct AnyHook {
    inner: Box<dyn Hook + Sync + Drop>,
}

impl AnyHook {
    /// This hook.
    pub fn new(inner: Box<dyn Hook + Sync + Drop>) -> AnyHook {
        AnyHook { inner }
    }
}

impl Hook for AnyHook {
    fn at_action(&self, thread: ThreadNo, at: InstrId, is_start: bool) {
        self.inner.at_action(thread, at, is_start);
    }
}

/// A segment of a worker with a hook. Gives why the worker pauses.
fn segment<H: Hook>(hook: &H, shared: &Shared<'_>, worker: &mut Worker) -> Paused
    requires at { IsAt (run_in shared.now) (table_in shared.now) 0 worker.old }
    requires gated { shared.now.gated ≡ shared.now.schedule.now.gated }
    ensures at { IsAt (run_in shared.now) (table_in shared.now) 0 worker.new }
    ensures gone { HasGone (run_in shared.now) worker.old worker.new }
    ensures paused { HasPaused (run_in shared.now) result worker.old worker.new }
{
    worker.segment(shared, hook)
}

/// A segment of a worker with its hook; past the end of the list with none. Gives why the worker pauses.
pub(crate) fn go_on(
    hooks: &[AnyHook],
    index: usize,
    shared: &Shared<'_>,
    worker: &mut Worker,
) -> Paused
    requires at { IsAt (run_in shared.now) (table_in shared.now) 0 worker.old }
    requires gated { shared.now.gated ≡ shared.now.schedule.now.gated }
    ensures at { IsAt (run_in shared.now) (table_in shared.now) 0 worker.new }
    ensures gone { HasGone (run_in shared.now) worker.old worker.new }
    ensures paused { HasPaused (run_in shared.now) result worker.old worker.new }
{
    match hooks.get(index) {
        Some(hook) => segment(hook, shared, worker),
        None => segment(&NoHook, shared, worker),
    }
}
