//! The registers that calls set in their callers.

ghost use Rattle.std.specs.Prelude.{◌≡◌, ◌<◌, length, replicate, None, IfOk};
ghost use Rattle.pg_num.specs.declared.limits.TheConstants.{THREAD_LIMIT};
ghost use Rattle.pg_ir.specs.Program.{NumberedProgram};
ghost use Rattle.pg_law_effects.specs.pg_run.State.{initial};
ghost use Rattle.pg_slice_replay.specs.Targets.{AreTargets, place_of, target_in, with_target};

use pg_ir::ThreadNo;
use pg_num::limits::{CALL_DEPTH_LIMIT, THREAD_LIMIT};
use std::alloc::{AllocError, Global};

/// The registers that the calls of threads set in their callers: of each thread a row, by how many calls are below.
#[derive(Drop)]
pub(crate) struct Targets {
    kept: Vec<Option<u32>>,
}

/// So many times no register.
pub(crate) fn none_of(alloc: Global, count: usize) -> Result<Vec<Option<u32>>, AllocError>
    ensures { IfOk result (λ targets. targets.items ≡ replicate count None) }
{
    vec![in alloc; None; count]
}

impl Targets {
    /// Before any call.
    pub(crate) fn new(alloc: Global) -> Result<Targets, AllocError>
        ensures { IfOk result (λ targets. (p : NumberedProgram) → AreTargets p targets.kept.items (initial p)) }
    {
        let kept = none_of(alloc, (THREAD_LIMIT * CALL_DEPTH_LIMIT) as usize)?;
        Ok(Targets { kept })
    }

    /// The register that a thread's present call sets in its caller, where so many calls are open.
    pub(crate) fn target(&self, t: ThreadNo, depth: u32) -> Option<u32>
        ensures { result ≡ target_in self.now.kept.items t.0 depth }
    {
        if depth < 2 {
            return None;
        }
        match self.kept.get(place_of(t, depth - 1)) {
            Some(target) => *target,
            None => None,
        }
    }

    /// Keeps the register that a thread's next call sets in its caller, where so many calls are open.
    pub(crate) fn put(&mut self, t: ThreadNo, depth: u32, target: Option<u32>)
        requires { length self.old.kept.items ≡ 16384 }
        ensures { self.new.kept.items ≡ with_target self.old.kept.items t.0 depth target }
    {
        put_target(&mut self.kept, t, depth, target);
    }
}

/// Where the register of a call of a thread stands, by how many calls are below it.
fn place_of(t: ThreadNo, below: u32) -> usize
    ensures { result ≡ place_of t.0 below }
{
    t.0 as usize * CALL_DEPTH_LIMIT as usize + below as usize
}

/// Keeps the register of a call above so many.
fn put_target(targets: &mut [Option<u32>], t: ThreadNo, depth: u32, target: Option<u32>)
    requires { length targets.old ≡ 16384 }
    ensures { targets.new ≡ with_target targets.old t.0 depth target }
{
    let at = place_of(t, depth);
    if depth < CALL_DEPTH_LIMIT && at < targets.len() {
        targets[at] = target;
    }
}
