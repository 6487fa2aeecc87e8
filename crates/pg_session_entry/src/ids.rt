//! The instructions of a trace's steps.

ghost use Rattle.std.specs.Prelude.{◌≡◌, IfOk, map};
ghost use Rattle.pg_run_trace.specs.declared.step.Step.{Step};

use pg_ir::InstrId;
use pg_run_trace::Trace;
use std::alloc::{AllocError, Global};

/// The instruction of each step of a trace.
pub(crate) fn ids_of(alloc: Global, t: &Trace) -> Result<Vec<InstrId>, AllocError>
    ensures { IfOk result (λ v. v.items ≡ map (λ (x : Step). x.instr) t.now.steps) }
{
    let mut ids = Vec::with_capacity(alloc, t.len())?;
    for i in 0..t.len() {
        let step = t.step(i);
        ids.push(step.instr)?;
    }
    Ok(ids)
}
