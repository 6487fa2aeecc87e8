//! The replies at the events of a trace.

ghost use Rattle.std.specs.Prelude.{◌≡◌, IfOk};
ghost use Rattle.std.specs.List.{filter_map};
ghost use Rattle.pg_run_trace.specs.declared.step.Step.{Step as AStep};
ghost use Rattle.pg_run_trace.specs.Races as races;

use pg_run_trace::Trace;
use pg_schedule::reply_in;
use std::alloc::{AllocError, Global};

/// The replies at the events of a trace.
pub(crate) fn replies_of(alloc: Global, t: &Trace) -> Result<Vec<u64>, AllocError>
    ensures { IfOk result (λ v. v.items ≡ filter_map (λ (x : AStep). races.reply_in x.kind) t.now.steps) }
{
    let mut replies = Vec::new(alloc);
    for i in 0..t.len() {
        let step = t.step(i);
        if let Some(reply) = reply_in(&step) {
            replies.push(reply)?;
        }
    }
    Ok(replies)
}
