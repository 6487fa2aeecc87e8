//! Schedules of recorded runs.

ghost use Rattle.std.specs.Prelude.{◌≤◌, IfOk, IfSome};
ghost use Rattle.pg_crew.specs.pg_num.declared.limits.TheConstants.{QUANTUM_LIMIT};
ghost use Rattle.pg_crew.specs.pg_law_order.Good.{IsGoodRun};

use pg_crew::pg_ir::Program;
use pg_crew::pg_num::limits::QUANTUM_LIMIT;
use pg_crew::pg_run::{Outcome, rotate};
use pg_crew::pg_run_trace::Schedule;
use pg_go::laws::a_recorded_run_is_good;
use pg_law_order::can_run;
use pg_law_order::recorded::the_schedule_of_a_rotation_run_is_good;
use pg_schedule::{hybrid, races};
use std::alloc::{AllocError, Global};
use std::test::Fail;

/// The schedule of a rotation run, where it exits.
fn scheduled(
    alloc: Global,
    p: &Program,
    input: &[i64],
    quantum: u32,
) -> Result<Option<Schedule>, AllocError>
    requires least { 1 ≤ quantum }
    requires most { quantum ≤ QUANTUM_LIMIT }
    ensures { IfOk result (λ o. IfSome o (IsGoodRun p.now input.now)) }
{
    can_run(p, input);
    the_schedule_of_a_rotation_run_is_good();
    a_recorded_run_is_good();
    let run = rotate(alloc, p, input, quantum)?;
    match run.end {
        Outcome::Refused(_) => Ok(None),
        Outcome::Exit(_) => {
            let races = races(alloc, &run.trace)?;
            let s = hybrid(alloc, &run.trace, races.as_slice())?;
            Ok(Some(s))
        }
    }
}

/// The schedule of the rotation run of a program on an input.
pub(crate) fn schedule_for(
    alloc: Global,
    p: &Program,
    input: &[i64],
    quantum: u32,
) -> Result<Schedule, Fail>
    ensures { IfOk result (IsGoodRun p.now input.now) }
{
    if quantum == 0 || quantum > QUANTUM_LIMIT {
        return Err("no quantum".into());
    }
    let Some(s) = scheduled(alloc, p, input, quantum)? else {
        return Err("no exit".into());
    };
    Ok(s)
}
