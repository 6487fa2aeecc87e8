//! The run that `once` tells of.

ghost use Rattle.std.specs.Prelude.{◌≡◌, ◌≤◌, IfOk};
ghost use Rattle.pg_num.specs.declared.limits.TheConstants.{QUANTUM_LIMIT};
ghost use Rattle.pg_session_book.specs.pg_run.Rotation.{rotation_of};
ghost use Rattle.pg_commands.specs.EndLines.{end_line, line_of};

use crate::turns::turn_count;
use pg_ir::Program;
use pg_session_book::pg_run::{Counted, Outcome, Recorded, rotate, rotate_alone};
use pg_session_book::pg_run_trace::Trace;
use std::alloc::{AllocError, Global};

/// What a run printed, how it ended, and, where it exited, how many turns the schedule of its trace has.
#[derive(Drop)]
pub(crate) struct Told {
    pub(crate) output: Vec<u8>,
    pub(crate) end: Outcome,
    pub(crate) turns: usize,
}

/// How many turns the schedule of a trace has where the run exited, and 0 where it was refused.
#[tactic(auto, using(crate::proofs::TurnsCounted::line_refused))]
fn turns_of(
    alloc: Global,
    program: &Program,
    trace: &Trace,
    end: Outcome,
) -> Result<usize, AllocError>
    ensures { IfOk result (λ n. line_of end n ≡ end_line trace.now.steps end) }
{
    match end {
        Outcome::Exit(_) => {
            let turns = turn_count(alloc, program, trace)?;
            Ok(turns)
        }
        Outcome::Refused(_) => Ok(0),
    }
}

/// The rotation run with this quantum, which is recorded.
fn recorded(
    alloc: Global,
    program: &Program,
    quantum: u32,
    input: &[i64],
) -> Result<Told, AllocError>
    requires least { 1 ≤ quantum }
    requires most { quantum ≤ QUANTUM_LIMIT }
    ensures output { IfOk result (λ r. r.output.items ≡ (rotation_of program.now input.now quantum).state.printed) }
    ensures line { IfOk result (λ r. line_of r.end r.turns ≡ end_line (rotation_of program.now input.now quantum).trace (rotation_of program.now input.now quantum).end) }
{
    let Recorded { trace, output, end } = rotate(alloc, program, input, quantum)?;
    let turns = turns_of(alloc, program, &trace, end)?;
    Ok(Told { output, end, turns })
}

/// The rotation run with this quantum. As long as main makes no thread no step of it is kept; where it makes one the run
/// is made anew, and recorded.
///
/// # Errors
///
/// Where no memory is left for it.
#[tactic(auto, using(crate::proofs::TurnsCounted::line_alone))]
pub(crate) fn run_told(
    alloc: Global,
    program: &Program,
    quantum: u32,
    input: &[i64],
) -> Result<Told, AllocError>
    requires least { 1 ≤ quantum }
    requires most { quantum ≤ QUANTUM_LIMIT }
    ensures output { IfOk result (λ r. r.output.items ≡ (rotation_of program.now input.now quantum).state.printed) }
    ensures line { IfOk result (λ r. line_of r.end r.turns ≡ end_line (rotation_of program.now input.now quantum).trace (rotation_of program.now input.now quantum).end) }
{
    match rotate_alone(alloc, program, input, quantum)? {
        Some(run) => {
            let Counted {
                output,
                end,
                events,
            } = run;
            Ok(Told {
                output,
                end,
                turns: events,
            })
        }
        None => {
            let run = recorded(alloc, program, quantum, input)?;
            Ok(run)
        }
    }
}
