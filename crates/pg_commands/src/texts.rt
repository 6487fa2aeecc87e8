//! The texts that are written.
ghost use Rattle.std.specs.Prelude.{◌≡◌, ◌≤◌, IfOk, string_bytes};
ghost use Rattle.pg_num.specs.declared.limits.TheConstants.{QUANTUM_LIMIT};
ghost use Rattle.pg_session_book.specs.pg_law_runs.Cuts.{CanRun};
ghost use Rattle.pg_commands.specs.EndLines.{line_of};
ghost use Rattle.pg_commands.specs.Texts.{once_text};

use crate::laws::the_guided_run_of_once_exits;
use crate::runs::{Told, run_told};
use pg_ir::Program;
use pg_session_book::pg_run::{Outcome, Refusal};
use std::alloc::{AllocError, Global};

/// The line that says how a run ended, with the number of its turns where it exited.
fn line_of(alloc: Global, end: Outcome, turns: usize) -> Result<String, AllocError>
    ensures { IfOk result (λ line. string_bytes line ≡ line_of end turns) }
{
    match end {
        Outcome::Exit(value) => format!(in alloc; "exit {value} after {turns} turns\n"),
        Outcome::Refused(Refusal::Trap(name, id)) => {
            let number = id.0;
            format!(in alloc; "trap {name} at {number}\n")
        }
        Outcome::Refused(Refusal::Budget) => format!(in alloc; "budget\n"),
    }
}

/// The text of `once`. Where the rotation run with this quantum exits, the guided run along the schedule of its trace
/// prints the same, exits with the same value and does all turns of the schedule, so it isn't made.
pub(crate) fn once_text(
    alloc: Global,
    program: &Program,
    quantum: u32,
    input: &[i64],
) -> Result<Vec<u8>, AllocError>
    requires least { 1 ≤ quantum }
    requires most { quantum ≤ QUANTUM_LIMIT }
    requires can_run { CanRun program.now input.now }
    ensures { IfOk result (λ v. v.items ≡ once_text program.now quantum input.now) }
{
    the_guided_run_of_once_exits();
    let Told { output, end, turns } = run_told(alloc, program, quantum, input)?;
    let line = line_of(alloc, end, turns)?;
    let mut text = output;
    text.extend_from_slice(line.as_bytes())?;
    Ok(text)
}
