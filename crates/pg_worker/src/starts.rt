//! The function with which a thread begins.

ghost use Rattle.std.specs.Prelude.{◌≡◌, ℕ, Some, find, slice_get, true};
ghost use Rattle.pg_seats.specs.pg_ir.WellFormed.{StartsAs};
ghost use Rattle.pg_seats.specs.pg_run_thread.Operands.{operands_of};
ghost use Rattle.pg_seats.specs.pg_law_course.Threads.{created_by, creates, function_value, start_function};
ghost use Rattle.pg_worker.specs.Calls.{is_call};

use pg_seats::pg_ir::{Op, Program, ThreadNo, Value};
use pg_seats::pg_run_trace::{Turn, TurnKind};

/// Whether a turn creates a thread.
fn creates(thread: ThreadNo, turn: &Turn) -> bool
    ensures { result ≡ creates thread.0 turn.now }
{
    match turn.kind {
        TurnKind::Create => turn.object == u64::from(thread.0),
        _ => false,
    }
}

/// The first turn that creates a thread.
fn creating(turns: &[Turn], thread: ThreadNo) -> Option<Turn>
    ensures { result ≡ find (creates thread.0) turns.now }
{
    for turn in turns {
        if creates(thread, turn) {
            return Some(*turn);
        }
    }
    None
}

/// The function that an operation has as its third operand, as no operation but a create does.
fn operand(op: &Op) -> Option<u32>
    requires { (f : ℕ) → function_value (slice_get (operands_of op.now) 2) ≡ Some f → is_call op.now ≡ true }
    ensures { result ≡ function_value (slice_get (operands_of op.now) 2) }
{
    match op {
        Op::CallLibrary { args, .. } => match args.as_slice().get(2) {
            Some(Value::Function(f)) => Some(*f),
            _ => None,
        },
        _ => None,
    }
}

/// The function that a create turn names at its instruction, or main.
fn named_by(p: &Program, turn: &Turn) -> u32
    ensures function { result ≡ created_by p.now (Some turn.now) }
    ensures fits { StartsAs p.now result }
{
    p.facts();
    if turn.instr.0 >= p.instr_count() {
        return p.main();
    }
    match operand(&p.instr(turn.instr).op) {
        Some(f) => f,
        None => p.main(),
    }
}

/// The function with which a thread begins: that which the first turn that creates it names; main for the main thread, and for a thread
/// that no turn creates.
pub(crate) fn start_of(p: &Program, turns: &[Turn], thread: ThreadNo) -> u32
    ensures function { result ≡ start_function p.now turns.now thread.0 }
    ensures fits { StartsAs p.now result }
{
    if thread.0 == 0 {
        return p.main();
    }
    match creating(turns, thread) {
        Some(turn) => named_by(p, &turn),
        None => p.main(),
    }
}
