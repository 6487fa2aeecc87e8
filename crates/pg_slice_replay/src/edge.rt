//! The edge that a step takes.

ghost use Rattle.std.specs.Prelude.{◌≡◌, ◌<◌, length};
ghost use Rattle.pg_run_thread.specs.Compute.{chosen};
ghost use Rattle.pg_run_thread.specs.Needs.{EndsBlock};
ghost use Rattle.pg_run_thread.specs.Operands.{given, operand};
ghost use Rattle.pg_run_thread.specs.Step.{top_registers};
ghost use Rattle.pg_law_effects.specs.pg_run.Readers.{frames_of};
ghost use Rattle.pg_slice_rules.specs.Extents.{edge_by};
ghost use Rattle.pg_slice_rules.specs.Known.{edge_of};
ghost use Rattle.pg_slice_replay.specs.Landmarks.{moment_in};

use pg_ir::{BlockNo, Instr, Op, Program, ThreadNo, Value};
use pg_law_effects::pg_run::Machine;
use pg_run_trace::{Step, StepKind};

/// The value of an operand of a thread's present call, none where it was never set.
fn value(machine: &Machine, p: &Program, t: ThreadNo, of: Value) -> Option<u64>
    ensures { result ≡ operand p.now (top_registers (frames_of machine.now.state t.0)) of }
{
    match of {
        Value::Register(r) => machine.register(t, r),
        Value::Const(n) => Some(n),
        Value::Global(g) => p.global_pointer(g),
        Value::Function(f) => Some(f as u64),
    }
}

/// The number of an operand of a thread's present call, 0 where it was never set.
fn number(machine: &Machine, p: &Program, t: ThreadNo, of: Value) -> u64
    ensures { result ≡ given (operand p.now (top_registers (frames_of machine.now.state t.0)) of) }
{
    match value(machine, p, t, of) {
        Some(n) => n,
        None => 0,
    }
}

/// The block that a conditional branch enters, by the number of its condition.
fn chosen(n: u64, yes: BlockNo, no: BlockNo) -> u32
    ensures { result ≡ chosen n yes.0 no.0 }
{
    if n == 0 { no.0 } else { yes.0 }
}

/// The block that an instruction of a thread's present call enters, if it takes an edge.
fn edge_by(machine: &Machine, p: &Program, step: &Step, instr: &Instr) -> Option<u32>
    requires { EndsBlock p.now instr.now }
    ensures { result ≡ edge_by p.now (moment_in machine.now.state step.now) instr.now.op }
{
    match &instr.op {
        Op::Br { to } => Some(to.0),
        Op::CondBr { cond, yes, no } => {
            let n = number(machine, p, step.thread, *cond);
            Some(chosen(n, *yes, *no))
        }
        Op::Switch {
            on,
            other,
            cases,
            ..
        } => {
            let n = number(machine, p, step.thread, *on);
            let edge = p.switched(instr.block, cases.as_slice(), *other, n);
            Some(edge.to.0)
        }
        _ => None,
    }
}

/// The block that a step enters, if it takes an edge, by the state before it.
pub(crate) fn edge(machine: &Machine, p: &Program, step: &Step) -> Option<u32>
    requires { step.now.instr.0 < length p.now.instrs }
    ensures { result ≡ edge_of p.now (moment_in machine.now.state step.now) step.now.kind }
{
    match &step.kind {
        StepKind::Event(_) => None,
        _ => edge_by(machine, p, step, p.instr(step.instr)),
    }
}
