//! Back over steps that are neither accesses nor events.

ghost use Rattle.std.specs.Prelude.{◌≡◌, ◌<◌, ◌-◌, ℕ, suc, Bool, true, Some, IfSome, OnOk, length};
ghost use Rattle.std.specs.List.{AllByRecursion};
ghost use Rattle.pg_ir.specs.Program.{NumberedProgram};
ghost use Rattle.pg_run_trace.specs.declared.step.Step.{Step as AStep};
ghost use Rattle.pg_slice_rules.specs.Known.{Reference, SymbolicState, Taken};
ghost use Rattle.pg_slice_rules.specs.Moments.{Moment};
ghost use Rattle.pg_law_demands.specs.Along.{known_at};
ghost use Rattle.pg_law_demands.specs.Cells.{IsMet};
ghost use Rattle.pg_law_demands.specs.Back.{is_target, of_optional, register_demand};
ghost use Rattle.pg_slice_passes.specs.pg_slice_replay.Kept.{landmark_at, step_count};
ghost use Rattle.pg_slice_passes.specs.Given.{EdgesStand, is_op};
ghost use Rattle.pg_slice_back.specs.Edges.{held_by, sets_result, takes_edge};
ghost use Rattle.pg_slice_back.specs.Leaves.{Leaves, none};
ghost use Rattle.pg_slice_back.specs.Met.{AreMet};
ghost use Rattle.pg_slice_back.specs.Steps.{IsCallOf, IsLiveStep};

use crate::moves::{back_call, back_result, back_return, leave_thread};
use crate::phis::back_edge;
use crate::step::StepAt;
use pg_ir::{Op, Value};
use pg_slice_demands::{Call, Demanded};
use pg_slice_passes::pg_slice_replay::ReferenceRun;
use std::alloc::{AllocError, Global};

/// A register, where it is among the first so many.
pub(crate) fn held(target: Option<u32>, count: usize) -> Option<u32>
    ensures { result ≡ held_by target count }
{
    match target {
        Some(register) => {
            if (register as usize) < count {
                Some(register)
            } else {
                None
            }
        }
        None => None,
    }
}

/// Whether an operation computes in its call, and sets the register of its instruction.
fn sets_result(op: &Op) -> bool
    ensures { result ≡ sets_result op.now }
{
    match op {
        Op::Br { .. } | Op::CondBr { .. } | Op::Switch { .. } | Op::Call { .. } | Op::Ret { .. } =>
            { false }
        _ => true,
    }
}

/// Whether an operation goes on along an edge.
fn takes_edge(op: &Op) -> bool
    ensures { result ≡ takes_edge op.now }
{
    match op {
        Op::Br { .. } | Op::CondBr { .. } | Op::Switch { .. } => true,
        _ => false,
    }
}

/// The block that a step's edge enters, if it takes one.
fn edge_of(reference: &ReferenceRun, number: usize) -> Option<u32>
    requires { number < step_count reference.now }
    ensures is { IfSome (landmark_at reference.now number) (λ l. result ≡ l.edge) }
    ensures stands { (p : NumberedProgram) → EdgesStand p reference.now → IfSome result (λ b. b < length p.blocks) }
{
    reference.edge(number)
}

/// Back over a return, where the thread may have no call.
fn back_returned(
    demanded: &mut Demanded,
    at: Call,
    target: Option<u32>,
    value: Option<Value>,
) -> Result<(), AllocError>
    ensures { OnOk result ((after before : SymbolicState) → Leaves at.thread.0 (at.depth - 1) (is_target target) none after before
        → ((r : ℕ) (v : Bool) → target ≡ Some r → IsMet after (register_demand at.thread.0 (at.depth - 1) r v)
        → 0 < at.depth → AllByRecursion (IsMet before) (of_optional at.thread.0 at.depth v value))
        → AreMet after demanded.old → AreMet before demanded.new) }
{
    if at.depth == 0 {
        leave_thread(demanded, at);
        return Ok(());
    }
    back_return(demanded, at, target, value)
}

/// Back over a branch, a call or a return.
fn back_flow(alloc: Global, demanded: &mut Demanded, at: Call, s: &StepAt) -> Result<(), AllocError>
    requires number { s.now.number < step_count s.now.reference.now }
    requires edges { EdgesStand s.now.program.now s.now.reference.now }
    ensures { OnOk result ((R : Reference) (e : Taken) (step : AStep) (m : Moment)
        → IsLiveStep R e s.now.program.now s.now.reference.now s.now.instr.now step s.now.counts s.now.number m → IsCallOf m at
        → is_op step.kind ≡ true
        → AreMet (known_at R e (suc s.now.number)) demanded.old → AreMet (known_at R e s.now.number) demanded.new) }
{
    if takes_edge(&s.instr.op) {
        back_edge(
            alloc,
            demanded,
            s.program,
            at,
            s.instr.block.0,
            edge_of(s.reference, s.number),
            s.counts.present,
        )?;
        return Ok(());
    }
    match &s.instr.op {
        Op::Call { args, .. } => back_call(alloc, demanded, at, None, args.as_slice()),
        Op::Ret { value } => back_returned(
            demanded,
            at,
            held(s.reference.target(s.number), s.counts.under),
            *value,
        ),
        _ => {
            leave_thread(demanded, at);
            Ok(())
        }
    }
}

/// Back over a step that is neither an access nor an event.
///
/// # Errors
///
/// Where no memory is left.
pub(crate) fn back_op(
    alloc: Global,
    demanded: &mut Demanded,
    at: Call,
    s: &StepAt,
) -> Result<(), AllocError>
    requires number { s.now.number < step_count s.now.reference.now }
    requires edges { EdgesStand s.now.program.now s.now.reference.now }
    ensures { OnOk result ((R : Reference) (e : Taken) (step : AStep) (m : Moment)
        → IsLiveStep R e s.now.program.now s.now.reference.now s.now.instr.now step s.now.counts s.now.number m → IsCallOf m at
        → is_op step.kind ≡ true
        → AreMet (known_at R e (suc s.now.number)) demanded.old → AreMet (known_at R e s.now.number) demanded.new) }
{
    if sets_result(&s.instr.op) {
        back_result(
            demanded,
            at,
            held(s.instr.result, s.counts.present),
            &s.instr.op,
        )
    } else {
        back_flow(alloc, demanded, at, s)
    }
}
