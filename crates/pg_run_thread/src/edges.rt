//! What `phi`s take along an edge.

ghost use Rattle.std.specs.Prelude.{◌≡◌, ◌<◌, ◌≤◌, ◌∷◌, [], length, map, true, false, Some, slice_get, IfSome, vec_capacity};
ghost use Rattle.std.specs.List.{AllByRecursion};
ghost use Rattle.pg_ir.specs.Edges.{phis_of, successors};
ghost use Rattle.pg_ir.specs.pg_num.declared.limits.TheConstants.{FUNCTION_REGISTER_LIMIT};
ghost use Rattle.pg_ir.specs.Operands.{CanEnter, CanReadReturned, CanTakePhi};
ghost use Rattle.pg_run_thread.specs.Operands.{optional_operand};
ghost use Rattle.pg_run_thread.specs.EdgeStep.{have_values, over_edge, set_register, set_each};
ghost use Rattle.pg_run_thread.specs.Compute.{chosen};
ghost use Rattle.pg_run_thread.specs.Needs.{EndsBlock, IsBranch, are_given, block_taken};

use crate::operands::value_of;
use crate::room::push_value;
use pg_ir::{BlockNo, Edge, Instr, Op, Program, Value};

/// The value of an operand that there may be.
fn optional_value(p: &Program, registers: &[Option<u64>], of: Option<Value>) -> Option<u64>
    requires { CanReadReturned p.now (length registers.now) of }
    ensures { result ≡ optional_operand p.now registers.now of }
{
    match of {
        Some(value) => value_of(p, registers, value),
        None => None,
    }
}

/// Whether each operand along an edge has a value.
pub(crate) fn have_values(p: &Program, registers: &[Option<u64>], row: &[Option<Value>]) -> bool
    requires { AllByRecursion (CanReadReturned p.now (length registers.now)) row.now }
    ensures { result ≡ are_given (map (optional_operand p.now registers.now) row.now) }
{
    for of in row {
        if optional_value(p, registers, *of).is_none() {
            return false;
        }
    }
    true
}

/// Puts the values of the operands along an edge into the room, and says whether each has one.
fn gather(
    p: &Program,
    registers: &[Option<u64>],
    row: &[Option<Value>],
    room: &mut Vec<Option<u64>>,
) -> bool
    requires fits { AllByRecursion (CanReadReturned p.now (length registers.now)) row.now }
    requires room { length row.now ≤ vec_capacity room.old }
    ensures values { room.new.items ≡ map (optional_operand p.now registers.now) row.now }
    ensures given { result ≡ are_given (map (optional_operand p.now registers.now) row.now) }
    ensures room { vec_capacity room.old ≤ vec_capacity room.new }
{
    room.clear();
    let mut given = true;
    for of in row {
        let value = optional_value(p, registers, *of);
        given = given && value.is_some();
        push_value(room, value);
    }
    given
}

/// Sets a register, if there is one.
pub(crate) fn set_register(registers: &mut [Option<u64>], target: Option<u32>, value: Option<u64>)
    requires { IfSome target (λ r. r < length registers.old) }
    ensures { registers.new ≡ set_register registers.old target value }
{
    if let Some(r) = target {
        registers[r as usize] = value;
    }
}

/// Gives the `phi`s these values.
fn assign(p: &Program, registers: &mut [Option<u64>], phis: &[Instr], values: &[Option<u64>])
    requires fits { AllByRecursion (CanTakePhi p.now (length registers.old)) phis.now }
    requires each { length values.now ≡ length phis.now }
    ensures { registers.new ≡ set_each registers.old phis.now values.now }
{
    for i in 0..phis.len() {
        set_register(registers, phis[i].result, values[i]);
    }
}

/// Takes an edge, if each `phi` of the block that is entered has a value: they take their values together.
/// Says whether each has one; else no register changes.
#[tactic(auto, using(crate::proofs::EdgeValues::along_values, crate::proofs::EdgeValues::along_set, crate::proofs::EdgeValues::along_reads, crate::proofs::EdgeValues::along_few, pg_ir::proofs::GrowingTables::values_count), unfolding(crate::specs::EdgeStep::over_edge))]
pub(crate) fn take_edge(
    p: &Program,
    registers: &mut [Option<u64>],
    room: &mut Vec<Option<u64>>,
    from: BlockNo,
    edge: Edge,
) -> bool
    requires from { from.0 < length p.now.blocks }
    requires target { slice_get (successors p.now from.0) edge.target ≡ Some edge.to.0 }
    requires enters { CanEnter p.now (length registers.old) edge.to.0 }
    requires room { FUNCTION_REGISTER_LIMIT ≤ vec_capacity room.old }
    ensures given { result ≡ have_values p.now registers.old from.0 (phis_of p.now edge.to.0) }
    ensures goes { result ≡ true → registers.new ≡ over_edge p.now registers.old from.0 edge.to.0 }
    ensures stays { result ≡ false → registers.new ≡ registers.old }
    ensures room { vec_capacity room.old ≤ vec_capacity room.new }
{
    let given = gather(p, registers, p.values_along(from, edge), room);
    if given {
        assign(p, registers, p.phis(edge.to), room.as_slice());
    }
    given
}

/// The edge that a conditional branch takes, by the number of its condition.
fn cond_edge(n: u64, yes: BlockNo, no: BlockNo) -> Edge
    ensures to { result.to.0 ≡ chosen n yes.0 no.0 }
    ensures target { slice_get (yes.0 ∷ no.0 ∷ []) result.target ≡ Some result.to.0 }
{
    if n == 0 {
        Edge { target: 1, to: no }
    } else {
        Edge { target: 0, to: yes }
    }
}

/// The edge that a branch takes, by the number of its condition.
#[inline(always)]
pub(crate) fn edge_of(p: &Program, instr: &Instr, n: u64) -> Edge
    requires branch { IsBranch instr.now.op }
    requires ends { EndsBlock p.now instr.now }
    ensures to { result.to.0 ≡ block_taken n instr.now.op }
    ensures target { slice_get (successors p.now instr.now.block.0) result.target ≡ Some result.to.0 }
{
    match &instr.op {
        Op::CondBr { yes, no, .. } => cond_edge(n, *yes, *no),
        Op::Switch { other, cases, .. } => p.switched(instr.block, cases.as_slice(), *other, n),
        Op::Br { to } => Edge { target: 0, to: *to },
        _ => unreachable!(),
    }
}
