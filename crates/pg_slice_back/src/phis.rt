//! Back over an edge: the `phi`s of the block that is entered take their values together.

ghost use Rattle.std.specs.Prelude.{◌≡◌, ◌<◌, ◌+◌, ◌-◌, ℕ, Bool, true, Some, IfSome, OnOk, length, slice_get};
ghost use Rattle.std.specs.List.{AllByRecursion};
ghost use Rattle.pg_ir.specs.declared.instr.Instr.{Instr as AnInstr};
ghost use Rattle.pg_ir.specs.Edges.{incoming_from, incoming_of};
ghost use Rattle.pg_slice_rules.specs.Known.{SymbolicState};
ghost use Rattle.pg_law_demands.specs.Cells.{IsMet};
ghost use Rattle.pg_law_demands.specs.Back.{back_edge, is_target, last_phi, of_optional, register_demand};
ghost use Rattle.pg_slice_demands.specs.Asked.{asked_of};
ghost use Rattle.pg_slice_back.specs.Edges.{edge_sets, phis_set};
ghost use Rattle.pg_slice_back.specs.Leaves.{Leaves, Without, none};
ghost use Rattle.pg_slice_back.specs.Met.{AreMet};
ghost use Rattle.pg_slice_back.specs.Wanted.{AreWanted};

use crate::moves::{Wanted, leave, put_wanted};
use pg_ir::{BlockNo, Instr, Program, Value};
use pg_slice_demands::{Call, Demanded};
use pg_slice_passes::pg_slice_registers::phi_operand;
use std::alloc::{AllocError, Global};

/// Whether a register is among the first so many.
fn is_within(target: Option<u32>, count: usize) -> bool
    ensures { result ≡ true → (i : ℕ) → target ≡ Some i → i < count }
{
    match target {
        Some(register) => (register as usize) < count,
        None => false,
    }
}

/// A value that there may be goes to a list.
fn want(wanted: &mut Vec<Wanted>, value: Option<Value>, whole: bool) -> Result<(), AllocError>
    ensures { OnOk result ((s : SymbolicState) (t k : ℕ) → AllByRecursion (IsMet s) (of_optional t k whole value) → AreWanted s t k wanted.old.items
        → AreWanted s t k wanted.new.items) }
{
    if let Some(value) = value {
        wanted.push(Wanted { value, whole })?;
    }
    Ok(())
}

/// What is asked of a `phi`'s register goes to a list, as what is asked of the value that it takes.
fn take_phi(
    demanded: &mut Demanded,
    at: Call,
    instr: &Instr,
    from: u32,
    count: usize,
    wanted: &mut Vec<Wanted>,
) -> Result<(), AllocError>
    ensures without { OnOk result (Without at.thread.0 at.depth (is_target instr.now.result) none demanded.old demanded.new) }
    ensures wanted { OnOk result ((s : SymbolicState) → ((i : ℕ) (v : Bool) → instr.now.result ≡ Some i → i < count → asked_of demanded.old at.thread.0 at.depth i ≡ Some v
        → AllByRecursion (IsMet s) (of_optional at.thread.0 at.depth v (incoming_from (incoming_of instr.now.op) from)))
        → AreWanted s at.thread.0 at.depth wanted.old.items → AreWanted s at.thread.0 at.depth wanted.new.items) }
{
    if let Some(whole) = leave(demanded, at, instr.result) {
        if is_within(instr.result, count) {
            want(wanted, phi_operand(instr, from), whole)?;
            return Ok(());
        }
    }
    Ok(())
}

/// The `phi` with this number, from the last on.
fn phi_at(phis: &[Instr], j: usize) -> &Instr
    requires { j < length phis.now }
    ensures { slice_get phis.now (length phis.now - (j + 1)) ≡ Some result.now }
{
    &phis[phis.len() - 1 - j]
}

/// Back over the `phi`s of a block that is entered: what is asked of their registers is asked of the values that they take; of
/// two that set one register the last counts.
fn back_phis(
    alloc: Global,
    demanded: &mut Demanded,
    at: Call,
    phis: &[Instr],
    from: u32,
    count: usize,
) -> Result<(), AllocError>
    ensures { OnOk result ((after before : SymbolicState) → Leaves at.thread.0 at.depth (phis_set phis.now) none after before
        → ((i : ℕ) (v : Bool) (x : AnInstr) → i < count → last_phi phis.now i ≡ Some x → IsMet after (register_demand at.thread.0 at.depth i v)
        → AllByRecursion (IsMet before) (of_optional at.thread.0 at.depth v (incoming_from (incoming_of x.op) from)))
        → AreMet after demanded.old → AreMet before demanded.new) }
{
    let _was = leave(demanded, at, None);
    let mut wanted = Vec::new(alloc);
    for j in 0..phis.len() {
        take_phi(demanded, at, phi_at(phis, j), from, count, &mut wanted)?;
    }
    put_wanted(demanded, at, wanted.as_slice())?;
    Ok(())
}

/// Back over an edge, if one is taken, from a block.
///
/// # Errors
///
/// Where no memory is left.
pub(crate) fn back_edge(
    alloc: Global,
    demanded: &mut Demanded,
    program: &Program,
    at: Call,
    from: u32,
    edge: Option<u32>,
    count: usize,
) -> Result<(), AllocError>
    requires { IfSome edge (λ b. b < length program.now.blocks) }
    ensures { OnOk result ((after before : SymbolicState) → Leaves at.thread.0 at.depth (edge_sets program.now edge) none after before
        → ((i : ℕ) (v : Bool) → i < count → IsMet after (register_demand at.thread.0 at.depth i v)
        → AllByRecursion (IsMet before) (back_edge program.now at.thread.0 at.depth from edge i v))
        → AreMet after demanded.old → AreMet before demanded.new) }
{
    match edge {
        Some(to) => {
            back_phis(alloc, demanded, at, program.phis(BlockNo(to)), from, count)?;
            Ok(())
        }
        None => {
            let _was = leave(demanded, at, None);
            Ok(())
        }
    }
}
