//! The accesses of one instruction.

ghost use Rattle.std.specs.Prelude.{◌≡◌, Some, IfOk, is_some};
ghost use Rattle.std.specs.Option.{option_copied};
ghost use Rattle.pg_region_paths.specs.RootPaths.{path_in};
ghost use Rattle.pg_region_accesses.specs.Accesses.{one_access, behind_argument, called_access, called_accesses, known_accesses, op_accesses, summary_of};
ghost use Rattle.pg_region_accesses.specs.Appends.{Appends};
ghost use Rattle.pg_region_accesses.specs.Tables.{in_table};

use crate::rooted::{Rooted, Summary};
use pg_region_paths::pg_ir::{InstrId, Op, Value};
use pg_region_paths::{Path, Root, RootPaths};
use std::alloc::AllocError;

/// Adds the access of an instruction, if its pointer has a path.
fn push_access(
    accesses: &mut Vec<Rooted>,
    instr: InstrId,
    writes: bool,
    path: Option<Path>,
) -> Result<bool, AllocError>
    ensures { IfOk result (λ b. Appends (one_access instr.0 writes path) accesses.old.items b accesses.new.items) }
{
    let Some(path) = path else {
        return Ok(false);
    };
    accesses.push(Rooted {
        instr,
        writes,
        path: path.root_path(),
    })?;
    Ok(true)
}

/// Adds an access of a callee whose path begins at a parameter, by the argument of the call.
fn push_behind(
    accesses: &mut Vec<Rooted>,
    known: &RootPaths,
    access: Rooted,
    argument: Option<Value>,
) -> Result<bool, AllocError>
    ensures { IfOk result (λ b. Appends (behind_argument (path_in known.now) access argument) accesses.old.items b accesses.new.items) }
{
    let Some(argument) = argument else {
        return Ok(false);
    };
    let Some(path) = known.path(argument) else {
        return Ok(false);
    };
    let Some(path) = path.follow(access.path.loads) else {
        return Ok(false);
    };
    let Rooted { instr, writes, .. } = access;
    accesses.push(Rooted {
        instr,
        writes,
        path,
    })?;
    Ok(true)
}

/// Adds an access of a callee in the place of the call.
fn push_called(
    accesses: &mut Vec<Rooted>,
    known: &RootPaths,
    args: &[Value],
    access: Rooted,
) -> Result<bool, AllocError>
    ensures { IfOk result (λ b. Appends (called_access (path_in known.now) args.now access access.path.root) accesses.old.items b accesses.new.items) }
{
    match access.path.root {
        Root::Param(k) => {
            let argument = args.get(k as usize).copied();
            push_behind(accesses, known, access, argument)
        }
        Root::Register(_) => Ok(false),
        Root::Global(_) | Root::Const(_) => {
            accesses.push(access)?;
            Ok(true)
        }
    }
}

/// Adds the accesses of a callee in the place of the call.
fn push_each_called(
    accesses: &mut Vec<Rooted>,
    known: &RootPaths,
    args: &[Value],
    called: &[Rooted],
) -> Result<bool, AllocError>
    ensures { IfOk result (λ b. Appends (called_accesses (path_in known.now) args.now (Some called.now)) accesses.old.items b accesses.new.items) }
{
    for access in called {
        if !push_called(accesses, known, args, *access)? {
            return Ok(false);
        }
    }
    Ok(true)
}

/// The accesses of a function, if it is quiet.
fn summary(sums: &[Option<Summary>], f: u32) -> Option<&[Rooted]>
    ensures { option_copied result ≡ summary_of sums.now f }
{
    match sums.get(f as usize) {
        Some(Some(summary)) => Some(summary.accesses.as_slice()),
        _ => None,
    }
}

/// Whether an instruction is in the gated set.
fn is_gated(gated: &[bool], instr: InstrId) -> bool
    ensures { result ≡ in_table gated.now instr.0 }
{
    match gated.get(instr.0 as usize) {
        Some(is_gated) => *is_gated,
        None => false,
    }
}

/// Whether a call of a function that the program doesn't define is quiet: those that read the input are.
fn is_quiet(function: pg_region_paths::pg_ir::LibraryCall) -> bool
    ensures { result ≡ is_some (known_accesses function) }
{
    match function {
        pg_region_paths::pg_ir::LibraryCall::PgIn | pg_region_paths::pg_ir::LibraryCall::PgInLen =>
            true,
        _ => false,
    }
}

/// Adds the accesses of an operation, and gives whether it is quiet; a return is where `may_return` says so.
pub(crate) fn push_op(
    accesses: &mut Vec<Rooted>,
    may_return: bool,
    gated: &[bool],
    sums: &[Option<Summary>],
    known: &RootPaths,
    instr: InstrId,
    op: &Op,
) -> Result<bool, AllocError>
    ensures { IfOk result (λ b. Appends (op_accesses may_return (in_table gated.now) (summary_of sums.now) (path_in known.now) instr.0 op.now) accesses.old.items b accesses.new.items) }
{
    match op {
        Op::Load { from, .. } => {
            if is_gated(gated, instr) {
                return Ok(false);
            }
            push_access(accesses, instr, false, known.path(*from))
        }
        Op::Store { at, .. } => {
            if is_gated(gated, instr) {
                return Ok(false);
            }
            push_access(accesses, instr, true, known.path(*at))
        }
        Op::Call { function, args } => match summary(sums, *function) {
            Some(called) => push_each_called(accesses, known, args.as_slice(), called),
            None => Ok(false),
        },
        Op::CallLibrary { function, .. } => Ok(is_quiet(*function)),
        Op::Alloca { .. } => Ok(false),
        Op::Ret { .. } => Ok(may_return),
        _ => Ok(true),
    }
}
