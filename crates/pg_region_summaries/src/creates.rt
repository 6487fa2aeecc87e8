//! The functions with which threads begin.

ghost use Rattle.std.specs.Prelude.{◌≡◌, ℕ, ◌<◌, ◌||◌, length, IfOk, Option};
ghost use Rattle.std.specs.List.{list_any};
ghost use Rattle.pg_region_accesses.specs.Tables.{in_table};
ghost use Rattle.pg_region_paths.specs.Registers.{is_register};
ghost use Rattle.pg_region_summaries.specs.Creates.{op_starts, is_started};

use pg_ir::{InstrId, LibraryCall, Op, Program, Value};
use std::alloc::{AllocError, Global};

/// The function with which a thread begins that an operation makes, if it makes one.
fn started_by(op: &Op) -> Option<u32>
    ensures { result ≡ op_starts op.now }
{
    let Op::CallLibrary {
        function: LibraryCall::PthreadCreate,
        args,
    } = op
    else {
        return None;
    };
    match args.as_slice().get(2) {
        Some(Value::Function(f)) => Some(*f),
        _ => None,
    }
}

/// Adds a function to a set, if there is one.
fn add(set: &mut Vec<bool>, function: Option<u32>)
    ensures size { length set.new.items ≡ length set.old.items }
    ensures sets { (f : ℕ) → f < length set.old.items → in_table set.new.items f ≡ (is_register function f || in_table set.old.items f) }
{
    if let Some(f) = function {
        if (f as usize) < set.len() {
            set[f as usize] = true;
        }
    }
}

/// Whether a function is in a set.
pub(crate) fn contains(set: &[bool], f: u32) -> bool
    ensures { result ≡ in_table set.now f }
{
    match set.get(f as usize) {
        Some(is_in) => *is_in,
        None => false,
    }
}

/// The functions that creates name, as a table of the program's.
pub(crate) fn started(alloc: Global, p: &Program) -> Result<Vec<bool>, AllocError>
    ensures size { IfOk result (λ t. length t.items ≡ length p.now.functions) }
    ensures started { IfOk result (λ t. (f : ℕ) → f < length p.now.functions → in_table t.items f ≡ is_started p.now f) }
{
    let mut started = vec![in alloc; false; p.function_count() as usize]?;
    for i in 0..p.instr_count() {
        add(&mut started, started_by(&p.instr(InstrId(i)).op));
    }
    Ok(started)
}
