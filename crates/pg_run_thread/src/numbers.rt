//! The numbers that operations give.

ghost use Rattle.std.specs.Prelude.{◌≡◌, ◌<◌, length};
ghost use Rattle.pg_ir.specs.Operands.{CanReadAll, CanReadReturned};
ghost use Rattle.pg_ir.specs.declared.instr.Op.TheVariants.{Ret};
ghost use Rattle.pg_run_thread.specs.declared.thread_memory.ThreadMemory.{ThreadMemory};
ghost use Rattle.pg_run_thread.specs.Operands.{number_at, operands_of};
ghost use Rattle.pg_run_thread.specs.Step.{result_of_op};
ghost use Rattle.pg_run_thread.specs.Needs.{OperandsFit, NeedsNoMemory};
ghost use Rattle.pg_run_thread.specs.Told.{or_zero};

use crate::compute::computed_of;
use crate::operands::number_of;
use pg_ir::pg_num::trunc;
use pg_ir::{Op, Program, Value};

/// The number that an operation gives its register, by the numbers of its operands and the answer.
pub(crate) fn plain_number(p: &Program, registers: &[Option<u64>], op: &Op, reply: u64) -> u64
    requires alone { NeedsNoMemory op.now }
    requires operands { CanReadAll p.now (length registers.now) op.now }
    requires widths { OperandsFit p.now registers.now op.now }
    ensures { (r : ThreadMemory) → result ≡ result_of_op r op.now (number_at p.now registers.now (operands_of op.now)) reply }
{
    match op {
        Op::Load { width, .. } => trunc(*width, reply),
        op => computed_of(p, registers, op),
    }
}

/// The number that is returned, 0 where none is.
pub(crate) fn returned_number(p: &Program, registers: &[Option<u64>], value: Option<Value>) -> u64
    requires { CanReadReturned p.now (length registers.now) value }
    ensures { result ≡ number_at p.now registers.now (operands_of (Ret value)) 0 }
{
    match value {
        Some(value) => number_of(p, registers, value),
        None => 0,
    }
}

/// The number that an instruction's own register gets, 0 where it has none.
pub(crate) fn own_number(target: Option<u32>, n: u64) -> u64
    ensures { result ≡ or_zero target n }
{
    match target {
        Some(_) => n,
        None => 0,
    }
}
