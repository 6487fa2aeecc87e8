//! The turns of one thread.

ghost use Rattle.std.specs.Prelude.{◌≡◌, IfOk};
ghost use Rattle.pg_seats.specs.pg_law_course.Course.{turns_of};

use pg_seats::pg_ir::ThreadNo;
use pg_seats::pg_run_trace::Turn;
use std::alloc::{AllocError, Global};

/// The numbers of a thread's turns, ascending.
pub(crate) fn turns_of(
    alloc: Global,
    turns: &[Turn],
    thread: ThreadNo,
) -> Result<Vec<u64>, AllocError>
    ensures { IfOk result (λ v. v.items ≡ turns_of thread.0 turns.now) }
{
    let mut numbers = Vec::new(alloc);
    for number in 0..turns.len() {
        if thread.0 == turns[number].thread.0 {
            numbers.push(number as u64)?;
        }
    }
    Ok(numbers)
}
