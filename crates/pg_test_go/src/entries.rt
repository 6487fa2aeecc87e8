//! Entries of recorded runs, whose schedules workers may run on what the entries admit.

ghost use Rattle.std.specs.Prelude.{◌≡◌, ◌≤◌, IfOk, IfSome, true};
ghost use Rattle.pg_go.specs.pg_num.declared.limits.TheConstants.{QUANTUM_LIMIT};
ghost use Rattle.pg_law_reuse.specs.pg_law_order.Good.{IsGoodRun};
ghost use Rattle.pg_law_reuse.specs.pg_law_runs.Cuts.{CanRun};
ghost use Rattle.pg_test_go.specs.Serves.{Serves};

use pg_cache::Admits;
use pg_go::pg_ir::Program;
use pg_law_reuse::laws::an_entry_serves_what_it_admits;
use pg_law_reuse::pg_law_order::can_run;
use pg_law_reuse::pg_law_order::recorded::the_schedule_of_a_rotation_run_is_good;
use pg_law_reuse::{Entry, Record, record};
use std::alloc::{AllocError, Global};

/// The entry of a program's rotation run on an input, where that run exits.
///
/// # Errors
///
/// Where no memory is left.
pub fn entry_of(
    alloc: Global,
    p: &Program,
    input: &[i64],
    quantum: u32,
) -> Result<Option<Entry>, AllocError>
    requires least { 1 ≤ quantum }
    requires most { quantum ≤ QUANTUM_LIMIT }
    ensures { IfOk result (λ o. IfSome o (Serves p.now)) }
{
    can_run(p, input);
    the_schedule_of_a_rotation_run_is_good();
    an_entry_serves_what_it_admits();
    let made = record(alloc, p, input, quantum)?;
    match made {
        Record::Kept {
            entry,
            output: _,
            value: _,
        } => Ok(Some(entry)),
        Record::Refused {
            refusal: _,
            output: _,
        } => Ok(None),
    }
}

/// Whether the program's run on an input may be made ready along the schedule of an entry of it: whether the entry admits the input.
pub fn may_run(p: &Program, entry: &mut Entry, input: &[i64]) -> bool
    requires serves { Serves p.now entry.old }
    ensures can { CanRun p.now input.now }
    ensures good { result ≡ true → IsGoodRun p.now input.now entry.new.schedule }
    ensures serves { Serves p.now entry.new }
{
    can_run(p, input);
    entry.admits(input)
}
