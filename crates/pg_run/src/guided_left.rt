//! How many steps threads have left in a guided run.

ghost use Rattle.std.specs.Prelude.{◌≡◌, slice_index, slice_set, IfOk};
ghost use Rattle.pg_run.specs.Guided.{all_left};

use pg_run_trace::pg_ir::ThreadNo;
use pg_run_trace::pg_num::limits::{GUIDED_STEP_LIMIT, THREAD_LIMIT};
use std::alloc::{AllocError, Global};

/// How many steps each thread has left before the first step of a guided run.
#[tactic(auto, unfolding(crate::specs::Guided::all_left))]
pub(crate) fn all_left(alloc: Global) -> Result<Vec<u32>, AllocError>
    ensures { IfOk result (λ v. v.items ≡ all_left) }
{
    vec![in alloc; GUIDED_STEP_LIMIT; THREAD_LIMIT as usize]
}

/// How many steps a thread has left.
pub(crate) fn left_of(left: &[u32], t: ThreadNo) -> u32
    ensures { result ≡ slice_index left.now t.0 }
{
    match left.get(t.0 as usize) {
        Some(&n) => n,
        None => 0,
    }
}

/// Sets how many steps a thread has left.
pub(crate) fn set_left(left: &mut Vec<u32>, t: ThreadNo, n: u32)
    ensures { left.new.items ≡ slice_set left.old.items t.0 n }
{
    if (t.0 as usize) < left.len() {
        left[t.0 as usize] = n;
    }
}
