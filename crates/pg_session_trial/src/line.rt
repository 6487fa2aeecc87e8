//! The lines of input of a trial.
ghost use Rattle.std.specs.Prelude.{◌≡◌, ◌<◌, ◌≤◌, IfOk};
ghost use Rattle.pg_session_trial.specs.Lines.{numbers_from, trial_line};
ghost use Rattle.pg_session_trial.specs.declared.line.TheConstants.{TRIAL_LINES, TRIAL_LIMIT};

use std::alloc::{AllocError, Global};

/// How many lines of input a trial has.
pub const TRIAL_LINES: u32 = 500;

/// The greatest number that names a trial.
pub const TRIAL_LIMIT: u64 = 9_999;

/// So many numbers one after another, from this one on.
#[tactic(auto, using(crate::proofs::Numbers::from_more))]
fn numbers_from(alloc: Global, first: u64, count: u64) -> Result<Vec<i64>, AllocError>
    requires first { first ≤ TRIAL_LIMIT }
    requires count { count ≤ TRIAL_LINES }
    ensures { IfOk result (λ numbers. numbers.items ≡ numbers_from first count) }
{
    let mut numbers = Vec::new(alloc);
    for j in 0..count {
        numbers.push((first + j) as i64)?;
    }
    Ok(numbers)
}

/// The numbers of line `i`, counted from 0, of the trial that `n` names.
pub fn trial_line(alloc: Global, n: u64, i: u32) -> Result<Vec<i64>, AllocError>
    requires n { n ≤ TRIAL_LIMIT }
    requires i { i < TRIAL_LINES }
    ensures { IfOk result (λ line. line.items ≡ trial_line n i) }
{
    numbers_from(
        alloc,
        n,
        (37 * u64::from(i) + n) % u64::from(TRIAL_LINES) + 1,
    )
}
