//! Compares the two slices of a run, and the two ways to find its races.
ghost use Rattle.std.specs.Prelude.{◌≡◌, IfOk};
ghost use Rattle.pg_precondition.specs.Values.{is_admitted};

use pg_precondition::{Precondition, Scratch, admits};
use pg_run_trace::{Race, Trace};
use pg_schedule::{races, races_by_pairs};
use pg_slice_passes::Slice;
use pg_slice_rules::Decisions;
use std::alloc::{AllocError, Global};

/// What the two slices of a run, and the races that were found in two ways, have in common.
#[derive(Clone, Copy)]
pub(crate) struct Agreement {
    /// The races are the same.
    pub(crate) races: bool,
    /// The decisions are the same.
    pub(crate) decisions: bool,
    /// Both slices admit the input of the run.
    pub(crate) own: bool,
    /// How many other inputs both admit, and how many just one.
    pub(crate) both: usize,
    pub(crate) one: usize,
}

impl Agreement {
    /// Nothing is compared so far.
    pub(crate) fn none() -> Agreement {
        Agreement {
            races: false,
            decisions: false,
            own: false,
            both: 0,
            one: 0,
        }
    }

    /// Counts an input that the two slices admit or don't.
    fn count(&mut self, first: bool, second: bool) {
        if first && second {
            self.both = self.both.saturating_add(1);
        } else if first || second {
            self.one = self.one.saturating_add(1);
        }
    }
}

/// Whether both ways give the same races.
pub(crate) fn races_agree(alloc: Global, t: &Trace) -> Result<bool, AllocError> {
    let found = races(alloc, t)?;
    let by_pairs = races_by_pairs(alloc, t)?;
    Ok(are_same(found.as_slice(), by_pairs.as_slice()))
}

/// Whether two lists have the same races.
fn are_same(a: &[Race], b: &[Race]) -> bool {
    a == b
}

/// Whether the same is fixed.
fn fix_the_same(a: &Decisions, b: &Decisions) -> bool {
    let pinned = a.pinned.as_slice() == b.pinned.as_slice();
    let exact = a.exact.as_slice() == b.exact.as_slice();
    pinned && exact
}

/// Whether an input is admitted.
fn is_admitted(alloc: Global, c: &Precondition, input: &[i64]) -> Result<bool, AllocError>
    ensures { IfOk result (λ b. b ≡ is_admitted input.now c.now) }
{
    let mut scratch = Scratch::new(alloc, c)?;
    Ok(admits(c, &mut scratch, input))
}

/// Compares the slices of a run by their decisions and by what they admit: the run's input, and others.
pub(crate) fn compare(
    alloc: Global,
    first: &Slice,
    second: &Slice,
    input: &[i64],
    others: &[Vec<i64>],
    agreement: &mut Agreement,
) -> Result<(), AllocError> {
    agreement.decisions = fix_the_same(&first.decisions, &second.decisions);
    let by_first = is_admitted(alloc, &first.precondition, input)?;
    let by_second = is_admitted(alloc, &second.precondition, input)?;
    agreement.own = by_first && by_second;
    for other in others {
        let by_first = is_admitted(alloc, &first.precondition, other.as_slice())?;
        let by_second = is_admitted(alloc, &second.precondition, other.as_slice())?;
        agreement.count(by_first, by_second);
    }
    Ok(())
}
