//! A precondition without the nodes that it doesn't need.

ghost use Rattle.std.specs.Prelude.{◌≡◌, IfOk, IfSome, ℕ, ◌<◌, length, map, slice_get, slice_index};
ghost use Rattle.pg_precondition.specs.declared.check.Check.{Check as ACheck};
ghost use Rattle.pg_precondition.specs.Kept.{kept, renamed_check};
ghost use Rattle.pg_precondition.specs.Marks.{AreMarks, ArePlaces};
ghost use Rattle.pg_precondition.specs.Names.{IsNeededPart};

use crate::check::Check;
use crate::kept::{kept, place_of};
use crate::marks::{check_at, marks_of};
use crate::nodes::Nodes;
use crate::places::places_of;
use crate::precondition::Precondition;
use std::alloc::{AllocError, Global};

/// These nodes with the checks, each of which names the place of the node that it named.
fn with_checks(
    alloc: Global,
    nodes: Nodes,
    places: &[u32],
    checks: &[Check],
) -> Result<Precondition, AllocError>
    requires names { (i : ℕ) → IfSome (slice_get checks.now i) (λ (k : ACheck). k.node < length places.now) }
    requires places { (i : ℕ) → IfSome (slice_get checks.now i) (λ (k : ACheck). slice_index places.now k.node < length nodes) }
    ensures { IfOk result (λ r. r ≡ record { nodes = nodes; checks = map (renamed_check (slice_index places.now)) checks.now }) }
{
    let mut c = Precondition::new(alloc, nodes);
    for i in 0..checks.len() {
        let check = check_at(checks, i);
        c.push(Check {
            node: place_of(places, check.node),
            test: check.test,
        })?;
    }
    Ok(c)
}

/// The checks over the marked nodes.
fn with_marks(
    alloc: Global,
    c: &Precondition,
    marks: &[bool],
    places: &[u32],
) -> Result<Precondition, AllocError>
    requires marks { AreMarks c.now marks.now 0 }
    requires places { ArePlaces marks.now places.now }
    ensures { IfOk result (λ r. r ≡ record { nodes = kept (slice_index places.now) marks.now c.now.nodes; checks = map (renamed_check (slice_index places.now)) c.now.checks }) }
{
    let nodes = kept(alloc, c.nodes(), marks, places)?;
    // In two lines for the proof: see docs/CONTRIBUTING.md.
    let r = with_checks(alloc, nodes, places, c.checks())?;
    Ok(r)
}

/// The same checks over only those nodes that they need, in the same order and numbered anew.
///
/// # Errors
///
/// Where no memory is left for them or for the search.
pub fn needed(alloc: Global, c: &Precondition) -> Result<Precondition, AllocError>
    ensures { IfOk result (λ r. IsNeededPart c.now r) }
{
    let marks = marks_of(alloc, c)?;
    let count = c.nodes().len();
    let places = places_of(alloc, marks.as_slice(), count)?;
    // In two lines for the proof: see docs/CONTRIBUTING.md.
    let r = with_marks(alloc, c, marks.as_slice(), places.as_slice())?;
    Ok(r)
}
