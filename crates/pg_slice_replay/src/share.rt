//! Whether the accesses of a region lead where they led when they were kept last, so that they needn't be kept again.

ghost use Rattle.std.specs.Prelude.{◌≡◌, ◌+◌, ◌≤◌, true, Some, IfSome, drop, length};
ghost use Rattle.pg_slice_replay.specs.Apart.{apart};
ghost use Rattle.pg_slice_replay.specs.Paths.{accesses_in, accesses_with};

use crate::apart::store_on_loads;
use crate::at::{At, stand, window};
use crate::follow::lead_to;
use pg_ir::{Program, ThreadNo};
use pg_law_effects::pg_run::Machine;
use pg_region_accesses::Rooted;

/// Where the accesses of a region began last, if they were kept.
pub(crate) fn begun(last: &[Option<u32>], region: u32) -> Option<u32> {
    match last.get(region as usize) {
        Some(first) => *first,
        None => None,
    }
}

/// Keeps where the accesses of a region begin.
pub(crate) fn keep(last: &mut [Option<u32>], region: u32, first: u32) {
    if (region as usize) < last.len() {
        last[region as usize] = Some(first);
    }
}

/// Whether the paths of accesses lead to these places, and no store's bounds share a byte with those from which one loads.
fn lead_apart(machine: &Machine, p: &Program, t: ThreadNo, accesses: &[Rooted], ats: &[At]) -> bool
    requires { length ats.now ≡ length accesses.now }
    ensures { result ≡ true → apart (accesses_in p.now machine.now.state t.0 accesses.now) ≡ Some (accesses_with accesses.now ats.now) }
{
    let lead = lead_to(machine, p, t, accesses, ats);
    if !lead {
        return false;
    }
    let stored = store_on_loads(accesses, ats);
    !stored
}

/// Whether the paths of accesses lead to the places that stand from this one on, if there are so many, and are apart.
fn is_again(
    machine: &Machine,
    p: &Program,
    t: ThreadNo,
    accesses: &[Rooted],
    ats: &[At],
    first: u32,
) -> bool
    ensures room { result ≡ true → first + length accesses.now ≤ length ats.now }
    ensures apart { result ≡ true → apart (accesses_in p.now machine.now.state t.0 accesses.now) ≡ Some (accesses_with accesses.now (drop first ats.now)) }
{
    let there = stand(ats, first as usize, accesses.len());
    if !there {
        return false;
    }
    let places = window(ats, first as usize, accesses.len());
    lead_apart(machine, p, t, accesses, places)
}

/// Where the accesses of a region began last, if they lead there again and are apart.
pub(crate) fn again(
    machine: &Machine,
    p: &Program,
    t: ThreadNo,
    accesses: &[Rooted],
    ats: &[At],
    last: Option<u32>,
) -> Option<u32>
    ensures { IfSome result (λ k. (k + length accesses.now ≤ length ats.now)
        × (apart (accesses_in p.now machine.now.state t.0 accesses.now) ≡ Some (accesses_with accesses.now (drop k ats.now)))) }
{
    match last {
        Some(first) => {
            let found = is_again(machine, p, t, accesses, ats, first);
            if found { Some(first) } else { None }
        }
        None => None,
    }
}
