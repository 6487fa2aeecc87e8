//! Footprints that a generator makes, on which both forms agree.

ghost use Rattle.std.specs.Prelude.{◌≡◌, ◌<◌, ◌≤◌, IfOk};
ghost use Rattle.pg_slice_conflicts.specs.Meets.{InOrder};

use crate::conflicts::kind::Kind;
use pg_ir::ThreadNo;
use pg_slice_conflicts::{Footprint, conflicts, conflicts_by_pairs};
use std::alloc::{AllocError, Global};
use std::process::Abort;
use std::test::Fail;

/// The next number of a generator.
fn next(state: u64) -> u64 {
    state
        .wrapping_mul(6_364_136_223_846_793_005)
        .wrapping_add(1_442_695_040_888_963_407)
}

/// A number below a bound, of a generator's state.
fn below(state: u64, bound: u64) -> u64
    requires { 0 < bound }
{
    (state >> 20) % bound
}

/// A footprint whose last turn is this one.
fn made(kind: Kind, low: u32, state: u64) -> Footprint
    ensures low { result.low ≡ low }
    ensures high { low ≤ result.high }
{
    let a = next(state);
    let b = next(a);
    let c = next(b);
    let d = next(c);
    let e = next(d);
    Footprint {
        thread: ThreadNo((below(a, kind.threads) % 256) as u8),
        low,
        high: low.saturating_add((below(b, kind.turns) % 65536) as u32),
        start: below(c, kind.bytes),
        bytes: below(d, kind.length),
        writes: below(e, 3) == 0,
        of_region: below(next(e), 2) == 0,
    }
}

/// So many footprints in order.
fn footprints(alloc: Global, kind: Kind, count: u32) -> Result<Vec<Footprint>, AllocError>
    ensures { IfOk result (λ v. InOrder v.items) }
{
    let mut footprints = Vec::new(alloc);
    let mut state = 7;
    for k in 0..count {
        state = next(state);
        footprints.push(made(kind, k, state))?;
    }
    Ok(footprints)
}

/// So many footprints in order, eight at a turn, of which three at most are different.
fn repeated(alloc: Global, kind: Kind, count: u32) -> Result<Vec<Footprint>, AllocError>
    ensures { IfOk result (λ v. InOrder v.items) }
{
    let mut footprints = Vec::new(alloc);
    for k in 0..count {
        let turn = k / 8;
        let state = next(3 * u64::from(turn) + u64::from(k % 3));
        footprints.push(made(kind, turn, next(state)))?;
    }
    Ok(footprints)
}

/// How many of the answers on these footprints are set, which both forms give alike.
fn agree(rt: &impl Abort, alloc: Global, footprints: &[Footprint]) -> Result<usize, Fail>
    requires { InOrder footprints.now }
{
    let fast = conflicts(alloc, footprints)?;
    let plain = conflicts_by_pairs(alloc, footprints)?;
    assert_eq!(rt; fast.as_slice(), plain.as_slice());
    Ok(plain.as_slice().iter().filter(|b| **b).count())
}

#[test]
fn both_forms_agree_on_short_ranges(rt: HostRuntime) -> Result<(), Fail> {
    let kind = Kind {
        threads: 3,
        bytes: 400,
        length: 9,
        turns: 120,
    };
    let footprints = footprints(rt.alloc(), kind, 700)?;
    let met = agree(&rt, rt.alloc(), footprints.as_slice())?;
    assert_eq!(rt; met, 223);
    Ok(())
}

#[test]
fn both_forms_agree_on_long_ranges(rt: HostRuntime) -> Result<(), Fail> {
    let kind = Kind {
        threads: 8,
        bytes: 1 << 40,
        length: 1 << 38,
        turns: 9,
    };
    let footprints = footprints(rt.alloc(), kind, 500)?;
    let met = agree(&rt, rt.alloc(), footprints.as_slice())?;
    assert_eq!(rt; met, 207);
    Ok(())
}

#[test]
fn both_forms_agree_on_repeated_footprints(rt: HostRuntime) -> Result<(), Fail> {
    let kind = Kind {
        threads: 4,
        bytes: 900,
        length: 12,
        turns: 15,
    };
    let footprints = repeated(rt.alloc(), kind, 900)?;
    let met = agree(&rt, rt.alloc(), footprints.as_slice())?;
    assert_eq!(rt; met, 435);
    Ok(())
}
