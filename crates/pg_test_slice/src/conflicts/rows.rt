//! Worked rows: each footprint beside whether it conflicts with one that it minds.

ghost use Rattle.std.specs.Prelude.{◌≡◌, ◌≤◌, IfOk};
ghost use Rattle.pg_slice_conflicts.specs.Meets.{InOrder};

use pg_ir::ThreadNo;
use pg_slice_conflicts::{Footprint, conflicts, conflicts_by_pairs};
use std::alloc::{AllocError, Global};
use std::test::Fail;

/// A write of eight bytes of an access, from a byte on.
fn write(thread: u8, low: u32, high: u32, start: u64) -> Footprint {
    Footprint {
        thread: ThreadNo(thread),
        low,
        high,
        start,
        bytes: 8,
        writes: true,
        of_region: false,
    }
}

#[test]
fn writes_of_two_threads_meet(rt: HostRuntime) -> Result<(), Fail> {
    let footprints = [write(0, 0, 5, 16), write(1, 0, 5, 20), write(1, 0, 5, 24)];
    let met = conflicts_by_pairs(rt.alloc(), &footprints)?;
    assert_eq!(rt; met.as_slice(), [true, true, false].as_slice());
    Ok(())
}

#[test]
fn reads_do_not_meet(rt: HostRuntime) -> Result<(), Fail> {
    let mut first = write(0, 0, 5, 16);
    first.writes = false;
    let mut second = write(1, 0, 5, 16);
    second.writes = false;
    let met = conflicts_by_pairs(rt.alloc(), &[first, second])?;
    assert_eq!(rt; met.as_slice(), [false, false].as_slice());
    second.writes = true;
    let met = conflicts_by_pairs(rt.alloc(), &[first, second])?;
    assert_eq!(rt; met.as_slice(), [true, true].as_slice());
    Ok(())
}

#[test]
fn what_a_turn_orders_does_not_meet(rt: HostRuntime) -> Result<(), Fail> {
    let footprints = [write(0, 0, 2, 16), write(1, 3, 5, 16)];
    let met = conflicts_by_pairs(rt.alloc(), &footprints)?;
    assert_eq!(rt; met.as_slice(), [false, false].as_slice());
    let footprints = [write(0, 0, 2, 16), write(1, 2, 5, 16)];
    let met = conflicts_by_pairs(rt.alloc(), &footprints)?;
    assert_eq!(rt; met.as_slice(), [true, true].as_slice());
    Ok(())
}

#[test]
fn accesses_do_not_mind_regions(rt: HostRuntime) -> Result<(), Fail> {
    let access = write(0, 0, 5, 16);
    let mut region = write(1, 0, 5, 16);
    region.of_region = true;
    let met = conflicts_by_pairs(rt.alloc(), &[access, region])?;
    assert_eq!(rt; met.as_slice(), [false, true].as_slice());
    let mut other = write(2, 0, 5, 16);
    other.of_region = true;
    let met = conflicts_by_pairs(rt.alloc(), &[region, other])?;
    assert_eq!(rt; met.as_slice(), [true, true].as_slice());
    Ok(())
}

#[test]
fn ranges_may_be_empty_or_pass_all_addresses(rt: HostRuntime) -> Result<(), Fail> {
    let mut empty = write(0, 0, 5, 16);
    empty.bytes = 0;
    let mut all = write(1, 0, 5, 0);
    all.bytes = u64::MAX;
    let mut last = write(2, 0, 5, u64::MAX - 4);
    last.bytes = 100;
    let met = conflicts_by_pairs(rt.alloc(), &[empty, all, last])?;
    assert_eq!(rt; met.as_slice(), [false, true, true].as_slice());
    Ok(())
}

/// A write of eight bytes of an access, from a byte on, whose interval goes on behind this turn.
fn long_write(thread: u8, low: u32, start: u64) -> Footprint
    ensures low { result.low ≡ low }
    ensures high { low ≤ result.high }
{
    Footprint {
        thread: ThreadNo(thread),
        low,
        high: low.saturating_add(9),
        start,
        bytes: 8,
        writes: true,
        of_region: false,
    }
}

/// So many of them, one a turn. Of each four the last two write the same bytes, by two threads; the others have bytes of their own.
fn long_writes(alloc: Global, count: u32) -> Result<Vec<Footprint>, AllocError>
    ensures { IfOk result (λ v. InOrder v.items) }
{
    let mut footprints = Vec::new(alloc);
    for k in 0..count {
        let place = 4 * u64::from(k / 4) + u64::from((k % 4).min(2));
        footprints.push(long_write((k % 2) as u8, k, 8 * place))?;
    }
    Ok(footprints)
}

/// More footprints than a small tree has leaves.
#[test]
fn twenty_thousand_footprints(rt: HostRuntime) -> Result<(), Fail> {
    let footprints = long_writes(rt.alloc(), 20_000)?;
    let met = conflicts(rt.alloc(), footprints.as_slice())?;
    let mut expected = Vec::new(rt.alloc());
    for k in 0_u32..20_000 {
        expected.push(k % 4 >= 2)?;
    }
    assert_eq!(rt; met.as_slice(), expected.as_slice());
    Ok(())
}
