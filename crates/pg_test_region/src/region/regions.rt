//! Regions of the branches of sample programs, where no function is quiet.

use crate::region::programs::{CASES, CHAINS, LOOPS};
use pg_ir::{InstrId, Program};
use pg_region::{Region, region_of};
use pg_region_accesses::{Rooted, Summary};
use pg_region_paths::{Loads, Root};
use pg_test_samples::{Parts, Sample, build};
use std::alloc::{AllocError, Global};
use std::test::Fail;

/// Instruction, whether it writes, root and loads.
type Row = (u32, bool, Root, Loads);

fn row_of(access: &Rooted) -> Row {
    let path = access.path;
    (access.instr.0, access.writes, path.root, path.loads)
}

fn is_region(region: &Region, join: u32, blocks: &[u32], rows: &[Row]) -> bool {
    if region.join != join || region.blocks.as_slice() != blocks {
        return false;
    }
    let accesses = region.accesses.as_slice();
    accesses.len() == rows.len() && accesses.iter().zip(rows).all(|(a, row)| row_of(a) == *row)
}

fn none_quiet(alloc: Global, count: u32) -> Result<Vec<Option<Summary>>, AllocError> {
    let mut sums = Vec::new(alloc);
    for _ in 0..count {
        sums.push(None)?;
    }
    Ok(sums)
}

fn sample(alloc: Global, sample: Sample) -> Result<Program, Fail> {
    Ok(sample.program(alloc)?)
}

fn of_parts(alloc: Global, parts: &Parts) -> Result<Program, Fail> {
    Ok(build(alloc, parts)?)
}

/// The region of a branch, without gated accesses.
fn region(alloc: Global, p: &Program, branch: u32) -> Result<Option<Region>, Fail> {
    if branch >= p.instr_count() {
        return Err(Fail::from("few instructions"));
    }
    let sums = none_quiet(alloc, p.function_count())?;
    Ok(region_of(alloc, p, &[], sums.as_slice(), InstrId(branch))?)
}

/// The region of a branch where this access is gated.
fn region_gated(
    alloc: Global,
    p: &Program,
    gated: u32,
    branch: u32,
) -> Result<Option<Region>, Fail> {
    if branch >= p.instr_count() || gated >= p.instr_count() {
        return Err(Fail::from("few instructions"));
    }
    let sums = none_quiet(alloc, p.function_count())?;
    let gated = [InstrId(gated)];
    Ok(region_of(alloc, p, &gated, sums.as_slice(), InstrId(branch))?)
}

const REGISTER_1: Root = Root::Register(1);

const REGISTER_2: Root = Root::Register(2);

/// The loop of a thread that sums the input in its own memory.
#[test]
fn loop_over_own_memory(rt: HostRuntime) -> Result<(), Fail> {
    let alloc = rt.alloc();
    let p = sample(alloc, Sample::SumsUnderMutex)?;
    let found = region(alloc, &p, 8)?.ok_or("none")?;
    let rows = [
        (5, false, REGISTER_2, Loads::Never),
        (10, false, REGISTER_1, Loads::Never),
        (12, true, REGISTER_1, Loads::Never),
        (14, true, REGISTER_2, Loads::Never),
    ];
    assert!(rt; is_region(&found, 3, &[1, 2], &rows), "{found:?}");
    Ok(())
}

/// The loop of a thread that stores at elements of a global: it has a region unless the store is gated.
#[test]
fn loop_over_a_global(rt: HostRuntime) -> Result<(), Fail> {
    let alloc = rt.alloc();
    let p = sample(alloc, Sample::StoresInALoop)?;
    let found = region(alloc, &p, 5)?.ok_or("none")?;
    let rows = [(8, true, Root::Global(0), Loads::Never)];
    assert!(rt; is_region(&found, 3, &[1, 2], &rows), "{found:?}");
    assert!(rt; region_gated(alloc, &p, 8, 5)?.is_none());
    Ok(())
}

/// A loop that prints has none.
#[test]
fn loop_that_prints(rt: HostRuntime) -> Result<(), Fail> {
    let alloc = rt.alloc();
    let p = sample(alloc, Sample::PrintInALoop)?;
    assert!(rt; region(alloc, &p, 4)?.is_none());
    Ok(())
}

/// A loop of one block, which stands in its own region, and a branch that skips a block.
#[test]
fn loop_of_one_block(rt: HostRuntime) -> Result<(), Fail> {
    let alloc = rt.alloc();
    let p = sample(alloc, Sample::CountingThread)?;
    let found = region(alloc, &p, 5)?.ok_or("none")?;
    assert!(rt; is_region(&found, 2, &[1], &[]), "{found:?}");
    let found = region(alloc, &p, 11)?.ok_or("none")?;
    assert!(rt; is_region(&found, 5, &[4], &[]), "{found:?}");
    Ok(())
}

/// Four loads of pointers have a path, and a fifth hasn't.
#[test]
fn chains_of_loads(rt: HostRuntime) -> Result<(), Fail> {
    let alloc = rt.alloc();
    let p = of_parts(alloc, &CHAINS)?;
    let found = region(alloc, &p, 2)?.ok_or("none")?;
    let root = Root::Global(0);
    let rows = [
        (3, false, root, Loads::Never),
        (4, false, root, Loads::Once(0)),
        (6, false, root, Loads::Twice(0, 0)),
        (7, false, root, Loads::Thrice(0, 0, 8)),
        (8, false, root, Loads::FourTimes(0, 0, 8, 0)),
    ];
    assert!(rt; is_region(&found, 2, &[1], &rows), "{found:?}");
    assert!(rt; region(alloc, &p, 10)?.is_none());
    Ok(())
}

/// Behind an index that isn't constant a load has no path; equal targets have a region without blocks; and a block that
/// leads nowhere is quiet.
#[test]
fn other_branches(rt: HostRuntime) -> Result<(), Fail> {
    let alloc = rt.alloc();
    let p = of_parts(alloc, &CHAINS)?;
    assert!(rt; region(alloc, &p, 18)?.is_none());
    let found = region(alloc, &p, 23)?.ok_or("none")?;
    assert!(rt; is_region(&found, 7, &[], &[]), "{found:?}");
    let found = region(alloc, &p, 24)?.ok_or("none")?;
    assert!(rt; is_region(&found, 9, &[8], &[]), "{found:?}");
    Ok(())
}

/// A `switch` has the blocks of all its ways, that for other numbers too; and memory of a block's own is loud.
#[test]
fn cases(rt: HostRuntime) -> Result<(), Fail> {
    let alloc = rt.alloc();
    let p = of_parts(alloc, &CASES)?;
    let found = region(alloc, &p, 1)?.ok_or("none")?;
    let rows = [(3, true, Root::Global(0), Loads::Never)];
    assert!(rt; is_region(&found, 4, &[1, 2, 3], &rows), "{found:?}");
    assert!(rt; region(alloc, &p, 7)?.is_none());
    Ok(())
}

/// A loop that sums in registers alone has no access.
#[test]
fn loop_in_registers(rt: HostRuntime) -> Result<(), Fail> {
    let alloc = rt.alloc();
    let p = sample(alloc, Sample::TwoThatDivide)?;
    let found = region(alloc, &p, 5)?.ok_or("none")?;
    assert!(rt; is_region(&found, 3, &[1, 2], &[]), "{found:?}");
    Ok(())
}

/// A register that was set before the branch is a root, though a `phi` set it.
#[test]
fn root_behind_a_phi(rt: HostRuntime) -> Result<(), Fail> {
    let alloc = rt.alloc();
    let p = sample(alloc, Sample::StoreAtOneOfTwo)?;
    let found = region(alloc, &p, 2)?.ok_or("none")?;
    assert!(rt; is_region(&found, 2, &[1], &[]), "{found:?}");
    let found = region(alloc, &p, 7)?.ok_or("none")?;
    let rows = [(8, true, REGISTER_2, Loads::Never)];
    assert!(rt; is_region(&found, 4, &[3], &rows), "{found:?}");
    Ok(())
}

/// A register that the region's own `phi` sets is no root; loops with one exit and with two.
#[test]
fn loops_with_exits(rt: HostRuntime) -> Result<(), Fail> {
    let alloc = rt.alloc();
    let p = of_parts(alloc, &LOOPS)?;
    assert!(rt; region(alloc, &p, 5)?.is_none());
    let found = region(alloc, &p, 7)?.ok_or("none")?;
    let rows = [(6, true, Root::Global(0), Loads::Never)];
    assert!(rt; is_region(&found, 3, &[2], &rows), "{found:?}");
    for branch in [8, 9] {
        let found = region(alloc, &p, branch)?.ok_or("none")?;
        assert!(rt; is_region(&found, 5, &[3, 4], &[]), "{found:?}");
    }
    Ok(())
}

/// Of two joins with as many blocks before them the first in the text counts; it is the branch's own block here.
#[test]
fn join_is_the_own_block(rt: HostRuntime) -> Result<(), Fail> {
    let alloc = rt.alloc();
    let p = of_parts(alloc, &LOOPS)?;
    let found = region(alloc, &p, 11)?.ok_or("none")?;
    assert!(rt; is_region(&found, 6, &[7], &[]), "{found:?}");
    Ok(())
}
