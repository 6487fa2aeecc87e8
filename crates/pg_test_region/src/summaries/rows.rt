//! Summaries of sample programs.

use crate::summaries::programs::{ADDS_BY_CALLS, CALLERS, SIZES};
use pg_ir::{InstrId, Program};
use pg_region::region_of;
use pg_region_accesses::{Rooted, Summary};
use pg_region_paths::{Loads, Root};
use pg_region_summaries::summaries;
use pg_test_samples::{Parts, build};
use std::alloc::{AllocError, Global};
use std::test::Fail;

/// Instruction, whether it writes, root and loads.
type Row = (u32, bool, Root, Loads);

fn row_of(access: &Rooted) -> Row {
    let path = access.path;
    (access.instr.0, access.writes, path.root, path.loads)
}

/// Whether a function has a summary with these accesses.
fn has(sums: &[Option<Summary>], f: usize, rows: &[Row]) -> bool {
    match sums.get(f) {
        Some(Some(summary)) => {
            let accesses = summary.accesses.as_slice();
            accesses.len() == rows.len()
                && accesses.iter().zip(rows).all(|(a, row)| row_of(a) == *row)
        }
        _ => false,
    }
}

/// Whether a function has none.
fn has_none(sums: &[Option<Summary>], f: usize) -> bool {
    match sums.get(f) {
        Some(None) => true,
        _ => false,
    }
}

fn of_parts(alloc: Global, parts: &Parts) -> Result<Program, Fail> {
    Ok(build(alloc, parts)?)
}

const PARAM_0: Root = Root::Param(0);

/// The function that a thread's loop calls reads and writes at its first parameter; the loop's own is named by a create.
#[test]
fn called_in_a_loop(rt: HostRuntime) -> Result<(), Fail> {
    let alloc = rt.alloc();
    let p = of_parts(alloc, &ADDS_BY_CALLS)?;
    let sums = summaries(alloc, &p, &[])?;
    let sums = sums.as_slice();
    assert_eq!(rt; sums.len(), 3);
    let rows = [
        (0, false, PARAM_0, Loads::Never),
        (2, true, PARAM_0, Loads::Never),
    ];
    assert!(rt; has(sums, 0, &rows));
    assert!(rt; has_none(sums, 1));
    assert!(rt; has_none(sums, 2));
    Ok(())
}

/// With these summaries the thread's loop has a region, in which the call accesses the global.
#[test]
fn region_with_a_call(rt: HostRuntime) -> Result<(), Fail> {
    let alloc = rt.alloc();
    let p = of_parts(alloc, &ADDS_BY_CALLS)?;
    let sums = summaries(alloc, &p, &[])?;
    if p.instr_count() <= 8 {
        return Err(Fail::from("few instructions"));
    }
    let region = region_of(alloc, &p, &[], sums.as_slice(), InstrId(8))?.ok_or("none")?;
    assert_eq!(rt; region.join, 4);
    assert_eq!(rt; region.blocks.as_slice(), [2, 3].as_slice());
    let rows = [
        (0, false, Root::Global(0), Loads::Never),
        (2, true, Root::Global(0), Loads::Never),
    ];
    let accesses = region.accesses.as_slice();
    assert!(rt; accesses.len() == 2);
    assert!(rt; accesses.iter().zip(rows).all(|(a, row)| row_of(a) == row));
    Ok(())
}

/// With its store in the gated set it isn't quiet.
#[test]
fn gated_store(rt: HostRuntime) -> Result<(), Fail> {
    let alloc = rt.alloc();
    let p = of_parts(alloc, &ADDS_BY_CALLS)?;
    if p.instr_count() <= 2 {
        return Err(Fail::from("few instructions"));
    }
    let sums = summaries(alloc, &p, &[InstrId(2)])?;
    assert!(rt; has_none(sums.as_slice(), 0));
    Ok(())
}

/// Four loads through a call have a path, five haven't; and neither a function that calls itself, nor one that calls that,
/// nor one with memory of its own, nor main is quiet.
#[test]
fn callers(rt: HostRuntime) -> Result<(), Fail> {
    let alloc = rt.alloc();
    let p = of_parts(alloc, &CALLERS)?;
    let sums = summaries(alloc, &p, &[])?;
    let sums = sums.as_slice();
    let rows = [
        (0, false, PARAM_0, Loads::Never),
        (1, false, PARAM_0, Loads::Once(0)),
    ];
    assert!(rt; has(sums, 0, &rows));
    let rows = [
        (3, false, PARAM_0, Loads::Never),
        (4, false, PARAM_0, Loads::Once(0)),
        (5, false, PARAM_0, Loads::Twice(0, 0)),
        (0, false, PARAM_0, Loads::Thrice(0, 0, 0)),
        (1, false, PARAM_0, Loads::FourTimes(0, 0, 0, 0)),
    ];
    assert!(rt; has(sums, 1, &rows));
    for f in 2..7 {
        assert!(rt; has_none(sums, f), "{f}");
    }
    Ok(())
}

/// How many accesses the summary of a function has, if it has one.
fn size(sums: &[Option<Summary>], f: usize) -> Option<usize> {
    match sums.get(f) {
        Some(Some(summary)) => Some(summary.accesses.len()),
        _ => None,
    }
}

/// A summary has 1,024 accesses, those of its calls among them, and a function with one more has none.
#[test]
fn sizes(rt: HostRuntime) -> Result<(), Fail> {
    let alloc = rt.alloc();
    let p = of_parts(alloc, &SIZES)?;
    let sums = summaries(alloc, &p, &[])?;
    let sums = sums.as_slice();
    for (f, count) in [4, 16, 64, 256, 1_024].iter().enumerate() {
        assert_eq!(rt; size(sums, f), Some(*count));
    }
    assert_eq!(rt; size(sums, 5), None);
    assert_eq!(rt; size(sums, 6), None);
    Ok(())
}
