//! How long forgotten megabytes take: a test that goes over their bytes doesn't end in its time.

use pg_slice_memory::{Held, SymbolicByte, SymbolicMemory};
use pg_slice_rules::Decision;
use std::alloc::{AllocError, Global};
use std::test::Fail;

/// Ten thousand megabytes are forgotten, each from another byte on, with a store before each.
fn forgets(alloc: Global) -> Result<SymbolicMemory, AllocError> {
    let mut memory = SymbolicMemory::new(alloc);
    for i in 0..10_000u16 {
        memory.store(0x100_0000 + i as u64 * 8, 8, Held::Known(7))?;
        memory.spoil(i as u64 * 16 + 1, 0x10_0000, Decision::Exact(i as usize))?;
    }
    Ok(memory)
}

#[test]
fn megabytes_are_forgotten_at_once(rt: HostRuntime) -> Result<(), Fail> {
    let memory = forgets(rt.alloc())?;
    assert_eq!(rt; memory.at(0), SymbolicByte::Initial);
    assert_eq!(rt; memory.at(1), SymbolicByte::Unknown(Decision::Exact(0)));
    assert_eq!(rt; memory.at(16), SymbolicByte::Unknown(Decision::Exact(0)));
    assert_eq!(rt; memory.at(17), SymbolicByte::Unknown(Decision::Exact(1)));
    assert_eq!(rt;
        memory.at(0x10_0000),
        SymbolicByte::Unknown(Decision::Exact(9_999))
    );
    assert_eq!(rt; memory.at(0x100_0000), SymbolicByte::Part { of: 7, at: 0 });
    Ok(())
}

/// Look-ups of bytes that were stored.
fn known(memory: &SymbolicMemory) -> u32 {
    let mut count = 0u32;
    for i in 0..2_000u32 {
        if let SymbolicByte::Part { .. } = memory.at(0x100_0000 + i as u64) {
            count = count.saturating_add(1);
        }
    }
    count
}

#[test]
fn look_ups_are_fast(rt: HostRuntime) -> Result<(), Fail> {
    let memory = forgets(rt.alloc())?;
    assert_eq!(rt; known(&memory), 2_000);
    Ok(())
}
