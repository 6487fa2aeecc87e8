//! Worked rows: the first bytes of globals, parts of a granule between others, the ends of memory, and changes of a
//! part. The expected values follow from the order of the bytes, low byte first.

ghost use Rattle.std.specs.Prelude.{◌<◌, ◌*◌, ◌^◌};

use pg_ir::Value;
use pg_num::{Place, Pointer, pack, place};
use pg_run_memory::{Delta, Memory, field_delta};
use pg_test_samples::{Body, I32, Line, Parts, build};
use std::test::Fail;

/// The place of some bytes in the frame of eight bytes at a granule below 64, or at the last one.
fn place_in(granule: u32, offset: u8, bytes: u8) -> Option<Place> {
    let size = match bytes {
        1 | 2 | 4 | 8 => bytes,
        _ => return None,
    };
    let word = pack(Pointer {
        start: if granule < 64 { granule } else { 0x3f_ffff },
        length: 8,
        offset: offset as u32,
    });
    place(word, size).ok()
}

/// The low bytes of a number, as many as the place has.
fn cut(at: Place, number: u64) -> u64
    ensures { result < 2 ^ (8 * at.bytes) }
{
    match at.bytes() {
        1 => number % 0x100,
        2 => number % 0x1_0000,
        4 => number % 0x1_0000_0000,
        8 => number,
        _ => 0,
    }
}

/// Two bytes, a size that the bytes don't fill, nothing, a byte of eight, and three bytes of eight.
const GLOBALS: Parts = Parts {
    globals: &[
        (1, 2, b"hi"),
        (2, 24, b"\x01\x02\x03\x04\x05\x06\x07\x08\x09"),
        (5, 0, b""),
        (6, 8, b"\xff"),
        (7, 8, b"hi!"),
    ],
    functions: &[Body {
        params: 0,
        registers: &[],
        returned: Some(I32),
        blocks: &[&[(None, Line::Return(Some(Value::Const(0))))]],
    }],
    main: 0,
};

#[test]
fn globals_stand_at_their_places(rt: HostRuntime) -> Result<(), Fail> {
    let program = build(rt.alloc(), &GLOBALS)?;
    let memory = Memory::new(rt.alloc(), &program)?;
    for (granule, want) in [
        (0, 0),
        (1, 0x6968),
        (2, 0x0807_0605_0403_0201),
        (3, 9),
        (4, 0),
        (5, 0),
        (6, 0xff),
        (7, 0x21_6968),
        (8, 0),
        (64, 0),
    ] {
        let at = place_in(granule, 0, 8).ok_or("no place")?;
        assert_eq!(rt; memory.get(at), want, "at granule {granule}");
    }
    Ok(())
}

#[test]
fn writes_change_their_bytes(rt: HostRuntime) -> Result<(), Fail> {
    let program = build(rt.alloc(), &GLOBALS)?;
    let mut memory = Memory::new(rt.alloc(), &program)?;
    for (granule, offset, bytes, number, whole) in [
        (8, 0, 8, u64::MAX, u64::MAX),
        (8, 2, 2, 0x1234, 0xffff_ffff_1234_ffff),
        (8, 1, 1, 0, 0xffff_ffff_1234_00ff),
        (8, 4, 4, 0x8765_4321, 0x8765_4321_1234_00ff),
        (7, 3, 1, 0x2e, 0x2e21_6968),
        (63, 6, 2, 0xffff, 0xffff_0000_0000_0000),
        (64, 7, 1, 0xab, 0xab00_0000_0000_0000),
    ] {
        let at = place_in(granule, offset, bytes).ok_or("no place")?;
        memory.put(at, cut(at, number));
        assert_eq!(rt; memory.get(at), number, "at {granule} and {offset}");
        let granule = place_in(granule, 0, 8).ok_or("no place")?;
        assert_eq!(rt; memory.get(granule), whole, "at {granule:?}");
    }
    Ok(())
}

#[test]
fn a_delta_changes_a_part(rt: HostRuntime) -> Result<(), Fail> {
    for (offset, bytes, from, to, word, want) in [
        (7, 1, 0xff, 0, u64::MAX, 0x00ff_ffff_ffff_ffff),
        (6, 2, 0, 0xffff, 0xffff_ffff_ffff, u64::MAX),
        (
            2,
            2,
            0x1234,
            0x1235,
            0xffff_ffff_1234_ffff,
            0xffff_ffff_1235_ffff,
        ),
        (2, 2, 0x1234, 0x1233, 0x1234_0000, 0x1233_0000),
        (0, 8, u64::MAX, 0, u64::MAX, 0),
        (0, 8, 0, u64::MAX, 0, u64::MAX),
        (4, 4, 5, 5, 0x5_0000_0007, 0x5_0000_0007),
    ] {
        let at = place_in(1, offset, bytes).ok_or("no place")?;
        let found = match field_delta(cut(at, from), cut(at, to), at) {
            Delta::Add(n) => u64::wrapping_add(word, n),
            Delta::Sub(n) => u64::wrapping_sub(word, n),
        };
        assert_eq!(rt; found, want, "from {from} to {to}");
    }
    Ok(())
}
