//! Worked rows of the calls that read a source to its end and write all of a text.

use pg_commands::{ReadAllFault, read_all, write_all};
use pg_io::{MemorySink, MemorySource};
use std::test::Fail;

#[test]
fn reads_all(rt: HostRuntime) -> Result<(), Fail> {
    let rows: [(&[u8], usize, &[u64], usize, Result<&[u8], ReadAllFault>); 5] = [
        (b"abcde", 2, &[], 5, Ok(b"abcde")),
        (b"abcdef", 2, &[], 5, Err(ReadAllFault::TooLong)),
        (b"", 1, &[], 0, Ok(b"")),
        (b"abc", 1, &[1], 5, Err(ReadAllFault::Failed)),
        (b"abc", 9, &[2], 3, Ok(b"abc")),
    ];
    for (bytes, piece, failing, limit, want) in rows {
        assert!(rt; piece > 0 && limit < 9);
        let bytes = bytes.to_vec(rt.alloc())?;
        let mut src = MemorySource::new(bytes, piece, failing.to_vec(rt.alloc())?);
        match read_all(rt.alloc(), &mut src, limit) {
            Ok(text) => assert_eq!(rt; Ok(text.as_slice()), want),
            Err(fault) => assert_eq!(rt; Err(fault), want),
        }
    }
    Ok(())
}

#[test]
fn writes_all(rt: HostRuntime) -> Result<(), Fail> {
    let mut out = MemorySink::new(rt.alloc(), 5, [1].to_vec(rt.alloc())?)?;
    assert!(rt; write_all(&mut out, b"abc").is_ok());
    assert!(rt; write_all(&mut out, b"").is_ok());
    assert!(rt; write_all(&mut out, b"d").is_err());
    assert!(rt; write_all(&mut out, b"de").is_ok());
    assert_eq!(rt; out.bytes(), b"abcde".as_slice());
    Ok(())
}
