//! What no clause says: worked rows of the types in memory, called through their traits, and the
//! adapters over a reader and a writer that fail.

use pg_io::{MemorySink, MemorySource, ReaderSource, Sink, Source, SureSource, WriterSink};
use std::io;
use std::io::{ErrorKind, Read, Write};
use std::test::Fail;

// What four reads give, with `None` for one that failed.
fn four_reads<S: Source>(src: &mut S) -> [Option<usize>; 4] {
    let mut buf = [0; 3];
    [
        src.read(&mut buf).ok(),
        src.read(&mut buf).ok(),
        src.read(&mut buf).ok(),
        src.read(&mut buf).ok(),
    ]
}

// What four writes take, with `None` for one that failed.
fn four_writes<K: Sink>(out: &mut K) -> [Option<usize>; 4] {
    [
        out.write(b"abc").ok(),
        out.write(b"d").ok(),
        out.write(b"def").ok(),
        out.write(b"de").ok(),
    ]
}

#[test]
fn memory_source(rt: HostRuntime) -> Result<(), Fail> {
    let rows: [(&str, usize, &[u64], [Option<usize>; 4]); 4] = [
        ("abcde", 2, &[], [Some(2), Some(2), Some(1), Some(0)]),
        ("abcd", 9, &[1], [Some(3), None, Some(1), Some(0)]),
        ("ab", 2, &[0, 3], [None, Some(2), Some(0), Some(0)]),
        ("", 1, &[1], [Some(0), Some(0), Some(0), Some(0)]),
    ];
    for (bytes, piece, failing, want) in rows {
        assert!(rt; piece > 0);
        let bytes = bytes.as_bytes().to_vec(rt.alloc())?;
        let mut src = MemorySource::new(bytes, piece, failing.to_vec(rt.alloc())?);
        assert_eq!(rt; four_reads(&mut src), want);
    }
    let mut sure = SureSource::new(b"abcde".to_vec(rt.alloc())?, 2);
    assert_eq!(rt; four_reads(&mut sure), [Some(2), Some(2), Some(1), Some(0)]);
    Ok(())
}

#[test]
fn memory_sink(rt: HostRuntime) -> Result<(), Fail> {
    let mut out = MemorySink::new(rt.alloc(), 5, [1].to_vec(rt.alloc())?)?;
    assert_eq!(rt; four_writes(&mut out), [Some(3), None, None, Some(2)]);
    assert_eq!(rt; out.bytes(), b"abcde".as_slice());
    Ok(())
}

// Fails at its second call, and ends at its third, for one call.
#[derive(Drop)]
struct Uneven {
    calls: u8,
}

impl Uneven {
    fn next(&mut self) -> io::Result<bool> {
        self.calls = self.calls.saturating_add(1);
        if self.calls == 2 {
            return Err(io::Error::from(ErrorKind::Other));
        }
        Ok(self.calls != 3)
    }
}

impl Read for Uneven {
    fn read(&mut self, buf: &mut [u8]) -> io::Result<usize> {
        let more = self.next()?;
        Ok(if more && !buf.is_empty() { 1 } else { 0 })
    }
}

impl Write for Uneven {
    fn write(&mut self, buf: &[u8]) -> io::Result<usize> {
        let more = self.next()?;
        Ok(if more && !buf.is_empty() { 1 } else { 0 })
    }

    fn flush(&mut self) -> io::Result<()> {
        Ok(())
    }
}

#[test]
fn reader_source(rt: HostRuntime) {
    let mut src = ReaderSource::new(Uneven { calls: 0 });
    assert_eq!(rt; four_reads(&mut src), [Some(1), None, Some(0), Some(0)]);
    let text: &[u8] = b"abcde";
    let mut src = ReaderSource::new(text);
    assert_eq!(rt; four_reads(&mut src), [Some(3), Some(2), Some(0), Some(0)]);
}

// Fails at its first call, then has three bytes.
#[derive(Drop)]
struct FailsFirst {
    calls: u8,
}

impl Read for FailsFirst {
    fn read(&mut self, buf: &mut [u8]) -> io::Result<usize> {
        self.calls = self.calls.saturating_add(1);
        if self.calls == 1 {
            return Err(io::Error::from(ErrorKind::Interrupted));
        }
        if self.calls > 4 || buf.is_empty() {
            return Ok(0);
        }
        buf[0] = b'a';
        Ok(1)
    }
}

#[test]
fn a_fault_is_told_and_is_no_end(rt: HostRuntime) {
    let mut src = ReaderSource::new(FailsFirst { calls: 0 });
    assert_eq!(rt; four_reads(&mut src), [None, Some(1), Some(1), Some(1)]);
    assert_eq!(rt; four_reads(&mut src), [Some(0), Some(0), Some(0), Some(0)]);
}

#[test]
fn writer_sink(rt: HostRuntime) {
    let mut out = WriterSink::new(Uneven { calls: 0 });
    assert_eq!(rt; four_writes(&mut out), [Some(1), None, None, Some(1)]);
}
