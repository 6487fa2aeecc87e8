//! Sessions: what is written for which input, and where a read or a write fails.
ghost use Rattle.std.specs.Prelude.{◌<◌};

use crate::sessions::made::Sums;
use pg_io::{MemorySink, MemorySource};
use pg_session::{ServeFault, begin, serve};
use pg_session_texts::ReplyForm;
use std::alloc::{AllocError, Global};
use std::sync::Wait;
use std::test::Fail;
use std::thread::Threads;

/// What a session writes whose source gives pieces of this many bytes, and where calls fail.
#[derive(Drop)]
struct Written {
    end: Result<(), ServeFault>,
    text: Vec<u8>,
}

fn session_in<R: Threads + Wait + Sync>(
    rt: &R,
    alloc: Global,
    form: ReplyForm,
    input: &[u8],
    piece: usize,
    reads: &[u64],
    writes: &[u64],
) -> Result<Written, AllocError>
    requires { 0 < piece }
{
    let failing = reads.to_vec(alloc)?;
    let mut src = MemorySource::new(input.to_vec(alloc)?, piece, failing);
    let failing = writes.to_vec(alloc)?;
    let mut out = MemorySink::new(alloc, 4_000, failing)?;
    let first = begin(alloc)?;
    let end = serve(rt, alloc, &mut Sums, form, first, &mut src, &mut out);
    Ok(Written {
        end,
        text: out.bytes().to_vec(alloc)?,
    })
}

/// The same where replies are written in lines.
fn session_of<R: Threads + Wait + Sync>(
    rt: &R,
    alloc: Global,
    input: &[u8],
    piece: usize,
    reads: &[u64],
    writes: &[u64],
) -> Result<Written, AllocError>
    requires { 0 < piece }
{
    session_in(rt, alloc, ReplyForm::Lines, input, piece, reads, writes)
}

const RECORDED: &[u8] = b"recorded 0\n3\nexit 0 after 3 turns\n";

#[test]
fn lines(rt: HostRuntime) -> Result<(), Fail> {
    let rows: [(&[u8], &[u8]); 17] = [
        (b"", b""),
        (b"\n", b"recorded 0\n0\nexit 0 after 3 turns\n"),
        (b"3", b"recorded 0\n3\nexit 0 after 3 turns\n"),
        (b"3\n", b"recorded 0\n3\nexit 0 after 3 turns\n"),
        (
            b"3\n4\n",
            b"recorded 0\n3\nexit 0 after 3 turns\nreused 0\n4\nexit 0 after 4 turns\n",
        ),
        (
            b"2 -5\n4\n-7 7",
            b"recorded 0\n-3\nexit 0 after 3 turns\nrecorded 1\n4\nexit 0 after 3 turns\nreused 0\n0\nexit 0 after 4 turns\n",
        ),
        (b"0 1\n", b"refused trap DivideByZero at 7\na\n"),
        (b"1 1", b"refused budget\n"),
        (b"2  3\n", b"refused line\n"),
        (b"2\t3\n", b"recorded 0\n5\nexit 0 after 3 turns\n"),
        (b" 2\n2 \n", b"refused line\nrefused line\n"),
        (
            b"2,3\n+2\n--2\n-\n",
            b"refused line\nrefused line\nrefused line\nrefused line\n",
        ),
        (
            b"9223372036854775807\n9223372036854775808\n",
            b"recorded 0\n9223372036854775807\nexit 0 after 3 turns\nrefused line\n",
        ),
        (
            b"-9223372036854775808\n-9223372036854775809\n",
            b"recorded 0\n-9223372036854775808\nexit 0 after 3 turns\nrefused line\n",
        ),
        (b"2\r\n", b"refused line\n"),
        (
            b"007\n-0\n",
            b"recorded 0\n7\nexit 0 after 3 turns\nreused 0\n0\nexit 0 after 4 turns\n",
        ),
        (
            b"2\n2 2\n\n",
            b"recorded 0\n2\nexit 0 after 3 turns\nrecorded 1\n4\nexit 0 after 3 turns\nreused 0\n0\nexit 0 after 4 turns\n",
        ),
    ];
    for (input, text) in rows {
        for piece in [1, 3, 5_000] {
            let written = session_of(&rt, rt.alloc(), input, piece, &[], &[])?;
            assert_eq!(rt; written.end, Ok(()));
            assert_eq!(rt; written.text.as_slice(), text);
        }
    }
    Ok(())
}

#[test]
fn lines_as_json(rt: HostRuntime) -> Result<(), Fail> {
    let rows: [(&[u8], &[u8]); 4] = [
        (b"", b""),
        (
            b"3\n4",
            b"{\"end\":{\"exit\":0},\"entry\":0,\"output\":\"3\\n\",\"reply\":\"recorded\",\"turns\":3}\n\
{\"end\":{\"exit\":0},\"entry\":0,\"output\":\"4\\n\",\"reply\":\"reused\",\"turns\":4}\n",
        ),
        (
            b"0 1\n",
            b"{\"end\":{\"at\":7,\"trap\":\"DivideByZero\"},\"output\":\"a\\n\",\"reply\":\"refused trap\"}\n",
        ),
        (
            b"1 1\n2  3\n",
            b"{\"output\":\"\",\"reply\":\"refused budget\"}\n{\"output\":\"\",\"reply\":\"refused line\"}\n",
        ),
    ];
    for (input, text) in rows {
        for piece in [1, 5_000] {
            let written = session_in(&rt, rt.alloc(), ReplyForm::Json, input, piece, &[], &[])?;
            assert_eq!(rt; written.end, Ok(()));
            assert_eq!(rt; written.text.as_slice(), text);
        }
    }
    Ok(())
}

// A line of this many bytes: a number with leading zeros.
fn long_line(alloc: Global, bytes: usize) -> Result<Vec<u8>, AllocError> {
    let mut line = Vec::new(alloc);
    for _ in 1..bytes {
        line.push(b'0')?;
    }
    line.push(b'3')?;
    Ok(line)
}

#[test]
fn long_lines(rt: HostRuntime) -> Result<(), Fail> {
    let rows: [(usize, &[u8]); 4] = [
        (4_095, RECORDED),
        (4_096, RECORDED),
        (4_097, b"refused line\n"),
        (9_000, b"refused line\n"),
    ];
    for (bytes, text) in rows {
        let mut line = long_line(rt.alloc(), bytes)?;
        let whole = session_of(&rt, rt.alloc(), &line, 5_000, &[], &[])?;
        assert_eq!(rt; whole.text.as_slice(), text);
        line.push(b'\n')?;
        let ended = session_of(&rt, rt.alloc(), &line, 5_000, &[], &[])?;
        assert_eq!(rt; ended.text.as_slice(), text);
    }
    Ok(())
}

#[test]
fn many_numbers(rt: HostRuntime) -> Result<(), Fail> {
    let rows: [(usize, &[u8]); 3] = [
        (511, b"recorded 0\n1022\nexit 0 after 3 turns\n"),
        (512, b"recorded 0\n1024\nexit 0 after 3 turns\n"),
        (513, b"refused line\n"),
    ];
    for (count, text) in rows {
        let mut line = b"2".to_vec(rt.alloc())?;
        for _ in 1..count {
            line.extend_from_slice(b" 2")?;
        }
        let written = session_of(&rt, rt.alloc(), &line, 100, &[], &[])?;
        assert_eq!(rt; written.text.as_slice(), text);
    }
    Ok(())
}

#[test]
fn faults(rt: HostRuntime) -> Result<(), Fail> {
    let second: &[u8] = b"recorded 0\n3\nexit 0 after 3 turns\nreused 0\n4\nexit 0 after 4 turns\n";
    let rows: [(&[u64], &[u64], Result<(), ServeFault>, &[u8]); 8] = [
        (&[0], &[], Err(ServeFault::ReadFault), b""),
        (&[1], &[], Err(ServeFault::ReadFault), RECORDED),
        (&[2], &[], Err(ServeFault::ReadFault), second),
        (&[3], &[], Ok(()), second),
        (&[], &[0], Err(ServeFault::WriteFault), b""),
        (&[], &[1], Err(ServeFault::WriteFault), RECORDED),
        (&[], &[2], Ok(()), second),
        (&[1], &[1], Err(ServeFault::ReadFault), RECORDED),
    ];
    for (reads, writes, end, text) in rows {
        let written = session_of(&rt, rt.alloc(), b"3\n4\n", 2, reads, writes)?;
        assert_eq!(rt; written.end, end);
        assert_eq!(rt; written.text.as_slice(), text);
    }
    Ok(())
}

// Lines of one number up to one of this many, each from 2 on.
fn growing_lines(alloc: Global, count: usize) -> Result<Vec<u8>, AllocError> {
    let mut lines = Vec::new(alloc);
    for length in 1..count.saturating_add(1) {
        for _ in 1..length {
            lines.extend_from_slice(b"2 ")?;
        }
        lines.extend_from_slice(b"2\n")?;
    }
    Ok(lines)
}

#[test]
fn youngest_sixteen(rt: HostRuntime) -> Result<(), Fail> {
    let mut lines = growing_lines(rt.alloc(), 17)?;
    lines.extend_from_slice(b"\n3\n3 3\n3 3 3\n\n")?;
    let written = session_of(&rt, rt.alloc(), &lines, 7, &[], &[])?;
    let replies: [&[u8]; 6] = [
        b"recorded 16\n34\nexit 0 after 3 turns\n",
        b"reused 1\n0\nexit 0 after 4 turns\n",
        b"recorded 17\n3\nexit 0 after 3 turns\n",
        b"recorded 18\n6\nexit 0 after 3 turns\n",
        b"recorded 19\n9\nexit 0 after 3 turns\n",
        b"reused 4\n0\nexit 0 after 4 turns\n",
    ];
    let mut end = Vec::new(rt.alloc());
    for reply in replies {
        end.extend_from_slice(reply)?;
    }
    assert_eq!(rt; written.end, Ok(()));
    assert!(rt; written.text.as_slice().ends_with(&end));
    Ok(())
}

#[test]
fn more_than_a_session_takes(rt: HostRuntime) -> Result<(), Fail> {
    let mut input = vec![in rt.alloc(); b'x'; 16_777_216]?;
    input.push(b'\n')?;
    let longer = session_of(&rt, rt.alloc(), &input, 65_536, &[], &[])?;
    assert_eq!(rt; longer.end, Err(ServeFault::InputLimit));
    assert_eq!(rt; longer.text.as_slice(), b"".as_slice());
    Ok(())
}
