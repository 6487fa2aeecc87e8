//! Commands about books where a call on the outside fails.

use crate::books::{BOOK, SUM};
use crate::running::{Outside, outcome, status_of, sure};
use pg_commands::Status;
use pg_io::{MemorySink, ShortSink};
use std::test::Fail;

/// Three lines. Reads of four bytes give one line each.
const LINES: &[u8] = b"1 2\n3 4\n5 6\n";

/// The replies to the lines from the book, one after another.
const REPLIES: &[u8] = b"reused 0\n3\nexit 0 after 3 turns\n\
reused 0\n7\nexit 0 after 3 turns\n\
reused 0\n11\nexit 0 after 3 turns\n";

/// How many bytes the replies to this many lines have.
const ENDS: [usize; 4] = [0, 32, 64, 97];

/// The book of the lines: the first is recorded, and the others are reused.
const SAVED: &[u8] = b"{\"entries\":[{\"gated\":[],\"input\":[1,2],\"turns\":\
[[0,0,\"start\",0],[0,3,\"out\",0],[0,4,\"exit\",0]]}],\"peregrine\":1}\n";

/// The program, its book, and the lines by reads of four bytes.
fn outside<'a>(book: &'a [u8]) -> Outside<'a> {
    Outside {
        piece: 4,
        ..sure(SUM, book, LINES)
    }
}

/// The command lines that answer the lines from the book.
const SESSIONS: [&str; 2] = ["serve x --book b", "serve x --book b --only"];

// Nothing is read or written where the fetch of the program fails, which is the first, or that of the book, which is the second.
#[test]
fn each_fetch_fails(rt: HostRuntime) -> Result<(), Fail> {
    for line in SESSIONS {
        for k in 0..3 {
            let (status, written) = outcome(
                &rt,
                rt.alloc(),
                line,
                Outside {
                    fetches: &[k],
                    reads: &[0],
                    ..outside(BOOK)
                },
            )?;
            let want = if k < 2 {
                Status::ShelfFault
            } else {
                Status::ReadFault
            };
            assert_eq!(rt; status, want, "{}", line);
            assert!(rt; written.is_empty(), "{}", line);
        }
    }
    Ok(())
}

// The fetch of a book is the second one where both have one name.
#[test]
fn a_fetch_of_one_name_fails(rt: HostRuntime) -> Result<(), Fail> {
    for k in 0..3 {
        let (status, written) = outcome(
            &rt,
            rt.alloc(),
            "serve x --book x",
            Outside {
                fetches: &[k],
                ..outside(BOOK)
            },
        )?;
        if k < 2 {
            assert_eq!(rt; status, Status::ShelfFault);
            assert!(rt; written.is_empty());
        } else {
            assert_eq!(rt; status, Status::BookRefused);
            assert_eq!(rt; written.as_slice(), b"book refused NotJson\n".as_slice());
        }
    }
    Ok(())
}

// The program comes first: where it is refused its book isn't fetched, and where the book is refused nothing is read.
#[test]
fn what_is_refused_first(rt: HostRuntime) -> Result<(), Fail> {
    for line in SESSIONS {
        let (status, written) = outcome(
            &rt,
            rt.alloc(),
            line,
            Outside {
                fetches: &[1],
                reads: &[0],
                ..sure(b"x", b"x", LINES)
            },
        )?;
        assert_eq!(rt; status, Status::ProgramRefused, "{}", line);
        assert_eq!(rt;
            written.as_slice(),
            b"program refused 1:1 Unsupported x\n".as_slice(),
            "{}",
            line
        );
        let (status, written) = outcome(
            &rt,
            rt.alloc(),
            line,
            Outside {
                reads: &[0],
                ..outside(b"x")
            },
        )?;
        assert_eq!(rt; status, Status::BookRefused, "{}", line);
        assert_eq!(rt;
            written.as_slice(),
            b"book refused NotJson\n".as_slice(),
            "{}",
            line
        );
    }
    Ok(())
}

#[test]
fn each_read_fails(rt: HostRuntime) -> Result<(), Fail> {
    for line in SESSIONS {
        for k in 0..5 {
            let (status, written) = outcome(
                &rt,
                rt.alloc(),
                line,
                Outside {
                    reads: &[k as u64],
                    ..outside(BOOK)
                },
            )?;
            let want = if k < 4 {
                Status::ReadFault
            } else {
                Status::Done
            };
            assert_eq!(rt; status, want, "{} {}", line, k);
            assert_eq!(rt;
                written.as_slice(),
                &REPLIES[..ENDS[k.min(3)]],
                "{} {}",
                line,
                k
            );
        }
    }
    Ok(())
}

#[test]
fn each_write_fails(rt: HostRuntime) -> Result<(), Fail> {
    for line in SESSIONS {
        for k in 0..4 {
            let (status, written) = outcome(
                &rt,
                rt.alloc(),
                line,
                Outside {
                    writes: &[k as u64],
                    ..outside(BOOK)
                },
            )?;
            let want = if k < 3 {
                Status::WriteFault
            } else {
                Status::Done
            };
            assert_eq!(rt; status, want, "{} {}", line, k);
            assert_eq!(rt; written.as_slice(), &REPLIES[..ENDS[k]], "{} {}", line, k);
        }
    }
    Ok(())
}

// A refusal of a book is one piece.
#[test]
fn the_write_of_a_refusal_fails(rt: HostRuntime) -> Result<(), Fail> {
    let rows: [(&[u64], Status, &[u8]); 2] = [
        (&[0], Status::WriteFault, b""),
        (&[1], Status::BookRefused, b"book refused NotJson\n"),
    ];
    for (writes, want, line) in rows {
        let (status, written) = outcome(
            &rt,
            rt.alloc(),
            "serve x --book b",
            Outside {
                writes,
                ..outside(b"x")
            },
        )?;
        assert_eq!(rt; status, want);
        assert_eq!(rt; written.as_slice(), line);
    }
    Ok(())
}

#[test]
fn a_sink_takes_one_byte_a_call(rt: HostRuntime) -> Result<(), Fail> {
    let alloc = rt.alloc();
    let rows: [(&str, &[u8], Status, &[u8]); 4] = [
        ("serve x --book b", BOOK, Status::Done, REPLIES),
        ("serve x --book b --only", BOOK, Status::Done, REPLIES),
        (
            "serve x --book b",
            b"x",
            Status::BookRefused,
            b"book refused NotJson\n",
        ),
        ("book x", b"", Status::Done, SAVED),
    ];
    for (line, book, want, text) in rows {
        let mut out = ShortSink::new(alloc, 200, 1, Vec::new(alloc))?;
        assert_eq!(rt;
            status_of(&rt, alloc, line, outside(book), &mut out)?,
            want,
            "{}",
            line
        );
        assert_eq!(rt; out.bytes(), text, "{}", line);
        let mut out = ShortSink::new(alloc, 200, 1, [5].to_vec(alloc)?)?;
        assert_eq!(rt;
            status_of(&rt, alloc, line, outside(book), &mut out)?,
            Status::WriteFault,
            "{}",
            line
        );
        assert_eq!(rt; out.bytes(), &text[..5], "{}", line);
    }
    Ok(())
}

// Nothing is written before all lines are answered, and then all at once.
#[test]
fn a_book_is_written_whole(rt: HostRuntime) -> Result<(), Fail> {
    for k in 0..5 {
        let (status, written) = outcome(
            &rt,
            rt.alloc(),
            "book x",
            Outside {
                reads: &[k],
                ..outside(b"")
            },
        )?;
        if k < 4 {
            assert_eq!(rt; status, Status::ReadFault, "{}", k);
            assert!(rt; written.is_empty(), "{}", k);
        } else {
            assert_eq!(rt; status, Status::Done);
            assert_eq!(rt; written.as_slice(), SAVED);
        }
    }
    let rows: [(&[u64], &[u64], Status, &[u8]); 4] = [
        (&[0], &[], Status::ShelfFault, b""),
        (&[1], &[], Status::Done, SAVED),
        (&[], &[0], Status::WriteFault, b""),
        (&[], &[1], Status::Done, SAVED),
    ];
    for (fetches, writes, want, text) in rows {
        let (status, written) = outcome(
            &rt,
            rt.alloc(),
            "book x",
            Outside {
                fetches,
                writes,
                ..outside(b"")
            },
        )?;
        assert_eq!(rt; status, want);
        assert_eq!(rt; written.as_slice(), text);
    }
    Ok(())
}

// A session takes so many bytes, and a book of more isn't written.
#[test]
fn an_input_at_the_limit(rt: HostRuntime) -> Result<(), Fail> {
    let alloc = rt.alloc();
    let limit: usize = 16_777_216;
    let rows: [(&str, usize, Status, &[u8]); 4] = [
        (
            "book x",
            limit,
            Status::Done,
            b"{\"entries\":[],\"peregrine\":1}\n",
        ),
        ("book x", limit + 1, Status::InputLimit, b""),
        (
            "serve x --book b --only",
            limit,
            Status::Done,
            b"refused line\n",
        ),
        (
            "serve x --book b --only",
            limit + 1,
            Status::InputLimit,
            b"",
        ),
    ];
    for (line, count, want, text) in rows {
        let input: Vec<u8> = vec![in alloc; b'x'; count]?;
        let mut out = MemorySink::new(alloc, 200, Vec::new(alloc))?;
        let status = status_of(
            &rt,
            alloc,
            line,
            sure(SUM, BOOK, input.as_slice()),
            &mut out,
        )?;
        assert_eq!(rt; status, want, "{} {}", line, count);
        assert_eq!(rt; out.bytes(), text, "{} {}", line, count);
    }
    Ok(())
}
