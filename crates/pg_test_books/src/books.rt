//! Books by the top call, on worked rows: what is saved, and sessions that begin with a book.

use crate::running::{outcome, sure};
use pg_commands::Status;
use std::test::Fail;

/// A program that prints the sum of its first two numbers.
pub(crate) const SUM: &[u8] = b"declare i64 @pg_in(i64)\n\
declare void @pg_out(i64)\n\
define i32 @main() {\n\
  %a = call i64 @pg_in(i64 0)\n\
  %b = call i64 @pg_in(i64 1)\n\
  %c = add i64 %a, %b\n\
  call void @pg_out(i64 %c)\n\
  ret i32 0\n\
}\n";

/// The book of the session of `SUM` over the line `4 5`.
pub(crate) const BOOK: &[u8] = b"{\"entries\":[{\"gated\":[],\"input\":[4,5],\"turns\":\
[[0,0,\"start\",0],[0,3,\"out\",0],[0,4,\"exit\",0]]}],\"peregrine\":1}\n";

/// The book of a session that keeps nothing.
const EMPTY: &[u8] = b"{\"entries\":[],\"peregrine\":1}\n";

/// Main and its thread store in one word, which main prints once it joined the thread.
pub(crate) const STORES: &[u8] = b"declare void @pg_out(i64)\n\
declare i32 @pthread_create(ptr, ptr, ptr, ptr)\n\
declare i32 @pthread_join(i64, ptr)\n\
@x = global i64 0\n\
@t = global i64 0\n\
define ptr @f(ptr %z) {\n\
  store i64 1, ptr @x\n\
  ret ptr null\n\
}\n\
define i32 @main() {\n\
  %1 = call i32 @pthread_create(ptr @t, ptr null, ptr @f, ptr null)\n\
  store i64 2, ptr @x\n\
  %h = load i64, ptr @t\n\
  %2 = call i32 @pthread_join(i64 %h, ptr null)\n\
  %v = load i64, ptr @x\n\
  call void @pg_out(i64 %v)\n\
  ret i32 0\n\
}\n";

/// The book of the session of `STORES` over an empty line: main runs until it waits for its thread.
pub(crate) const MAIN_FIRST: &[u8] = b"{\"entries\":[{\"gated\":[0,3],\"input\":[],\"turns\":\
[[0,2,\"start\",0],[0,2,\"create\",1],[0,3,\"store\",8],[1,0,\"start\",1],[1,0,\"store\",8],[1,1,\"exit\",1],\
[0,5,\"join\",1],[0,7,\"out\",0],[0,8,\"exit\",0]]}],\"peregrine\":1}\n";

/// The same entry with the two stores in the other order, and then that one.
pub(crate) const BOTH_ORDERS: &[u8] = b"{\"entries\":[{\"gated\":[0,3],\"input\":[],\"turns\":\
[[0,2,\"start\",0],[0,2,\"create\",1],[1,0,\"start\",1],[1,0,\"store\",8],[1,1,\"exit\",1],[0,3,\"store\",8],\
[0,5,\"join\",1],[0,7,\"out\",0],[0,8,\"exit\",0]]},{\"gated\":[0,3],\"input\":[],\"turns\":\
[[0,2,\"start\",0],[0,2,\"create\",1],[0,3,\"store\",8],[1,0,\"start\",1],[1,0,\"store\",8],[1,1,\"exit\",1],\
[0,5,\"join\",1],[0,7,\"out\",0],[0,8,\"exit\",0]]}],\"peregrine\":1}\n";

/// Prints the first number divided by the second. A division by 0 traps.
const QUOTIENT: &[u8] = b"declare i64 @pg_in(i64)\n\
declare void @pg_out(i64)\n\
define i32 @main() {\n\
  %a = call i64 @pg_in(i64 0)\n\
  %b = call i64 @pg_in(i64 1)\n\
  %c = sdiv i64 %a, %b\n\
  call void @pg_out(i64 %c)\n\
  ret i32 0\n\
}\n";

/// The book of the session of `QUOTIENT` over the line `8 2`.
const QUOTIENT_BOOK: &[u8] = b"{\"entries\":[{\"gated\":[],\"input\":[8,2],\"turns\":\
[[0,0,\"start\",0],[0,3,\"out\",0],[0,4,\"exit\",0]]}],\"peregrine\":1}\n";

/// Prints the first number where it isn't below 10, and 0 else.
pub(crate) const BRANCH: &[u8] = b"declare i64 @pg_in(i64)\n\
declare void @pg_out(i64)\n\
define i32 @main() {\n\
e:\n\
  %a = call i64 @pg_in(i64 0)\n\
  %c = icmp slt i64 %a, 10\n\
  br i1 %c, label %s, label %g\n\
s:\n\
  call void @pg_out(i64 0)\n\
  ret i32 0\n\
g:\n\
  call void @pg_out(i64 %a)\n\
  ret i32 0\n\
}\n";

/// The book of the session of `BRANCH` over the line `3`.
const BELOW: &[u8] = b"{\"entries\":[{\"gated\":[],\"input\":[3],\"turns\":\
[[0,0,\"start\",0],[0,3,\"out\",0],[0,4,\"exit\",0]]}],\"peregrine\":1}\n";

/// The book of the session of `BRANCH` over the lines `3` and `12`.
const BOTH_WAYS: &[u8] = b"{\"entries\":[{\"gated\":[],\"input\":[3],\"turns\":\
[[0,0,\"start\",0],[0,3,\"out\",0],[0,4,\"exit\",0]]},{\"gated\":[],\"input\":[12],\"turns\":\
[[0,0,\"start\",0],[0,5,\"out\",0],[0,6,\"exit\",0]]}],\"peregrine\":1}\n";

// A command line, the program, the book, the input, and what must come of them.
type Row<'a> = (&'a str, &'a [u8], &'a [u8], &'a [u8], Status, &'a [u8]);

#[test]
fn books_are_saved(rt: HostRuntime) -> Result<(), Fail> {
    let rows: [Row<'_>; 15] = [
        ("book x", SUM, b"", b"4 5\n", Status::Done, BOOK),
        ("book x", SUM, b"", b"4 5", Status::Done, BOOK),
        // a line that is reused or refused leaves the book as it is
        ("book x", SUM, b"", b"y\n4 5\n1 2\n 1\n", Status::Done, BOOK),
        ("book x", SUM, b"", b"", Status::Done, EMPTY),
        ("book x", SUM, b"", b"y\n", Status::Done, EMPTY),
        ("book x --quantum 1", SUM, b"", b"4 5\n", Status::Done, BOOK),
        ("book --seed=7 x", SUM, b"", b"4 5\n", Status::Done, BOOK),
        ("book x --free", SUM, b"", b"4 5\n", Status::Done, BOOK),
        ("book x", STORES, b"", b"\n", Status::Done, MAIN_FIRST),
        ("book x", BRANCH, b"", b"3\n", Status::Done, BELOW),
        (
            "book x",
            BRANCH,
            b"",
            b"3\n12\n4\n",
            Status::Done,
            BOTH_WAYS,
        ),
        // what traps isn't kept
        (
            "book x",
            QUOTIENT,
            b"",
            b"1 0\n8 2\n",
            Status::Done,
            QUOTIENT_BOOK,
        ),
        (
            "book x",
            b"x",
            b"",
            b"4 5\n",
            Status::ProgramRefused,
            b"program refused 1:1 Unsupported x\n",
        ),
        ("book y", SUM, b"", b"4 5\n", Status::ShelfFault, b""),
        ("book x --book b", SUM, BOOK, b"4 5\n", Status::Usage, b""),
    ];
    for (line, program, book, input, status, want) in rows {
        let (found, written) = outcome(&rt, rt.alloc(), line, sure(program, book, input))?;
        assert_eq!(rt; found, status, "{}", line);
        assert_eq!(rt; written.as_slice(), want, "{}", line);
    }
    Ok(())
}

#[test]
fn sessions_begin_with_a_book(rt: HostRuntime) -> Result<(), Fail> {
    let rows: [Row<'_>; 14] = [
        (
            "serve x --book b",
            SUM,
            BOOK,
            b"1 2\n",
            Status::Done,
            b"reused 0\n3\nexit 0 after 3 turns\n",
        ),
        ("serve x --book b", SUM, BOOK, b"", Status::Done, b""),
        (
            "serve x --book b",
            SUM,
            EMPTY,
            b"1 2\n",
            Status::Done,
            b"recorded 0\n3\nexit 0 after 3 turns\n",
        ),
        // the numbers go on behind those of the book
        (
            "serve x --book b",
            BRANCH,
            BELOW,
            b"5\n20\n30\n9\n",
            Status::Done,
            b"reused 0\n0\nexit 0 after 3 turns\n\
recorded 1\n20\nexit 0 after 3 turns\n\
reused 1\n30\nexit 0 after 3 turns\n\
reused 0\n0\nexit 0 after 3 turns\n",
        ),
        (
            "serve x --book b --quantum 1",
            BRANCH,
            BELOW,
            b"20\n",
            Status::Done,
            b"recorded 1\n20\nexit 0 after 3 turns\n",
        ),
        (
            "serve x --book b --seed 5",
            BRANCH,
            BELOW,
            b"20\n",
            Status::Done,
            b"recorded 1\n20\nexit 0 after 3 turns\n",
        ),
        (
            "serve x --book b --free",
            BRANCH,
            BELOW,
            b"20\n4\n",
            Status::Done,
            b"recorded 1\n20\nexit 0 after 3 turns\nreused 0\n0\nexit 0 after 3 turns\n",
        ),
        // the schedule of the book is run, and not the one that a session of its own would record
        (
            "serve x",
            STORES,
            b"",
            b"\n",
            Status::Done,
            b"recorded 0\n1\nexit 0 after 9 turns\n",
        ),
        (
            "serve x --book b",
            STORES,
            BOTH_ORDERS,
            b"\n",
            Status::Done,
            b"reused 0\n2\nexit 0 after 9 turns\n",
        ),
        // a line that an entry admits may trap
        (
            "serve x --book b",
            QUOTIENT,
            QUOTIENT_BOOK,
            b"1 0\n9 3\n",
            Status::Done,
            b"reused 0\ntrap DivideByZero at 2 after 1 turns\n\
reused 0\n3\nexit 0 after 3 turns\n",
        ),
        // the book of the other program has its turns
        (
            "serve x --book b",
            SUM,
            QUOTIENT_BOOK,
            b"8 2\n",
            Status::Done,
            b"reused 0\n10\nexit 0 after 3 turns\n",
        ),
        (
            "serve x --book b",
            b"x",
            b"no book",
            b"4 5\n",
            Status::ProgramRefused,
            b"program refused 1:1 Unsupported x\n",
        ),
        (
            "serve x --book y",
            SUM,
            BOOK,
            b"1 2\n",
            Status::ShelfFault,
            b"",
        ),
        (
            "serve y --book b",
            SUM,
            BOOK,
            b"1 2\n",
            Status::ShelfFault,
            b"",
        ),
    ];
    for (line, program, book, input, status, want) in rows {
        let (found, written) = outcome(&rt, rt.alloc(), line, sure(program, book, input))?;
        assert_eq!(rt; found, status, "{}", line);
        assert_eq!(rt; written.as_slice(), want, "{}", line);
    }
    Ok(())
}

// Nothing is recorded: what no entry of the book admits is refused.
#[test]
fn tested_lines_alone(rt: HostRuntime) -> Result<(), Fail> {
    let rows: [Row<'_>; 9] = [
        (
            "serve x --book b --only",
            BRANCH,
            BELOW,
            b"5\n20\ny\n20\n9\n",
            Status::Done,
            b"reused 0\n0\nexit 0 after 3 turns\n\
refused untested\n\
refused line\n\
refused untested\n\
reused 0\n0\nexit 0 after 3 turns\n",
        ),
        (
            "serve --only x --book=b",
            BRANCH,
            BOTH_WAYS,
            b"20\n5\n",
            Status::Done,
            b"reused 1\n20\nexit 0 after 3 turns\nreused 0\n0\nexit 0 after 3 turns\n",
        ),
        (
            "serve x --book b --only",
            SUM,
            EMPTY,
            b"1 2\n3 4",
            Status::Done,
            b"refused untested\nrefused untested\n",
        ),
        (
            "serve x --book b --only",
            STORES,
            BOTH_ORDERS,
            b"\n\n",
            Status::Done,
            b"reused 0\n2\nexit 0 after 9 turns\nreused 0\n2\nexit 0 after 9 turns\n",
        ),
        ("serve x --book b --only", SUM, BOOK, b"", Status::Done, b""),
        (
            "serve x --book b --only",
            SUM,
            b"",
            b"1 2\n",
            Status::BookRefused,
            b"book refused NotJson\n",
        ),
        (
            "serve x --book b --only --quantum 5",
            SUM,
            BOOK,
            b"1 2\n",
            Status::Usage,
            b"",
        ),
        (
            "serve x --book b --only --free",
            SUM,
            BOOK,
            b"1 2\n",
            Status::Usage,
            b"",
        ),
        ("serve x --only", SUM, BOOK, b"1 2\n", Status::Usage, b""),
    ];
    for (line, program, book, input, status, want) in rows {
        let (found, written) = outcome(&rt, rt.alloc(), line, sure(program, book, input))?;
        assert_eq!(rt; found, status, "{}", line);
        assert_eq!(rt; written.as_slice(), want, "{}", line);
    }
    Ok(())
}

// The text of the lines in two parts is the texts of the parts, one after the other.
#[test]
fn tested_lines_in_parts(rt: HostRuntime) -> Result<(), Fail> {
    let alloc = rt.alloc();
    let lines: [&[u8]; 5] = [b"5\n", b"20\n", b"y\n", b"9\n", b"-4\n"];
    let mut input = Vec::new(alloc);
    let mut texts = Vec::new(alloc);
    for line in lines {
        input.extend_from_slice(line)?;
        let (status, written) = outcome(
            &rt,
            alloc,
            "serve x --book b --only",
            sure(BRANCH, BELOW, line),
        )?;
        assert_eq!(rt; status, Status::Done);
        texts.extend_from_slice(written.as_slice())?;
    }
    let whole = sure(BRANCH, BELOW, input.as_slice());
    let (status, written) = outcome(&rt, alloc, "serve x --book b --only", whole)?;
    assert_eq!(rt; status, Status::Done);
    assert_eq!(rt; written.as_slice(), texts.as_slice());
    Ok(())
}

// What is saved is loaded, serves the lines that were recorded, and is saved as the same book where they are recorded again.
#[test]
fn saved_books_are_loaded_again(rt: HostRuntime) -> Result<(), Fail> {
    let rows: [(&[u8], &[u8], &[u8]); 4] = [
        (SUM, BOOK, b"4 5\n"),
        (BRANCH, BOTH_WAYS, b"3\n12\n"),
        (STORES, MAIN_FIRST, b"\n"),
        (QUOTIENT, QUOTIENT_BOOK, b"8 2\n"),
    ];
    for (program, book, input) in rows {
        let (status, written) = outcome(
            &rt,
            rt.alloc(),
            "serve x --book b --only",
            sure(program, book, input),
        )?;
        assert_eq!(rt; status, Status::Done);
        assert!(rt; written.starts_with(b"reused 0\n"));
        let (status, written) = outcome(&rt, rt.alloc(), "book x", sure(program, book, input))?;
        assert_eq!(rt; status, Status::Done);
        assert_eq!(rt; written.as_slice(), book);
    }
    Ok(())
}
