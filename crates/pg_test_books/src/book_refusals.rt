//! Books that are loaded or refused, by the top call: each refusal has its line.

use crate::books::{BOOK, BOTH_ORDERS, STORES, SUM};
use crate::running::{outcome, sure};
use pg_commands::Status;
use std::alloc::{AllocError, Global};
use std::test::Fail;

/// An entry of `SUM`, as a book has it.
const ENTRY: &[u8] =
    b"{\"gated\":[],\"input\":[4,5],\"turns\":[[0,0,\"start\",0],[0,3,\"out\",0],[0,4,\"exit\",0]]}";

/// The reply to `1 2` by the first entry of a book.
const REUSED: &[u8] = b"reused 0\n3\nexit 0 after 3 turns\n";

/// The reply to `1 2` where the book has no entry.
const RECORDED: &[u8] = b"recorded 0\n3\nexit 0 after 3 turns\n";

/// The most bytes that a book has.
const LIMIT: usize = 16_777_216;

// The book of the entry of `SUM` whose input and turns are written so.
fn book_with(alloc: Global, input: &str, turns: &str) -> Result<Vec<u8>, AllocError> {
    let text = format!(in alloc;
        "{{\"entries\":[{{\"gated\":[],\"input\":{input},\"turns\":{turns}}}],\"peregrine\":1}}\n"
    )?;
    Ok(text.into_bytes())
}

#[test]
fn outer_values(rt: HostRuntime) -> Result<(), Fail> {
    let rows: [(&[u8], &[u8]); 20] = [
        (b"", b"book refused NotJson\n"),
        (b"{", b"book refused NotJson\n"),
        (
            b"{\"entries\":[],\"peregrine\":1}x",
            b"book refused NotJson\n",
        ),
        (
            b"{\"entries\":[],\"peregrine\":1,}",
            b"book refused NotJson\n",
        ),
        (
            b"{\"entries\":[],\"peregrine\":01}",
            b"book refused NotJson\n",
        ),
        (b"\xff", b"book refused NotJson\n"),
        (b"[]", b"book refused Outer\n"),
        (b"{}", b"book refused Outer\n"),
        (b"null", b"book refused Outer\n"),
        (b"{\"entries\":[]}", b"book refused Outer\n"),
        (b"{\"entries\":[],\"peregrine\":2}", b"book refused Outer\n"),
        (
            b"{\"entries\":[],\"peregrine\":1.0}",
            b"book refused Outer\n",
        ),
        (
            b"{\"entries\":[],\"peregrine\":\"1\"}",
            b"book refused Outer\n",
        ),
        (b"{\"entries\":{},\"peregrine\":1}", b"book refused Outer\n"),
        (
            b"{\"entries\":[],\"peregrine\":1,\"x\":0}",
            b"book refused Outer\n",
        ),
        (
            b"{\"entries\":[],\"entries\":7,\"peregrine\":1}",
            b"book refused Outer\n",
        ),
        // of equal keys the last counts, and blanks and the order of keys don't
        (b"{\"peregrine\":1,\"entries\":[]}", RECORDED),
        (
            b" {\n\t\"entries\" : [ ] ,\r\"peregrine\" : 1 }\n\n",
            RECORDED,
        ),
        (b"{\"entries\":7,\"entries\":[],\"peregrine\":1}", RECORDED),
        (b"{\"\\u0065ntries\":[],\"peregrine\":1}", RECORDED),
    ];
    for (book, want) in rows {
        let (status, written) = outcome(
            &rt,
            rt.alloc(),
            "serve x --book b",
            sure(SUM, book, b"1 2\n"),
        )?;
        let is_read = want == RECORDED;
        assert_eq!(rt;
            status,
            if is_read {
                Status::Done
            } else {
                Status::BookRefused
            }
        );
        assert_eq!(rt; written.as_slice(), want);
    }
    Ok(())
}

#[test]
fn entries(rt: HostRuntime) -> Result<(), Fail> {
    let turns = "[[0,0,\"start\",0],[0,3,\"out\",0],[0,4,\"exit\",0]]";
    let rows: [(&str, &str, &[u8]); 24] = [
        ("[4,5]", turns, REUSED),
        (
            "[ 4 , 5 ]",
            "[[0,0,\"st\\u0061rt\",0],[0,3,\"out\",0],[0,4,\"exit\",0]]",
            REUSED,
        ),
        ("[-9223372036854775808,9223372036854775807]", turns, REUSED),
        // the input of an entry needn't have the numbers that the program asks for
        ("[]", turns, REUSED),
        ("[4,5.0]", turns, b"book refused Shape 0\n"),
        ("[4,-0]", turns, b"book refused Shape 0\n"),
        ("[4,\"5\"]", turns, b"book refused Shape 0\n"),
        ("[4,9223372036854775808]", turns, b"book refused Shape 0\n"),
        ("4", turns, b"book refused Shape 0\n"),
        ("[4,5]", "{}", b"book refused Shape 0\n"),
        ("[4,5]", "[[0,0,\"starts\",0]]", b"book refused Shape 0\n"),
        ("[4,5]", "[[0,0,\"s\",0]]", b"book refused Shape 0\n"),
        ("[4,5]", "[[64,0,\"start\",0]]", b"book refused Shape 0\n"),
        (
            "[4,5]",
            "[[0,4294967296,\"start\",0]]",
            b"book refused Shape 0\n",
        ),
        (
            "[4,5]",
            "[[0,0,\"start\",18446744073709551616]]",
            b"book refused Shape 0\n",
        ),
        ("[4,5]", "[[0,0,\"start\"]]", b"book refused Shape 0\n"),
        ("[4,5]", "[[0,0,\"start\",0,0]]", b"book refused Shape 0\n"),
        // its second turn is at another instruction, its last is missing, one is too many, and none is there
        (
            "[4,5]",
            "[[0,0,\"start\",0],[0,2,\"out\",0],[0,4,\"exit\",0]]",
            b"book refused Strayed 0 at 1\n",
        ),
        (
            "[4,5]",
            "[[0,0,\"start\",0],[0,3,\"out\",0]]",
            b"book refused Strayed 0 at 2\n",
        ),
        (
            "[4,5]",
            "[[0,0,\"start\",0],[0,3,\"out\",0],[0,4,\"exit\",0],[0,4,\"exit\",0]]",
            b"book refused Strayed 0 at 3\n",
        ),
        ("[4,5]", "[]", b"book refused Strayed 0 at 0\n"),
        // another thread, kind or object
        (
            "[4,5]",
            "[[1,0,\"start\",0]]",
            b"book refused Strayed 0 at 0\n",
        ),
        (
            "[4,5]",
            "[[0,0,\"exit\",0]]",
            b"book refused Strayed 0 at 0\n",
        ),
        (
            "[4,5]",
            "[[0,0,\"start\",1]]",
            b"book refused Strayed 0 at 0\n",
        ),
    ];
    for (input, turns, want) in rows {
        let book = book_with(rt.alloc(), input, turns)?;
        let (status, written) = outcome(
            &rt,
            rt.alloc(),
            "serve x --book b",
            sure(SUM, &book, b"1 2\n"),
        )?;
        let is_read = want == REUSED;
        assert_eq!(rt;
            status,
            if is_read {
                Status::Done
            } else {
                Status::BookRefused
            },
            "{} {}",
            input,
            turns
        );
        assert_eq!(rt; written.as_slice(), want, "{} {}", input, turns);
    }
    Ok(())
}

// What is gated, with turns as they are where both stores are.
#[test]
fn gated_instructions(rt: HostRuntime) -> Result<(), Fail> {
    let both =
        "[0,2,\"start\",0],[0,2,\"create\",1],[1,0,\"start\",1],[1,0,\"store\",8],[1,1,\"exit\",1],[0,3,\"store\",8],\
[0,5,\"join\",1],[0,7,\"out\",0],[0,8,\"exit\",0]";
    let none = "[0,2,\"start\",0],[0,2,\"create\",1],[1,0,\"start\",1],[1,1,\"exit\",1],\
[0,5,\"join\",1],[0,7,\"out\",0],[0,8,\"exit\",0]";
    let rows: [(&str, &str, &[u8]); 9] = [
        ("[0,3]", both, b"reused 0\n2\nexit 0 after 9 turns\n"),
        ("[3,0]", both, b"book refused Shape 0\n"),
        ("[0,0,3]", both, b"book refused Shape 0\n"),
        ("[0,1.0]", both, b"book refused Shape 0\n"),
        // the exit of a thread is no load or store, and there is no ninth instruction
        ("[0,1,3]", both, b"book refused Gate 0\n"),
        ("[0,3,9]", both, b"book refused Gate 0\n"),
        // a load that is no turn
        ("[0,3,6]", both, b"book refused Strayed 0 at 7\n"),
        ("[3]", both, b"book refused Strayed 0 at 3\n"),
        // the stores are steps 3 and 5, and no turn orders them
        ("[]", none, b"book refused Unordered 0 steps 3 5\n"),
    ];
    for (gated, turns, want) in rows {
        let book = format!(in rt.alloc();
            "{{\"peregrine\":1,\"entries\":[{{\"turns\":[{turns}],\"input\":[],\"gated\":{gated}}}]}}"
        )?;
        let (status, written) = outcome(
            &rt,
            rt.alloc(),
            "serve x --book b",
            sure(STORES, book.as_bytes(), b"\n"),
        )?;
        let is_read = want.starts_with(b"reused");
        assert_eq!(rt;
            status,
            if is_read {
                Status::Done
            } else {
                Status::BookRefused
            },
            "{}",
            gated
        );
        assert_eq!(rt; written.as_slice(), want, "{}", gated);
    }
    Ok(())
}

// A division by 0 ends the guided run by a trap.
#[test]
fn an_entry_that_does_not_exit(rt: HostRuntime) -> Result<(), Fail> {
    let program: &[u8] = b"declare i64 @pg_in(i64)\n\
declare void @pg_out(i64)\n\
define i32 @main() {\n\
  %a = call i64 @pg_in(i64 0)\n\
  %c = sdiv i64 8, %a\n\
  call void @pg_out(i64 %c)\n\
  ret i32 0\n\
}\n";
    let turns = "[[0,0,\"start\",0],[0,2,\"out\",0],[0,3,\"exit\",0]]";
    let rows: [(&str, Status, &[u8]); 2] = [
        ("[2]", Status::Done, b"reused 0\n2\nexit 0 after 3 turns\n"),
        ("[0]", Status::BookRefused, b"book refused Unfinished 0\n"),
    ];
    for (input, want, line) in rows {
        let book = book_with(rt.alloc(), input, turns)?;
        let (status, written) = outcome(
            &rt,
            rt.alloc(),
            "serve x --book b",
            sure(program, &book, b"4\n"),
        )?;
        assert_eq!(rt; status, want);
        assert_eq!(rt; written.as_slice(), line);
    }
    Ok(())
}

// A book of so many entries of `SUM`.
fn many(alloc: Global, count: usize) -> Result<Vec<u8>, AllocError> {
    let mut book = b"{\"entries\":[".to_vec(alloc)?;
    for place in 0..count {
        if place > 0 {
            book.push(b',')?;
        }
        book.extend_from_slice(ENTRY)?;
    }
    book.extend_from_slice(b"],\"peregrine\":1}")?;
    Ok(book)
}

#[test]
fn how_many_entries(rt: HostRuntime) -> Result<(), Fail> {
    let rows: [(usize, &[u8]); 4] = [
        (0, RECORDED),
        (1, REUSED),
        (16, REUSED),
        (17, b"book refused TooMany\n"),
    ];
    for (count, want) in rows {
        let book = many(rt.alloc(), count)?;
        let (status, written) = outcome(
            &rt,
            rt.alloc(),
            "serve x --book b",
            sure(SUM, &book, b"1 2\n"),
        )?;
        assert_eq!(rt;
            status,
            if count < 17 {
                Status::Done
            } else {
                Status::BookRefused
            }
        );
        assert_eq!(rt; written.as_slice(), want);
    }
    Ok(())
}

// The first entry that is refused counts, each form before any run.
#[test]
fn the_first_refusal(rt: HostRuntime) -> Result<(), Fail> {
    let strayed = "{\"gated\":[],\"input\":[],\"turns\":[]}";
    let no_access = "{\"gated\":[4],\"input\":[],\"turns\":[]}";
    let shapeless = "{\"gated\":[],\"input\":[]}";
    let fourth = "{\"gated\":[],\"input\":[],\"turns\":[],\"x\":0}";
    let good =
        "{\"gated\":[],\"input\":[4,5],\"turns\":[[0,0,\"start\",0],[0,3,\"out\",0],[0,4,\"exit\",0]]}";
    let rows: [(&str, &str, &[u8]); 8] = [
        (good, strayed, b"book refused Strayed 1 at 0\n"),
        (good, no_access, b"book refused Gate 1\n"),
        (good, shapeless, b"book refused Shape 1\n"),
        (good, fourth, b"book refused Shape 1\n"),
        (strayed, no_access, b"book refused Strayed 0 at 0\n"),
        (no_access, strayed, b"book refused Gate 0\n"),
        (strayed, shapeless, b"book refused Shape 1\n"),
        (fourth, shapeless, b"book refused Shape 0\n"),
    ];
    for (first, second, want) in rows {
        let book = format!(in rt.alloc(); "{{\"entries\":[{first},{second}],\"peregrine\":1}}")?;
        let (status, written) = outcome(
            &rt,
            rt.alloc(),
            "serve x --book b",
            sure(SUM, book.as_bytes(), b"1 2\n"),
        )?;
        assert_eq!(rt; status, Status::BookRefused);
        assert_eq!(rt; written.as_slice(), want);
    }
    Ok(())
}

// Each proper front of a book is no JSON, but the one that lacks its line feed alone.
#[test]
fn fronts_of_a_book(rt: HostRuntime) -> Result<(), Fail> {
    for count in 0..BOOK.len() {
        let (status, written) = outcome(
            &rt,
            rt.alloc(),
            "serve x --book b",
            sure(SUM, &BOOK[..count], b"1 2\n"),
        )?;
        if count + 1 == BOOK.len() {
            assert_eq!(rt; status, Status::Done);
            assert_eq!(rt; written.as_slice(), REUSED);
        } else {
            assert_eq!(rt; status, Status::BookRefused, "{}", count);
            assert_eq!(rt;
                written.as_slice(),
                b"book refused NotJson\n".as_slice(),
                "{}",
                count
            );
        }
    }
    Ok(())
}

// The file of the program is no book, and no book is a program: its first token can begin no item.
#[test]
fn one_name_for_both(rt: HostRuntime) -> Result<(), Fail> {
    let outside = sure(SUM, BOOK, b"1 2\n");
    let (status, written) = outcome(&rt, rt.alloc(), "serve x --book x", outside)?;
    assert_eq!(rt; status, Status::BookRefused);
    assert_eq!(rt; written.as_slice(), b"book refused NotJson\n".as_slice());
    let (status, written) = outcome(&rt, rt.alloc(), "serve b --book b", outside)?;
    assert_eq!(rt; status, Status::ProgramRefused);
    assert_eq!(rt;
        written.as_slice(),
        b"program refused 1:1 Unexpected\n".as_slice()
    );
    Ok(())
}

// A book of this many bytes: that of an entry, and blanks.
fn long(alloc: Global, count: usize) -> Result<Vec<u8>, AllocError> {
    let mut book = BOOK.to_vec(alloc)?;
    let blanks: Vec<u8> = vec![in alloc; b' '; count.saturating_sub(BOOK.len())]?;
    book.extend_from_slice(blanks.as_slice())?;
    Ok(book)
}

#[test]
fn a_book_at_the_limit(rt: HostRuntime) -> Result<(), Fail> {
    let rows: [(usize, Status, &[u8]); 2] = [
        (LIMIT, Status::Done, REUSED),
        (LIMIT + 1, Status::BookRefused, b"book refused TooLong\n"),
    ];
    for (count, want, line) in rows {
        let book = long(rt.alloc(), count)?;
        let (status, written) = outcome(
            &rt,
            rt.alloc(),
            "serve x --book b",
            sure(SUM, &book, b"1 2\n"),
        )?;
        assert_eq!(rt; status, want);
        assert_eq!(rt; written.as_slice(), line);
    }
    Ok(())
}

// Entries of one program are none of another one.
#[test]
fn the_book_of_another_program(rt: HostRuntime) -> Result<(), Fail> {
    let rows: [(&[u8], &[u8], &[u8]); 2] = [
        (SUM, BOTH_ORDERS, b"book refused Gate 0\n"),
        (STORES, BOOK, b"book refused Strayed 0 at 0\n"),
    ];
    for (program, book, want) in rows {
        let (status, written) = outcome(
            &rt,
            rt.alloc(),
            "serve x --book b --only",
            sure(program, book, b"1 2\n"),
        )?;
        assert_eq!(rt; status, Status::BookRefused);
        assert_eq!(rt; written.as_slice(), want);
    }
    Ok(())
}
