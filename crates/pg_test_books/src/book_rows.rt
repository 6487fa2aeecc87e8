//! Books that are changed or cut: each length, each byte, other layouts, and a book that is full.

use crate::books::{BOOK, BOTH_ORDERS, BRANCH, MAIN_FIRST, STORES, SUM};
use crate::running::{outcome, sure};
use pg_commands::Status;
use std::alloc::{AllocError, Global};
use std::test::Fail;

/// The reply to `1 2` by the entry of `SUM`.
const REUSED: &[u8] = b"reused 0\n3\nexit 0 after 3 turns\n";

/// The book of `SUM`, as `jq .` lays it out.
const LAID_OUT: &[u8] = b"{
  \"entries\": [
    {
      \"gated\": [],
      \"input\": [
        4,
        5
      ],
      \"turns\": [
        [
          0,
          0,
          \"start\",
          0
        ],
        [
          0,
          3,
          \"out\",
          0
        ],
        [
          0,
          4,
          \"exit\",
          0
        ]
      ]
    }
  ],
  \"peregrine\": 1
}
";

/// For each byte of the book of `SUM` what the book is where a 7 stands in its place: `N` is no JSON, `O` has another outer value,
/// `S` an entry of another form, `0`, `1` and `2` an entry that strays at this turn, and `D` is a book of the program.
const MARKS: &[u8] = b"NNOOOOOOONN\
NNNSSSSSNN\
NNNNSSSSSNN\
NDDDNN\
NSSSSSNN\
NN0N0NNSSSSSNN0NN\
N1N1NNSSSNN1NN\
N2N2NNSSSSNN2NN\
NNNNOOOOOOOOONNONN";

/// Main loads the word that its thread stores, without a lock, and prints what it loaded.
const SEEN: &[u8] = b"declare void @pg_out(i64)\n\
declare i32 @pthread_create(ptr, ptr, ptr, ptr)\n\
declare i32 @pthread_join(i64, ptr)\n\
@x = global i64 0\n\
@t = global i64 0\n\
define ptr @f(ptr %z) {\n\
  store i64 1, ptr @x\n\
  ret ptr null\n\
}\n\
define i32 @main() {\n\
  %1 = call i32 @pthread_create(ptr @t, ptr null, ptr @f, ptr null)\n\
  %v = load i64, ptr @x\n\
  %h = load i64, ptr @t\n\
  %2 = call i32 @pthread_join(i64 %h, ptr null)\n\
  call void @pg_out(i64 %v)\n\
  ret i32 0\n\
}\n";

/// The command lines that begin with a book.
const SESSIONS: [&str; 2] = ["serve x --book b", "serve x --book b --only"];

// What a session answers to `1 2` whose book has this mark.
fn marked(mark: u8) -> (Status, &'static [u8]) {
    match mark {
        b'O' => (Status::BookRefused, b"book refused Outer\n"),
        b'S' => (Status::BookRefused, b"book refused Shape 0\n"),
        b'0' => (Status::BookRefused, b"book refused Strayed 0 at 0\n"),
        b'1' => (Status::BookRefused, b"book refused Strayed 0 at 1\n"),
        b'2' => (Status::BookRefused, b"book refused Strayed 0 at 2\n"),
        b'D' => (Status::Done, REUSED),
        _ => (Status::BookRefused, b"book refused NotJson\n"),
    }
}

// The book of `SUM` with a 7 in this place.
fn changed(alloc: Global, place: usize) -> Result<Vec<u8>, AllocError> {
    let mut book = BOOK.to_vec(alloc)?;
    if let Some(byte) = book.get_mut(place) {
        *byte = b'7';
    }
    Ok(book)
}

#[test]
fn each_byte_counts(rt: HostRuntime) -> Result<(), Fail> {
    assert_eq!(rt; MARKS.len(), BOOK.len());
    for place in 0..MARKS.len() {
        let book = changed(rt.alloc(), place)?;
        let (want, line) = marked(MARKS[place]);
        let outside = sure(SUM, &book, b"1 2\n");
        let (status, written) = outcome(&rt, rt.alloc(), "serve x --book b", outside)?;
        assert_eq!(rt; status, want, "{}", place);
        assert_eq!(rt; written.as_slice(), line, "{}", place);
    }
    Ok(())
}

// A book with loads and stores that are turns, at each length: only the text without its line feed is a book too.
#[test]
fn each_length_of_a_book(rt: HostRuntime) -> Result<(), Fail> {
    for count in 0..MAIN_FIRST.len() + 1 {
        let outside = sure(STORES, &MAIN_FIRST[..count], b"");
        let (status, written) = outcome(&rt, rt.alloc(), "serve x --book b --only", outside)?;
        if count + 1 < MAIN_FIRST.len() {
            assert_eq!(rt; status, Status::BookRefused, "{}", count);
            let told = b"book refused NotJson\n".as_slice();
            assert_eq!(rt; written.as_slice(), told, "{}", count);
        } else {
            assert_eq!(rt; status, Status::Done, "{}", count);
            assert!(rt; written.is_empty(), "{}", count);
        }
    }
    Ok(())
}

// A check of a book is a session without lines. A book that another tool laid out is the same book.
#[test]
fn a_book_is_checked(rt: HostRuntime) -> Result<(), Fail> {
    let rows: [(&[u8], &[u8], Status, &[u8]); 6] = [
        (SUM, BOOK, Status::Done, b""),
        (SUM, LAID_OUT, Status::Done, b""),
        (STORES, BOTH_ORDERS, Status::Done, b""),
        (
            STORES,
            BOOK,
            Status::BookRefused,
            b"book refused Strayed 0 at 0\n",
        ),
        (
            SUM,
            BOTH_ORDERS,
            Status::BookRefused,
            b"book refused Gate 0\n",
        ),
        (
            SUM,
            b"{\"entries\":[{\"gated\":[],\"input\":[4,5],\"turns\":\
[[0,0,\"start\",0],[0,3,\"out\",0],[0,4,\"exit\",0]]}],\"peregrine\":2}\n",
            Status::BookRefused,
            b"book refused Outer\n",
        ),
    ];
    for (program, book, want, told) in rows {
        for line in SESSIONS {
            let (status, written) = outcome(&rt, rt.alloc(), line, sure(program, book, b""))?;
            assert_eq!(rt; status, want, "{}", line);
            assert_eq!(rt; written.as_slice(), told, "{}", line);
        }
    }
    let outside = sure(SUM, LAID_OUT, b"1 2\n");
    let (status, written) = outcome(&rt, rt.alloc(), "serve x --book b --only", outside)?;
    assert_eq!(rt; status, Status::Done);
    assert_eq!(rt; written.as_slice(), REUSED);
    Ok(())
}

// The load is step 5 of the guided run where it is no turn, and the store before it step 3.
#[test]
fn a_racing_load(rt: HostRuntime) -> Result<(), Fail> {
    let first = "[0,2,\"start\",0],[0,2,\"create\",1],[1,0,\"start\",1]";
    let rows: [(&str, &str, &[u8]); 4] = [
        (
            "[0,3]",
            ",[1,0,\"store\",8],[1,1,\"exit\",1],[0,3,\"load\",8]",
            b"reused 0\n1\nexit 0 after 9 turns\n",
        ),
        (
            "[0,3]",
            ",[0,3,\"load\",8],[1,0,\"store\",8],[1,1,\"exit\",1]",
            b"reused 0\n0\nexit 0 after 9 turns\n",
        ),
        (
            "[0]",
            ",[1,0,\"store\",8],[1,1,\"exit\",1]",
            b"book refused Unordered 0 steps 3 5\n",
        ),
        (
            "[]",
            ",[1,1,\"exit\",1]",
            b"book refused Unordered 0 steps 3 5\n",
        ),
    ];
    for (gated, turns, want) in rows {
        let book = format!(in rt.alloc();
            "{{\"entries\":[{{\"gated\":{gated},\"input\":[],\"turns\":[{first}{turns},\
[0,5,\"join\",1],[0,6,\"out\",0],[0,7,\"exit\",0]]}}],\"peregrine\":1}}"
        )?;
        let outside = sure(SEEN, book.as_bytes(), b"\n");
        let (status, written) = outcome(&rt, rt.alloc(), "serve x --book b", outside)?;
        let refused = want.starts_with(b"book");
        let ended = if refused {
            Status::BookRefused
        } else {
            Status::Done
        };
        assert_eq!(rt; status, ended, "{}", turns);
        assert_eq!(rt; written.as_slice(), want, "{}", turns);
    }
    Ok(())
}

// The book of `BRANCH` with its entry sixteen times.
fn full(alloc: Global) -> Result<Vec<u8>, AllocError> {
    let mut book = b"{\"entries\":[".to_vec(alloc)?;
    let entry =
        b"{\"gated\":[],\"input\":[3],\"turns\":[[0,0,\"start\",0],[0,3,\"out\",0],[0,4,\"exit\",0]]}";
    for place in 0..16 {
        if place > 0 {
            book.push(b',')?;
        }
        book.extend_from_slice(entry)?;
    }
    book.extend_from_slice(b"],\"peregrine\":1}\n")?;
    Ok(book)
}

// A session with a full book records entry 16, and entry 0 goes.
#[test]
fn a_full_book(rt: HostRuntime) -> Result<(), Fail> {
    let rows: [(&str, &[u8]); 3] = [
        (
            "serve x --book b",
            b"reused 0\n0\nexit 0 after 3 turns\n\
recorded 16\n20\nexit 0 after 3 turns\n\
reused 1\n0\nexit 0 after 3 turns\n\
reused 16\n30\nexit 0 after 3 turns\n",
        ),
        (
            "serve x --book b --seed 2",
            b"reused 0\n0\nexit 0 after 3 turns\n\
recorded 16\n20\nexit 0 after 3 turns\n\
reused 1\n0\nexit 0 after 3 turns\n\
reused 16\n30\nexit 0 after 3 turns\n",
        ),
        (
            "serve x --book b --only",
            b"reused 0\n0\nexit 0 after 3 turns\n\
refused untested\n\
reused 0\n0\nexit 0 after 3 turns\n\
refused untested\n",
        ),
    ];
    let book = full(rt.alloc())?;
    for (line, want) in rows {
        let outside = sure(BRANCH, &book, b"3\n20\n4\n30\n");
        let (status, written) = outcome(&rt, rt.alloc(), line, outside)?;
        assert_eq!(rt; status, Status::Done, "{}", line);
        assert_eq!(rt; written.as_slice(), want, "{}", line);
    }
    Ok(())
}
