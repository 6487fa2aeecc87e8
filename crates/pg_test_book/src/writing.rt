//! Books that are written, and read again.

use pg_book::{Book, BookEntry, BookFault, read_book, write_book};
use pg_ir::{InstrId, ThreadNo};
use pg_run_trace::{Turn, TurnKind};
use std::alloc::{AllocError, Global};
use std::test::Fail;

const fn turn(thread: u8, instr: u32, kind: TurnKind, object: u64) -> Turn {
    Turn {
        thread: ThreadNo(thread),
        instr: InstrId(instr),
        kind,
        object,
    }
}

fn entry(
    alloc: Global,
    input: &[i64],
    turns: &[Turn],
    gated: &[InstrId],
) -> Result<BookEntry, AllocError> {
    let input = input.to_vec(alloc)?;
    let turns = turns.to_vec(alloc)?;
    let gated = gated.to_vec(alloc)?;
    Ok(BookEntry {
        input,
        turns,
        gated,
    })
}

/// The book of one entry: two numbers are added, and their sum printed.
fn sum_book(alloc: Global) -> Result<Book, AllocError> {
    let turns = [
        turn(0, 0, TurnKind::Start, 0),
        turn(0, 3, TurnKind::Out, 0),
        turn(0, 4, TurnKind::Exit, 0),
    ];
    let first = entry(alloc, &[4, 5], &turns, &[])?;
    let mut entries = Vec::new(alloc);
    entries.push(first)?;
    Ok(Book { entries })
}

const SUM_TEXT: &str =
    "{\"entries\":[{\"gated\":[],\"input\":[4,5],\"turns\":[[0,0,\"start\",0],[0,3,\"out\",0],[0,4,\"exit\",0]]}],\"peregrine\":1}\n";

/// The book of two entries with the greatest and the least of each number.
fn edge_book(alloc: Global) -> Result<Book, AllocError> {
    let turns = [
        turn(63, u32::MAX, TurnKind::BarrierDestroy, u64::MAX),
        turn(0, 0, TurnKind::Store, 0),
    ];
    let gated = [InstrId(0), InstrId(7), InstrId(u32::MAX)];
    let first = entry(alloc, &[i64::MIN, -1, 0, i64::MAX], &turns, &gated)?;
    let second = entry(alloc, &[], &[], &[])?;
    let mut entries = Vec::new(alloc);
    entries.push(first)?;
    entries.push(second)?;
    Ok(Book { entries })
}

const EDGE_TEXT: &str =
    "{\"entries\":[{\"gated\":[0,7,4294967295],\"input\":[-9223372036854775808,-1,0,9223372036854775807],\"turns\":[[63,4294967295,\"barrier-destroy\",18446744073709551615],[0,0,\"store\",0]]},{\"gated\":[],\"input\":[],\"turns\":[]}],\"peregrine\":1}\n";

#[test]
fn books_have_these_texts(rt: HostRuntime) -> Result<(), Fail> {
    let alloc = rt.alloc();
    let sum = sum_book(alloc)?;
    let text = write_book(alloc, &sum)?;
    assert!(&rt; text.as_slice() == SUM_TEXT.as_bytes());
    let edge = edge_book(alloc)?;
    let text = write_book(alloc, &edge)?;
    assert!(&rt; text.as_slice() == EDGE_TEXT.as_bytes());
    let none = Book {
        entries: Vec::new(alloc),
    };
    let text = write_book(alloc, &none)?;
    assert!(&rt; text.as_slice() == b"{\"entries\":[],\"peregrine\":1}\n".as_slice());
    Ok(())
}

#[test]
fn a_text_gives_its_book(rt: HostRuntime) -> Result<(), Fail> {
    match read_book(rt.alloc(), EDGE_TEXT.as_bytes()) {
        Ok(book) => {
            assert_eq!(&rt; book.entries.len(), 2);
            let first = &book.entries[0];
            assert!(&rt; first.input.as_slice() == [i64::MIN, -1, 0, i64::MAX].as_slice());
            assert!(&rt;
                first.gated.as_slice() == [InstrId(0), InstrId(7), InstrId(u32::MAX)].as_slice()
            );
            assert_eq!(&rt; first.turns.len(), 2);
            assert!(&rt; first.turns[0] == turn(63, u32::MAX, TurnKind::BarrierDestroy, u64::MAX));
            assert!(&rt; first.turns[1] == turn(0, 0, TurnKind::Store, 0));
            assert!(&rt; book.entries[1].input.is_empty());
        }
        Err(_) => assert!(&rt; false),
    }
    Ok(())
}

/// Only the text without its line feed is a book too.
#[test]
fn each_proper_prefix_is_no_json_or_the_book(rt: HostRuntime) -> Result<(), Fail> {
    let text = EDGE_TEXT.as_bytes();
    for end in 0..text.len() {
        match read_book(rt.alloc(), &text[..end]) {
            Ok(book) => {
                assert_eq!(&rt; end, text.len() - 1);
                let again = write_book(rt.alloc(), &book)?;
                assert!(&rt; again.as_slice() == text);
            }
            Err(fault) => assert_eq!(&rt; fault, BookFault::NotJson, "the first {end} bytes"),
        }
    }
    Ok(())
}
