//! Texts that are books or aren't.

use pg_book::{BookFault, read_book, write_book};
use std::alloc::{AllocError, Global};
use std::test::Fail;

const NONE: &str = "{\"entries\":[],\"peregrine\":1}\n";

const OUT: &str =
    "{\"entries\":[{\"gated\":[2],\"input\":[4],\"turns\":[[0,3,\"out\",0]]}],\"peregrine\":1}\n";

/// Texts of other layouts, and the text of the same book as it is written.
const BOOKS: [(&str, &str); 7] = [
    (NONE, NONE),
    ("{\"peregrine\":1,\"entries\":[]}", NONE),
    ("\t{ \"entries\" : [ ] ,\r\n \"peregrine\" : 1 } \n\n", NONE),
    (
        "{\"entries\":7,\"peregrine\":2,\"entries\":[],\"peregrine\":1}",
        NONE,
    ),
    (
        "{\n  \"peregrine\": 1,\n  \"entries\": [\n    {\n      \"turns\": [\n        [\n          0,\n          3,\n          \"out\",\n          0\n        ]\n      ],\n      \"input\": [\n        4\n      ],\n      \"gated\": [\n        2\n      ]\n    }\n  ]\n}\n",
        OUT,
    ),
    (
        "{\"entries\":[{\"turns\":[],\"gated\":[2],\"input\":[4],\"turns\":[[0,3,\"out\",0]]}],\"peregrine\":1}",
        OUT,
    ),
    (
        "{\"\\u0065ntries\":[{\"gated\":[2],\"input\":[4],\"turns\":[[0,3,\"o\\u0075t\",0]]}],\"peregrine\":1}",
        OUT,
    ),
];

#[test]
fn other_layouts_are_the_same_book(rt: HostRuntime) -> Result<(), Fail> {
    for (text, written) in BOOKS {
        match read_book(rt.alloc(), text.as_bytes()) {
            Ok(book) => {
                let again = write_book(rt.alloc(), &book)?;
                assert!(&rt; again.as_slice() == written.as_bytes(), "{text}");
            }
            Err(_) => assert!(&rt; false, "{text}"),
        }
    }
    Ok(())
}

/// What stands in place of a whole text, and why that is no book.
const TEXTS: [(&str, BookFault); 21] = [
    ("", BookFault::NotJson),
    ("{", BookFault::NotJson),
    ("{\"entries\":[],\"peregrine\":1}}", BookFault::NotJson),
    ("{\"entries\":[],\"peregrine\":1,}", BookFault::NotJson),
    ("{\"entries\":[,],\"peregrine\":1}", BookFault::NotJson),
    ("{\"entries\":[],\"peregrine\":01}", BookFault::NotJson),
    ("{'entries':[],'peregrine':1}", BookFault::NotJson),
    ("{\"entries\":[1e999],\"peregrine\":1}", BookFault::NotJson),
    ("null", BookFault::Outer),
    ("[]", BookFault::Outer),
    ("{}", BookFault::Outer),
    ("{\"peregrine\":1}", BookFault::Outer),
    ("{\"entries\":[]}", BookFault::Outer),
    ("{\"entries\":[],\"peregrine\":2}", BookFault::Outer),
    ("{\"entries\":[],\"peregrine\":1.0}", BookFault::Outer),
    ("{\"entries\":[],\"peregrine\":\"1\"}", BookFault::Outer),
    ("{\"entries\":{},\"peregrine\":1}", BookFault::Outer),
    ("{\"Entries\":[],\"peregrine\":1}", BookFault::Outer),
    (
        "{\"entries\":[],\"name\":0,\"peregrine\":1}",
        BookFault::Outer,
    ),
    ("{\"entries\":[7],\"peregrine\":0}", BookFault::Outer),
    (
        "{\"entries\":[],\"entries\":7,\"peregrine\":1}",
        BookFault::Outer,
    ),
];

#[test]
fn texts_have_these_faults(rt: HostRuntime) -> Result<(), Fail> {
    for (text, fault) in TEXTS {
        match read_book(rt.alloc(), text.as_bytes()) {
            Ok(_) => assert!(&rt; false, "{text}"),
            Err(other) => assert_eq!(&rt; other, fault, "{text}"),
        }
    }
    match read_book(rt.alloc(), b"{\"entries\":[],\"peregrine\":1}\xff") {
        Ok(_) => assert!(&rt; false),
        Err(fault) => assert_eq!(&rt; fault, BookFault::NotJson),
    }
    Ok(())
}

/// The text of a book whose entries are so many times a text, and then another.
fn with_entries(
    alloc: Global,
    count: usize,
    repeated: &str,
    last: &str,
) -> Result<String, AllocError> {
    let mut text = String::from_str(alloc, "{\"entries\":[")?;
    for _ in 0..count {
        text.push_str(repeated)?;
        text.push_str(",")?;
    }
    text.push_str(last)?;
    text.push_str("],\"peregrine\":1}")?;
    Ok(text)
}

const EMPTY: &str = "{\"gated\":[],\"input\":[],\"turns\":[]}";

/// What is no entry.
const OTHERS: [&str; 33] = [
    "null",
    "[]",
    "{}",
    "{\"gated\":[],\"input\":[]}",
    "{\"gated\":[],\"input\":[],\"turns\":[],\"races\":[]}",
    "{\"gated\":[],\"input\":[],\"Turns\":[]}",
    "{\"gated\":{},\"input\":[],\"turns\":[]}",
    "{\"gated\":[],\"input\":null,\"turns\":[]}",
    "{\"gated\":[],\"input\":[],\"turns\":\"\"}",
    "{\"gated\":[3,2],\"input\":[],\"turns\":[]}",
    "{\"gated\":[2,2],\"input\":[],\"turns\":[]}",
    "{\"gated\":[4294967296],\"input\":[],\"turns\":[]}",
    "{\"gated\":[-1],\"input\":[],\"turns\":[]}",
    "{\"gated\":[],\"input\":[9223372036854775808],\"turns\":[]}",
    "{\"gated\":[],\"input\":[-9223372036854775809],\"turns\":[]}",
    "{\"gated\":[],\"input\":[1.0],\"turns\":[]}",
    "{\"gated\":[],\"input\":[-0],\"turns\":[]}",
    "{\"gated\":[],\"input\":[\"1\"],\"turns\":[]}",
    "{\"gated\":[],\"input\":[],\"turns\":[0]}",
    "{\"gated\":[],\"input\":[],\"turns\":[[]]}",
    "{\"gated\":[],\"input\":[],\"turns\":[[0,0,\"out\"]]}",
    "{\"gated\":[],\"input\":[],\"turns\":[[0,0,\"out\",0,0]]}",
    "{\"gated\":[],\"input\":[],\"turns\":[[64,0,\"out\",0]]}",
    "{\"gated\":[],\"input\":[],\"turns\":[[-1,0,\"out\",0]]}",
    "{\"gated\":[],\"input\":[],\"turns\":[[0,4294967296,\"out\",0]]}",
    "{\"gated\":[],\"input\":[],\"turns\":[[0,0,\"out\",18446744073709551616]]}",
    "{\"gated\":[],\"input\":[],\"turns\":[[0,0,\"o\",0]]}",
    "{\"gated\":[],\"input\":[],\"turns\":[[0,0,\"Out\",0]]}",
    "{\"gated\":[],\"input\":[],\"turns\":[[0,0,\"out \",0]]}",
    "{\"gated\":[],\"input\":[],\"turns\":[[0,0,\"mutex_init\",0]]}",
    "{\"gated\":[],\"input\":[],\"turns\":[[0,0,19,0]]}",
    "{\"gated\":[],\"input\":[],\"turns\":[[0,0,\"out\",null]]}",
    "{\"gated\":[],\"input\":[],\"turns\":{\"0\":[0,0,\"out\",0]}}",
];

#[test]
fn the_first_that_is_no_entry_is_named(rt: HostRuntime) -> Result<(), Fail> {
    for other in OTHERS {
        for count in [0, 1, 15] {
            let text = with_entries(rt.alloc(), count, EMPTY, other)?;
            match read_book(rt.alloc(), text.as_str().as_bytes()) {
                Ok(_) => assert!(&rt; false, "{other}"),
                Err(fault) => { assert_eq!(&rt; fault, BookFault::Shape(count as u32), "{other}") }
            }
        }
    }
    let two = with_entries(rt.alloc(), 2, "7", "8")?;
    match read_book(rt.alloc(), two.as_str().as_bytes()) {
        Ok(_) => assert!(&rt; false),
        Err(fault) => assert_eq!(&rt; fault, BookFault::Shape(0)),
    }
    Ok(())
}

/// The seventeenth is one too many, whatever it is.
#[test]
fn a_book_has_sixteen_entries_at_most(rt: HostRuntime) -> Result<(), Fail> {
    let full = with_entries(rt.alloc(), 15, EMPTY, EMPTY)?;
    match read_book(rt.alloc(), full.as_str().as_bytes()) {
        Ok(book) => assert_eq!(&rt; book.entries.len(), 16),
        Err(_) => assert!(&rt; false),
    }
    for last in [EMPTY, "7"] {
        let more = with_entries(rt.alloc(), 16, EMPTY, last)?;
        match read_book(rt.alloc(), more.as_str().as_bytes()) {
            Ok(_) => assert!(&rt; false),
            Err(fault) => assert_eq!(&rt; fault, BookFault::TooMany),
        }
    }
    Ok(())
}

/// The text of a book of one entry with so many numbers.
fn with_numbers(alloc: Global, count: usize) -> Result<String, AllocError> {
    let mut entry = String::from_str(alloc, "{\"gated\":[],\"turns\":[],\"input\":[")?;
    for _ in 1..count {
        entry.push_str("-7,")?;
    }
    entry.push_str("-7]}")?;
    with_entries(alloc, 0, "", entry.as_str())
}

#[test]
fn an_entry_has_512_numbers_at_most(rt: HostRuntime) -> Result<(), Fail> {
    let full = with_numbers(rt.alloc(), 512)?;
    match read_book(rt.alloc(), full.as_str().as_bytes()) {
        Ok(book) => {
            assert_eq!(&rt; book.entries.len(), 1);
            assert_eq!(&rt; book.entries[0].input.len(), 512);
        }
        Err(_) => assert!(&rt; false),
    }
    let more = with_numbers(rt.alloc(), 513)?;
    match read_book(rt.alloc(), more.as_str().as_bytes()) {
        Ok(_) => assert!(&rt; false),
        Err(fault) => assert_eq!(&rt; fault, BookFault::Shape(0)),
    }
    Ok(())
}
