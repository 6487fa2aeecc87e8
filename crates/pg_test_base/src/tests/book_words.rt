//! Command lines about books, and what they are.

use pg_commands_words::{Command, RecordingWay, command};
use std::alloc::{AllocError, Global};
use std::test::Fail;

fn texts(alloc: Global, words: &[&str]) -> Result<Vec<String>, AllocError> {
    let mut all = Vec::new(alloc);
    for word in words {
        all.push(String::from_str(alloc, word)?)?;
    }
    Ok(all)
}

// The sessions that begin with a book: the book's name, and whether nothing is recorded.
#[test]
fn sessions_with_a_book(rt: HostRuntime) -> Result<(), Fail> {
    let rows: [(&[&str], Option<(&str, bool)>); 24] = [
        (&["serve", "x", "--book", "y"], Some(("y", false))),
        (&["serve", "--book", "y", "x"], Some(("y", false))),
        (&["serve", "--book=y", "x"], Some(("y", false))),
        (&["serve", "x", "--book=y", "--"], Some(("y", false))),
        (&["serve", "--book=y", "--", "x"], Some(("y", false))),
        (&["serve", "x", "--book", "x"], Some(("x", false))),
        (&["serve", "x", "--book=-"], Some(("-", false))),
        (&["serve", "x", "--book=-y"], Some(("-y", false))),
        (&["serve", "x", "--book=--only"], Some(("--only", false))),
        (&["serve", "x", "--book=y=z"], Some(("y=z", false))),
        (&["serve", "x", "--book", "y", "--only"], Some(("y", true))),
        (&["serve", "--only", "--book=y", "x"], Some(("y", true))),
        (&["serve", "--only", "x", "--book=y"], Some(("y", true))),
        (&["serve", "x", "--book", "--only"], None),
        (&["serve", "x", "--book=y", "--only", "--only"], None),
        (&["serve", "x", "--book=y", "--book", "z"], None),
        (&["serve", "x", "--book=y", "--only="], None),
        (&["serve", "x", "--book=y", "--", "--only"], None),
        (&["serve", "x", "--books=y"], None),
        (&["serve", "--book=y"], None),
        (&["serve", "--book", "x"], None),
        (&["serve", "--only", "x"], None),
        (&["serve", "x", "--", "--book=y"], None),
        (&["--book=y", "serve", "x"], None),
    ];
    for (words, want) in rows {
        let words = texts(rt.alloc(), words)?;
        let found = command(rt.alloc(), &words)?;
        match &found {
            Some(Command::Serve(serve)) => {
                let book = match &serve.book {
                    Some(name) => name.as_str(),
                    None => "",
                };
                assert_eq!(rt; Some((book, serve.only)), want);
                assert_eq!(rt;
                    (serve.file.as_str(), serve.way),
                    ("x", RecordingWay::Rotating(100))
                );
            }
            Some(_) => assert!(rt; false),
            None => assert!(rt; want.is_none()),
        }
    }
    Ok(())
}

// Without `--only` a session with a book records in each way.
#[test]
fn ways_beside_a_book(rt: HostRuntime) -> Result<(), Fail> {
    let rows: [(&[&str], RecordingWay); 4] = [
        (&["serve", "x", "--book=y"], RecordingWay::Rotating(100)),
        (
            &["serve", "x", "--book=y", "--quantum=7"],
            RecordingWay::Rotating(7),
        ),
        (&["serve", "--free", "x", "--book=y"], RecordingWay::Free),
        (
            &["serve", "--book", "y", "--seed", "3", "x"],
            RecordingWay::Seeded(3),
        ),
    ];
    for (words, want) in rows {
        let words = texts(rt.alloc(), words)?;
        let found = command(rt.alloc(), &words)?;
        match &found {
            Some(Command::Serve(serve)) => {
                assert_eq!(rt; serve.way, want);
                assert!(rt; serve.book.is_some() && !serve.only);
            }
            _ => assert!(rt; false),
        }
    }
    Ok(())
}

#[test]
fn books(rt: HostRuntime) -> Result<(), Fail> {
    let rows: [(&[&str], Option<(&str, RecordingWay)>); 18] = [
        (&["book", "x"], Some(("x", RecordingWay::Rotating(100)))),
        (&["book", "-"], Some(("-", RecordingWay::Rotating(100)))),
        (
            &["book", "book"],
            Some(("book", RecordingWay::Rotating(100))),
        ),
        (
            &["book", "--", "-x"],
            Some(("-x", RecordingWay::Rotating(100))),
        ),
        (
            &["book", "x", "--quantum", "7"],
            Some(("x", RecordingWay::Rotating(7))),
        ),
        (&["book", "x", "--free"], Some(("x", RecordingWay::Free))),
        (
            &["book", "--seed=3", "x"],
            Some(("x", RecordingWay::Seeded(3))),
        ),
        (&["book"], None),
        (&["book", "x", "y"], None),
        (&["book", "x", "--quantum", "0"], None),
        (&["book", "x", "--free", "--seed=3"], None),
        (&["book", "x", "--book", "y"], None),
        (&["book", "x", "--book=y"], None),
        (&["book", "x", "--book=y", "--only"], None),
        (&["book", "x", "--only"], None),
        (&["book", "x", "--json"], None),
        (&["book", "-x"], None),
        (&["books", "x"], None),
    ];
    for (words, want) in rows {
        let words = texts(rt.alloc(), words)?;
        let found = command(rt.alloc(), &words)?;
        match &found {
            Some(Command::Book(book)) => assert_eq!(rt; Some((book.file.as_str(), book.way)), want),
            Some(_) => assert!(rt; false),
            None => assert!(rt; want.is_none()),
        }
    }
    Ok(())
}
