//! Worked rows of the shelves, and of the sink that takes a part of a long piece.

use pg_io::{FetchFault, FileShelf, MemoryShelf, Shelf, ShortSink, Sink, SureShelf};
use std::alloc::{AllocError, Global};
use std::fs;
use std::test::Fail;

// How many bytes a fetch gives.
fn fetched<F: Shelf>(
    shelf: &mut F,
    alloc: Global,
    name: &str,
    limit: usize,
) -> Result<usize, FetchFault> {
    match shelf.fetch(alloc, name, limit) {
        Ok(text) => Ok(text.len()),
        Err(fault) => Err(fault),
    }
}

// A shelf with the text `abc` under the name `a`, whose second call fails.
fn shelf(alloc: Global) -> Result<MemoryShelf, AllocError> {
    let mut files = Vec::new(alloc);
    let name = String::from_str(alloc, "a")?;
    let text = b"abc".to_vec(alloc)?;
    files.push((name, text))?;
    let failing = [1].to_vec(alloc)?;
    Ok(MemoryShelf::new(alloc, files, failing))
}

#[test]
fn memory_shelf(rt: HostRuntime) -> Result<(), Fail> {
    let alloc = rt.alloc();
    let mut shelf = shelf(alloc)?;
    assert_eq!(rt; fetched(&mut shelf, alloc, "a", 3), Ok(3));
    assert_eq!(rt; fetched(&mut shelf, alloc, "a", 3), Err(FetchFault::Failed));
    assert_eq!(rt; fetched(&mut shelf, alloc, "b", 3), Err(FetchFault::Failed));
    assert_eq!(rt;
        fetched(&mut shelf, alloc, "a", 2),
        Err(FetchFault::TooLong)
    );
    assert_eq!(rt; fetched(&mut shelf, alloc, "a", 9), Ok(3));
    Ok(())
}

#[test]
fn sure_shelf(rt: HostRuntime) -> Result<(), Fail> {
    let alloc = rt.alloc();
    let mut shelf = SureShelf::new(b"abc".to_vec(alloc)?);
    assert_eq!(rt; fetched(&mut shelf, alloc, "", 3), Ok(3));
    assert_eq!(rt;
        fetched(&mut shelf, alloc, "a", 2),
        Err(FetchFault::TooLong)
    );
    Ok(())
}

#[test]
fn short_sink(rt: HostRuntime) -> Result<(), Fail> {
    let mut out = ShortSink::new(rt.alloc(), 5, 2, [1].to_vec(rt.alloc())?)?;
    assert_eq!(rt; out.write(b"abc").ok(), Some(2));
    assert_eq!(rt; out.write(b"d").ok(), None);
    assert_eq!(rt; out.write(b"def").ok(), Some(2));
    assert_eq!(rt; out.write(b"de").ok(), None);
    assert_eq!(rt; out.bytes(), b"abde".as_slice());
    Ok(())
}

#[test]
fn file_shelf(rt: HostRuntime) -> Result<(), Fail> {
    let alloc = rt.alloc();
    fs::write(&rt, "shelf.txt", "abc")?;
    let mut shelf = FileShelf::new(alloc, &rt);
    assert_eq!(rt; fetched(&mut shelf, alloc, "shelf.txt", 3), Ok(3));
    assert_eq!(rt;
        fetched(&mut shelf, alloc, "shelf.txt", 2),
        Err(FetchFault::TooLong)
    );
    assert_eq!(rt;
        fetched(&mut shelf, alloc, "no such file", 3),
        Err(FetchFault::Failed)
    );
    assert_eq!(rt; fetched(&mut shelf, alloc, ".", 3), Err(FetchFault::Failed));
    fs::remove_file(&rt, "shelf.txt")?;
    Ok(())
}
