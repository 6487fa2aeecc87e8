//! The crews that run workers in the sessions of these tests.

use pg_commands::pg_go::{ByLength, OneByOne, Together};
use pg_commands::{Status, peregrine};
use pg_free::FreeCrew;
use pg_io::{Shelf, Sink, Source};
use std::alloc::Global;
use std::sync::Wait;
use std::thread::Threads;

/// A sort of crew.
#[derive(Clone, Copy, Debug, PartialEq, Eq)]
pub(crate) enum Sort {
    OneByOne,
    Together,
    ByLength,
}

/// All sorts.
pub(crate) const SORTS: [Sort; 3] = [Sort::OneByOne, Sort::Together, Sort::ByLength];

/// The status of the command that these words are. A new crew of this sort runs workers, without hooks.
pub(crate) fn status_by<R: Threads + Wait + Sync, S: Source, K: Sink, F: Shelf, G: FreeCrew + Drop>(
    rt: &R,
    alloc: Global,
    words: &[String],
    src: &mut S,
    shelf: &mut F,
    out: &mut K,
    free: &mut G,
    sort: Sort,
) -> Status {
    let hooks = Vec::new(alloc);
    match sort {
        Sort::OneByOne => {
            let mut crew = OneByOne::new(hooks);
            peregrine(rt, alloc, words, src, shelf, out, free, &mut crew)
        }
        Sort::Together => {
            let mut crew = Together::new(hooks);
            peregrine(rt, alloc, words, src, shelf, out, free, &mut crew)
        }
        Sort::ByLength => {
            let mut crew = ByLength::new(hooks);
            peregrine(rt, alloc, words, src, shelf, out, free, &mut crew)
        }
    }
}
