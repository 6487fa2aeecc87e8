//! Tests of the lowest crates.

mod book_words;
mod cached;
mod numbers;
mod shelves;
mod streams;
mod trials;
mod words;
