//! Tests of books in the top call: saved, loaded and refused, and with calls on the outside that fail.
// How goals are searched for: see docs/CONTRIBUTING.md.
#![tactic(auto)]

#[cfg(test)]
mod book_faults;
#[cfg(test)]
mod book_refusals;
#[cfg(test)]
mod book_rows;
#[cfg(test)]
mod books;
#[cfg(test)]
mod running;
