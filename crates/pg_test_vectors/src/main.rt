//! Compares the operations on numbers, pointers and places with rows that an independent program made.
//! `data/vectors.txt` has a row a line: an operation, a width, two operands and the result; `data/vectors.c`
//! made it. Its last 30 rows are wrong, and the output that is wanted names just these.
// How goals are searched for: see docs/CONTRIBUTING.md.
#![tactic(auto)]

mod row;

use row::agrees;
use std::{fs, io};

fn main(rt: HostRuntime) -> io::Result<()> {
    let text = fs::read_to_string(&rt, "vectors.txt")?;
    let mut count = 0u64;
    for row in text.lines() {
        if agrees(row) {
            count = count.saturating_add(1);
        } else {
            println!(rt; "differs: {row}")?;
        }
    }
    println!(rt; "{count} rows agree")
}
