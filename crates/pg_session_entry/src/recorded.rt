//! What comes of recording a run.

use crate::entry::Entry;
use pg_run::Refusal;

/// What comes of recording a run.
#[derive(Drop)]
pub enum Record {
    /// The run exits: its entry, what it printed, and main's value.
    Kept {
        entry: Entry,
        output: Vec<u8>,
        value: i32,
    },
    /// The run ends by a trap, or has taken all the steps that a recording may have: its end, and what it printed.
    Refused {
        refusal: Refusal,
        output: Vec<u8>,
    },
}
