//! Tests of conflicts of byte ranges: the two forms compared on made footprints, and worked rows.

mod kind;
mod made;
mod rows;
