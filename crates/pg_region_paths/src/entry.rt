//! What is known of one register.

use crate::path::Path;

/// The path of a register that was set, if it has one, and by which block: the number that it has in the order in
/// which blocks were entered.
#[derive(Clone, Copy)]
pub struct Entry {
    pub turn: u64,
    pub path: Option<Path>,
}
