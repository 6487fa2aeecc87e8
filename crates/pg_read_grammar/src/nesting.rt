//! How deep brackets nest within one that is open. Specifications name this constant beside `NESTING_LIMIT`.

use pg_num::limits::NESTING_LIMIT;

/// The most brackets that are open at one place within one that is open already.
pub const INNER_NESTING_LIMIT: u32 = NESTING_LIMIT - 1;
