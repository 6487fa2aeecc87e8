//! What calls and threads are refused for.
// How goals are searched for: see docs/CONTRIBUTING.md.
#![tactic(auto)]

mod calls;
mod headers;
mod symbols_in_scope;
mod threads;

pub use calls::{call_demands, unknown_callee, unsupported_callee, wrong_call};
pub use pg_check_values;
pub use pg_check_values::pg_check_names;
pub use threads::{thread_argument, unknown_thread, unsupported_thread, wrong_thread};
