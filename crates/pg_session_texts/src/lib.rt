//! The texts of a session: what is said of a line of input, and what `show` and `conditions` write.
// How goals are searched for: see docs/CONTRIBUTING.md.
#![tactic(auto)]

mod conditions;
mod forms;
mod json_reply;
pub mod laws;
mod reply;
mod show;

pub use conditions::conditions_text;
pub use forms::{ReplyForm, text_in};
pub use json_reply::json_reply_text;
pub use pg_run;
pub use reply::{EndLine, ReplyKind, reply_text};
pub use show::show_text;
