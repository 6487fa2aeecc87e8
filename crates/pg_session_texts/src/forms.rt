//! The forms in which replies are written.
ghost use Rattle.std.specs.Prelude.{◌≡◌, IfOk, option_map};
ghost use Rattle.pg_session_texts.specs.Replies.{HasEnd};
ghost use Rattle.pg_session_texts.specs.ReplyForms.{text_in};

use crate::json_reply::json_reply_text;
use crate::reply::{EndLine, ReplyKind, reply_text};
use std::alloc::{AllocError, Global};

/// How replies are written.
#[derive(Clone, Copy, Debug, PartialEq, Eq)]
pub enum ReplyForm {
    /// A line that says what came of the line of input, what was printed, and a line for the end.
    Lines,
    /// One JSON object on a line of its own.
    Json,
}

/// The text of a reply in this form.
///
/// # Errors
///
/// `AllocError` where no memory is left.
pub fn text_in(
    alloc: Global,
    form: ReplyForm,
    kind: &ReplyKind,
    output: &[u8],
    end: Option<&EndLine>,
) -> Result<Vec<u8>, AllocError>
    requires end { HasEnd kind.now (option_map (λ e. e.now) end) }
    ensures { IfOk result (λ text. text.items ≡ text_in form kind.now output.now (option_map (λ e. e.now) end.entry)) }
{
    match form {
        ReplyForm::Lines => reply_text(alloc, kind, output, end),
        ReplyForm::Json => json_reply_text(alloc, kind, output, end),
    }
}
