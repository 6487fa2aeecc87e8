//! What holds of the texts of replies as JSON: each law is the clause of a function that does nothing.

ghost use Rattle.std.specs.Prelude.{◌≡◌, ◌<◌, ℕ, List, Option, Some, chars, codes, false};
ghost use Rattle.std.specs.List.{All};
ghost use Rattle.serde_json.specs.Data.{string};
ghost use Rattle.serde_json.specs.Find.{as_str, get};
ghost use Rattle.serde_json.specs.Written.{compact_text};
ghost use Rattle.pg_session_texts.specs.declared.reply.EndLine.{EndLine};
ghost use Rattle.pg_session_texts.specs.declared.reply.ReplyKind.{ReplyKind};
ghost use Rattle.pg_session_texts.specs.JsonReplies.{ended_value, entry_value, has_line_feed, output_value, reply_value, reply_word, turns_value};

/// Under each of its keys a reply as JSON has what the key says, and nothing where there is no such thing.
pub fn a_json_reply_is_found_by_its_keys()
    ensures end { (kind : ReplyKind) (output : List ℕ) (end : Option EndLine) → get (codes "end") (reply_value kind output end) ≡ ended_value kind end }
    ensures entry { (kind : ReplyKind) (output : List ℕ) (end : Option EndLine) → get (codes "entry") (reply_value kind output end) ≡ entry_value kind }
    ensures output { (kind : ReplyKind) (output : List ℕ) (end : Option EndLine) → get (codes "output") (reply_value kind output end) ≡ Some (output_value output) }
    ensures reply { (kind : ReplyKind) (output : List ℕ) (end : Option EndLine) → get (codes "reply") (reply_value kind output end) ≡ Some (string (reply_word kind)) }
    ensures turns { (kind : ReplyKind) (output : List ℕ) (end : Option EndLine) → get (codes "turns") (reply_value kind output end) ≡ turns_value end }
{}

/// The numbers of the characters of `output` are the bytes that were printed.
pub fn printed_bytes_are_read_again()
    ensures { (output : List ℕ) → All (λ byte. byte < 256) output → (text : List ℕ) → as_str (output_value output) ≡ Some text → chars text ≡ output }
{}

/// A reply as JSON has no line feed before its end, so it is one line.
pub fn a_json_reply_is_one_line()
    ensures { (kind : ReplyKind) (output : List ℕ) (end : Option EndLine) → has_line_feed (compact_text (reply_value kind output end)) ≡ false }
{}
