//! Lines and columns of a text.

ghost use Rattle.std.specs.Prelude.{◌≡◌, ◌≤◌, length, take, take_while, reverse, not};
ghost use Rattle.pg_read_lex.specs.Bytes.{is_line_feed};
ghost use Rattle.pg_read_lex.specs.Places.{line_after, column_after};
ghost use Rattle.pg_num.specs.declared.limits.TheConstants.{PROGRAM_TEXT_LIMIT};

/// The line and the column of the byte at a place of the text, or of its end: both from 1, the column in bytes.
pub fn position(text: &[u8], at: u32) -> (u32, u32)
    requires in_text { at ≤ length text.now }
    requires limit { length text.now ≤ PROGRAM_TEXT_LIMIT }
    ensures line { result.0 ≡ line_after (take at text.now) }
    ensures column { result.1 ≡ column_after (take at text.now) }
{
    let before = &text[..at as usize];
    (line_of(before), column_of(before))
}

fn line_of(before: &[u8]) -> u32
    requires { length before.now ≤ PROGRAM_TEXT_LIMIT }
    ensures { result ≡ line_after before.now }
{
    1 + before.iter().filter(|b| **b == b'\n').count() as u32
}

fn column_of(before: &[u8]) -> u32
    requires { length before.now ≤ PROGRAM_TEXT_LIMIT }
    ensures { result ≡ column_after before.now }
{
    1 + last_line_len(before) as u32
}

fn last_line_len(before: &[u8]) -> usize
    ensures exact { result ≡ length (take_while (λ b. not (is_line_feed b)) (reverse before.now)) }
    ensures within { result ≤ length before.now }
{
    before.iter().rev().take_while(|b| **b != b'\n').count()
}
