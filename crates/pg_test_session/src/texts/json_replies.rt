//! Replies as JSON.

use pg_ir::{InstrId, ThreadNo, TrapName};
use pg_session_texts::{EndLine, ReplyKind, json_reply_text};
use std::process::Abort;
use std::test::Fail;

fn check(
    rt: &(impl Abort + AllocGlobal),
    kind: ReplyKind,
    output: &[u8],
    end: Option<&EndLine>,
    want: &str,
) -> Result<(), Fail> {
    let text = json_reply_text(rt.alloc(), &kind, output, end)?;
    assert_eq!(rt; text.as_slice(), want.as_bytes());
    Ok(())
}

#[test]
fn runs_as_json(rt: HostRuntime) -> Result<(), Fail> {
    check(
        &rt,
        ReplyKind::Recorded(17),
        b"12\n",
        Some(&EndLine::Exit(-1, 15)),
        "{\"end\":{\"exit\":-1},\"entry\":17,\"output\":\"12\\n\",\"reply\":\"recorded\",\"turns\":15}\n",
    )?;
    check(
        &rt,
        ReplyKind::Recorded(18446744073709551615),
        b"",
        Some(&EndLine::Exit(2147483647, 4294967295)),
        "{\"end\":{\"exit\":2147483647},\"entry\":18446744073709551615,\"output\":\"\",\"reply\":\"recorded\",\"turns\":4294967295}\n",
    )?;
    check(
        &rt,
        ReplyKind::Reused(0),
        b"7\n",
        Some(&EndLine::Trap(TrapName::DivideByZero, InstrId(24), 6)),
        "{\"end\":{\"at\":24,\"trap\":\"DivideByZero\"},\"entry\":0,\"output\":\"7\\n\",\"reply\":\"reused\",\"turns\":6}\n",
    )?;
    check(
        &rt,
        ReplyKind::Reused(3),
        b"",
        Some(&EndLine::Budget(ThreadNo(1), 3)),
        "{\"end\":{\"budget\":1},\"entry\":3,\"output\":\"\",\"reply\":\"reused\",\"turns\":3}\n",
    )
}

#[test]
fn refusals_as_json(rt: HostRuntime) -> Result<(), Fail> {
    check(
        &rt,
        ReplyKind::RefusedLine,
        b"",
        None,
        "{\"output\":\"\",\"reply\":\"refused line\"}\n",
    )?;
    check(
        &rt,
        ReplyKind::RefusedTrap(TrapName::Deadlock, InstrId(1)),
        b"5\n",
        None,
        "{\"end\":{\"at\":1,\"trap\":\"Deadlock\"},\"output\":\"5\\n\",\"reply\":\"refused trap\"}\n",
    )?;
    check(
        &rt,
        ReplyKind::RefusedBudget,
        b"1\n2\n",
        None,
        "{\"output\":\"1\\n2\\n\",\"reply\":\"refused budget\"}\n",
    )?;
    check(
        &rt,
        ReplyKind::RefusedUntested,
        b"",
        None,
        "{\"output\":\"\",\"reply\":\"refused untested\"}\n",
    )
}

/// The escapes are those of RFC 8259, the shortest of each byte; bytes from 128 on are characters of two bytes (UTF-8).
#[test]
fn printed_bytes_are_characters(rt: HostRuntime) -> Result<(), Fail> {
    check(
        &rt,
        ReplyKind::RefusedBudget,
        &[0, 7, 8, 9, 10, 11, 12, 13, 31, 32, 34, 47, 65, 92, 126, 127],
        None,
        "{\"output\":\"\\u0000\\u0007\\b\\t\\n\\u000b\\f\\r\\u001f \\\"/A\\\\~\u{7f}\",\"reply\":\"refused budget\"}\n",
    )?;
    check(
        &rt,
        ReplyKind::RefusedBudget,
        &[127, 128, 159, 160, 191, 192, 233, 255],
        None,
        "{\"output\":\"\u{7f}\u{80}\u{9f}\u{a0}\u{bf}\u{c0}\u{e9}\u{ff}\",\"reply\":\"refused budget\"}\n",
    )
}
