//! Replies to lines of input.

ghost use Rattle.std.specs.Prelude.{◌≡◌, true, false};
ghost use Rattle.pg_session_texts.specs.Replies.{has_run};

use pg_ir::{InstrId, ThreadNo, TrapName};
use pg_session_texts::{EndLine, ReplyKind, reply_text};
use std::process::Abort;
use std::test::Fail;

fn check_run(
    rt: &(impl Abort + AllocGlobal),
    kind: ReplyKind,
    output: &str,
    end: EndLine,
    want: &str,
) -> Result<(), Fail>
    requires { has_run kind ≡ true }
{
    let text = reply_text(rt.alloc(), &kind, output.as_bytes(), Some(&end))?;
    assert_eq!(rt; text.as_slice(), want.as_bytes());
    Ok(())
}

fn check_refused(
    rt: &(impl Abort + AllocGlobal),
    kind: ReplyKind,
    output: &str,
    want: &str,
) -> Result<(), Fail>
    requires { has_run kind ≡ false }
{
    let text = reply_text(rt.alloc(), &kind, output.as_bytes(), None)?;
    assert_eq!(rt; text.as_slice(), want.as_bytes());
    Ok(())
}

#[test]
fn runs(rt: HostRuntime) -> Result<(), Fail> {
    let exit = EndLine::Exit(-1, 15);
    check_run(
        &rt,
        ReplyKind::Recorded(17),
        "12\n",
        exit,
        "recorded 17\n12\nexit -1 after 15 turns\n",
    )?;
    let trap = EndLine::Trap(TrapName::DivideByZero, InstrId(24), 6);
    check_run(
        &rt,
        ReplyKind::Reused(0),
        "7\n",
        trap,
        "reused 0\n7\ntrap DivideByZero at 24 after 6 turns\n",
    )?;
    let budget = EndLine::Budget(ThreadNo(1), 3);
    check_run(
        &rt,
        ReplyKind::Reused(0),
        "",
        budget,
        "reused 0\nbudget in thread 1 after 3 turns\n",
    )
}

#[test]
fn refusals(rt: HostRuntime) -> Result<(), Fail> {
    check_refused(&rt, ReplyKind::RefusedLine, "", "refused line\n")?;
    let trap = ReplyKind::RefusedTrap(TrapName::Deadlock, InstrId(1));
    check_refused(&rt, trap, "", "refused trap Deadlock at 1\n")?;
    check_refused(
        &rt,
        ReplyKind::RefusedBudget,
        "1\n2\n",
        "refused budget\n1\n2\n",
    )?;
    check_refused(&rt, ReplyKind::RefusedUntested, "", "refused untested\n")
}
