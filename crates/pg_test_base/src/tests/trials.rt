//! Worked rows of the trial.

use pg_session_trial::{trial_line, trial_program};
use std::test::Fail;

#[test]
fn lines(rt: HostRuntime) -> Result<(), Fail> {
    let first = trial_line(rt.alloc(), 7, 0)?;
    assert_eq!(rt; first.as_slice(), [7, 8, 9, 10, 11, 12, 13, 14].as_slice());
    let last = trial_line(rt.alloc(), 9_999, 499)?;
    assert_eq!(rt; last.len(), 463);
    Ok(())
}

#[test]
fn program(rt: HostRuntime) -> Result<(), Fail> {
    let text = trial_program();
    assert_eq!(rt; text.len(), 1_964);
    Ok(())
}
