//! Guided runs on other inputs along the schedule of an entry.
use crate::entries::recorded::{SUMS, check};
use pg_cache::Admits;
use pg_ir::Program;
use pg_run::{GuidedEnd, guide};
use pg_session_entry::Entry;
use pg_test_samples::Sample;
use std::alloc::Global;
use std::process::Abort;
use std::test::Fail;

/// An input is admitted, and the guided run on it along the entry's schedule prints this and exits with 0 behind 15 turns.
fn served(
    rt: &impl Abort,
    alloc: Global,
    p: &Program,
    entry: &mut Entry,
    input: &[i64],
    output: &[u8],
) -> Result<(), Fail> {
    assert!(rt; entry.admits(input));
    let run = guide(alloc, p, input, entry.schedule())?;
    assert!(rt; run.output.as_slice() == output);
    assert_eq!(rt; run.end, GuidedEnd::Exit(0));
    assert_eq!(rt; run.turns, 15);
    Ok(())
}

/// Two threads sum the input, and the whole is twice as much: of numbers 3 it is six times their count.
#[test]
fn sums_of_any_length_take_the_same_turns(rt: HostRuntime) -> Result<(), Fail> {
    let rows: [(&[i64], &[u8]); 5] = [
        (&[], b"0\n"),
        (&[3], b"6\n"),
        (&[3, 3], b"12\n"),
        (&[3; 40], b"240\n"),
        (&[3; 500], b"3000\n"),
    ];
    let p = Sample::SumsUnderMutex.program(rt.alloc())?;
    let mut entry = check(&rt, rt.alloc(), &SUMS)?;
    for (input, output) in rows {
        served(&rt, rt.alloc(), &p, &mut entry, input, output)?;
    }
    Ok(())
}
