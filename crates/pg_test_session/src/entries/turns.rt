//! Entries of given turns.

use pg_cache::Admits;
use pg_ir::{InstrId, Program, ThreadNo};
use pg_law_order::can_run;
use pg_run_trace::{Turn, TurnKind};
use pg_session_entry::{Entry, FromFault, from_turns};
use pg_test_samples::Sample;
use std::alloc::Global;
use std::test::Fail;

/// An event of main.
const fn turn(instr: u32, kind: TurnKind) -> Turn {
    Turn {
        thread: ThreadNo(0),
        instr: InstrId(instr),
        kind,
        object: 0,
    }
}

/// The entry of these turns of a program, where no load or store is a turn.
fn entry_of(alloc: Global, p: &Program, input: &[i64], turns: &[Turn]) -> Result<Entry, FromFault> {
    can_run(p, input);
    let entry = from_turns(alloc, p, input, turns, &[])?;
    Ok(entry)
}

#[test]
fn turns_of_main_admit_each_input(rt: HostRuntime) -> Result<(), Fail> {
    let p = Sample::AddTwo.program(rt.alloc())?;
    let turns = [
        turn(0, TurnKind::Start),
        turn(3, TurnKind::Out),
        turn(4, TurnKind::Exit),
    ];
    match entry_of(rt.alloc(), &p, &[4, 5], &turns) {
        Ok(entry) => {
            let mut entry = entry;
            assert!(&rt; entry.input() == [4, 5].as_slice());
            assert!(&rt; entry.races().is_empty());
            assert_eq!(&rt; entry.ids().len(), 6);
            assert!(&rt; entry.admits(&[]));
            assert!(&rt; entry.admits(&[-1, 7, 3]));
        }
        Err(_) => assert!(&rt; false),
    }
    match entry_of(rt.alloc(), &p, &[4, 5], &turns[..2]) {
        Ok(_) => assert!(&rt; false),
        Err(fault) => assert_eq!(&rt; fault, FromFault::Strayed(2)),
    }
    Ok(())
}

/// Guided runs that end behind main's start: one traps, and one would take a step more than a recording may have.
#[test]
fn turns_of_unfinished_runs(rt: HostRuntime) -> Result<(), Fail> {
    let turns = [turn(0, TurnKind::Start), turn(3, TurnKind::Out)];
    for sample in [Sample::SkippedBlock, Sample::Circle] {
        let p = sample.program(rt.alloc())?;
        match entry_of(rt.alloc(), &p, &[], &turns) {
            Ok(_) => assert!(&rt; false),
            Err(fault) => assert_eq!(&rt; fault, FromFault::Unfinished),
        }
    }
    Ok(())
}
