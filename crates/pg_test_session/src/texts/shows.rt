//! The text of `show`.

use pg_ir::{InstrId, ThreadNo};
use pg_run_trace::{InstrIds, Race, Replies, Schedule, Turn, TurnKind, Turns};
use pg_session_texts::show_text;
use std::alloc::{AllocError, Global};
use std::test::Fail;

fn turn(thread: u8, kind: TurnKind, instr: u32, object: u64) -> Turn {
    Turn {
        thread: ThreadNo(thread),
        instr: InstrId(instr),
        kind,
        object,
    }
}

fn schedule(alloc: Global) -> Result<Schedule, AllocError> {
    let turns = [
        turn(0, TurnKind::Start, 12, 0),
        turn(0, TurnKind::Create, 12, 1),
        turn(1, TurnKind::Start, 0, 1),
        turn(1, TurnKind::Store, 10, 8),
        turn(1, TurnKind::Exit, 11, 1),
        turn(0, TurnKind::Store, 18, 8),
        turn(0, TurnKind::Join, 20, 1),
        turn(0, TurnKind::Out, 22, 0),
        turn(0, TurnKind::Exit, 23, 0),
    ];
    Ok(Schedule {
        turns: Turns::from_vec(turns.to_vec(alloc)?),
        replies: Replies::from_vec(Vec::new(alloc)),
        gated: InstrIds::from_vec(Vec::new(alloc)),
    })
}

const RACES: [Race; 2] = [
    Race {
        instr: InstrId(10),
        step: 18,
        with: 22,
    },
    Race {
        instr: InstrId(18),
        step: 22,
        with: 18,
    },
];

const TEXT: &str = concat!(
    "recorded 0\n",
    "turn 0 thread 0 start at 12 on 0\n",
    "turn 1 thread 0 create at 12 on 1\n",
    "turn 2 thread 1 start at 0 on 1\n",
    "turn 3 thread 1 store at 10 on 8\n",
    "turn 4 thread 1 exit at 11 on 1\n",
    "turn 5 thread 0 store at 18 on 8\n",
    "turn 6 thread 0 join at 20 on 1\n",
    "turn 7 thread 0 out at 22 on 0\n",
    "turn 8 thread 0 exit at 23 on 0\n",
    "race at 10 steps 18 22\n",
    "race at 18 steps 22 18\n",
    "pinned 0 at 19\n",
    "pinned 4 at 19\n",
    "exact 3 at 19\n",
    "100\n",
    "exit 0 after 9 turns\n",
);

#[test]
fn shown(rt: HostRuntime) -> Result<(), Fail> {
    let schedule = schedule(rt.alloc())?;
    let ids = [InstrId(19); 5];
    let text = show_text(
        rt.alloc(),
        &schedule,
        &ids,
        &[0, 4],
        &[3],
        &RACES,
        b"100\n",
        0,
    )?;
    assert_eq!(rt; text.as_slice(), TEXT.as_bytes());
    Ok(())
}
