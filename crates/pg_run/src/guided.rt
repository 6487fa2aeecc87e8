//! Guided runs along a list of turns.

ghost use Rattle.std.specs.Prelude.{◌≡◌, ◌<◌, ◌≤◌, ◌+◌, length, true, IfNone, IfOk, IfSome, OnOk};
ghost use Rattle.pg_run.specs.Guided.{guided_of};
ghost use Rattle.pg_run.specs.WithSteps.{RunEnds};

use crate::gated::Gated;
use crate::guided_end::GuidedEnd;
use crate::guided_left::{all_left, left_of, set_left};
use crate::guided_walk::walk;
use crate::run::Run;
use crate::state::MachineState;
use pg_run_trace::pg_ir::Program;
use pg_run_trace::{Schedule, Trace, Turn};
use std::alloc::{AllocError, Global};

/// What a guided run printed, how it ended, and how many turns it did.
#[derive(Drop)]
pub struct Guided {
    pub output: Vec<u8>,
    pub end: GuidedEnd,
    pub turns: u32,
}

/// The last state of a guided run, how many turns it did, and how it ended.
#[derive(Drop)]
pub(crate) struct Stopped {
    pub(crate) state: MachineState,
    pub(crate) turns: u32,
    pub(crate) end: GuidedEnd,
}

/// The guided run along turns. Its steps go into the trace, if steps are recorded; none where there is no room
/// there for one of them.
pub(crate) fn guide_along(
    run: &Run,
    turns: &[Turn],
    trace: &mut Trace,
    records: bool,
) -> Result<Option<Stopped>, AllocError>
    requires few { length trace.old.steps ≤ trace.old.room }
    ensures run { IfOk result (λ o. IfSome o (λ r. RunEnds (guided_of run.now.program.now run.now.input.now turns.now run.now.gated.now) r.state r.turns r.end records trace.old trace.new)) }
    ensures full { IfOk result (λ o. IfNone o
        ((records ≡ true) × (trace.old.room < length trace.old.steps + length (guided_of run.now.program.now run.now.input.now turns.now run.now.gated.now).trace))) }
    ensures room { trace.new.room ≡ trace.old.room }
    ensures fits { OnOk result (length trace.new.steps ≤ trace.new.room) }
{
    let mut state = MachineState::new(run.alloc, run.program)?;
    let mut left = all_left(run.alloc)?;
    let mut done: u32 = 0;
    for turn in turns {
        let most = left_of(left.as_slice(), turn.thread);
        let walked = match walk(run, &mut state, trace, records, turn, most)? {
            Some(walked) => walked,
            None => {
                return Ok(None);
            }
        };
        set_left(&mut left, turn.thread, walked.left);
        if let Some(end) = walked.end {
            return Ok(Some(Stopped {
                state,
                turns: done,
                end,
            }));
        }
        done += 1;
    }
    let end = state.end_after();
    Ok(Some(Stopped {
        state,
        turns: done,
        end,
    }))
}

/// The guided run of a program on an input along a schedule: the owner of the next turn alone takes
/// steps until it has done an event. Gives the printed bytes, the end, and how many turns were done.
///
/// # Errors
///
/// Where no memory is left for it.
pub fn guide(alloc: Global, p: &Program, input: &[i64], s: &Schedule) -> Result<Guided, AllocError>
    ensures output { IfOk result (λ g. g.output.items ≡ (guided_of p.now input.now s.now.turns s.now.gated).state.printed) }
    ensures end { IfOk result (λ g. g.end ≡ (guided_of p.now input.now s.now.turns s.now.gated).end) }
    ensures turns { IfOk result (λ g. g.turns ≡ (guided_of p.now input.now s.now.turns s.now.gated).turns) }
{
    let gated = Gated::new(alloc, p, s.gated.as_slice())?;
    let mut no_steps = Trace::with_room(alloc, 0)?;
    let run = Run {
        alloc,
        program: p,
        input,
        gated: &gated,
    };
    match guide_along(&run, s.turns.as_slice(), &mut no_steps, false)? {
        Some(Stopped { state, turns, end }) => Ok(Guided {
            output: state.into_printed(),
            end,
            turns,
        }),
        None => unreachable!(),
    }
}
