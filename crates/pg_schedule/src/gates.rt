//! The instructions of races.

ghost use Rattle.std.specs.Prelude.{◌≡◌, IfOk, map};
ghost use Rattle.pg_run_trace.specs.declared.turn.Race.{Race};
ghost use Rattle.pg_run_trace.specs.Races as races;

use pg_ir::InstrId;
use pg_run_trace::{Access, Event, Race, Step, StepKind, TurnKind};
use std::alloc::{AllocError, Global};

/// The instructions of these races.
pub(crate) fn instrs_of(alloc: Global, races: &[Race]) -> Result<Vec<InstrId>, AllocError>
    ensures { IfOk result (λ v. v.items ≡ map (λ (r : Race). r.instr) races.now) }
{
    let mut ids = Vec::new(alloc);
    for race in races {
        ids.push(race.instr)?;
    }
    Ok(ids)
}

/// Whether the instruction is one of these.
fn is_one_of(gated: &[InstrId], id: InstrId) -> bool
    ensures { result ≡ races.is_one_of gated.now id.0 }
{
    gated.iter().any(|g| g.0 == id.0)
}

/// The step where the loads and stores of these instructions, and no others, are events.
pub(crate) fn with_gated(gated: &[InstrId], step: Step) -> Step
    ensures { result ≡ races.with_gated gated.now step }
{
    match step.kind {
        StepKind::Access(access) => Step {
            thread: step.thread,
            instr: step.instr,
            kind: StepKind::Access(Access {
                pointer: access.pointer,
                number: access.number,
                bytes: access.bytes,
                writes: access.writes,
                event: is_one_of(gated, step.instr),
            }),
        },
        _ => step,
    }
}

/// The number that the pthread call of an event returned; 0 for an event that returns none.
fn reply_of(event: &Event) -> u64
    ensures { result ≡ races.reply_of event.now.kind event.now.reply }
{
    match event.kind {
        TurnKind::Start
        | TurnKind::Exit
        | TurnKind::Wait
        | TurnKind::Arrive
        | TurnKind::Out
        | TurnKind::Putchar => 0,
        _ => event.reply,
    }
}

/// The reply at a step that is an event.
pub fn reply_in(step: &Step) -> Option<u64>
    ensures { result ≡ races.reply_in step.now.kind }
{
    match &step.kind {
        StepKind::Event(event) => Some(reply_of(event)),
        StepKind::Access(access) if access.event => Some(0),
        _ => None,
    }
}
