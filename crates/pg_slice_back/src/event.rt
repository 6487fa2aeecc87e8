//! Back over events.

ghost use Rattle.std.specs.Prelude.{◌≡◌, ℕ, suc, Bool, true, false, Some, OnOk};
ghost use Rattle.pg_ir.specs.Program.{NumberedProgram};
ghost use Rattle.pg_run_trace.specs.declared.step.Step.{Step as AStep};
ghost use Rattle.pg_run_trace.specs.declared.step.StepKind.TheVariants as kinds;
ghost use Rattle.pg_slice_rules.specs.Known.{Reference, Taken};
ghost use Rattle.pg_slice_rules.specs.Moments.{Moment};
ghost use Rattle.pg_slice_passes.specs.pg_slice_replay.declared.run.ReferenceRun.{ReferenceRun as AReferenceRun};
ghost use Rattle.pg_law_demands.specs.Along.{known_at};
ghost use Rattle.pg_slice_demands.specs.Asked.{asked_of, asks_byte};
ghost use Rattle.pg_slice_back.specs.declared.registers.Counts.{Counts as ACounts};
ghost use Rattle.pg_slice_back.specs.Arguments.{is_putchar};
ghost use Rattle.pg_slice_back.specs.Events.{event_depth, event_sets, event_target, event_writes, is_exit};
ghost use Rattle.pg_slice_back.specs.Leaves.{Without, none};
ghost use Rattle.pg_slice_back.specs.Met.{AreMet};
ghost use Rattle.pg_slice_back.specs.Steps.{IsCallOf, IsLiveStep};

use crate::arguments::put_argument;
use crate::bytes::own_bytes;
use crate::moves::{leave, leave_thread};
use crate::operations::held;
use pg_ir::Instr;
use pg_run_trace::{Access, Event, TurnKind, Write};
use pg_slice_demands::{Call, Demanded};
use std::alloc::AllocError;

/// Whether an event ends its thread.
pub fn is_exit(kind: TurnKind) -> bool
    ensures { result ≡ is_exit kind }
{
    match kind {
        TurnKind::Exit => true,
        _ => false,
    }
}

/// The register that an event may set that is no exit: of a start the first.
fn event_target(target: Option<u32>, kind: TurnKind) -> Option<u32>
    ensures { result ≡ event_target target kind }
{
    match kind {
        TurnKind::Start => Some(0),
        _ => target,
    }
}

/// Nothing is asked any more of the registers that an event sets: an exit ends all calls of the thread.
fn leave_set(demanded: &mut Demanded, at: Call, target: Option<u32>, kind: TurnKind)
    ensures { Without at.thread.0 (event_depth at.depth kind) (event_sets target kind) none demanded.old demanded.new }
{
    if is_exit(kind) {
        leave_thread(demanded, at);
    } else {
        let _was = leave(demanded, at, event_target(target, kind));
    }
}

/// Nothing is asked any more of the bytes that an event writes, if it writes.
fn leave_written(demanded: &mut Demanded, write: Option<Write>)
    ensures registers { (u j i : ℕ) (v : Bool) → asked_of demanded.new u j i ≡ Some v → asked_of demanded.old u j i ≡ Some v }
    ensures bytes { (b : ℕ) → asks_byte demanded.new b ≡ true → (asks_byte demanded.old b ≡ true) × (event_writes write b ≡ false) }
{
    if let Some(write) = write {
        let own = own_bytes(Access {
            pointer: write.pointer,
            number: write.number,
            bytes: 8,
            writes: true,
            event: true,
        });
        demanded.clear_bytes(own.from, own.to);
    }
}

/// Nothing is asked any more of what an event sets and writes.
fn leave_event(demanded: &mut Demanded, at: Call, target: Option<u32>, event: &Event)
    ensures { Without at.thread.0 (event_depth at.depth event.now.kind) (event_sets target event.now.kind) (event_writes event.now.write) demanded.old demanded.new }
{
    leave_set(demanded, at, target, event.kind);
    leave_written(demanded, event.write);
}

/// Whether something is asked of a register that there may be.
fn asks(demanded: &Demanded, at: Call, target: Option<u32>) -> bool
    ensures { result ≡ true → (i : ℕ) × (v : Bool) × (target ≡ Some i) × (asked_of demanded.now at.thread.0 at.depth i ≡ Some v) }
{
    match target {
        Some(register) => match demanded.register_from(at, register) {
            Some(first) => first == register,
            None => false,
        },
        None => false,
    }
}

/// Whether an event prints.
fn is_putchar(kind: TurnKind) -> bool
    ensures { result ≡ is_putchar kind }
{
    match kind {
        TurnKind::Putchar => true,
        _ => false,
    }
}

/// Whether an event prints, and something is asked of the register that it sets.
fn asks_printed(demanded: &Demanded, at: Call, target: Option<u32>, kind: TurnKind) -> bool
    ensures { result ≡ true → (i : ℕ) × (v : Bool) × (is_putchar kind ≡ true) × (target ≡ Some i) × (asked_of demanded.now at.thread.0 at.depth i ≡ Some v) }
{
    if !is_putchar(kind) {
        return false;
    }
    asks(demanded, at, target)
}

/// Back over an event: what is asked of the register that a print sets is asked of what it prints; of all else that an event sets
/// and writes nothing is asked any more.
pub(crate) fn back_event(
    demanded: &mut Demanded,
    at: Call,
    instr: &Instr,
    event: &Event,
    count: usize,
) -> Result<(), AllocError>
    ensures { OnOk result ((R : Reference) (d : Taken) (p : NumberedProgram) (r : AReferenceRun) (step : AStep) (counts : ACounts) (n : ℕ) (m : Moment)
        → IsLiveStep R d p r instr.now step counts n m → IsCallOf m at
        → step.kind ≡ kinds.Event event.now → counts.present ≡ count → AreMet (known_at R d (suc n)) demanded.old → AreMet (known_at R d n) demanded.new) }
{
    let printed = asks_printed(demanded, at, held(instr.result, count), event.kind);
    leave_event(demanded, at, instr.result, event);
    if printed {
        put_argument(demanded, at, &instr.op, 0, true)?;
        return Ok(());
    }
    Ok(())
}
