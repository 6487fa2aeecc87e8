//! The entry of given turns.
ghost use Rattle.std.specs.Prelude.{◌≡◌, ◌<◌, ℕ, ℤ, All, List, length, None, IfErr, IfOk, OnOk};
ghost use Rattle.std.specs.Result.{result_err};
ghost use Rattle.pg_ir.specs.declared.ids.InstrId.{InstrId as AnInstrId};
ghost use Rattle.pg_run_trace.specs.declared.step.Step.{Step};
ghost use Rattle.pg_run_trace.specs.Races.{first_unordered};
ghost use Rattle.pg_run.specs.Follow.{Exits, followed_as, following_of};
ghost use Rattle.pg_law_order.specs.pg_law_runs.Cuts.{CanRun};
ghost use Rattle.pg_law_reference.specs.Sliceable.{CanBeSliced};
ghost use Rattle.pg_session_entry.specs.declared.turns.FromFault.TheVariants.{OutOfMemory};
ghost use Rattle.pg_session_entry.specs.Entries.{IsEntryOfTurns};
ghost use Rattle.pg_session_entry.specs.Faults.{IsFault, fault_of};

use crate::entry::Entry;
use crate::reference::entry_along;
use crate::replies::replies_of;
use pg_ir::{InstrId, Program};
use pg_law_order::can_run;
use pg_law_reference::laws::exiting_runs_can_be_sliced;
use pg_num::limits::RECORDING_STEP_LIMIT;
use pg_run::{Followed, follow_into};
use pg_run_trace::{InstrIds, Replies, Schedule, Trace, Turn, Turns};
use pg_schedule::{is_ordered, races};
use std::alloc::{AllocError, Global};

/// Why turns give no entry.
#[derive(Clone, Copy, Debug, PartialEq, Eq)]
pub enum FromFault {
    /// The guided run strays at this turn.
    Strayed(u32),
    /// The guided run ends by a trap or a spent budget, or would take one step more than a recording may have.
    Unfinished,
    /// These two steps of the guided run conflict, and nothing orders them.
    Unordered(usize, usize),
    /// No memory was left.
    OutOfMemory,
}

impl From<AllocError> for FromFault {
    ghost from_gives = { λ _ e. e ≡ OutOfMemory };

    fn from(_e: AllocError) -> FromFault {
        FromFault::OutOfMemory
    }
}

/// A schedule of these turns, with the replies of a trace.
fn schedule_with(
    alloc: Global,
    turns: &[Turn],
    gated: &[InstrId],
    replies: Vec<u64>,
) -> Result<Schedule, AllocError>
    ensures turns { IfOk result (λ s. s.turns ≡ turns.now) }
    ensures gated { IfOk result (λ s. s.gated ≡ gated.now) }
    ensures replies { IfOk result (λ s. s.replies ≡ replies.items) }
{
    let turns = turns.to_vec(alloc)?;
    let gated = gated.to_vec(alloc)?;
    Ok(Schedule {
        turns: Turns::from_vec(turns),
        replies: Replies::from_vec(replies),
        gated: InstrIds::from_vec(gated),
    })
}

/// What the end of a guided run is a fault of, unless it exits. It takes no memory.
fn exits(end: Followed) -> Result<(), FromFault>
    ensures exit { OnOk result ((xs : List Step) → (printed : List ℕ) × (value : ℤ) × (followed_as end xs ≡ Exits xs printed value)) }
    ensures fault { IfErr result (λ e. (xs : List Step) → IsFault e (followed_as end xs)) }
    ensures exact { (xs : List Step) → result_err result ≡ fault_of (followed_as end xs) }
{
    match end {
        Followed::Exit { .. } => Ok(()),
        Followed::Strayed(turn) => Err(FromFault::Strayed(turn)),
        Followed::Unfinished => Err(FromFault::Unfinished),
    }
}

/// Follows a schedule to its exit. The trace then has the steps of the guided run, and a slice can be taken of them.
///
/// # Errors
///
/// `Strayed` and `Unfinished` as the guided run ends; `OutOfMemory` where no memory is left.
pub fn follow_to_exit(
    alloc: Global,
    p: &Program,
    input: &[i64],
    schedule: &Schedule,
    trace: &mut Trace,
) -> Result<(), FromFault>
    requires room { trace.old.room ≡ RECORDING_STEP_LIMIT }
    ensures exit { OnOk result ((printed : List ℕ) × (value : ℤ) × (following_of p.now input.now schedule.now.turns schedule.now.gated ≡ Exits trace.new.steps printed value)) }
    ensures fault { IfErr result (λ e. IsFault e (following_of p.now input.now schedule.now.turns schedule.now.gated)) }
    ensures sliceable { OnOk result (CanBeSliced p.now input.now schedule.now.gated trace.new.steps) }
{
    can_run(p, input);
    exiting_runs_can_be_sliced();
    let end = follow_into(alloc, p, input, schedule, trace)?;
    exits(end)?;
    Ok(())
}

/// Whether nothing but an order of its events is needed for a trace's steps that conflict.
fn ordered(alloc: Global, t: &Trace) -> Result<(), FromFault>
    ensures ordered { OnOk result (first_unordered t.now.steps ≡ None) }
    ensures fault { IfErr result (λ e. (printed : List ℕ) (value : ℤ) → IsFault e (Exits t.now.steps printed value)) }
{
    match is_ordered(alloc, t)? {
        Some((first, second)) => Err(FromFault::Unordered(first, second)),
        None => Ok(()),
    }
}

/// The entry of the guided run on an input along these turns, where these loads and stores are turns: its replies and races are
/// those of that run.
///
/// # Errors
///
/// `Strayed`, `Unfinished` and `Unordered` as the guided run ends, or two of its steps that conflict aren't ordered;
/// `OutOfMemory` where no memory is left.
pub fn from_turns(
    alloc: Global,
    p: &Program,
    input: &[i64],
    turns: &[Turn],
    gated: &[InstrId],
) -> Result<Entry, FromFault>
    requires can_run { CanRun p.now input.now }
    requires gated { All (λ (g : AnInstrId). g.0 < length p.now.instrs) gated.now }
    ensures entry { IfOk result (IsEntryOfTurns p.now input.now turns.now gated.now) }
    ensures fault { IfErr result (λ e. IsFault e (following_of p.now input.now turns.now gated.now)) }
{
    let mut trace = Trace::with_room(alloc, RECORDING_STEP_LIMIT as usize)?;
    let unreplied = schedule_with(alloc, turns, gated, Vec::new(alloc))?;
    follow_to_exit(alloc, p, input, &unreplied, &mut trace)?;
    ordered(alloc, &trace)?;
    let replies = replies_of(alloc, &trace)?;
    let schedule = schedule_with(alloc, turns, gated, replies)?;
    let races = races(alloc, &trace)?;
    let entry = entry_along(alloc, p, input, &trace, schedule, races)?;
    Ok(entry)
}
