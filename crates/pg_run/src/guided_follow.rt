//! Following a schedule from turn to turn.

ghost use Rattle.std.specs.Prelude.{◌≡◌, List, IfOk, OnOk};
ghost use Rattle.pg_run_trace.specs.pg_num.declared.limits.TheConstants.{RECORDING_STEP_LIMIT};
ghost use Rattle.pg_run_trace.specs.declared.step.Step.{Step};
ghost use Rattle.pg_run.specs.Follow.{followed_as, following_of, reached};

use crate::gated::Gated;
use crate::guided::{Stopped, guide_along};
use crate::guided_end::GuidedEnd;
use crate::run::Run;
use pg_run_trace::pg_ir::Program;
use pg_run_trace::pg_num::limits::RECORDING_STEP_LIMIT;
use pg_run_trace::{Schedule, Trace};
use std::alloc::{AllocError, Global};

/// What following a schedule gives beside its steps.
#[derive(Drop)]
pub enum Followed {
    /// The guided run exits: what it printed, and main's value.
    Exit { output: Vec<u8>, value: i32 },
    /// The guided run strays at this turn.
    Strayed(u32),
    /// The guided run ends by a trap or a spent budget, or would take one step more than a recording may
    /// have.
    Unfinished,
}

/// What a guided run of few enough steps gives.
fn answer(run: Stopped) -> Followed
    ensures { (xs : List Step) → followed_as result xs ≡ reached xs run.state.printed run.turns run.end }
{
    match run.end {
        GuidedEnd::Exit(value) => Followed::Exit {
            output: run.state.into_printed(),
            value,
        },
        GuidedEnd::Strayed => Followed::Strayed(run.turns),
        _ => Followed::Unfinished,
    }
}

/// As `follow`, with its steps in a trace that is there, which has room for as many as a recording may have.
/// The steps that it had are gone; its room stays, also where no memory is left.
///
/// # Errors
///
/// Where no memory is left for it.
#[tactic(auto, unfolding(crate::specs::Follow::following_of))]
pub fn follow_into(
    alloc: Global,
    p: &Program,
    input: &[i64],
    s: &Schedule,
    trace: &mut Trace,
) -> Result<Followed, AllocError>
    requires room { trace.old.room ≡ RECORDING_STEP_LIMIT }
    ensures followed { IfOk result (λ f. followed_as f trace.new.steps ≡ following_of p.now input.now s.now.turns s.now.gated) }
    ensures room { trace.new.room ≡ RECORDING_STEP_LIMIT }
{
    let gated = Gated::new(alloc, p, s.gated.as_slice())?;
    let run = Run {
        alloc,
        program: p,
        input,
        gated: &gated,
    };
    trace.clear();
    match guide_along(&run, s.turns.as_slice(), trace, true)? {
        Some(stopped) => Ok(answer(stopped)),
        None => Ok(Followed::Unfinished),
    }
}

/// The guided run of a program on an input along a schedule, with its trace: exits, strays at a turn, or
/// is unfinished, where it ends by a trap or a spent budget, or would take one step more than a
/// recording may have.
///
/// # Errors
///
/// Where no memory is left for it.
pub fn follow(
    alloc: Global,
    p: &Program,
    input: &[i64],
    s: &Schedule,
) -> Result<(Followed, Trace), AllocError>
    ensures followed { IfOk result (λ f. followed_as f.0 f.1.steps ≡ following_of p.now input.now s.now.turns s.now.gated) }
{
    let mut trace = Trace::with_room(alloc, RECORDING_STEP_LIMIT as usize)?;
    let followed = follow_into(alloc, p, input, s, &mut trace)?;
    Ok((followed, trace))
}
