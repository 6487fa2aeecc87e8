//! Loading: the entry of turns that are given, which are those of an entry that was kept elsewhere. Nothing of it is trusted.
ghost use Rattle.std.specs.Prelude.{◌≡◌, true, IfErr, IfOk};
ghost use Rattle.pg_law_reuse.specs.Entries.{IsEntryOfTurns};
ghost use Rattle.pg_session_runner.specs.Loading.{IsLoadFault, are_accesses, names_access};
ghost use Rattle.pg_session_runner.specs.declared.loading.LoadFault.TheVariants.{Turns};

use pg_go::pg_ir::{InstrId, Op, Program};
use pg_go::pg_run_trace::Turn;
use pg_law_reuse::pg_law_order::can_run;
use pg_law_reuse::{Entry, FromFault, from_turns};
use std::alloc::Global;

/// Why turns that are given are no entry of a program.
#[derive(Clone, Copy, Debug, PartialEq, Eq)]
pub enum LoadFault {
    /// One of the instructions that are gated is no load or store of the program.
    Gate,
    /// The turns have no entry, for this reason.
    Turns(FromFault),
}

impl From<FromFault> for LoadFault {
    ghost from_gives = { λ fault e. e ≡ Turns fault };

    fn from(fault: FromFault) -> LoadFault {
        LoadFault::Turns(fault)
    }
}

/// Whether a number is that of a load or a store of the program.
fn names_access(p: &Program, id: InstrId) -> bool
    ensures { result ≡ names_access p.now id }
{
    if id.0 >= p.instr_count() {
        return false;
    }
    match p.instr(id).op {
        Op::Load { .. } | Op::Store { .. } => true,
        _ => false,
    }
}

/// Whether each number is that of a load or a store of the program.
fn are_accesses(p: &Program, gated: &[InstrId]) -> bool
    ensures { result ≡ are_accesses p.now gated.now }
{
    // The label is for the proof: see docs/CONTRIBUTING.md.
    'ids: for place in 0..gated.len() {
        if !names_access(p, gated[place]) {
            return false;
        }
    }
    true
}

/// The entry of the guided run on an input along these turns, where these loads and stores are turns.
///
/// # Errors
///
/// `Gate` where one of these isn't a load or a store; else `Turns` with the fault of `from_turns`.
pub fn load_turns(
    alloc: Global,
    p: &Program,
    input: &[i64],
    turns: &[Turn],
    gated: &[InstrId],
) -> Result<Entry, LoadFault>
    ensures entry { IfOk result (IsEntryOfTurns p.now input.now turns.now gated.now) }
    ensures gate { IfOk result (λ _. are_accesses p.now gated.now ≡ true) }
    ensures fault { IfErr result (IsLoadFault p.now input.now turns.now gated.now) }
{
    let all = are_accesses(p, gated);
    if !all {
        return Err(LoadFault::Gate);
    }
    can_run(p, input);
    let entry = from_turns(alloc, p, input, turns, gated)?;
    Ok(entry)
}
