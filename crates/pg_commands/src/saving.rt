//! The command `book`: the book of what a session of a program keeps at its end.
ghost use Rattle.std.specs.Prelude.{◌≡◌, ◌≤◌, ◌<◌, ◌⊎◌, ◌+◌, ◌^◌, ℕ, ℤ, List, length, string_bytes, IfOk, IsErrOf};
ghost use Rattle.pg_num.specs.declared.limits.TheConstants.{QUANTUM_LIMIT, SESSION_INPUT_LIMIT};
ghost use Rattle.pg_session_book.specs.pg_law_runs.Cuts.{CanRun};
ghost use Rattle.pg_commands_words.specs.Commands.{IsWay, book};
ghost use Rattle.pg_io.specs.Faults.{Rose};
ghost use Rattle.pg_io.specs.Streams.{TakesAtMost};
ghost use Rattle.pg_session_book.specs.pg_session.Texts.{HasBytes};
ghost use Rattle.pg_session_book.specs.Runs.{freely, rotating};
ghost use Rattle.pg_commands.specs.Commands.{ByCrew, CrewsMake, EndsAs, MakesRounds, SavesMaking, crew_change, shelf_change, sink_change, source_change, way_of, workers_change, world};
ghost use Rattle.pg_commands.specs.Savings.{SavingEnds};
ghost use Rattle.pg_commands.specs.Sessions.{nothing_told, rounds_told};

use crate::programs::{Loaded, NoProgram, fetch_program};
use crate::replies::write_text;
use crate::serve::status_of;
use crate::status::Status;
use pg_cache::Cache;
use pg_commands_words::{Book, RecordingWay};
use pg_io::{Shelf, Sink, Source};
use pg_ir::Program;
use pg_session_book::laws::what_a_session_keeps_can_be_saved;
use pg_session_book::pg_free::{FreeCrew, Seeded};
use pg_session_book::pg_go::Crew;
use pg_session_book::pg_session::{ServeFault, begin, kept_by};
use pg_session_book::{Entry, FreeRunner, ProgramRunner, saved_book};
use std::alloc::Global;
use std::mem;
use std::sync::Wait;
use std::thread::Threads;

/// What a session keeps whose recordings let threads take their turns in number order, with up to a quantum of steps each.
fn kept_in_rotation<R: Threads + Wait + Sync, S: Source, C: Crew + Drop>(
    rt: &R,
    alloc: Global,
    program: &Program,
    quantum: u32,
    src: &mut S,
    crew: &mut C,
) -> Result<Cache<Entry>, ServeFault>
    requires can_run { (input : List ℤ) → length input < 2 ^ 64 → CanRun program.now input }
    requires least { 1 ≤ quantum }
    requires most { quantum ≤ QUANTUM_LIMIT }
    ensures { SavingEnds (CrewsMake nothing_told (workers_change (C.turns crew.old) (C.turns crew.new))) program.now (rotating quantum)
        (source_change (S.rest src.old) (S.rest src.new) (S.faults src.old) (S.faults src.new)) result }
{
    let first = begin(alloc)?;
    let other = crew.another();
    let mut runner = ProgramRunner::new(program, quantum, mem::replace(crew, other));
    let kept = kept_by(rt, alloc, &mut runner, first, src);
    *crew = runner.into_crew();
    kept
}

/// What a session keeps whose recordings let threads take steps in the order in which the workers of a crew come.
fn kept_freely<R: Threads + Wait + Sync, S: Source, G: FreeCrew + Drop, C: Crew + Drop>(
    rt: &R,
    alloc: Global,
    program: &Program,
    src: &mut S,
    free: &mut G,
    crew: &mut C,
) -> Result<Cache<Entry>, ServeFault>
    requires can_run { (input : List ℤ) → length input < 2 ^ 64 → CanRun program.now input }
    ensures { SavingEnds (CrewsMake (rounds_told (crew_change (G.rounds free.old) (G.rounds free.new))) (workers_change (C.turns crew.old) (C.turns crew.new))) program.now freely
        (source_change (S.rest src.old) (S.rest src.new) (S.faults src.old) (S.faults src.new)) result }
{
    let first = begin(alloc)?;
    let other_free = free.another();
    let other = crew.another();
    let recorders = mem::replace(free, other_free);
    let workers = mem::replace(crew, other);
    let mut runner = FreeRunner::new(program, recorders, workers);
    let kept = kept_by(rt, alloc, &mut runner, first, src);
    let crews = runner.into_crews();
    *free = crews.0;
    *crew = crews.1;
    kept
}

/// What a session keeps whose lines are recorded in this way.
fn kept<R: Threads + Wait + Sync, S: Source, G: FreeCrew + Drop, C: Crew + Drop>(
    rt: &R,
    alloc: Global,
    program: &Program,
    way: RecordingWay,
    src: &mut S,
    free: &mut G,
    crew: &mut C,
) -> Result<Cache<Entry>, ServeFault>
    requires can_run { (input : List ℤ) → length input < 2 ^ 64 → CanRun program.now input }
    requires way { IsWay way }
    ensures ends { SavingEnds (CrewsMake (MakesRounds way (crew_change (G.rounds free.old) (G.rounds free.new))) (workers_change (C.turns crew.old) (C.turns crew.new))) program.now (way_of way)
        (source_change (S.rest src.old) (S.rest src.new) (S.faults src.old) (S.faults src.new)) result }
    ensures others { ByCrew way ⊎ (G.rounds free.new ≡ G.rounds free.old) }
{
    match way {
        RecordingWay::Rotating(quantum) => kept_in_rotation(rt, alloc, program, quantum, src, crew),
        RecordingWay::Free => kept_freely(rt, alloc, program, src, free, crew),
        RecordingWay::Seeded(seed) => {
            let mut free = Seeded::new(seed);
            kept_freely(rt, alloc, program, src, &mut free, crew)
        }
    }
}

/// The text of the book of what a session keeps whose lines are recorded in this way.
fn saved<R: Threads + Wait + Sync, S: Source, G: FreeCrew + Drop, C: Crew + Drop>(
    rt: &R,
    alloc: Global,
    program: &Program,
    way: RecordingWay,
    src: &mut S,
    free: &mut G,
    crew: &mut C,
) -> Result<Vec<u8>, ServeFault>
    requires can_run { (input : List ℤ) → length input < 2 ^ 64 → CanRun program.now input }
    requires way { IsWay way }
    ensures saves { IfOk result (λ text. HasBytes (S.rest src.old) (λ input.
        SavesMaking (CrewsMake (MakesRounds way (crew_change (G.rounds free.old) (G.rounds free.new))) (workers_change (C.turns crew.old) (C.turns crew.new)))
        program.now (way_of way) input text.items)) }
    ensures no_write { IsErrOf result ServeFault.WriteFault → ⊥ }
    ensures input_limit { IsErrOf result ServeFault.InputLimit → HasBytes (S.rest src.old) (λ input. SESSION_INPUT_LIMIT < length input) }
    ensures read_cause { IsErrOf result ServeFault.ReadFault → Rose (S.faults src.old) (S.faults src.new) }
    ensures read_within { IsErrOf result ServeFault.ReadFault → TakesAtMost (S.rest src.old) (S.rest src.new) SESSION_INPUT_LIMIT }
    ensures read_count { IsErrOf result ServeFault.ReadFault ⊎ (S.faults src.new ≡ S.faults src.old) }
    ensures takes { TakesAtMost (S.rest src.old) (S.rest src.new) (SESSION_INPUT_LIMIT + 1) }
    ensures others { ByCrew way ⊎ (G.rounds free.new ≡ G.rounds free.old) }
{
    what_a_session_keeps_can_be_saved();
    let kept = kept(rt, alloc, program, way, src, free, crew)?;
    let text = saved_book(alloc, &kept)?;
    Ok(text)
}

/// Fetches the program text, answers the lines of the source to nobody, and writes the book of what is kept then. The first crew
/// records where the command says so, and the second runs the lines that are answered by reuse.
pub(crate) fn save_book<
    R: Threads + Wait + Sync,
    S: Source,
    K: Sink,
    F: Shelf,
    G: FreeCrew + Drop,
    C: Crew + Drop,
>(
    rt: &R,
    alloc: Global,
    command: &Book,
    src: &mut S,
    shelf: &mut F,
    out: &mut K,
    free: &mut G,
    crew: &mut C,
) -> Status
    requires { IsWay command.now.way }
    ensures ends { EndsAs (world (shelf_change (F.text shelf.old) (F.faults shelf.old) (F.faults shelf.new))
        (source_change (S.rest src.old) (S.rest src.new) (S.faults src.old) (S.faults src.new))
        (sink_change (K.taken out.old) (K.taken out.new) (K.faults out.old) (K.faults out.new))
        (crew_change (G.rounds free.old) (G.rounds free.new)) (workers_change (C.turns crew.old) (C.turns crew.new)))
        (book (string_bytes command.now.file) command.now.way) result }
    ensures keeps { (result ≡ Status.ReadFault) ⊎ (result ≡ Status.OutOfMemory) → out.new ≡ out.old }
    ensures texts_stay { (name : List ℕ) → F.text shelf.new name ≡ F.text shelf.old name }
{
    let program = match fetch_program(alloc, shelf, command.file.as_str()) {
        Ok(Loaded::Accepted(program)) => program,
        Ok(Loaded::Refused(line)) => return write_text(out, &line, Status::ProgramRefused),
        Err(NoProgram::ShelfFault) => return Status::ShelfFault,
        Err(NoProgram::OutOfMemory) => return Status::OutOfMemory,
    };
    let text = match saved(rt, alloc, &program, command.way, src, free, crew) {
        Ok(text) => text,
        Err(fault) => return status_of(Err(fault)),
    };
    write_text(out, &text, Status::Done)
}
