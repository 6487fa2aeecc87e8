//! The command `serve`: a session of a program.
ghost use Rattle.std.specs.Prelude.{◌≡◌, ◌≤◌, ◌<◌, ◌⊎◌, ◌^◌, ℕ, ℤ, List, length, string_bytes, Some, IfOk, IsErrOf};
ghost use Rattle.std.specs.Option.{option_map};
ghost use Rattle.pg_num.specs.declared.limits.TheConstants.{CACHE_LIMIT, QUANTUM_LIMIT};
ghost use Rattle.pg_session_book.specs.pg_law_runs.Cuts.{CanRun};
ghost use Rattle.pg_commands_words.specs.Commands.{IsWay, serve};
ghost use Rattle.pg_io.specs.Faults.{Rose};
ghost use Rattle.pg_session_book.specs.pg_session.Progress.{Stands};
ghost use Rattle.pg_session_book.specs.Runs.{Way, freely, rotating, runs_by, tested};
ghost use Rattle.pg_commands.specs.Commands.{CrewsMake, EndsAs, SessionByCrew, SessionMakes, crew_change, reply_form, session_way, shelf_change, sink_change, source_change, workers_change, world};
ghost use Rattle.pg_commands.specs.Sessions.{IsOpening, SessionEnds, nothing_told, rounds_told};
ghost use Rattle.pg_commands.specs.Statuses.{session_status};

use crate::books::fetch_book;
use crate::programs::{Loaded, NoProgram, fetch_program};
use crate::replies::write_text;
use crate::status::Status;
use pg_cache::Cache;
use pg_commands_words::{RecordingWay, Serve};
use pg_io::{Shelf, Sink, Source};
use pg_ir::Program;
use pg_session_book::laws::a_book_is_opened_or_refused_for_one_reason;
use pg_session_book::pg_book::laws::what_is_read_is_within_limits;
use pg_session_book::pg_free::{FreeCrew, Seeded};
use pg_session_book::pg_go::Crew;
use pg_session_book::pg_session::pg_session_texts::ReplyForm;
use pg_session_book::pg_session::{ServeFault, begin};
use pg_session_book::{Entry, FreeRunner, OpenedBook, ProgramRunner, TestedRunner};
use std::alloc::Global;
use std::mem;
use std::sync::Wait;
use std::thread::Threads;

/// The status of a session that ended so.
pub(crate) fn status_of(ended: Result<(), ServeFault>) -> Status
    ensures { result ≡ session_status ended }
{
    match ended {
        Ok(()) => Status::Done,
        Err(ServeFault::ReadFault) => Status::ReadFault,
        Err(ServeFault::WriteFault) => Status::WriteFault,
        Err(ServeFault::InputLimit) => Status::InputLimit,
        Err(ServeFault::OutOfMemory) => Status::OutOfMemory,
    }
}

/// The form of the replies, by whether they are JSON.
fn reply_form(json: bool) -> ReplyForm
    ensures { result ≡ reply_form json }
{
    if json {
        ReplyForm::Json
    } else {
        ReplyForm::Lines
    }
}

/// A session whose recordings let threads take their turns in number order, with up to a quantum of steps each.
fn serve_in_rotation<R: Threads + Wait + Sync, S: Source, K: Sink, C: Crew + Drop>(
    rt: &R,
    alloc: Global,
    program: &Program,
    quantum: u32,
    form: ReplyForm,
    first: Cache<Entry>,
    src: &mut S,
    out: &mut K,
    crew: &mut C,
) -> Result<(), ServeFault>
    requires can_run { (input : List ℤ) → length input < 2 ^ 64 → CanRun program.now input }
    requires least { 1 ≤ quantum }
    requires most { quantum ≤ QUANTUM_LIMIT }
    requires stands { Stands (runs_by program.now (rotating quantum)) first }
    requires few { first.inserted ≤ CACHE_LIMIT }
    ensures { SessionEnds form (CrewsMake nothing_told (workers_change (C.turns crew.old) (C.turns crew.new))) program.now (rotating quantum) first
        (source_change (S.rest src.old) (S.rest src.new) (S.faults src.old) (S.faults src.new))
        (sink_change (K.taken out.old) (K.taken out.new) (K.faults out.old) (K.faults out.new)) result }
{
    let other = crew.another();
    let mut runner = ProgramRunner::new(program, quantum, mem::replace(crew, other));
    let ended = pg_session_book::pg_session::serve(rt, alloc, &mut runner, form, first, src, out);
    *crew = runner.into_crew();
    ended
}

/// A session whose recordings let threads take steps in the order in which the workers of a crew come.
fn serve_freely<R: Threads + Wait + Sync, S: Source, K: Sink, G: FreeCrew + Drop, C: Crew + Drop>(
    rt: &R,
    alloc: Global,
    program: &Program,
    form: ReplyForm,
    first: Cache<Entry>,
    src: &mut S,
    out: &mut K,
    free: &mut G,
    crew: &mut C,
) -> Result<(), ServeFault>
    requires can_run { (input : List ℤ) → length input < 2 ^ 64 → CanRun program.now input }
    requires stands { Stands (runs_by program.now freely) first }
    requires few { first.inserted ≤ CACHE_LIMIT }
    ensures { SessionEnds form (CrewsMake (rounds_told (crew_change (G.rounds free.old) (G.rounds free.new))) (workers_change (C.turns crew.old) (C.turns crew.new))) program.now freely first
        (source_change (S.rest src.old) (S.rest src.new) (S.faults src.old) (S.faults src.new))
        (sink_change (K.taken out.old) (K.taken out.new) (K.faults out.old) (K.faults out.new)) result }
{
    let other_free = free.another();
    let other = crew.another();
    let recorders = mem::replace(free, other_free);
    let workers = mem::replace(crew, other);
    let mut runner = FreeRunner::new(program, recorders, workers);
    let ended = pg_session_book::pg_session::serve(rt, alloc, &mut runner, form, first, src, out);
    let crews = runner.into_crews();
    *free = crews.0;
    *crew = crews.1;
    ended
}

/// A session that records nothing: a line is run where an entry with which it begins admits it.
fn serve_tested<R: Threads + Wait + Sync, S: Source, K: Sink, C: Crew + Drop>(
    rt: &R,
    alloc: Global,
    program: &Program,
    form: ReplyForm,
    first: Cache<Entry>,
    src: &mut S,
    out: &mut K,
    crew: &mut C,
) -> Result<(), ServeFault>
    requires can_run { (input : List ℤ) → length input < 2 ^ 64 → CanRun program.now input }
    requires stands { Stands (runs_by program.now tested) first }
    requires few { first.inserted ≤ CACHE_LIMIT }
    ensures { SessionEnds form (CrewsMake nothing_told (workers_change (C.turns crew.old) (C.turns crew.new))) program.now tested first
        (source_change (S.rest src.old) (S.rest src.new) (S.faults src.old) (S.faults src.new))
        (sink_change (K.taken out.old) (K.taken out.new) (K.faults out.old) (K.faults out.new)) result }
{
    let other = crew.another();
    let mut runner = TestedRunner::new(program, mem::replace(crew, other));
    let ended = pg_session_book::pg_session::serve(rt, alloc, &mut runner, form, first, src, out);
    *crew = runner.into_crew();
    ended
}

/// A session in this form that begins with these entries, whose lines are recorded in this way, or, where only tested ones are run, not at all.
fn session<R: Threads + Wait + Sync, S: Source, K: Sink, G: FreeCrew + Drop, C: Crew + Drop>(
    rt: &R,
    alloc: Global,
    program: &Program,
    way: RecordingWay,
    only: bool,
    form: ReplyForm,
    first: Cache<Entry>,
    src: &mut S,
    out: &mut K,
    free: &mut G,
    crew: &mut C,
) -> Result<(), ServeFault>
    requires can_run { (input : List ℤ) → length input < 2 ^ 64 → CanRun program.now input }
    requires way { IsWay way }
    requires stands { (v : Way) → Stands (runs_by program.now v) first }
    requires few { first.inserted ≤ CACHE_LIMIT }
    ensures ends { SessionEnds form (CrewsMake (SessionMakes way only (crew_change (G.rounds free.old) (G.rounds free.new))) (workers_change (C.turns crew.old) (C.turns crew.new)))
        program.now (session_way way only) first
        (source_change (S.rest src.old) (S.rest src.new) (S.faults src.old) (S.faults src.new))
        (sink_change (K.taken out.old) (K.taken out.new) (K.faults out.old) (K.faults out.new)) result }
    ensures others { SessionByCrew way only ⊎ (G.rounds free.new ≡ G.rounds free.old) }
{
    if only {
        return serve_tested(rt, alloc, program, form, first, src, out, crew);
    }
    match way {
        RecordingWay::Rotating(quantum) => {
            serve_in_rotation(rt, alloc, program, quantum, form, first, src, out, crew)
        }
        RecordingWay::Free => serve_freely(rt, alloc, program, form, first, src, out, free, crew),
        RecordingWay::Seeded(seed) => {
            let mut free = Seeded::new(seed);
            serve_freely(rt, alloc, program, form, first, src, out, &mut free, crew)
        }
    }
}

/// What a session of the program begins with: no entries, or what the book of this name gives, unless it is refused.
fn opening<F: Shelf>(
    alloc: Global,
    shelf: &mut F,
    program: &Program,
    book: &Option<String>,
) -> Result<OpenedBook, NoProgram>
    ensures opened { IfOk result (IsOpening (F.text shelf.old) (option_map string_bytes book.now) program.now) }
    ensures cause { IsErrOf result NoProgram.ShelfFault →
        (name : List ℕ) × (option_map string_bytes book.now ≡ Some name) × Rose (F.faults shelf.old name) (F.faults shelf.new name) }
    ensures counts { (other : List ℕ) → IsErrOf result NoProgram.ShelfFault ⊎ (F.faults shelf.new other ≡ F.faults shelf.old other) }
    ensures texts_stay { (other : List ℕ) → F.text shelf.new other ≡ F.text shelf.old other }
{
    match book {
        Some(name) => fetch_book(alloc, shelf, program, name.as_str()),
        None => Ok(OpenedBook::Entries(begin(alloc)?)),
    }
}

/// Fetches the program text, then the book if there is one, and answers the lines of the source. The first crew records where the
/// command says so, and the second runs the lines that are answered by reuse.
pub(crate) fn serve<
    R: Threads + Wait + Sync,
    S: Source,
    K: Sink,
    F: Shelf,
    G: FreeCrew + Drop,
    C: Crew + Drop,
>(
    rt: &R,
    alloc: Global,
    command: &Serve,
    src: &mut S,
    shelf: &mut F,
    out: &mut K,
    free: &mut G,
    crew: &mut C,
) -> Status
    requires { IsWay command.now.way }
    ensures ends { EndsAs (world (shelf_change (F.text shelf.old) (F.faults shelf.old) (F.faults shelf.new))
        (source_change (S.rest src.old) (S.rest src.new) (S.faults src.old) (S.faults src.new))
        (sink_change (K.taken out.old) (K.taken out.new) (K.faults out.old) (K.faults out.new))
        (crew_change (G.rounds free.old) (G.rounds free.new)) (workers_change (C.turns crew.old) (C.turns crew.new)))
        (serve (string_bytes command.now.file) command.now.way (option_map string_bytes command.now.book) command.now.only command.now.json) result }
    ensures texts_stay { (name : List ℕ) → F.text shelf.new name ≡ F.text shelf.old name }
{
    a_book_is_opened_or_refused_for_one_reason();
    what_is_read_is_within_limits();
    let program = match fetch_program(alloc, shelf, command.file.as_str()) {
        Ok(Loaded::Accepted(program)) => program,
        Ok(Loaded::Refused(line)) => return write_text(out, &line, Status::ProgramRefused),
        Err(NoProgram::ShelfFault) => return Status::ShelfFault,
        Err(NoProgram::OutOfMemory) => return Status::OutOfMemory,
    };
    let first = match opening(alloc, shelf, &program, &command.book) {
        Ok(OpenedBook::Entries(first)) => first,
        Ok(OpenedBook::Refused(line)) => return write_text(out, &line, Status::BookRefused),
        Err(NoProgram::ShelfFault) => return Status::ShelfFault,
        Err(NoProgram::OutOfMemory) => return Status::OutOfMemory,
    };
    status_of(session(
        rt,
        alloc,
        &program,
        command.way,
        command.only,
        reply_form(command.json),
        first,
        src,
        out,
        free,
        crew,
    ))
}
