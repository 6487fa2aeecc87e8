//! A session over a source and a sink.
ghost use Rattle.std.specs.Prelude.{◌≡◌, ◌<◌, ◌≤◌, ◌+◌, ◌⊎◌, [], false, length, IfOk, IfSome, OnOk, IsErrOf};
ghost use Rattle.pg_io.specs.Faults.{Rose};
ghost use Rattle.pg_io.specs.Streams.{TakesAtMost};
ghost use Rattle.pg_num.specs.declared.limits.TheConstants.{CACHE_LIMIT, SESSION_INPUT_LIMIT};
ghost use Rattle.pg_session.specs.Counts.{ServesCounted, told};
ghost use Rattle.pg_session.specs.Lines.{lines_of};
ghost use Rattle.pg_session.specs.Progress.{HasAll, HasAnswered, HasCut, HasTaken, Stands};
ghost use Rattle.pg_session.specs.Sessions.{IsExact, admits_by};
ghost use Rattle.pg_session.specs.Texts.{HasBytes, ServesFront, ServesLimit, ServesTaken};

use crate::fault::ServeFault;
use crate::runner::Runner;
use crate::session::{Session, end_line, take_piece};
use pg_cache::Cache;
use pg_io::{Failed, Sink, Source};
use pg_num::limits::SESSION_INPUT_LIMIT;
use pg_session_texts::ReplyForm;
use std::alloc::Global;
use std::sync::Wait;
use std::thread::Threads;

/// The most bytes that one call asks of a source.
const PIECE: usize = 4_096;

// Takes pieces of the source until it ends, or has given as many bytes as a session takes. Whether it ended.
fn take_pieces<H: Threads + Wait + Sync, R: Runner, S: Source, K: Sink>(
    rt: &H,
    alloc: Global,
    runner: &mut R,
    form: ReplyForm,
    session: &mut Session<R::Entry>,
    src: &mut S,
    out: &mut K,
) -> Result<bool, ServeFault>
    requires exact { IsExact R.Entry.meaning }
    requires stands { Stands (R.runs (R.subject runner.old)) session.old.cache }
    requires few { session.old.cache.inserted ≤ CACHE_LIMIT }
    requires line { session.old.line.items ≡ [] }
    ensures taken { IfOk result (λ ended. HasTaken form (admits_by R.Entry.meaning R.Entry.test) (R.runs (R.subject runner.old)) session.old.cache (S.rest src.old) (S.rest src.new)
        (told (K.taken out.old) (R.counts runner.old)) (told (K.taken out.new) (R.counts runner.new))
        session.new.cache session.new.line.items ended) }
    ensures read_fault { IsErrOf result ServeFault.ReadFault →
        HasAnswered form (admits_by R.Entry.meaning R.Entry.test) (R.runs (R.subject runner.old)) session.old.cache (S.rest src.old) (S.rest src.new)
        (told (K.taken out.old) (R.counts runner.old)) (told (K.taken out.new) (R.counts runner.new)) }
    ensures cut { (IsErrOf result ServeFault.WriteFault ⊎ IsErrOf result ServeFault.OutOfMemory) →
        HasCut form (admits_by R.Entry.meaning R.Entry.test) (R.runs (R.subject runner.old)) session.old.cache (S.rest src.old) (S.rest src.new) (K.taken out.old) (K.taken out.new) }
    ensures within { IsErrOf result ServeFault.InputLimit → ⊥ }
    ensures takes { TakesAtMost (S.rest src.old) (S.rest src.new) SESSION_INPUT_LIMIT }
    ensures read_cause { IsErrOf result ServeFault.ReadFault → Rose (S.faults src.old) (S.faults src.new) }
    ensures read_count { IsErrOf result ServeFault.ReadFault ⊎ (S.faults src.new ≡ S.faults src.old) }
    ensures write_cause { IsErrOf result ServeFault.WriteFault → Rose (K.faults out.old) (K.faults out.new) }
    ensures write_count { IsErrOf result ServeFault.WriteFault ⊎ (K.faults out.new ≡ K.faults out.old) }
    ensures stays { R.subject runner.new ≡ R.subject runner.old }
{
    let mut piece = [0; PIECE];
    let mut taken: usize = 0;
    while taken < SESSION_INPUT_LIMIT {
        let room = PIECE.min(SESSION_INPUT_LIMIT - taken);
        match src.read(&mut piece[..room]) {
            Ok(0) => return Ok(true),
            Ok(n) => {
                take_piece(rt, alloc, runner, form, session, &piece[..n], out)?;
                taken += n;
            }
            Err(Failed) => return Err(ServeFault::ReadFault),
        }
    }
    Ok(false)
}

// Asks whether the source has another byte.
fn must_end<S: Source>(src: &mut S) -> Result<(), ServeFault>
    ensures ended { OnOk result (IfSome (S.rest src.old) (λ bytes. bytes ≡ [])) }
    ensures more { IsErrOf result ServeFault.InputLimit → IfSome (S.rest src.old) (λ bytes. 0 < length bytes) }
    ensures no_write { IsErrOf result ServeFault.WriteFault → ⊥ }
    ensures no_memory { IsErrOf result ServeFault.OutOfMemory → ⊥ }
    ensures takes { TakesAtMost (S.rest src.old) (S.rest src.new) 1 }
    ensures cause { IsErrOf result ServeFault.ReadFault → Rose (S.faults src.old) (S.faults src.new) }
    ensures fault_takes_none { IsErrOf result ServeFault.ReadFault → TakesAtMost (S.rest src.old) (S.rest src.new) 0 }
    ensures count { IsErrOf result ServeFault.ReadFault ⊎ (S.faults src.new ≡ S.faults src.old) }
{
    let mut byte = [0; 1];
    match src.read(&mut byte) {
        Ok(0) => Ok(()),
        Ok(_) => Err(ServeFault::InputLimit),
        Err(Failed) => Err(ServeFault::ReadFault),
    }
}

// Takes all of the source, unless it has more bytes than a session takes.
pub(crate) fn take_all<H: Threads + Wait + Sync, R: Runner, S: Source, K: Sink>(
    rt: &H,
    alloc: Global,
    runner: &mut R,
    form: ReplyForm,
    session: &mut Session<R::Entry>,
    src: &mut S,
    out: &mut K,
) -> Result<(), ServeFault>
    requires exact { IsExact R.Entry.meaning }
    requires stands { Stands (R.runs (R.subject runner.old)) session.old.cache }
    requires few { session.old.cache.inserted ≤ CACHE_LIMIT }
    requires line { session.old.line.items ≡ [] }
    ensures all { OnOk result (HasAll form (admits_by R.Entry.meaning R.Entry.test)
        (R.runs (R.subject runner.old)) session.old.cache (S.rest src.old)
        (told (K.taken out.old) (R.counts runner.old)) (told (K.taken out.new) (R.counts runner.new)) session.new.cache session.new.line.items) }
    ensures input_limit { IsErrOf result ServeFault.InputLimit →
        HasBytes (S.rest src.old) (ServesLimit form (admits_by R.Entry.meaning R.Entry.test) (R.runs (R.subject runner.old)) session.old.cache (K.taken out.old) (K.taken out.new)) }
    ensures read_fault { IsErrOf result ServeFault.ReadFault →
        ServesTaken form (admits_by R.Entry.meaning R.Entry.test) (R.runs (R.subject runner.old)) session.old.cache (S.rest src.old) (S.rest src.new) (K.taken out.old) (K.taken out.new) }
    ensures cut { (IsErrOf result ServeFault.WriteFault ⊎ IsErrOf result ServeFault.OutOfMemory) →
        HasBytes (S.rest src.old) (λ input. ServesFront form (admits_by R.Entry.meaning R.Entry.test) (R.runs (R.subject runner.old)) session.old.cache (lines_of input) (K.taken out.old) (K.taken out.new)) }
    ensures takes { TakesAtMost (S.rest src.old) (S.rest src.new) (SESSION_INPUT_LIMIT + 1) }
    ensures read_within { IsErrOf result ServeFault.ReadFault → TakesAtMost (S.rest src.old) (S.rest src.new) SESSION_INPUT_LIMIT }
    ensures read_cause { IsErrOf result ServeFault.ReadFault → Rose (S.faults src.old) (S.faults src.new) }
    ensures read_count { IsErrOf result ServeFault.ReadFault ⊎ (S.faults src.new ≡ S.faults src.old) }
    ensures write_cause { IsErrOf result ServeFault.WriteFault → Rose (K.faults out.old) (K.faults out.new) }
    ensures write_count { IsErrOf result ServeFault.WriteFault ⊎ (K.faults out.new ≡ K.faults out.old) }
    ensures stays { R.subject runner.new ≡ R.subject runner.old }
{
    let ended = take_pieces(rt, alloc, runner, form, session, src, out)?;
    if ended {
        return Ok(());
    }
    must_end(src)?;
    Ok(())
}

/// Answers the lines of a source, and writes each reply in this form before the next read. A line is answered `refused line` where it
/// isn't one of numbers; else by the least-numbered entry of the last `CACHE_LIMIT` that admits it; else by a recording, whose
/// entry is kept. At most `SESSION_INPUT_LIMIT` bytes are taken, and one more to see that there is one.
///
/// # Errors
///
/// `ReadFault` and `WriteFault` where a read or a write failed, `InputLimit` where the source has more bytes than a session
/// takes, `OutOfMemory` where there was no memory.
pub fn serve<H: Threads + Wait + Sync, R: Runner, S: Source, K: Sink>(
    rt: &H,
    alloc: Global,
    runner: &mut R,
    form: ReplyForm,
    first: Cache<R::Entry>,
    src: &mut S,
    out: &mut K,
) -> Result<(), ServeFault>
    requires exact { IsExact R.Entry.meaning }
    requires stands { Stands (R.runs (R.subject runner.old)) first }
    requires few { first.inserted ≤ CACHE_LIMIT }
    ensures done { OnOk result (HasBytes (S.rest src.old) (ServesCounted form (admits_by R.Entry.meaning R.Entry.test) (R.runs (R.subject runner.old)) first
        (told (K.taken out.old) (R.counts runner.old)) (told (K.taken out.new) (R.counts runner.new)))) }
    ensures input_limit { IsErrOf result ServeFault.InputLimit →
        HasBytes (S.rest src.old) (ServesLimit form (admits_by R.Entry.meaning R.Entry.test) (R.runs (R.subject runner.old)) first (K.taken out.old) (K.taken out.new)) }
    ensures read_fault { IsErrOf result ServeFault.ReadFault →
        ServesTaken form (admits_by R.Entry.meaning R.Entry.test) (R.runs (R.subject runner.old)) first (S.rest src.old) (S.rest src.new) (K.taken out.old) (K.taken out.new) }
    ensures write_fault_cuts { IsErrOf result ServeFault.WriteFault →
        HasBytes (S.rest src.old) (λ input. ServesFront form (admits_by R.Entry.meaning R.Entry.test) (R.runs (R.subject runner.old)) first (lines_of input) (K.taken out.old) (K.taken out.new)) }
    ensures out_of_memory_cuts { IsErrOf result ServeFault.OutOfMemory →
        HasBytes (S.rest src.old) (λ input. ServesFront form (admits_by R.Entry.meaning R.Entry.test) (R.runs (R.subject runner.old)) first (lines_of input) (K.taken out.old) (K.taken out.new)) }
    ensures read_cause { IsErrOf result ServeFault.ReadFault → Rose (S.faults src.old) (S.faults src.new) }
    ensures read_fault_within { IsErrOf result ServeFault.ReadFault → TakesAtMost (S.rest src.old) (S.rest src.new) SESSION_INPUT_LIMIT }
    ensures read_count { IsErrOf result ServeFault.ReadFault ⊎ (S.faults src.new ≡ S.faults src.old) }
    ensures write_cause { IsErrOf result ServeFault.WriteFault → Rose (K.faults out.old) (K.faults out.new) }
    ensures write_count { IsErrOf result ServeFault.WriteFault ⊎ (K.faults out.new ≡ K.faults out.old) }
    ensures takes { TakesAtMost (S.rest src.old) (S.rest src.new) (SESSION_INPUT_LIMIT + 1) }
    ensures stays { R.subject runner.new ≡ R.subject runner.old }
{
    let mut session = Session {
        cache: first,
        line: Vec::new(alloc),
    };
    take_all(rt, alloc, runner, form, &mut session, src, out)?;
    if session.line.is_empty() {
        return Ok(());
    }
    // The end of the source ends a line that has begun.
    end_line(rt, alloc, runner, form, &mut session, out)?;
    Ok(())
}
