//! What a session keeps whose replies aren't asked for.
ghost use Rattle.std.specs.Prelude.{◌≡◌, ◌<◌, ◌≤◌, ◌+◌, ◌⊎◌, None, length, IfOk, IfSome, IsErrOf};
ghost use Rattle.pg_io.specs.Faults.{Rose};
ghost use Rattle.pg_io.specs.Streams.{TakesAtMost};
ghost use Rattle.pg_num.specs.declared.limits.TheConstants.{CACHE_LIMIT, SESSION_INPUT_LIMIT};
ghost use Rattle.pg_session.specs.Counts.{KeepsCounted};
ghost use Rattle.pg_session.specs.Progress.{Stands};
ghost use Rattle.pg_session.specs.Sessions.{IsExact, admits_by};
ghost use Rattle.pg_session.specs.Texts.{HasBytes};

use crate::fault::ServeFault;
use crate::runner::Runner;
use crate::serving::take_all;
use crate::session::{Session, end_line};
use pg_cache::Cache;
use pg_io::{Failed, Sink, Source};
use pg_session_texts::ReplyForm;
use std::alloc::Global;
use std::sync::Wait;
use std::thread::Threads;

/// Takes all that it is handed, and tells nothing of it.
#[derive(Drop)]
struct Nowhere;

impl Sink for Nowhere {
    ghost taken = { λ _. None };

    ghost faults = { λ _. 0 };

    fn write(&mut self, piece: &[u8]) -> Result<usize, Failed> {
        Ok(piece.len())
    }
}

/// What a session keeps that begins with these entries and answers the lines of a source. Nothing is written.
///
/// # Errors
///
/// `ReadFault` where a read failed, `InputLimit` where the source has more bytes than a session takes, `OutOfMemory` where there
/// was no memory.
pub fn kept_by<H: Threads + Wait + Sync, R: Runner, S: Source>(
    rt: &H,
    alloc: Global,
    runner: &mut R,
    first: Cache<R::Entry>,
    src: &mut S,
) -> Result<Cache<R::Entry>, ServeFault>
    requires exact { IsExact R.Entry.meaning }
    requires stands { Stands (R.runs (R.subject runner.old)) first }
    requires few { first.inserted ≤ CACHE_LIMIT }
    ensures done { IfOk result (λ c. HasBytes (S.rest src.old) (KeepsCounted (admits_by R.Entry.meaning R.Entry.test) (R.runs (R.subject runner.old)) first c (R.counts runner.old) (R.counts runner.new))) }
    ensures no_write { IsErrOf result ServeFault.WriteFault → ⊥ }
    ensures input_limit { IsErrOf result ServeFault.InputLimit → HasBytes (S.rest src.old) (λ input. SESSION_INPUT_LIMIT < length input) }
    ensures read_cause { IsErrOf result ServeFault.ReadFault → Rose (S.faults src.old) (S.faults src.new) }
    ensures read_fault_within { IsErrOf result ServeFault.ReadFault → TakesAtMost (S.rest src.old) (S.rest src.new) SESSION_INPUT_LIMIT }
    ensures read_count { IsErrOf result ServeFault.ReadFault ⊎ (S.faults src.new ≡ S.faults src.old) }
    ensures takes { TakesAtMost (S.rest src.old) (S.rest src.new) (SESSION_INPUT_LIMIT + 1) }
    ensures stays { R.subject runner.new ≡ R.subject runner.old }
{
    let mut session = Session {
        cache: first,
        line: Vec::new(alloc),
    };
    let mut out = Nowhere;
    take_all(
        rt,
        alloc,
        runner,
        ReplyForm::Lines,
        &mut session,
        src,
        &mut out,
    )?;
    if session.line.is_empty() {
        let Session { cache, .. } = session;
        return Ok(cache);
    }
    end_line(rt, alloc, runner, ReplyForm::Lines, &mut session, &mut out)?;
    let Session { cache, .. } = session;
    Ok(cache)
}
