//! A session over bytes that come in pieces: each line is answered as soon as it ends.
ghost use Rattle.std.specs.Prelude.{◌≡◌, ◌≤◌, ◌<◌, ◌+◌, ◌-◌, ◌^◌, [], ◌∷◌, length, IfOk, OnOk, OnErr, IsErrOf, ◌⊎◌};
ghost use Rattle.pg_io.specs.Faults.{Rose};
ghost use Rattle.pg_num.specs.declared.limits.TheConstants.{LINE_LIMIT};
ghost use Rattle.pg_session_texts.specs.Replies.{HasEnd};
ghost use Rattle.pg_session.specs.Counts.{AreCounted, told};
ghost use Rattle.pg_session.specs.Lines.{input_of};
ghost use Rattle.pg_session.specs.Sessions.{AnswersLine, IsExact, admits_by, answer_text, begin};
ghost use Rattle.pg_session.specs.Progress.{Answered, CutShort, IsReplyTo, Stands, begun_after, inputs_after, keep};
ghost use Rattle.pg_session.specs.Views.{answer_of};

use crate::answers::{Answer, answer_to};
use crate::fault::ReplyFault;
use crate::lines::input_of;
use crate::runner::Runner;
use pg_cache::Cache;
use pg_io::{Sink, write_all};
use pg_num::limits::{CACHE_LIMIT, LINE_LIMIT};
use pg_session_texts::{ReplyForm, ReplyKind, text_in};
use std::alloc::{AllocError, Global};
use std::sync::Wait;
use std::thread::Threads;

/// The entries that are kept, and the line that has begun: its bytes, or so many that it is too long.
#[derive(Drop)]
pub(crate) struct Session<E: Drop> {
    pub(crate) cache: Cache<E>,
    pub(crate) line: Vec<u8>,
}

/// What a session keeps at first that begins with no entries.
///
/// # Errors
///
/// Where no memory is left.
pub fn begin<E: Drop>(alloc: Global) -> Result<Cache<E>, AllocError>
    ensures { IfOk result (λ c. c ≡ begin) }
{
    // In two lines for the proof: see docs/CONTRIBUTING.md.
    let cache = Cache::new(alloc, CACHE_LIMIT)?;
    Ok(cache)
}

// The answer to a line.
fn answer_line<H: Threads + Wait + Sync, R: Runner>(
    rt: &H,
    alloc: Global,
    runner: &mut R,
    cache: &mut Cache<R::Entry>,
    line: &[u8],
) -> Result<Answer, AllocError>
    requires exact { IsExact R.Entry.meaning }
    requires stands { Stands (R.runs (R.subject runner.old)) cache.old }
    requires count { cache.old.inserted < 2 ^ 64 - 1 }
    ensures answer { IfOk result (λ a. AnswersLine (admits_by R.Entry.meaning R.Entry.test) (R.runs (R.subject runner.old)) cache.old (input_of line.now) (answer_of a) cache.new) }
    ensures ends { IfOk result (λ a. HasEnd a.kind a.end) }
    ensures counted { IfOk result (λ a. AreCounted (answer_of a ∷ []) (R.counts runner.old) (R.counts runner.new)) }
    ensures stays { R.subject runner.new ≡ R.subject runner.old }
{
    match input_of(alloc, line)? {
        Some(input) => answer_to(rt, alloc, runner, cache, &input),
        None => Ok(Answer {
            kind: ReplyKind::RefusedLine,
            output: Vec::new(alloc),
            end: None,
        }),
    }
}

// The text of an answer in this form.
fn text_of(alloc: Global, form: ReplyForm, answer: Answer) -> Result<Vec<u8>, AllocError>
    requires { HasEnd answer.kind answer.end }
    ensures { IfOk result (λ text. text.items ≡ answer_text form (answer_of answer)) }
{
    let Answer { kind, output, end } = answer;
    text_in(alloc, form, &kind, &output, end.as_ref())
}

// The text of the reply to a line.
fn reply<H: Threads + Wait + Sync, R: Runner>(
    rt: &H,
    alloc: Global,
    runner: &mut R,
    form: ReplyForm,
    cache: &mut Cache<R::Entry>,
    line: &[u8],
) -> Result<Vec<u8>, AllocError>
    requires exact { IsExact R.Entry.meaning }
    requires stands { Stands (R.runs (R.subject runner.old)) cache.old }
    requires count { cache.old.inserted < 2 ^ 64 - 1 }
    ensures text { IfOk result (λ text. IsReplyTo form (admits_by R.Entry.meaning R.Entry.test) (R.runs (R.subject runner.old)) cache.old line.now cache.new text.items (R.counts runner.old) (R.counts runner.new)) }
    ensures stays { R.subject runner.new ≡ R.subject runner.old }
{
    let answer = answer_line(rt, alloc, runner, cache, line)?;
    // In two lines for the proof: see docs/CONTRIBUTING.md.
    let text = text_of(alloc, form, answer)?;
    Ok(text)
}

/// Ends the line that has begun, and writes the reply to it.
pub(crate) fn end_line<H: Threads + Wait + Sync, R: Runner, K: Sink>(
    rt: &H,
    alloc: Global,
    runner: &mut R,
    form: ReplyForm,
    session: &mut Session<R::Entry>,
    out: &mut K,
) -> Result<(), ReplyFault>
    requires exact { IsExact R.Entry.meaning }
    requires stands { Stands (R.runs (R.subject runner.old)) session.old.cache }
    requires count { session.old.cache.inserted < 2 ^ 64 - 1 }
    ensures answered { OnOk result (Answered form (admits_by R.Entry.meaning R.Entry.test) (R.runs (R.subject runner.old)) session.old.cache (input_of session.old.line.items ∷ [])
        session.new.cache (told (K.taken out.old) (R.counts runner.old)) (told (K.taken out.new) (R.counts runner.new))) }
    ensures cut { OnErr result (CutShort form (admits_by R.Entry.meaning R.Entry.test)
        (R.runs (R.subject runner.old)) session.old.cache (input_of session.old.line.items ∷ []) (K.taken out.old) (K.taken out.new)) }
    ensures line { OnOk result (session.new.line.items ≡ []) }
    ensures cause { IsErrOf result ReplyFault.WriteFault → Rose (K.faults out.old) (K.faults out.new) }
    ensures count_stays { IsErrOf result ReplyFault.WriteFault ⊎ (K.faults out.new ≡ K.faults out.old) }
    ensures stays { R.subject runner.new ≡ R.subject runner.old }
{
    let text = reply(rt, alloc, runner, form, &mut session.cache, &session.line)?;
    session.line.clear();
    write_all(out, &text)?;
    Ok(())
}

// Takes a byte of a line, unless the line is too long already.
fn keep(line: &mut Vec<u8>, byte: u8) -> Result<(), AllocError>
    requires { length line.old.items ≤ LINE_LIMIT + 1 }
    ensures { OnOk result (line.new.items ≡ keep line.old.items byte) }
{
    if line.len() <= LINE_LIMIT {
        line.push(byte)?;
    }
    Ok(())
}

/// Takes the bytes of a piece, and writes the reply to each line that ends in it.
pub(crate) fn take_piece<H: Threads + Wait + Sync, R: Runner, K: Sink>(
    rt: &H,
    alloc: Global,
    runner: &mut R,
    form: ReplyForm,
    session: &mut Session<R::Entry>,
    piece: &[u8],
    out: &mut K,
) -> Result<(), ReplyFault>
    requires exact { IsExact R.Entry.meaning }
    requires stands { Stands (R.runs (R.subject runner.old)) session.old.cache }
    requires count { session.old.cache.inserted + length piece.now < 2 ^ 64 - 1 }
    requires line { length session.old.line.items ≤ LINE_LIMIT + 1 }
    ensures answered { OnOk result (Answered form (admits_by R.Entry.meaning R.Entry.test) (R.runs (R.subject runner.old)) session.old.cache (inputs_after session.old.line.items piece.now)
        session.new.cache (told (K.taken out.old) (R.counts runner.old)) (told (K.taken out.new) (R.counts runner.new))) }
    ensures cut { OnErr result (CutShort form (admits_by R.Entry.meaning R.Entry.test)
        (R.runs (R.subject runner.old)) session.old.cache (inputs_after session.old.line.items piece.now) (K.taken out.old) (K.taken out.new)) }
    ensures line { OnOk result (session.new.line.items ≡ begun_after session.old.line.items piece.now) }
    ensures cause { IsErrOf result ReplyFault.WriteFault → Rose (K.faults out.old) (K.faults out.new) }
    ensures count_stays { IsErrOf result ReplyFault.WriteFault ⊎ (K.faults out.new ≡ K.faults out.old) }
    ensures stays { R.subject runner.new ≡ R.subject runner.old }
{
    for byte in piece {
        if *byte == b'\n' {
            end_line(rt, alloc, runner, form, session, out)?;
        } else {
            keep(&mut session.line, *byte)?;
        }
    }
    Ok(())
}
