//! What is answered to an input, and what is kept then.
ghost use Rattle.std.specs.Prelude.{◌≡◌, ◌≤◌, ◌<◌, ◌-◌, ◌^◌, [], ◌∷◌, length, Some, None, IfOk, OnErr};
ghost use Rattle.pg_num.specs.declared.limits.TheConstants.{NUMBERS_LIMIT};
ghost use Rattle.pg_session_texts.specs.Replies.{HasEnd};
ghost use Rattle.pg_session.specs.Counts.{AreCounted};
ghost use Rattle.pg_session.specs.Progress.{Stands};
ghost use Rattle.pg_session.specs.Sessions.{Answers, IsExact, admits_by, found};
ghost use Rattle.pg_session.specs.Views.{answer_of};

use crate::runner::{Recording, Runner};
use pg_cache::Cache;
use pg_session_texts::{EndLine, ReplyKind};
use std::alloc::{AllocError, Global};
use std::sync::Wait;
use std::thread::Threads;

/// What is answered to a line of input.
#[derive(Drop)]
pub(crate) struct Answer {
    pub(crate) kind: ReplyKind,
    pub(crate) output: Vec<u8>,
    pub(crate) end: Option<EndLine>,
}

/// The answer by the entry of this number, which admits the input.
fn reused<H: Threads + Sync, R: Runner>(
    rt: &H,
    alloc: Global,
    runner: &mut R,
    cache: &Cache<R::Entry>,
    number: u64,
    input: &[i64],
) -> Result<Answer, AllocError>
    requires few { length input.now ≤ NUMBERS_LIMIT }
    requires stands { Stands (R.runs (R.subject runner.old)) cache.now }
    requires least { found (admits_by R.Entry.meaning R.Entry.test) cache.now input.now ≡ Some number }
    ensures answer { IfOk result (λ a. Answers (admits_by R.Entry.meaning R.Entry.test) (R.runs (R.subject runner.old)) cache.now input.now (answer_of a) cache.now) }
    ensures ends { IfOk result (λ a. HasEnd a.kind a.end) }
    ensures counted { IfOk result (λ a. AreCounted (answer_of a ∷ []) (R.counts runner.old) (R.counts runner.new)) }
    ensures stays { R.subject runner.new ≡ R.subject runner.old }
{
    let Some(entry) = cache.value(number) else {
        unreachable!();
    };
    let run = runner.run_along(rt, alloc, entry, input)?;
    Ok(Answer {
        kind: ReplyKind::Reused(number),
        output: run.output,
        end: Some(run.end),
    })
}

/// The answer by a recording, or that there is none, where no entry admits the input.
fn recorded<H: Threads + Wait + Sync, R: Runner>(
    rt: &H,
    alloc: Global,
    runner: &mut R,
    cache: &mut Cache<R::Entry>,
    input: &[i64],
) -> Result<Answer, AllocError>
    requires few { length input.now ≤ NUMBERS_LIMIT }
    requires stands { Stands (R.runs (R.subject runner.old)) cache.old }
    requires count { cache.old.inserted < 2 ^ 64 - 1 }
    requires none { found (admits_by R.Entry.meaning R.Entry.test) cache.old input.now ≡ None }
    ensures answer { IfOk result (λ a. Answers (admits_by R.Entry.meaning R.Entry.test) (R.runs (R.subject runner.old)) cache.old input.now (answer_of a) cache.new) }
    ensures err { OnErr result (cache.new ≡ cache.old) }
    ensures ends { IfOk result (λ a. HasEnd a.kind a.end) }
    ensures counted { IfOk result (λ a. AreCounted (answer_of a ∷ []) (R.counts runner.old) (R.counts runner.new)) }
    ensures stays { R.subject runner.new ≡ R.subject runner.old }
{
    match runner.record(rt, alloc, input)? {
        Recording::Kept(entry, run) => {
            let number = cache.insert(entry);
            Ok(Answer {
                kind: ReplyKind::Recorded(number),
                output: run.output,
                end: Some(run.end),
            })
        }
        Recording::Refused(refusal, output) => Ok(Answer {
            kind: ReplyKind::from(refusal),
            output,
            end: None,
        }),
        Recording::Untested => Ok(Answer {
            kind: ReplyKind::RefusedUntested,
            output: Vec::new(alloc),
            end: None,
        }),
    }
}

/// The answer to an input: by the least entry that is kept and admits it, or by a recording, whose entry is kept then.
pub(crate) fn answer_to<H: Threads + Wait + Sync, R: Runner>(
    rt: &H,
    alloc: Global,
    runner: &mut R,
    cache: &mut Cache<R::Entry>,
    input: &[i64],
) -> Result<Answer, AllocError>
    requires exact { IsExact R.Entry.meaning }
    requires few { length input.now ≤ NUMBERS_LIMIT }
    requires stands { Stands (R.runs (R.subject runner.old)) cache.old }
    requires count { cache.old.inserted < 2 ^ 64 - 1 }
    ensures answer { IfOk result (λ a. Answers (admits_by R.Entry.meaning R.Entry.test) (R.runs (R.subject runner.old)) cache.old input.now (answer_of a) cache.new) }
    ensures err { OnErr result (cache.new ≡ cache.old) }
    ensures ends { IfOk result (λ a. HasEnd a.kind a.end) }
    ensures counted { IfOk result (λ a. AreCounted (answer_of a ∷ []) (R.counts runner.old) (R.counts runner.new)) }
    ensures stays { R.subject runner.new ≡ R.subject runner.old }
{
    match cache.find(input) {
        Some(number) => reused(rt, alloc, runner, cache, number, input),
        None => recorded(rt, alloc, runner, cache, input),
    }
}
