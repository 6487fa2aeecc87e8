//! The summaries of quiet functions.

ghost use Rattle.std.specs.Prelude.{◌≡◌, ℕ, ◌<◌, length, All, IfOk, option_map, None};
ghost use Rattle.pg_ir.specs.declared.ids.InstrId.{InstrId};
ghost use Rattle.pg_region_accesses.specs.Accesses.{is_gated, summary_of};
ghost use Rattle.pg_region_accesses.specs.Tables.{in_table};
ghost use Rattle.pg_region_summaries.specs.Spans.{Covers};
ghost use Rattle.pg_region_summaries.specs.Summaries.{summary_by, AreSummaries};
ghost use Rattle.pg_region_summaries.specs.Work.{may_be_quiet};

use crate::blocks::blocks_of;
use crate::callees::calls;
use crate::count::has_few;
use crate::creates::{contains, started};
use crate::reaches::{Reach, largest, reach_at, reaches};
use crate::seen::seen_by_callers;
use crate::span::{Span, span_at, spans};
use pg_ir::{InstrId, Program};
use pg_region_accesses::{Summary, accesses_of, gated_table};
use std::alloc::{AllocError, Global};

/// What a function accesses, by the summaries of those that it calls, if it is quiet.
fn summary_by(
    alloc: Global,
    p: &Program,
    gated: &[bool],
    sums: &[Option<Summary>],
    span: Span,
    f: u32,
) -> Result<Option<Summary>, AllocError>
    requires function { f < length p.now.functions }
    requires span { Covers p.now (length p.now.blocks) f span }
    ensures { IfOk result (λ s. option_map (λ s. s.accesses.items) s ≡ summary_by p.now (in_table gated.now) (summary_of sums.now) f) }
{
    let blocks = blocks_of(alloc, p, span, f)?;
    if !has_few(p, sums, blocks.as_slice()) {
        return Ok(None);
    }
    match accesses_of(alloc, p, true, gated, sums, blocks.as_slice())? {
        Some(accesses) => seen_by_callers(alloc, p.function(f).params, accesses.as_slice()),
        None => Ok(None),
    }
}

/// A program with its gated set, prepared so that each of its functions can be worked once, behind those that it calls.
#[derive(Drop)]
struct Work {
    gated: Vec<bool>,
    spans: Vec<Span>,
    started: Vec<bool>,
    reaches: Vec<Reach>,
}

/// Whether a function is neither main, nor named by a create, nor one that its own calls reach.
fn may_be_quiet(p: &Program, started: &[bool], reaches: &[Reach], f: u32) -> bool
    ensures { result ≡ may_be_quiet p.now started.now reaches.now f }
{
    f != p.main() && !contains(started, f) && !reach_at(reaches, f).is_recursive
}

impl Work {
    ghost use Rattle.std.specs.Prelude.{◌≡◌, ◌<◌, ◌+◌, length, All, IfOk, OnOk};
    ghost use Rattle.pg_ir.specs.declared.ids.InstrId.{InstrId};
    ghost use Rattle.pg_region_accesses.specs.Accesses.{is_gated, summary_of};
    ghost use Rattle.pg_region_accesses.specs.Tables.{in_table};
    ghost use Rattle.pg_region_summaries.specs.Work.{IsPrepared, AreWorked, is_done};

    /// Prepares a program.
    fn new(alloc: Global, p: &Program, gated: &[InstrId]) -> Result<Work, AllocError>
        requires gated { All (λ (g : InstrId). g.0 < length p.now.instrs) gated.now }
        ensures { IfOk result (λ w. IsPrepared p.now (is_gated gated.now) w.gated.items w.spans.items w.started.items w.reaches.items) }
    {
        p.facts();
        let gated = gated_table(alloc, p.instr_count() as usize, gated)?;
        let spans = spans(alloc, p)?;
        let started = started(alloc, p)?;
        let calls = calls(alloc, p, spans.as_slice())?;
        let reaches = reaches(alloc, &calls)?;
        Ok(Work {
            gated,
            spans,
            started,
            reaches,
        })
    }

    /// Works a function if its calls reach so many.
    fn work(
        &self,
        alloc: Global,
        p: &Program,
        sums: &mut Vec<Option<Summary>>,
        size: usize,
        f: u32,
    ) -> Result<(), AllocError>
        requires prepared { IsPrepared p.now (in_table self.now.gated.items) self.now.gated.items self.now.spans.items self.now.started.items self.now.reaches.items }
        requires function { f < length p.now.functions }
        requires count { length sums.old.items ≡ length p.now.functions }
        requires sums { AreWorked p.now (in_table self.now.gated.items) (summary_of sums.old.items) (is_done p.now self.now.started.items self.now.reaches.items size f) }
        ensures count { OnOk result (length sums.new.items ≡ length p.now.functions) }
        ensures sums { OnOk result (AreWorked p.now (in_table self.now.gated.items) (summary_of sums.new.items) (is_done p.now self.now.started.items self.now.reaches.items size (f + 1))) }
    {
        p.facts();
        let reaches = self.reaches.as_slice();
        if reach_at(reaches, f).size != size
            || !may_be_quiet(p, self.started.as_slice(), reaches, f)
        {
            return Ok(());
        }
        let span = span_at(self.spans.as_slice(), f);
        let summary = summary_by(alloc, p, self.gated.as_slice(), sums.as_slice(), span, f)?;
        sums[f as usize] = summary;
        Ok(())
    }

    /// Works the functions whose calls reach so many.
    #[tactic(auto, using(crate::proofs::WorkOrder::round_over))]
    fn work_all(
        &self,
        alloc: Global,
        p: &Program,
        sums: &mut Vec<Option<Summary>>,
        size: usize,
    ) -> Result<(), AllocError>
        requires prepared { IsPrepared p.now (in_table self.now.gated.items) self.now.gated.items self.now.spans.items self.now.started.items self.now.reaches.items }
        requires count { length sums.old.items ≡ length p.now.functions }
        requires sums { AreWorked p.now (in_table self.now.gated.items) (summary_of sums.old.items) (is_done p.now self.now.started.items self.now.reaches.items size 0) }
        ensures count { OnOk result (length sums.new.items ≡ length p.now.functions) }
        ensures sums { OnOk result (AreWorked p.now (in_table self.now.gated.items) (summary_of sums.new.items) (is_done p.now self.now.started.items self.now.reaches.items (size + 1) 0)) }
    {
        for f in 0..p.function_count() {
            self.work(alloc, p, sums, size, f)?;
        }
        Ok(())
    }
}

/// Of each function what a call of it accesses, where the function is quiet: it is neither main nor named by a create, its
/// calls come to an end, it has no event, no access of the gated set, no `alloca` and no calls but of quiet functions and
/// those that read the input, and each of its accesses, 1,024 at most, has a root path from a global, a constant or a
/// parameter. Of other functions there is none. The functions are worked in the order of how many their calls reach, so
/// each once, behind those that it calls.
pub fn summaries(
    alloc: Global,
    p: &Program,
    gated: &[InstrId],
) -> Result<Vec<Option<Summary>>, AllocError>
    requires gated { All (λ (g : InstrId). g.0 < length p.now.instrs) gated.now }
    ensures count { IfOk result (λ sums. length sums.items ≡ length p.now.functions) }
    ensures summaries { IfOk result (λ sums. AreSummaries p.now (is_gated gated.now) (summary_of sums.items)) }
{
    p.facts();
    let work = Work::new(alloc, p, gated)?;
    let mut sums = none_of(alloc, p.function_count() as usize)?;
    let most = largest(work.reaches.as_slice());
    for size in 0..most {
        work.work_all(alloc, p, &mut sums, size)?;
    }
    work.work_all(alloc, p, &mut sums, most)?;
    Ok(sums)
}

/// No summary, so many times.
fn none_of(alloc: Global, count: usize) -> Result<Vec<Option<Summary>>, AllocError>
    ensures count { IfOk result (λ sums. length sums.items ≡ count) }
    ensures none { IfOk result (λ sums. (f : ℕ) → summary_of sums.items f ≡ None) }
{
    let mut sums = Vec::new(alloc);
    for _ in 0..count {
        sums.push(None)?;
    }
    Ok(sums)
}
