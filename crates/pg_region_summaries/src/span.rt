//! The blocks among which those of a function are.

ghost use Rattle.std.specs.Prelude.{◌≡◌, ℕ, ◌<◌, ◌≤◌, ◌+◌, ◌^◌, length, IfOk};
ghost use Rattle.pg_ir.specs.Program.{function_of};
ghost use Rattle.pg_region_summaries.specs.Spans.{span_at, extended, Covers};

use pg_ir::{BlockNo, Program};
use pg_region_accesses::block_count;
use std::alloc::{AllocError, Global};

/// The blocks among which those of a function are: from `first` on, before `end`.
#[derive(Clone, Copy)]
pub struct Span {
    pub first: u64,
    pub end: u64,
}

/// The span of a function.
pub(crate) fn span_at(spans: &[Span], f: u32) -> Span
    ensures { result ≡ span_at spans.now f }
{
    match spans.get(f as usize) {
        Some(span) => *span,
        None => Span { first: 0, end: 0 },
    }
}

/// A span with one block more, behind its own.
fn extended(span: Span, b: u64) -> Span
    requires { b < 2 ^ 32 }
    ensures { result ≡ extended span b }
{
    if span.end == 0 {
        Span {
            first: b,
            end: b + 1,
        }
    } else {
        Span {
            first: span.first,
            end: b + 1,
        }
    }
}

/// Of each function where its blocks lie: next to one another, in a text as it is written.
pub(crate) fn spans(alloc: Global, p: &Program) -> Result<Vec<Span>, AllocError>
    ensures size { IfOk result (λ spans. length spans.items ≡ length p.now.functions) }
    ensures spans { IfOk result (λ spans. (f : ℕ) → f < length p.now.functions → Covers p.now (length p.now.blocks) f (span_at spans.items f)) }
{
    let none = Span { first: 0, end: 0 };
    let mut spans = vec![in alloc; none; p.function_count() as usize]?;
    for b in 0..block_count(p) {
        let f = p.block(BlockNo(b as u32)).function;
        let span = span_at(spans.as_slice(), f);
        spans[f as usize] = extended(span, b);
    }
    Ok(spans)
}
