//! The blocks of a function.

ghost use Rattle.std.specs.Prelude.{◌≡◌, ◌<◌, length, All, IfOk};
ghost use Rattle.pg_ir.specs.Program.{function_of};
ghost use Rattle.pg_region_summaries.specs.Blocks.{blocks_of};
ghost use Rattle.pg_region_summaries.specs.Spans.{Covers};

use crate::span::Span;
use pg_ir::{BlockNo, Program};
use std::alloc::{AllocError, Global};

/// The blocks of a function, which lie in this span.
pub(crate) fn blocks_of(
    alloc: Global,
    p: &Program,
    span: Span,
    f: u32,
) -> Result<Vec<u32>, AllocError>
    requires { Covers p.now (length p.now.blocks) f span }
    ensures blocks { IfOk result (λ blocks. blocks.items ≡ blocks_of p.now f) }
    ensures within { IfOk result (λ blocks. All (λ b. b < length p.now.blocks) blocks.items) }
{
    let mut blocks = Vec::new(alloc);
    for b in span.first..span.end {
        let b = b as u32;
        if p.block(BlockNo(b)).function == f {
            blocks.push(b)?;
        }
    }
    Ok(blocks)
}
