//! The first refusal of the lines of a body.

ghost use Rattle.std.specs.Prelude.{◌≡◌, IfOk, map};
ghost use Rattle.std.specs.List.{list_any};
ghost use Rattle.pg_read_ast.specs.Views.{line_of, block_of};
ghost use Rattle.pg_check_types.specs.NumberedTypes.{named_types};
ghost use Rattle.pg_check_rules.specs.ValueConditions.{Scope};
ghost use Rattle.pg_check_rules.specs.LineConditions.{line_refused};
ghost use Rattle.pg_check_rules.specs.Earliest.{IsFirstIn};
ghost use Rattle.pg_check_rules.specs.Conditions.{all_of};
ghost use Rattle.pg_check_calls.specs.pg_check_values.Scopes.{IsLineScope};
ghost use Rattle.pg_check_bodies.specs.BodyParts.{block_refused, is_large_line, is_large_block};

use crate::lines::{line_is_large, line_refusal};
use pg_check_calls::pg_check_values::LineScope;
use pg_check_rules::{CheckRefusal, earlier_refusal};
use pg_check_types::TypeNumbers;
use pg_read_ast::{BlockNode, LineNode};
use std::alloc::{AllocError, Global};

/// The first refusal of lines.
fn lines_refusal(
    scope: &LineScope<'_>,
    lines: &[LineNode],
) -> Result<Option<CheckRefusal>, AllocError>
    ensures first { (g : Scope) → IsLineScope scope.now g →
        IfOk result (λ o. IsFirstIn (all_of (line_refused g) (map line_of lines.now)) o) }
{
    let mut found = None;
    for line in lines {
        let own = line_refusal(scope, line)?;
        found = earlier_refusal(found, own);
    }
    Ok(found)
}

/// The first refusal of the lines of blocks.
pub(crate) fn blocks_refusal(
    scope: &LineScope<'_>,
    blocks: &[BlockNode],
) -> Result<Option<CheckRefusal>, AllocError>
    ensures first { (g : Scope) → IsLineScope scope.now g →
        IfOk result (λ o. IsFirstIn (all_of (block_refused g) (map block_of blocks.now)) o) }
{
    let mut found = None;
    for block in blocks {
        let own = lines_refusal(scope, block.lines.as_slice())?;
        found = earlier_refusal(found, own);
    }
    Ok(found)
}

/// Whether one of the lines writes an aggregate that is larger than types may be.
fn is_large_among(
    alloc: Global,
    types: &TypeNumbers<'_>,
    lines: &[LineNode],
) -> Result<bool, AllocError>
    ensures large { IfOk result (λ b. b ≡ list_any (is_large_line (named_types types.now)) (map line_of lines.now)) }
{
    for line in lines {
        if line_is_large(alloc, types, line)? {
            return Ok(true);
        }
    }
    Ok(false)
}

/// Whether a line of the blocks writes an aggregate that is larger than types may be.
pub(crate) fn are_large(
    alloc: Global,
    types: &TypeNumbers<'_>,
    blocks: &[BlockNode],
) -> Result<bool, AllocError>
    ensures large { IfOk result (λ b. b ≡ list_any (is_large_block (named_types types.now)) (map block_of blocks.now)) }
{
    for block in blocks {
        if is_large_among(alloc, types, block.lines.as_slice())? {
            return Ok(true);
        }
    }
    Ok(false)
}
