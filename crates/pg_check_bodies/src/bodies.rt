//! The first refusal in the bodies of functions.

ghost use Rattle.std.specs.Prelude.{◌≡◌, IfOk, map};
ghost use Rattle.pg_read_ast.specs.Views.{define_of, tree_of};
ghost use Rattle.pg_check_types.specs.NumberedTypes.{named_types};
ghost use Rattle.pg_check_rules.specs.Conditions.{bodies};
ghost use Rattle.pg_check_rules.specs.Earliest.{IsFirstAmong};

use crate::body::body_refusal;
use crate::limits::lines_until;
use pg_check_rules::{CheckRefusal, Symbols};
use pg_check_types::TypeNumbers;
use pg_read_ast::DefineItem;
use std::alloc::{AllocError, Global};

/// The first refusal in the bodies of functions: of the first that has one, the earliest.
fn first_among(
    alloc: Global,
    types: &TypeNumbers<'_>,
    symbols: &Symbols<'_>,
    items: &[DefineItem],
) -> Result<Option<CheckRefusal>, AllocError>
    requires { named_types types.now ≡ (tree_of symbols.now.tree.now).types }
    ensures first { IfOk result (λ o. IsFirstAmong (bodies (tree_of symbols.now.tree.now) (map define_of items.now) 0) o) }
{
    let mut until = 0;
    for item in items {
        until = lines_until(until, item.blocks.as_slice());
        if let Some(refusal) = body_refusal(alloc, types, symbols, until, item)? {
            return Ok(Some(refusal));
        }
    }
    Ok(None)
}

/// The first refusal in the bodies of a module's functions: of the first function that has one, the earliest.
pub fn first_of_bodies(
    alloc: Global,
    types: &TypeNumbers<'_>,
    symbols: &Symbols<'_>,
) -> Result<Option<CheckRefusal>, AllocError>
    requires { named_types types.now ≡ (tree_of symbols.now.tree.now).types }
    ensures first { IfOk result (λ o. IsFirstAmong (bodies (tree_of symbols.now.tree.now) (tree_of symbols.now.tree.now).functions 0) o) }
{
    // In two lines for the proof: see docs/CONTRIBUTING.md.
    let found = first_among(alloc, types, symbols, symbols.tree.functions.as_slice())?;
    Ok(found)
}
