//! The words of constants.

ghost use Rattle.std.specs.Prelude.{◌≡◌, IfOk, map, unwrap_or};
ghost use Rattle.pg_num.specs.Pointers.{moved_by};
ghost use Rattle.pg_read_ast.specs.Syntax.{Int};
ghost use Rattle.pg_read_ast.specs.Views.{ty_of, val_of, typed_of, tree_of};
ghost use Rattle.pg_check_types.specs.Resolved.{resolved};
ghost use Rattle.pg_check_types.specs.NumberedTypes.{named_types};
ghost use Rattle.pg_check_rules.specs.ValueConditions.{number_at};
ghost use Rattle.pg_check_rules.specs.Constants.{index_scales, moves, pointer_word};
ghost use Rattle.pg_check_constants.specs.Words.{kind_word};
ghost use Rattle.pg_check_constants.specs.Sizes.{TypeFits, ValFits};

use crate::globals::{Globals, symbol_word};
use crate::indices::{index_scales, moved_along};
use pg_check_rules::{constant_number, index_numbers, literal_at};
use pg_check_types::{TypeKind, TypeNumbers};
use pg_read_ast::{Literal, TypeNode, TypedVal, ValNode};
use std::alloc::{AllocError, Global};

/// A pointer's word that constant indices move.
#[tactic(auto, using(crate::proofs::ScaleSteps::index_scales_are, crate::proofs::ScaleSteps::moves_are))]
fn moved_word(
    alloc: Global,
    types: &TypeNumbers<'_>,
    word: u64,
    ty: &TypeNode,
    indices: &[TypedVal],
) -> Result<u64, AllocError>
    requires { TypeFits (named_types types.now) (ty_of ty.now) }
    ensures word { IfOk result (λ w. w ≡ moved_by word (moves (named_types types.now)
        (index_scales (named_types types.now) (ty_of ty.now) (map typed_of indices.now)) (map typed_of indices.now))) }
{
    let numbers = index_numbers(alloc, types, indices)?;
    let scales = index_scales(alloc, types, ty, numbers.as_slice())?;
    Ok(moved_along(word, scales.as_slice(), numbers.as_slice()))
}

/// The word of a pointer that is written as an integer.
fn integer_word(
    types: &TypeNumbers<'_>,
    ty: &TypeNode,
    literal: &Literal,
) -> Result<u64, AllocError>
    ensures word { IfOk result (λ w. w ≡ unwrap_or (number_at (resolved (named_types types.now) (ty_of ty.now)) (Int literal.now)) 0) }
{
    let number = literal_at(types, ty, literal)?;
    Ok(number.unwrap_or(0))
}

/// The word of a pointer constant.
#[cycle(words)]
#[tactic(auto, unfolding(pg_check_rules::specs::Constants::pointer_word))]
pub(crate) fn pointer_word(globals: &Globals<'_>, value: &ValNode) -> Result<u64, AllocError>
    requires fits { ValFits (tree_of globals.now.symbols.tree.now).types (val_of value.now) }
    ensures word { IfOk result (λ w. w ≡ pointer_word (tree_of globals.now.symbols.tree.now) (val_of value.now)) }
{
    match value {
        ValNode::Global(name) => Ok(symbol_word(globals, name.text.as_slice())),
        ValNode::GetElementPtr(_, ty, _, base, indices) => {
            let word = pointer_word(globals, base)?;
            moved_word(globals.alloc, globals.types, word, ty, indices.as_slice())
        }
        ValNode::IntToPtr(_, ty, literal, _) => integer_word(globals.types, ty, literal),
        _ => Ok(0),
    }
}

/// The number of a constant by the kind of its type.
pub fn kind_word(
    globals: &Globals<'_>,
    kind: Option<TypeKind>,
    value: &ValNode,
) -> Result<u64, AllocError>
    requires fits { ValFits (tree_of globals.now.symbols.tree.now).types (val_of value.now) }
    ensures word { IfOk result (λ w. w ≡ kind_word (tree_of globals.now.symbols.tree.now) kind (val_of value.now)) }
{
    match kind {
        Some(TypeKind::Integer(width)) => Ok(constant_number(width, value).unwrap_or(0)),
        Some(TypeKind::Pointer) => pointer_word(globals, value),
        _ => Ok(0),
    }
}
