//! The indices of a `getelementptr`.

ghost use Rattle.std.specs.Prelude.{◌≡◌, IfOk, length, map};
ghost use Rattle.pg_read_ast.specs.Views.{ty_of, typed_of, tree_of};
ghost use Rattle.pg_check_rules.specs.Constants.{index_scales};
ghost use Rattle.pg_check_rules.specs.Numbered.{index_at, indices_at};
ghost use Rattle.pg_check_program.specs.Room.{Each};
ghost use Rattle.pg_check_program.specs.ScopeNames.{ScopeNames, scope_in};
ghost use Rattle.pg_check_program.specs.ScopeSizes.{TyIsSmall, TypedIsSmall};

use crate::function_scope::FunctionScope;
use crate::operands::{typed_value, typed_width};
use pg_check_constants::index_scales;
use pg_check_rules::index_numbers;
use pg_ir::{Index, Scale};
use pg_read_ast::{TypeNode, TypedVal};
use std::alloc::AllocError;

/// An index of a `getelementptr`.
fn index_at(scope: &FunctionScope<'_>, index: &TypedVal, scale: Scale) -> Result<Index, AllocError>
    requires value { TypedIsSmall scope.now (typed_of index.now) }
    ensures index { (names : ScopeNames scope.now) →
        IfOk result (λ i. i ≡ index_at (scope_in scope.now names) (typed_of index.now) scale) }
{
    let value = typed_value(scope, index)?;
    let width = typed_width(scope, index)?;
    Ok(Index {
        value,
        width,
        scale,
    })
}

/// Indices that move as they are scaled.
fn scaled_indices(
    scope: &FunctionScope<'_>,
    indices: &[TypedVal],
    scales: &[Scale],
) -> Result<Vec<Index>, AllocError>
    requires lengths { length indices.now ≡ length scales.now }
    requires values { Each (TypedIsSmall scope.now) (map typed_of indices.now) }
    ensures indices { (names : ScopeNames scope.now) →
        IfOk result (λ v. v.items ≡ indices_at (scope_in scope.now names) (map typed_of indices.now) scales.now) }
{
    let mut found = Vec::new(scope.globals.alloc);
    for place in 0..scales.len() {
        let one = index_at(scope, &indices[place], scales[place])?;
        found.push(one)?;
    }
    Ok(found)
}

/// The scales of indices, constants or not.
#[tactic(auto, using(pg_check_constants::proofs::ScaleSteps::index_scales_are, crate::proofs::ModuleTypes::module_types))]
fn scales_at(
    scope: &FunctionScope<'_>,
    ty: &TypeNode,
    indices: &[TypedVal],
) -> Result<Vec<Scale>, AllocError>
    requires ty { TyIsSmall scope.now (ty_of ty.now) }
    ensures scales { IfOk result (λ v. v.items ≡
        index_scales (tree_of scope.now.globals.now.symbols.tree.now).types (ty_of ty.now) (map typed_of indices.now)) }
{
    let numbers = index_numbers(scope.globals.alloc, scope.globals.types, indices)?;
    index_scales(
        scope.globals.alloc,
        scope.globals.types,
        ty,
        numbers.as_slice(),
    )
}

/// The indices of a `getelementptr` into a type.
pub(crate) fn indices_at(
    scope: &FunctionScope<'_>,
    ty: &TypeNode,
    indices: &[TypedVal],
) -> Result<Vec<Index>, AllocError>
    requires ty { TyIsSmall scope.now (ty_of ty.now) }
    requires values { Each (TypedIsSmall scope.now) (map typed_of indices.now) }
    ensures indices { (names : ScopeNames scope.now) → IfOk result (λ v. v.items ≡
        indices_at (scope_in scope.now names) (map typed_of indices.now)
        (index_scales (tree_of scope.now.globals.now.symbols.tree.now).types (ty_of ty.now) (map typed_of indices.now))) }
{
    let scales = scales_at(scope, ty, indices)?;
    scaled_indices(scope, indices, scales.as_slice())
}
