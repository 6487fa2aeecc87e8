//! The values of a `phi` and the cases of a `switch`.

ghost use Rattle.std.specs.Prelude.{◌≡◌, ◌∷◌, ◌++◌, IfOk, OnOk, map, unwrap_or};
ghost use Rattle.pg_read_ast.specs.Views.{ty_of, typed_of, incoming_of, case_of};
ghost use Rattle.pg_check_types.specs.Resolved.{resolved};
ghost use Rattle.pg_check_types.specs.NumberedTypes.{named_types};
ghost use Rattle.pg_check_rules.specs.ValueConditions.{number_at};
ghost use Rattle.pg_check_rules.specs.Numbered.{incoming_at, case_at};
ghost use Rattle.pg_check_program.specs.Room.{Each};
ghost use Rattle.pg_check_program.specs.ScopeNames.{ScopeNames, scope_in};
ghost use Rattle.pg_check_program.specs.ScopeSizes.{IncomingIsSmall};

use crate::function_scope::FunctionScope;
use crate::operands::value_at;
use crate::scope::block_at;
use pg_check_rules::number_at;
use pg_check_types::TypeNumbers;
use pg_ir::{Case, Incoming};
use pg_read_ast::{CaseNode, IncomingNode, TypeNode, TypedVal};
use std::alloc::AllocError;

/// A value of a `phi`, and the number of the basic block that it comes from.
fn incoming_at(
    scope: &FunctionScope<'_>,
    ty: &TypeNode,
    incoming: &IncomingNode,
) -> Result<Incoming, AllocError>
    requires value { IncomingIsSmall scope.now (incoming_of incoming.now) }
    ensures incoming { (names : ScopeNames scope.now) →
        IfOk result (λ i. i ≡ incoming_at (scope_in scope.now names) scope.now.first (ty_of ty.now) (incoming_of incoming.now)) }
{
    let block = block_at(scope, &incoming.block);
    let value = value_at(scope, ty, &incoming.value)?;
    Ok(Incoming { block, value })
}

/// Adds the values of a `phi`.
fn add_incomings(
    scope: &FunctionScope<'_>,
    ty: &TypeNode,
    found: &mut Vec<Incoming>,
    all: &[IncomingNode],
) -> Result<(), AllocError>
    requires values { Each (IncomingIsSmall scope.now) (map incoming_of all.now) }
    ensures incomings { (names : ScopeNames scope.now) → OnOk result (found.new.items ≡ found.old.items
        ++ map (incoming_at (scope_in scope.now names) scope.now.first (ty_of ty.now)) (map incoming_of all.now)) }
{
    for incoming in all {
        let one = incoming_at(scope, ty, incoming)?;
        found.push(one)?;
    }
    Ok(())
}

/// The values of a `phi`: the first and the others.
pub(crate) fn incomings_at(
    scope: &FunctionScope<'_>,
    ty: &TypeNode,
    first: &IncomingNode,
    others: &[IncomingNode],
) -> Result<Vec<Incoming>, AllocError>
    requires first { IncomingIsSmall scope.now (incoming_of first.now) }
    requires others { Each (IncomingIsSmall scope.now) (map incoming_of others.now) }
    ensures incomings { (names : ScopeNames scope.now) → IfOk result (λ v. v.items ≡
        map (incoming_at (scope_in scope.now names) scope.now.first (ty_of ty.now)) (incoming_of first.now ∷ map incoming_of others.now)) }
{
    let one = incoming_at(scope, ty, first)?;
    let mut found = Vec::new(scope.globals.alloc);
    found.push(one)?;
    add_incomings(scope, ty, &mut found, others)?;
    Ok(found)
}

/// The number of a case at the type of its `switch`, and 0 where it has none.
fn case_number(types: &TypeNumbers<'_>, ty: &TypeNode, value: &TypedVal) -> Result<u64, AllocError>
    ensures number { IfOk result (λ n. n ≡ unwrap_or (number_at (resolved (named_types types.now) (ty_of ty.now)) (typed_of value.now).value) 0) }
{
    let number = number_at(types, ty, &value.value)?;
    Ok(number.unwrap_or(0))
}

/// A case of a `switch`, and the number of its basic block.
#[tactic(auto, using(crate::proofs::ModuleTypes::module_types))]
fn case_at(scope: &FunctionScope<'_>, ty: &TypeNode, case: &CaseNode) -> Result<Case, AllocError>
    ensures case { (names : ScopeNames scope.now) →
        IfOk result (λ i. i ≡ case_at (scope_in scope.now names) scope.now.first (ty_of ty.now) (case_of case.now)) }
{
    let value = case_number(scope.globals.types, ty, &case.value)?;
    let to = block_at(scope, &case.block);
    Ok(Case { value, to })
}

/// The cases of a `switch`.
pub(crate) fn cases_at(
    scope: &FunctionScope<'_>,
    ty: &TypeNode,
    cases: &[CaseNode],
) -> Result<Vec<Case>, AllocError>
    ensures cases { (names : ScopeNames scope.now) → IfOk result (λ v. v.items ≡
        map (case_at (scope_in scope.now names) scope.now.first (ty_of ty.now)) (map case_of cases.now)) }
{
    let mut found = Vec::new(scope.globals.alloc);
    for case in cases {
        let one = case_at(scope, ty, case)?;
        found.push(one)?;
    }
    Ok(found)
}
