//! Values and the widths of their types.

ghost use Rattle.std.specs.Prelude.{◌≡◌, IfOk, map};
ghost use Rattle.pg_read_ast.specs.Views.{ty_of, val_of, typed_of, tree_of};
ghost use Rattle.pg_check_types.specs.NumberedTypes.{named_types};
ghost use Rattle.pg_check_rules.specs.Numbered.{symbol_value, value_at, typed_value, type_in, width_in};
ghost use Rattle.pg_check_types.specs.Layout.{size_or_none};
ghost use Rattle.pg_check_rules.specs.Symbols.{symbol_of};
ghost use Rattle.pg_check_rules.specs.Constants.{constant_word};
ghost use Rattle.pg_ir.specs.declared.value.Value.TheVariants.{Const};
ghost use Rattle.pg_check_program.specs.Room.{IsShort, Each};
ghost use Rattle.pg_check_program.specs.ScopeNames.{ScopeNames, scope_in};
ghost use Rattle.pg_check_program.specs.ScopeSizes.{TyIsSmall, ValIsSmall, TypedIsSmall};
ghost use Rattle.pg_check_constants.specs.Words.{kind_width};
ghost use Rattle.pg_check_constants.specs.Sizes.{ValFits};
ghost use Rattle.pg_check_types.specs.Resolved.{resolved};

use crate::function_scope::FunctionScope;
use crate::scope::register_number;
use pg_check_constants::{Globals, kind_word, size_or_none};
use pg_check_rules::{SymbolNode, symbol};
use pg_check_types::{KnownTypes, TypeKind};
use pg_ir::Value;
use pg_num::Width;
use pg_read_ast::{TypeNode, TypedVal, ValNode};
use std::alloc::AllocError;

/// A global or a function by its number.
fn symbol_value(symbol: SymbolNode<'_>) -> Value
    requires { IsShort (symbol_of symbol) }
    ensures { result ≡ symbol_value (symbol_of symbol.entry) }
{
    match symbol {
        SymbolNode::Variable(place, _) => Value::Global(place as u32),
        SymbolNode::Definition(place, _) => Value::Function(place as u32),
        _ => Value::Const(0),
    }
}

/// A constant of a type.
#[tactic(auto, using(crate::proofs::KindWords::word_of_kind))]
fn constant_at(globals: &Globals<'_>, ty: &TypeNode, value: &ValNode) -> Result<Value, AllocError>
    requires fits { ValFits (tree_of globals.now.symbols.tree.now).types (val_of value.now) }
    ensures constant { IfOk result (λ v. v ≡ Const (constant_word (tree_of globals.now.symbols.tree.now)
        (resolved (named_types globals.now.types.now) (ty_of ty.now)) (val_of value.now))) }
{
    let kind = globals.types.kind(ty)?;
    let word = kind_word(globals, kind, value)?;
    Ok(Value::Const(word))
}

/// A value at a type: a register, a global or a function by its number, and else a constant.
#[tactic(auto, using(crate::proofs::ModuleTypes::module_types), unfolding(pg_check_rules::specs::Numbered::value_of))]
pub(crate) fn value_at(
    scope: &FunctionScope<'_>,
    ty: &TypeNode,
    value: &ValNode,
) -> Result<Value, AllocError>
    requires value { ValIsSmall scope.now (val_of value.now) }
    ensures value { (names : ScopeNames scope.now) →
        IfOk result (λ v. v ≡ value_at (scope_in scope.now names) (ty_of ty.now) (val_of value.now)) }
{
    match value {
        ValNode::Local(name) => Ok(Value::Register(register_number(scope, name))),
        ValNode::Global(name) => Ok(symbol_value(symbol(
            &scope.globals.symbols,
            name.text.as_slice(),
        ))),
        _ => constant_at(scope.globals, ty, value),
    }
}

/// A value at the type that is written before it.
pub(crate) fn typed_value(scope: &FunctionScope<'_>, value: &TypedVal) -> Result<Value, AllocError>
    requires value { TypedIsSmall scope.now (typed_of value.now) }
    ensures value { (names : ScopeNames scope.now) →
        IfOk result (λ v. v ≡ typed_value (scope_in scope.now names) (typed_of value.now)) }
{
    value_at(scope, &value.ty, &value.value)
}

fn kind_width(kind: Option<TypeKind>) -> Width
    ensures { result ≡ kind_width kind }
{
    match kind {
        Some(TypeKind::Integer(width)) => width,
        _ => Width::W64,
    }
}

/// The width of a type's values: of an integer its own, and else 64 bits.
#[tactic(auto, using(crate::proofs::KindWords::width_of_kind, crate::proofs::ModuleTypes::module_types))]
pub(crate) fn width_at(scope: &FunctionScope<'_>, ty: &TypeNode) -> Result<Width, AllocError>
    ensures width { (names : ScopeNames scope.now) →
        IfOk result (λ w. w ≡ width_in (type_in (scope_in scope.now names) (ty_of ty.now))) }
{
    let kind = scope.globals.types.kind(ty)?;
    Ok(kind_width(kind))
}

/// The width of the type that is written before a value.
pub(crate) fn typed_width(scope: &FunctionScope<'_>, value: &TypedVal) -> Result<Width, AllocError>
    ensures width { (names : ScopeNames scope.now) →
        IfOk result (λ w. w ≡ width_in (type_in (scope_in scope.now names) (typed_of value.now).ty)) }
{
    width_at(scope, &value.ty)
}

/// The size of a type in bytes, and 0 of one that is none.
pub(crate) fn size_at(scope: &FunctionScope<'_>, ty: &TypeNode) -> Result<u32, AllocError>
    requires ty { TyIsSmall scope.now (ty_of ty.now) }
    ensures size { (names : ScopeNames scope.now) →
        IfOk result (λ n. n ≡ size_or_none (type_in (scope_in scope.now names) (ty_of ty.now))) }
{
    let mut known = KnownTypes::new(scope.globals.types);
    let number = known.number(ty)?;
    Ok(size_or_none(&known, number))
}

/// The values of arguments.
pub(crate) fn values_at(
    scope: &FunctionScope<'_>,
    values: &[TypedVal],
) -> Result<Vec<Value>, AllocError>
    requires values { Each (TypedIsSmall scope.now) (map typed_of values.now) }
    ensures values { (names : ScopeNames scope.now) →
        IfOk result (λ v. v.items ≡ map (typed_value (scope_in scope.now names)) (map typed_of values.now)) }
{
    let mut found = Vec::new(scope.globals.alloc);
    for value in values {
        let one = typed_value(scope, value)?;
        found.push(one)?;
    }
    Ok(found)
}
