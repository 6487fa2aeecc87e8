//! The first refusals of the heads of functions that are defined.

ghost use Rattle.std.specs.Prelude.{◌≡◌, ◌++◌, [], IfOk, OnOk, ◌||◌, List, ℕ, Option, Some, map, is_some, nat_le};
ghost use Rattle.std.specs.List.{flat_map, filter_map, list_any};
ghost use Rattle.std.specs.Option.{option_map};
ghost use Rattle.pg_num.specs.declared.width.Width.TheVariants.{W32};
ghost use Rattle.pg_ir.specs.declared.value.Scalar.TheVariants.{Int};
ghost use Rattle.pg_num.specs.declared.limits.TheConstants.{FUNCTION_LIMIT};
ghost use Rattle.pg_read_ast.specs.declared.names.Name as pg_name;
ghost use Rattle.pg_read_ast.specs.Syntax.{Tree, NamedType, ParamOf, Param};
ghost use Rattle.pg_read_ast.specs.Numbers.{numbered, each_at, behind_param, param_at};
ghost use Rattle.pg_read_ast.specs.Views.{param_of, define_of, ty_of};
ghost use Rattle.pg_check_types.specs.NameIndex.{known_place};
ghost use Rattle.pg_check_types.specs.Resolved.{ResolvedType, resolved, is_scalar};
ghost use Rattle.pg_check_types.specs.Kinds.{kind_of, fails};
ghost use Rattle.pg_check_types.specs.NumberedTypes.{named_types};
ghost use Rattle.pg_check_rules.specs.Nodes.{tys_behind};
ghost use Rattle.pg_check_rules.specs.CallConditions.{definition_header, param_type};
ghost use Rattle.pg_check_rules.specs.KnownNames.{known_named};
ghost use Rattle.pg_check_rules.specs.Names.{symbol_names, doubled};
ghost use Rattle.pg_check_rules.specs.Starts.{first_start};
ghost use Rattle.pg_check_rules.specs.Signatures.{is_wrong_param};
ghost use Rattle.pg_check_rules.specs.Numbering.{param_name};
ghost use Rattle.pg_check_rules.specs.Earliest.{earliest, IsFirstIn};
ghost use Rattle.pg_check_rules.specs.Written.{is_returnable};
ghost use Rattle.pg_check_rules.specs.Conditions.{head_types, are_params, has_header, has_other_header, wrong_main, wrong_definition, definition_refused};

use indexmap::IndexMap;
use pg_check_rules::{
    CheckKind, CheckRefusal, all_within, any_large, are_types, doubled, doubled_among, earlier,
    earlier_refusal, is_main, is_result, known_named, name_or_type_refusal, param_names, place_if,
    refusal_at, unknown_types, wrong_types,
};
use pg_check_types::{TypeKind, TypeNumbers};
use pg_ir::Scalar;
use pg_num::limits::FUNCTION_LIMIT;
use pg_num::{Width, either};
use pg_read_ast::{DefineItem, NextNumber, ParamNode, TypeNode};
use pg_read_lex::Span;
use std::alloc::{AllocError, Global};

fn isnt_scalar(kind: Option<TypeKind>) -> bool
    ensures { (t : Option ResolvedType) → kind ≡ option_map kind_of t → result ≡ fails is_scalar t }
{
    match kind {
        Some(TypeKind::Void) => true,
        Some(TypeKind::Aggregate) => true,
        _ => false,
    }
}

fn isnt_returnable(kind: Option<TypeKind>) -> bool
    ensures { (t : Option ResolvedType) → kind ≡ option_map kind_of t → result ≡ fails is_returnable t }
{
    match kind {
        Some(TypeKind::Aggregate) => true,
        _ => false,
    }
}

fn wrong_result(types: &TypeNumbers<'_>, ty: &TypeNode) -> Result<bool, AllocError>
    ensures same { IfOk result (λ b. b ≡ fails is_returnable (resolved (named_types types.now) (ty_of ty.now))) }
{
    let kind = types.kind(ty)?;
    Ok(isnt_returnable(kind))
}

fn wrong_param(types: &TypeNumbers<'_>, param: &ParamNode) -> Result<bool, AllocError>
    ensures same { IfOk result (λ b. b ≡ is_wrong_param (named_types types.now) (param_of param.now)) }
{
    let kind = types.kind(&param.ty)?;
    Ok(isnt_scalar(kind))
}

/// Whether a parameter isn't a scalar.
fn wrong_params(types: &TypeNumbers<'_>, params: &[ParamNode]) -> Result<bool, AllocError>
    ensures same { IfOk result (λ b. b ≡ list_any (is_wrong_param (named_types types.now)) (map param_of params.now)) }
{
    for param in params {
        if wrong_param(types, param)? {
            return Ok(true);
        }
    }
    Ok(false)
}

/// Whether a function that is defined has a parameter or a result that isn't one.
fn wrong_definition(types: &TypeNumbers<'_>, item: &DefineItem) -> Result<bool, AllocError>
    ensures same { IfOk result (λ b. b ≡ wrong_definition (named_types types.now) (define_of item.now)) }
{
    if wrong_result(types, &item.result)? {
        Ok(true)
    } else {
        wrong_params(types, item.params.as_slice())
    }
}

fn has_no_params(params: &[ParamNode]) -> bool
    ensures { (types : List NamedType) → result ≡ are_params types [] (map (λ (p : Param). ParamOf p) (map param_of params.now)) }
{
    params.is_empty()
}

/// Whether the head of a function that is defined is that of `main`.
fn has_main_header(types: &TypeNumbers<'_>, item: &DefineItem) -> Result<bool, AllocError>
    ensures same { IfOk result (λ b. b ≡ has_header (named_types types.now) [] (Some (Int W32)) (definition_header (define_of item.now))) }
{
    if is_result(types, Some(Scalar::Int(Width::W32)), &item.result)? {
        Ok(has_no_params(item.params.as_slice()))
    } else {
        Ok(false)
    }
}

/// Whether the head of a function that is defined, whose types these are, is other than that of `main`.
fn has_other_header(
    types: &TypeNumbers<'_>,
    item: &DefineItem,
    head: &[&TypeNode],
) -> Result<bool, AllocError>
    requires { tys_behind head.now ≡ head_types (definition_header (define_of item.now)) }
    ensures same { IfOk result (λ b. b ≡ has_other_header (named_types types.now) [] (Some (Int W32)) (definition_header (define_of item.now))) }
{
    if are_types(types, head)? {
        let same = has_main_header(types, item)?;
        Ok(!same)
    } else {
        Ok(false)
    }
}

/// Whether a function that is defined is called `main` and has other types than that.
fn wrong_main(
    types: &TypeNumbers<'_>,
    item: &DefineItem,
    head: &[&TypeNode],
) -> Result<bool, AllocError>
    requires { tys_behind head.now ≡ head_types (definition_header (define_of item.now)) }
    ensures same { IfOk result (λ b. b ≡ wrong_main (named_types types.now) item.now.name.text (definition_header (define_of item.now))) }
{
    if is_main(item.name.text.as_slice()) {
        has_other_header(types, item, head)
    } else {
        Ok(false)
    }
}

/// Whether a function that is defined has types or a name that it may not have.
fn wrong_signature(
    types: &TypeNumbers<'_>,
    item: &DefineItem,
    head: &[&TypeNode],
) -> Result<bool, AllocError>
    requires { tys_behind head.now ≡ head_types (definition_header (define_of item.now)) }
    ensures same { IfOk result (λ b. b ≡ (is_some (known_named item.now.name.text) || wrong_main (named_types types.now) item.now.name.text (definition_header (define_of item.now))
        || wrong_definition (named_types types.now) (define_of item.now))) }
{
    if known_named(item.name.text.as_slice()).is_some() {
        return Ok(true);
    }
    if wrong_main(types, item, head)? {
        Ok(true)
    } else {
        wrong_definition(types, item)
    }
}

fn add_param_types<'a>(
    all: &mut Vec<&'a TypeNode>,
    params: &'a [ParamNode],
) -> Result<(), AllocError>
    ensures { OnOk result (tys_behind all.new.items ≡ tys_behind all.old.items ++ filter_map param_type (map (λ (p : Param). ParamOf p) (map param_of params.now))) }
{
    for param in params {
        all.push(&param.ty)?;
    }
    Ok(())
}

/// The types of the head of a function that is defined.
fn definition_types<'a>(
    alloc: Global,
    item: &'a DefineItem,
) -> Result<Vec<&'a TypeNode>, AllocError>
    ensures { IfOk result (λ v. tys_behind v.items ≡ head_types (definition_header (define_of item.now))) }
{
    let mut all = Vec::new(alloc);
    all.push(&item.result)?;
    add_param_types(&mut all, item.params.as_slice())?;
    Ok(all)
}

/// The first parameter of which another of its name stands before it, where each unnamed one has its number.
fn doubled_params(alloc: Global, params: &[ParamNode]) -> Result<Option<Span>, AllocError>
    ensures { (names : List pg_name.Name) → names ≡ filter_map param_name (each_at behind_param param_at 0 (map param_of params.now)) →
        IfOk result (λ o. o ≡ earliest (flat_map (doubled names) names)) }
{
    let mut next = NextNumber::zero(alloc);
    let names = param_names(alloc, &mut next, params)?;
    doubled_among(alloc, names.as_slice())
}

/// Whether a function's number is past those that a program may have.
fn is_past_limit(number: usize) -> bool
    ensures { result ≡ nat_le FUNCTION_LIMIT number }
{
    FUNCTION_LIMIT as usize <= number
}

/// The first refusal of the head of a function that is defined.
pub(crate) fn definition_refusal(
    alloc: Global,
    types: &TypeNumbers<'_>,
    starts: &IndexMap<&[u8], u32>,
    number: usize,
    item: &DefineItem,
) -> Result<Option<CheckRefusal>, AllocError>
    ensures first { (m : Tree) → m.types ≡ named_types types.now → ((text : List ℕ) → known_place starts.now text ≡ first_start (symbol_names m) text) →
        IfOk result (λ o. IsFirstIn (definition_refused m (number, numbered m.types (define_of item.now))) o) }
{
    let head = definition_types(alloc, item)?;
    let within = all_within(alloc, head.as_slice())?;
    let params = doubled_params(alloc, item.params.as_slice())?;
    let wrong = wrong_types(types, within.as_slice())?;
    let signature = wrong_signature(types, item, head.as_slice())?;
    let large = any_large(types, within.as_slice())?;
    let unknown = unknown_types(types, within.as_slice());
    let twice = earlier(doubled(starts, &item.name), params);
    let over = either(large, is_past_limit(number));
    let named = name_or_type_refusal(unknown, twice, wrong);
    let other = earlier_refusal(
        refusal_at(CheckKind::BadSignature, place_if(signature, item.name.span)),
        refusal_at(CheckKind::TooLarge, place_if(over, item.name.span)),
    );
    Ok(earlier_refusal(named, other))
}
