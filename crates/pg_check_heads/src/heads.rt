//! The first refusals of the heads of declared functions.

ghost use Rattle.std.specs.Prelude.{◌≡◌, ◌++◌, [], IfOk, OnOk, ◌||◌, List, ℕ, Option, None, Some, map};
ghost use Rattle.std.specs.List.{filter_map, flat_map, cons_option};
ghost use Rattle.pg_num.specs.declared.width.Width.TheVariants.{W32};
ghost use Rattle.pg_ir.specs.declared.value.Scalar.TheVariants.{Int};
ghost use Rattle.pg_read_ast.specs.Syntax.{Ty, Tree};
ghost use Rattle.pg_read_ast.specs.Views.{dparam_of, declare_of};
ghost use Rattle.pg_check_types.specs.NameIndex.{known_place};
ghost use Rattle.pg_check_types.specs.NumberedTypes.{named_types};
ghost use Rattle.pg_check_rules.specs.Nodes.{tys_behind};
ghost use Rattle.pg_check_rules.specs.CallConditions.{declaration_header, param_type};
ghost use Rattle.pg_check_rules.specs.Names.{symbol_names};
ghost use Rattle.pg_check_rules.specs.KnownNames.{known_named};
ghost use Rattle.pg_check_rules.specs.Starts.{first_start};
ghost use Rattle.pg_check_rules.specs.Earliest.{IsFirstIn};
ghost use Rattle.pg_check_rules.specs.Conditions.{head_types, has_header, types_exist, declares_other, declares_other_main, declares_other_known, declaration_refused};
ghost use Rattle.pg_check_rules.specs.Written.{types_within};

use indexmap::IndexMap;
use pg_check_rules::{
    CheckKind, CheckRefusal, all_within, are_params, doubled, earlier_refusal, is_main, is_result,
    known_named, name_or_type_refusal, place_if, refusal_at, unknown_types, wrong_counts,
};
use pg_check_types::TypeNumbers;
use pg_ir::{LibraryCall, Scalar};
use pg_num::Width;
use pg_read_ast::{DeclareItem, DparamNode, TypeNode};
use std::alloc::{AllocError, Global};

/// Adds the type of a parameter that has one.
fn add_param_type<'a>(all: &mut Vec<&'a TypeNode>, param: &'a DparamNode) -> Result<(), AllocError>
    ensures { OnOk result (tys_behind all.new.items ≡ tys_behind all.old.items ++ cons_option (param_type (dparam_of param.now)) []) }
{
    match param {
        DparamNode::Param(param) => {
            all.push(&param.ty)?;
            Ok(())
        }
        DparamNode::Metadata(_) => Ok(()),
        DparamNode::Dots(_) => Ok(()),
    }
}

fn add_param_types<'a>(
    all: &mut Vec<&'a TypeNode>,
    params: &'a [DparamNode],
) -> Result<(), AllocError>
    ensures { OnOk result (tys_behind all.new.items ≡ tys_behind all.old.items ++ filter_map param_type (map dparam_of params.now)) }
{
    for param in params {
        add_param_type(all, param)?;
    }
    Ok(())
}

/// The types of the head of a declared function.
fn declaration_types<'a>(
    alloc: Global,
    item: &'a DeclareItem,
) -> Result<Vec<&'a TypeNode>, AllocError>
    ensures { IfOk result (λ v. tys_behind v.items ≡ head_types (declaration_header (declare_of item.now))) }
{
    let mut all = Vec::new(alloc);
    all.push(&item.result)?;
    add_param_types(&mut all, item.params.as_slice())?;
    Ok(all)
}

/// Whether the head of a declared function has just these types.
fn has_header(
    types: &TypeNumbers<'_>,
    scalars: &[Scalar],
    returned: Option<Scalar>,
    item: &DeclareItem,
) -> Result<bool, AllocError>
    ensures same { IfOk result (λ b. b ≡ has_header (named_types types.now) scalars.now returned (declaration_header (declare_of item.now))) }
{
    if is_result(types, returned, &item.result)? {
        are_params(types, scalars, item.params.as_slice())
    } else {
        Ok(false)
    }
}

/// Whether each name in these types has an item, and each number of elements fits.
fn types_exist(types: &TypeNumbers<'_>, within: &[&TypeNode]) -> bool
    ensures { (ts : List Ty) → tys_behind within.now ≡ flat_map types_within ts → result ≡ types_exist (named_types types.now) ts }
{
    unknown_types(types, within).is_none() && wrong_counts(within).is_none()
}

/// Whether the types of the head of a declared function, which with those within them are these, exist and are others.
fn declares_other(
    types: &TypeNumbers<'_>,
    scalars: &[Scalar],
    returned: Option<Scalar>,
    item: &DeclareItem,
    within: &[&TypeNode],
) -> Result<bool, AllocError>
    requires { tys_behind within.now ≡ flat_map types_within (head_types (declaration_header (declare_of item.now))) }
    ensures same { IfOk result (λ b. b ≡ declares_other (named_types types.now) scalars.now returned (declaration_header (declare_of item.now))) }
{
    if types_exist(types, within) {
        let same = has_header(types, scalars, returned, item)?;
        Ok(!same)
    } else {
        Ok(false)
    }
}

/// Whether a declared function is called `main` and has other types than that.
fn declares_other_main(
    types: &TypeNumbers<'_>,
    item: &DeclareItem,
    within: &[&TypeNode],
) -> Result<bool, AllocError>
    requires { tys_behind within.now ≡ flat_map types_within (head_types (declaration_header (declare_of item.now))) }
    ensures same { IfOk result (λ b. b ≡ declares_other_main (named_types types.now) item.now.name.text (declaration_header (declare_of item.now))) }
{
    if is_main(item.name.text.as_slice()) {
        declares_other(types, &[], Some(Scalar::Int(Width::W32)), item, within)
    } else {
        Ok(false)
    }
}

/// Whether a declared function is known and has other types than the known one.
fn declares_other_known(
    types: &TypeNumbers<'_>,
    known: Option<LibraryCall>,
    item: &DeclareItem,
    within: &[&TypeNode],
) -> Result<bool, AllocError>
    requires { tys_behind within.now ≡ flat_map types_within (head_types (declaration_header (declare_of item.now))) }
    ensures same { IfOk result (λ b. b ≡ declares_other_known (named_types types.now) known (declaration_header (declare_of item.now))) }
{
    match known {
        Some(function) => declares_other(
            types,
            function.parameters(),
            function.returned(),
            item,
            within,
        ),
        None => Ok(false),
    }
}

/// Whether a declared function has types that its name may not have.
fn wrong_signature(
    types: &TypeNumbers<'_>,
    item: &DeclareItem,
    within: &[&TypeNode],
) -> Result<bool, AllocError>
    requires { tys_behind within.now ≡ flat_map types_within (head_types (declaration_header (declare_of item.now))) }
    ensures same { IfOk result (λ b. b ≡ (declares_other_known (named_types types.now) (known_named item.now.name.text) (declaration_header (declare_of item.now))
        || declares_other_main (named_types types.now) item.now.name.text (declaration_header (declare_of item.now)))) }
{
    let known = known_named(item.name.text.as_slice());
    if declares_other_known(types, known, item, within)? {
        Ok(true)
    } else {
        declares_other_main(types, item, within)
    }
}

/// The first refusal of a declared function.
pub(crate) fn declaration_refusal(
    alloc: Global,
    types: &TypeNumbers<'_>,
    starts: &IndexMap<&[u8], u32>,
    item: &DeclareItem,
) -> Result<Option<CheckRefusal>, AllocError>
    ensures first { (m : Tree) → m.types ≡ named_types types.now → ((text : List ℕ) → known_place starts.now text ≡ first_start (symbol_names m) text) →
        IfOk result (λ o. IsFirstIn (declaration_refused m (declare_of item.now)) o) }
{
    let head = declaration_types(alloc, item)?;
    let within = all_within(alloc, head.as_slice())?;
    let signature = wrong_signature(types, item, within.as_slice())?;
    let unknown = unknown_types(types, within.as_slice());
    let wrong = wrong_counts(within.as_slice());
    let named = name_or_type_refusal(unknown, doubled(starts, &item.name), wrong);
    let other = refusal_at(CheckKind::BadSignature, place_if(signature, item.name.span));
    Ok(earlier_refusal(named, other))
}
