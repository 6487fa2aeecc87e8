//! What calls are refused for.

ghost use Rattle.std.specs.Prelude.{◌≡◌, ◌<◌, [], map, take, drop, length, IfOk, List};
ghost use Rattle.std.specs.List.{flat_map, list_all};
ghost use Rattle.std.specs.Option.{option_map};
ghost use Rattle.pg_read_ast.specs.Syntax.{Typed, NamedType};
ghost use Rattle.pg_read_ast.specs.Views.{ty_of, typed_of, op_of, written_of};
ghost use Rattle.pg_check_types.specs.NumberedTypes.{named_types};
ghost use Rattle.pg_check_rules.specs.Nodes.{tys_behind};
ghost use Rattle.pg_check_rules.specs.Places.{type_span};
ghost use Rattle.pg_check_rules.specs.Symbols.{symbol_of};
ghost use Rattle.pg_check_rules.specs.Names.{symbol};
ghost use Rattle.pg_check_rules.specs.Earliest.{earliest};
ghost use Rattle.pg_check_rules.specs.TypeConditions.{unmet};
ghost use Rattle.pg_check_rules.specs.ValueConditions.{Scope};
ghost use Rattle.pg_check_rules.specs.LineConditions.{unknown_callee, unsupported_callee, wrong_call};
ghost use Rattle.pg_check_rules.specs.CallConditions.{is_resolved, fits_params, written_fit, wrong_header, wrong_number, argument_demands, call_demands};
ghost use Rattle.pg_check_values.specs.Scopes.{IsLineScope};
ghost use Rattle.pg_check_calls.specs.Headers.{param_behind, params_behind, header_behind};
ghost use Rattle.pg_check_calls.specs.Calls.{wrong_arguments, wrong_call_of, call_demands_of, fits_header, are_written, param_agrees, first_agrees, is_dots, is_only_dots, typed_behind};

use crate::headers::{HeaderNode, HeaderParam, callee_params, header_of};
use crate::symbols_in_scope::{
    is_callable, symbol_named, unknown_name, unsupported_name, variable_symbol,
};
use pg_check_rules::{SymbolNode, earlier, is_type, type_span};
use pg_check_types::TypeNumbers;
use pg_check_values::{LineScope, unmet_typed_as};
use pg_read_ast::{CallTypes, Name, OpNode, TypeNode, TypedVal};
use pg_read_lex::Span;
use std::alloc::{AllocError, Global};

/// The place of the name of a callee that stands for nothing.
#[tactic(auto, unfolding(pg_check_rules::specs::Earliest::earliest))]
pub fn unknown_callee(scope: &LineScope<'_>, op: &OpNode) -> Option<Span>
    ensures { (g : Scope) → IsLineScope scope.now g → result ≡ earliest (unknown_callee g (op_of op.now)) }
{
    match op {
        OpNode::Call { callee, .. } => unknown_name(scope, callee),
        _ => None,
    }
}

/// The place of the name of a callee that is declared and not known.
#[tactic(auto, unfolding(pg_check_rules::specs::Earliest::earliest))]
pub fn unsupported_callee(scope: &LineScope<'_>, op: &OpNode) -> Option<Span>
    ensures { (g : Scope) → IsLineScope scope.now g → result ≡ earliest (unsupported_callee g (op_of op.now)) }
{
    match op {
        OpNode::Call { callee, .. } => unsupported_name(scope, callee),
        _ => None,
    }
}

/// The argument at a place, if there are so many.
pub(crate) fn argument_at<'a>(arguments: &'a [TypedVal], place: usize) -> Option<&'a TypedVal>
    ensures { typed_behind result ≡ take 1 (drop place (map typed_of arguments.now)) }
{
    if place < arguments.len() {
        Some(&arguments[place])
    } else {
        None
    }
}

/// The type of the first argument for which there is no parameter.
#[tactic(auto, unfolding(pg_check_rules::specs::Earliest::earliest))]
fn extra_argument(count: usize, arguments: &[TypedVal]) -> Option<Span>
    ensures { result ≡ earliest (map (λ (a : Typed). type_span a.ty) (take 1 (drop count (map typed_of arguments.now)))) }
{
    match argument_at(arguments, count) {
        Some(argument) => Some(type_span(&argument.ty)),
        None => None,
    }
}

/// The callee of too few arguments, or the first argument too many.
#[tactic(auto, unfolding(pg_check_rules::specs::Earliest::earliest))]
fn wrong_number(params: &[&TypeNode], arguments: &[TypedVal], name: &Name) -> Option<Span>
    ensures { result ≡ earliest (wrong_number (tys_behind params.now) (map typed_of arguments.now) name.now) }
{
    if arguments.len() < params.len() {
        Some(name.span)
    } else {
        extra_argument(params.len(), arguments)
    }
}

/// Arguments of another number than the parameters of what can be called.
#[tactic(auto, unfolding(pg_check_rules::specs::Earliest::earliest))]
fn wrong_arguments(
    alloc: Global,
    symbol: SymbolNode<'_>,
    arguments: &[TypedVal],
    name: &Name,
) -> Result<Option<Span>, AllocError>
    ensures { IfOk result (λ o. o ≡ earliest (wrong_arguments (symbol_of symbol.entry) (map typed_of arguments.now) name.now)) }
{
    if is_callable(symbol) {
        let params = callee_params(alloc, symbol)?;
        Ok(wrong_number(params.as_slice(), arguments, name))
    } else {
        Ok(None)
    }
}

fn param_agrees(
    types: &TypeNumbers<'_>,
    param: &HeaderParam<'_>,
    ty: &TypeNode,
) -> Result<bool, AllocError>
    ensures same { IfOk result (λ b. b ≡ param_agrees (named_types types.now) (param_behind param.now) (ty_of ty.now)) }
{
    match param {
        HeaderParam::Param(param) => types.agree(&param.ty, ty),
        HeaderParam::Metadata(_) => Ok(false),
        HeaderParam::Dots(_) => Ok(false),
    }
}

/// Whether the parameter at a place has a type.
fn agrees_at(
    types: &TypeNumbers<'_>,
    params: &[HeaderParam<'_>],
    place: usize,
    ty: &TypeNode,
) -> Result<bool, AllocError>
    ensures same { IfOk result (λ b. b ≡ first_agrees (named_types types.now) (params_behind (drop place params.now)) (ty_of ty.now)) }
{
    if place < params.len() {
        param_agrees(types, &params[place], ty)
    } else {
        Ok(false)
    }
}

fn is_dots(param: &HeaderParam<'_>) -> bool
    ensures { result ≡ is_dots (param_behind param.now) }
{
    match param {
        HeaderParam::Param(_) => false,
        HeaderParam::Metadata(_) => false,
        HeaderParam::Dots(_) => true,
    }
}

/// Whether the parameter at a place is the last one, and dots.
fn is_last_dots(params: &[HeaderParam<'_>], place: usize) -> bool
    requires { place < length params.now }
    ensures { result ≡ is_only_dots (params_behind (drop place params.now)) }
{
    let left = params.len() - place;
    if left == 1 {
        is_dots(&params[place])
    } else {
        false
    }
}

/// Whether nothing but dots stands behind a place.
fn is_only_dots(params: &[HeaderParam<'_>], place: usize) -> bool
    ensures { result ≡ is_only_dots (params_behind (drop place params.now)) }
{
    if place < params.len() {
        is_last_dots(params, place)
    } else {
        false
    }
}

/// Whether parameters end at a place, with dots or without.
fn ends_at(params: &[HeaderParam<'_>], place: usize, dots: bool) -> bool
    ensures { (types : List NamedType) → result ≡ fits_params types (params_behind (drop place params.now)) [] dots }
{
    if dots {
        is_only_dots(params, place)
    } else {
        place >= params.len()
    }
}

/// Whether written types are those of the parameters.
fn fits_params(
    types: &TypeNumbers<'_>,
    params: &[HeaderParam<'_>],
    written: &[TypeNode],
    dots: bool,
) -> Result<bool, AllocError>
    ensures same { IfOk result (λ b. b ≡ fits_params (named_types types.now) (params_behind params.now) (map ty_of written.now) dots) }
{
    for place in 0..written.len() {
        if !agrees_at(types, params, place, &written[place])? {
            return Ok(false);
        }
    }
    Ok(ends_at(params, written.len(), dots))
}

/// Whether each of these is a type.
fn are_resolved(types: &TypeNumbers<'_>, written: &[TypeNode]) -> Result<bool, AllocError>
    ensures same { IfOk result (λ b. b ≡ list_all (is_resolved (named_types types.now)) (map ty_of written.now)) }
{
    for ty in written {
        if !is_type(types, ty)? {
            return Ok(false);
        }
    }
    Ok(true)
}

/// Whether the written types of a call, where all are types, are those of the parameters.
fn are_written(
    types: &TypeNumbers<'_>,
    params: &[HeaderParam<'_>],
    written: &CallTypes,
) -> Result<bool, AllocError>
    ensures same { IfOk result (λ b. b ≡ are_written (named_types types.now) (params_behind params.now) (written_of written.now)) }
{
    if are_resolved(types, written.types.as_slice())? {
        fits_params(types, params, written.types.as_slice(), written.dots)
    } else {
        Ok(true)
    }
}

/// Whether a call writes no types, or those of the parameters.
fn written_fit(
    types: &TypeNumbers<'_>,
    header: &HeaderNode<'_>,
    written: &Option<CallTypes>,
) -> Result<bool, AllocError>
    ensures same { IfOk result (λ b. b ≡ written_fit (named_types types.now) (header_behind header.now) (option_map written_of written.now)) }
{
    match written {
        Some(written) => are_written(types, header.params.as_slice(), written),
        None => Ok(true),
    }
}

/// Whether a call has the result of a function, and its types where it writes them.
fn fits_header(
    types: &TypeNumbers<'_>,
    header: &HeaderNode<'_>,
    ty: &TypeNode,
    written: &Option<CallTypes>,
) -> Result<bool, AllocError>
    ensures same { IfOk result (λ b. b ≡ fits_header (named_types types.now) (header_behind header.now) (ty_of ty.now) (option_map written_of written.now)) }
{
    if types.agree(header.result, ty)? {
        written_fit(types, header, written)
    } else {
        Ok(false)
    }
}

/// The result type of a call that hasn't the type of its callee.
#[tactic(auto, unfolding(pg_check_rules::specs::Earliest::earliest))]
fn wrong_header(
    types: &TypeNumbers<'_>,
    header: &Option<HeaderNode<'_>>,
    ty: &TypeNode,
    written: &Option<CallTypes>,
) -> Result<Option<Span>, AllocError>
    ensures place { IfOk result (λ o. o ≡ earliest (wrong_header (named_types types.now) (option_map header_behind header.now) (ty_of ty.now) (option_map written_of written.now))) }
{
    match header {
        Some(header) => {
            if fits_header(types, header, ty, written)? {
                Ok(None)
            } else {
                Ok(Some(type_span(ty)))
            }
        }
        None => Ok(None),
    }
}

/// The earliest place at which a call of what a name stands for isn't right.
fn wrong_call_of(
    alloc: Global,
    types: &TypeNumbers<'_>,
    symbol: SymbolNode<'_>,
    ty: &TypeNode,
    written: &Option<CallTypes>,
    name: &Name,
    arguments: &[TypedVal],
) -> Result<Option<Span>, AllocError>
    ensures place { IfOk result (λ o. o ≡ earliest (wrong_call_of (named_types types.now) (symbol_of symbol.entry) (ty_of ty.now)
        (option_map written_of written.now) name.now (map typed_of arguments.now))) }
{
    let header = header_of(alloc, symbol)?;
    let head = wrong_header(types, &header, ty, written)?;
    let number = wrong_arguments(alloc, symbol, arguments, name)?;
    let variable = variable_symbol(symbol, name.span);
    Ok(earlier(head, earlier(variable, number)))
}

/// The earliest place at which the result type, the written types, the callee or the number of arguments of a call isn't
/// right.
#[tactic(auto, unfolding(pg_check_rules::specs::Earliest::earliest))]
pub fn wrong_call(scope: &LineScope<'_>, op: &OpNode) -> Result<Option<Span>, AllocError>
    ensures place { (g : Scope) → IsLineScope scope.now g → IfOk result (λ o. o ≡ earliest (wrong_call g (op_of op.now))) }
{
    match op {
        OpNode::Call {
            ty,
            written,
            callee,
            arguments,
            ..
        } => {
            let symbol = symbol_named(scope, callee);
            wrong_call_of(
                scope.values.alloc,
                scope.values.types,
                symbol,
                ty,
                written,
                callee,
                arguments.as_slice(),
            )
        }
        _ => Ok(None),
    }
}

/// The earliest type of an argument that isn't its parameter's.
#[tactic(auto, unfolding(pg_check_rules::specs::Earliest::earliest))]
fn argument_demands(
    types: &TypeNumbers<'_>,
    params: &[&TypeNode],
    arguments: &[TypedVal],
) -> Result<Option<Span>, AllocError>
    ensures place { IfOk result (λ o. o ≡ earliest (flat_map (unmet (named_types types.now)) (argument_demands (named_types types.now) (tys_behind params.now) (map typed_of arguments.now)))) }
{
    let mut found = None;
    // By place: of `zip` it would have to be proved that it ends.
    for place in 0..params.len().min(arguments.len()) {
        let own = unmet_typed_as(types, params[place], &arguments[place])?;
        found = earlier(found, own);
    }
    Ok(found)
}

#[tactic(auto, unfolding(pg_check_rules::specs::Earliest::earliest))]
fn call_demands_of(
    alloc: Global,
    types: &TypeNumbers<'_>,
    symbol: SymbolNode<'_>,
    arguments: &[TypedVal],
) -> Result<Option<Span>, AllocError>
    ensures place { IfOk result (λ o. o ≡ earliest (flat_map (unmet (named_types types.now)) (call_demands_of (named_types types.now) (symbol_of symbol.entry) (map typed_of arguments.now)))) }
{
    if is_callable(symbol) {
        let params = callee_params(alloc, symbol)?;
        argument_demands(types, params.as_slice(), arguments)
    } else {
        Ok(None)
    }
}

/// The earliest type of an argument of a call that isn't its parameter's.
#[tactic(auto, unfolding(pg_check_rules::specs::Earliest::earliest))]
pub fn call_demands(scope: &LineScope<'_>, op: &OpNode) -> Result<Option<Span>, AllocError>
    ensures place { (g : Scope) → IsLineScope scope.now g →
        IfOk result (λ o. o ≡ earliest (flat_map (unmet g.tree.types) (call_demands g (op_of op.now)))) }
{
    match op {
        OpNode::Call {
            callee,
            arguments,
            ..
        } => {
            let symbol = symbol_named(scope, callee);
            call_demands_of(
                scope.values.alloc,
                scope.values.types,
                symbol,
                arguments.as_slice(),
            )
        }
        _ => Ok(None),
    }
}
