//! The threads that calls begin.

ghost use Rattle.std.specs.Prelude.{◌≡◌, map, IfOk, Option, List};
ghost use Rattle.std.specs.List.{flat_map};
ghost use Rattle.std.specs.Option.{option_map};
ghost use Rattle.pg_read_ast.specs.Syntax.{Typed, Local};
ghost use Rattle.pg_read_ast.specs.Views.{ty_of, val_of, typed_of, op_of};
ghost use Rattle.pg_check_types.specs.Resolved.{ResolvedType, is_pointer};
ghost use Rattle.pg_check_types.specs.Kinds.{kind_of, fails};
ghost use Rattle.pg_check_types.specs.NumberedTypes.{named_types};
ghost use Rattle.pg_check_rules.specs.Symbols.{symbol_of};
ghost use Rattle.pg_check_rules.specs.Names.{symbol};
ghost use Rattle.pg_check_rules.specs.Earliest.{earliest};
ghost use Rattle.pg_check_rules.specs.Written.{operands, typed_operand};
ghost use Rattle.pg_check_rules.specs.ValueConditions.{Scope, unknown_value};
ghost use Rattle.pg_check_rules.specs.CallConditions.{is_create_known, is_create, thread_functions, value_operands, is_pointer_param, is_thread_header, wrong_thread, unsupported_thread};
ghost use Rattle.pg_check_values.specs.Scopes.{IsLineScope};
ghost use Rattle.pg_check_calls.specs.Headers.{params_behind, param_behind, header_behind};
ghost use Rattle.pg_check_calls.specs.Calls.{typed_behind, value_behind};
ghost use Rattle.pg_check_calls.specs.Threads.{left_out, call_operands, thread_functions_of, is_pointer_type, is_pointer_one, wrong_thread_of};

use crate::calls::argument_at;
use crate::headers::{HeaderNode, HeaderParam, header_of};
use crate::symbols_in_scope::{
    has_register, known_of, symbol_named, unknown_name, unsupported_thread_name,
};
use pg_check_rules::{SymbolNode, val_span};
use pg_check_types::{TypeKind, TypeNumbers};
use pg_check_values::LineScope;
use pg_ir::LibraryCall;
use pg_read_ast::{Name, OpNode, TypeNode, TypedVal, ValNode};
use pg_read_lex::Span;
use std::alloc::{AllocError, Global};

fn is_create_known(known: Option<LibraryCall>) -> bool
    ensures { result ≡ is_create_known known }
{
    match known {
        Some(LibraryCall::PthreadCreate) => true,
        _ => false,
    }
}

/// Whether a name stands for the function that begins a thread.
fn is_create(scope: &LineScope<'_>, name: &Name) -> bool
    ensures { (g : Scope) → IsLineScope scope.now g → result ≡ is_create g name.now }
{
    let symbol = symbol_named(scope, name);
    let known = known_of(symbol);
    is_create_known(known)
}

/// Which argument of a call isn't judged as a value, as far as its callee's name tells.
fn create_argument(scope: &LineScope<'_>, name: &Name) -> Option<usize>
    ensures { (g : Scope) → IsLineScope scope.now g → (all : List Typed) → call_operands (is_create g name.now) all ≡ left_out result (map typed_operand all) }
{
    let create = is_create(scope, name);
    if create { Some(2) } else { None }
}

/// Which argument of a call isn't judged as a value: the function with which a thread begins.
#[tactic(auto, unfolding(pg_check_rules::specs::Written::operands))]
pub fn thread_argument(scope: &LineScope<'_>, op: &OpNode) -> Option<usize>
    ensures { (g : Scope) → IsLineScope scope.now g → value_operands g (op_of op.now) ≡ left_out result (operands (op_of op.now)) }
{
    match op {
        OpNode::Call { callee, .. } => create_argument(scope, callee),
        _ => None,
    }
}

fn value_of<'a>(argument: Option<&'a TypedVal>) -> Option<&'a ValNode>
    ensures { value_behind result ≡ map (λ (a : Typed). a.value) (typed_behind argument.entry) }
{
    match argument {
        Some(argument) => Some(&argument.value),
        None => None,
    }
}

/// The function with which a call begins a thread.
fn begun_by<'a>(
    scope: &LineScope<'_>,
    name: &Name,
    arguments: &'a [TypedVal],
) -> Option<&'a ValNode>
    ensures { (g : Scope) → IsLineScope scope.now g → value_behind result ≡ thread_functions_of (is_create g name.now) (map typed_of arguments.now) }
{
    let create = is_create(scope, name);
    if create {
        let argument = argument_at(arguments, 2);
        value_of(argument)
    } else {
        None
    }
}

/// The function with which an instruction begins a thread.
fn thread_function<'a>(scope: &LineScope<'_>, op: &'a OpNode) -> Option<&'a ValNode>
    ensures { (g : Scope) → IsLineScope scope.now g → value_behind result ≡ thread_functions g (op_of op.now) }
{
    match op {
        OpNode::Call {
            callee,
            arguments,
            ..
        } => begun_by(scope, callee, arguments.as_slice()),
        _ => None,
    }
}

#[tactic(auto, unfolding(pg_check_rules::specs::Earliest::earliest))]
fn unknown_register(scope: &LineScope<'_>, name: &Name) -> Option<Span>
    ensures { (g : Scope) → IsLineScope scope.now g → result ≡ earliest (unknown_value g (Local name.now)) }
{
    if has_register(scope, name) {
        None
    } else {
        Some(name.span)
    }
}

/// The name of a register, a global or a function that there isn't.
#[tactic(auto, unfolding(pg_check_rules::specs::Earliest::earliest))]
fn unknown_value(scope: &LineScope<'_>, value: &ValNode) -> Option<Span>
    ensures { (g : Scope) → IsLineScope scope.now g → result ≡ earliest (unknown_value g (val_of value.now)) }
{
    match value {
        ValNode::Local(name) => unknown_register(scope, name),
        ValNode::Global(name) => unknown_name(scope, name),
        _ => None,
    }
}

/// The name of a function with which a thread begins, where there is none.
pub fn unknown_thread(scope: &LineScope<'_>, op: &OpNode) -> Option<Span>
    ensures { (g : Scope) → IsLineScope scope.now g → result ≡ earliest (flat_map (unknown_value g) (thread_functions g (op_of op.now))) }
{
    match thread_function(scope, op) {
        Some(value) => unknown_value(scope, value),
        None => None,
    }
}

fn isnt_pointer(kind: Option<TypeKind>) -> bool
    ensures { (t : Option ResolvedType) → kind ≡ option_map kind_of t → result ≡ fails is_pointer t }
{
    match kind {
        Some(TypeKind::Integer(_)) => true,
        Some(TypeKind::Void) => true,
        Some(TypeKind::Aggregate) => true,
        _ => false,
    }
}

/// Whether a type is a pointer, if it is a type.
fn is_pointer_type(types: &TypeNumbers<'_>, ty: &TypeNode) -> Result<bool, AllocError>
    ensures same { IfOk result (λ b. b ≡ is_pointer_type (named_types types.now) (ty_of ty.now)) }
{
    let kind = types.kind(ty)?;
    let other = isnt_pointer(kind);
    Ok(!other)
}

fn is_pointer_one(types: &TypeNumbers<'_>, param: &HeaderParam<'_>) -> Result<bool, AllocError>
    ensures same { IfOk result (λ b. b ≡ is_pointer_one (named_types types.now) (param_behind param.now)) }
{
    match param {
        HeaderParam::Param(param) => is_pointer_type(types, &param.ty),
        HeaderParam::Metadata(_) => Ok(false),
        HeaderParam::Dots(_) => Ok(false),
    }
}

/// Whether a function has one parameter, a pointer.
fn is_pointer_param(types: &TypeNumbers<'_>, params: &[HeaderParam<'_>]) -> Result<bool, AllocError>
    ensures same { IfOk result (λ b. b ≡ is_pointer_param (named_types types.now) (params_behind params.now)) }
{
    if params.len() == 1 {
        is_pointer_one(types, &params[0])
    } else {
        Ok(false)
    }
}

/// Whether a function, if it is one, goes from a pointer to a pointer.
fn is_thread_header(
    types: &TypeNumbers<'_>,
    header: &Option<HeaderNode<'_>>,
) -> Result<bool, AllocError>
    ensures same { IfOk result (λ b. b ≡ is_thread_header (named_types types.now) (option_map header_behind header.now)) }
{
    match header {
        Some(header) => {
            if is_pointer_type(types, header.result)? {
                is_pointer_param(types, header.params.as_slice())
            } else {
                Ok(false)
            }
        }
        None => Ok(true),
    }
}

#[tactic(auto, unfolding(pg_check_rules::specs::Earliest::earliest))]
fn wrong_thread_of(
    alloc: Global,
    types: &TypeNumbers<'_>,
    symbol: SymbolNode<'_>,
    span: Span,
) -> Result<Option<Span>, AllocError>
    ensures place { IfOk result (λ o. o ≡ earliest (wrong_thread_of (named_types types.now) (symbol_of symbol.entry) span)) }
{
    let header = header_of(alloc, symbol)?;
    if is_thread_header(types, &header)? {
        Ok(None)
    } else {
        Ok(Some(span))
    }
}

#[tactic(auto, unfolding(pg_check_rules::specs::Earliest::earliest))]
fn wrong_value(scope: &LineScope<'_>, value: &ValNode) -> Result<Option<Span>, AllocError>
    ensures place { (g : Scope) → IsLineScope scope.now g → IfOk result (λ o. o ≡ earliest (wrong_thread g (val_of value.now))) }
{
    match value {
        ValNode::Global(name) => {
            let symbol = symbol_named(scope, name);
            wrong_thread_of(scope.values.alloc, scope.values.types, symbol, name.span)
        }
        _ => Ok(None),
    }
}

/// The name of a function with which a thread begins, and that doesn't go from a pointer to a pointer.
#[tactic(auto, unfolding(pg_check_rules::specs::Earliest::earliest))]
pub fn wrong_thread(scope: &LineScope<'_>, op: &OpNode) -> Result<Option<Span>, AllocError>
    ensures place { (g : Scope) → IsLineScope scope.now g →
        IfOk result (λ o. o ≡ earliest (flat_map (wrong_thread g) (thread_functions g (op_of op.now)))) }
{
    match thread_function(scope, op) {
        Some(value) => wrong_value(scope, value),
        None => Ok(None),
    }
}

#[tactic(auto, unfolding(pg_check_rules::specs::Earliest::earliest))]
fn unsupported_register(scope: &LineScope<'_>, name: &Name) -> Option<Span>
    ensures { (g : Scope) → IsLineScope scope.now g → result ≡ earliest (unsupported_thread g (Local name.now)) }
{
    if has_register(scope, name) {
        Some(name.span)
    } else {
        None
    }
}

#[tactic(auto, unfolding(pg_check_rules::specs::Earliest::earliest))]
fn unsupported_value(scope: &LineScope<'_>, value: &ValNode) -> Option<Span>
    ensures { (g : Scope) → IsLineScope scope.now g → result ≡ earliest (unsupported_thread g (val_of value.now)) }
{
    match value {
        ValNode::Local(name) => unsupported_register(scope, name),
        ValNode::Global(name) => unsupported_thread_name(scope, name),
        _ => Some(val_span(value)),
    }
}

/// The place of a value with which a thread would begin, and that isn't a function that is defined.
pub fn unsupported_thread(scope: &LineScope<'_>, op: &OpNode) -> Option<Span>
    ensures { (g : Scope) → IsLineScope scope.now g → result ≡ earliest (flat_map (unsupported_thread g) (thread_functions g (op_of op.now))) }
{
    match thread_function(scope, op) {
        Some(value) => unsupported_value(scope, value),
        None => None,
    }
}
