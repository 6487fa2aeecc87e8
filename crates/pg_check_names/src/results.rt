//! The types of the results of operations.

ghost use Rattle.std.specs.Prelude.{◌≡◌, IfOk, List, Option};
ghost use Rattle.std.specs.Option.{option_map};
ghost use Rattle.pg_read_ast.specs.Syntax.{NamedType};
ghost use Rattle.pg_read_ast.specs.Numbers.{is_void, gives};
ghost use Rattle.pg_read_ast.specs.Views.{ty_of, op_of};
ghost use Rattle.pg_check_types.specs.Resolved.{ResolvedType};
ghost use Rattle.pg_check_types.specs.Kinds.{kind_of};
ghost use Rattle.pg_check_types.specs.NumberedTypes.{named_types};
ghost use Rattle.pg_check_rules.specs.Names.{result_type};
ghost use Rattle.pg_check_rules.specs.TypeConditions.{is_void_part};
ghost use Rattle.pg_check_names.specs.Registers.{type_or_none, has_value, has_some_value, IsResult};

use crate::register_type::RegisterType;
use pg_check_types::{TypeKind, TypeNumbers};
use pg_read_ast::{OpNode, TypeNode};
use std::alloc::AllocError;

/// The type that is written for an operation's result, which may be `void`; none where there is no result.
#[tactic(auto, unfolding(pg_read_ast::specs::Numbers::gives))]
fn written_result(op: &OpNode) -> Option<RegisterType<'_>>
    ensures ty { (types : List NamedType) → type_or_none types result ≡ result_type types (op_of op.now) }
    ensures gives { (types : List NamedType) → has_some_value types result ≡ gives types (op_of op.now) }
{
    match op {
        OpNode::Binary { ty, .. } => Some(RegisterType::Written(ty)),
        OpNode::Icmp { .. } => Some(RegisterType::Bit),
        OpNode::Cast { ty, .. } => Some(RegisterType::Written(ty)),
        OpNode::Select { yes, .. } => Some(RegisterType::Written(&yes.ty)),
        OpNode::Phi { ty, .. } => Some(RegisterType::Written(ty)),
        OpNode::Br { .. } => None,
        OpNode::CondBr { .. } => None,
        OpNode::Switch { .. } => None,
        OpNode::Call { ty, .. } => Some(RegisterType::Written(ty)),
        OpNode::RetVoid { .. } => None,
        OpNode::Ret { .. } => None,
        OpNode::Unreachable { .. } => None,
        OpNode::Alloca { .. } => Some(RegisterType::Pointer),
        OpNode::Load { ty, .. } => Some(RegisterType::Written(ty)),
        OpNode::Store { .. } => None,
        OpNode::GetElementPtr { .. } => Some(RegisterType::Pointer),
    }
}

fn is_void_kind(kind: Option<TypeKind>) -> bool
    ensures { (t : Option ResolvedType) → kind ≡ option_map kind_of t → result ≡ is_void_part t }
{
    match kind {
        Some(TypeKind::Void) => true,
        _ => false,
    }
}

/// Whether a type is `void` or a name for it.
fn is_void(types: &TypeNumbers<'_>, ty: &TypeNode) -> Result<bool, AllocError>
    ensures same { IfOk result (λ b. b ≡ is_void (named_types types.now) (ty_of ty.now)) }
{
    let kind = types.kind(ty)?;
    Ok(is_void_kind(kind))
}

/// Whether there is a value of the type that is written for a result.
fn has_value(types: &TypeNumbers<'_>, ty: RegisterType<'_>) -> Result<bool, AllocError>
    ensures same { IfOk result (λ b. b ≡ has_value (named_types types.now) ty.entry) }
{
    match ty {
        RegisterType::Written(ty) => {
            let void = is_void(types, ty)?;
            Ok(!void)
        }
        RegisterType::Bit => Ok(true),
        RegisterType::Pointer => Ok(true),
    }
}

/// Whether an operation gives a value.
pub fn gives(types: &TypeNumbers<'_>, op: &OpNode) -> Result<bool, AllocError>
    ensures same { IfOk result (λ b. b ≡ gives (named_types types.now) (op_of op.now)) }
{
    match written_result(op) {
        Some(ty) => has_value(types, ty),
        None => Ok(false),
    }
}

/// The type of an operation's result; none where the operation gives no value.
pub(crate) fn result_type<'a>(
    types: &TypeNumbers<'_>,
    op: &'a OpNode,
) -> Result<Option<RegisterType<'a>>, AllocError>
    ensures ty { IfOk result (λ o. IsResult (named_types types.now) (op_of op.now) o) }
{
    match written_result(op) {
        Some(ty) => {
            if has_value(types, ty)? {
                Ok(Some(ty))
            } else {
                Ok(None)
            }
        }
        None => Ok(None),
    }
}
