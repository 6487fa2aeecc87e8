//! Registers that stand at another type.

ghost use Rattle.std.specs.Prelude.{◌≡◌, IfOk, Option, slice_get};
ghost use Rattle.std.specs.Option.{option_map, option_and_then};
ghost use Rattle.pg_read_ast.specs.Views.{ty_of};
ghost use Rattle.pg_check_types.specs.Resolved.{resolved};
ghost use Rattle.pg_check_types.specs.Kinds.{fails, is_as};
ghost use Rattle.pg_check_types.specs.NumberedTypes.{named_types};
ghost use Rattle.pg_check_rules.specs.Names.{Register, register_named};
ghost use Rattle.pg_check_rules.specs.ValueConditions.{Scope, wrong_register};
ghost use Rattle.pg_check_names.specs.Registers.{register_type};
ghost use Rattle.pg_check_values.specs.Scopes.{IsScope};
ghost use Rattle.pg_check_values.specs.Uses.{wrong_typed};

use crate::scope::ValueScope;
use crate::type_tests::{TypeTest, fails_kind};
use pg_check_names::RegisterType;
use pg_check_types::{TypeNumbers, place_of_name};
use pg_read_ast::{Name, TypeNode};
use std::alloc::AllocError;

/// The type at a place, if there is one.
fn type_at<'a>(types: &[RegisterType<'a>], place: Option<usize>) -> Option<RegisterType<'a>>
    ensures { result ≡ option_and_then (λ p. slice_get types.now p) place }
{
    match place {
        Some(place) => types.get(place).copied(),
        None => None,
    }
}

/// The type of a register by its name; none where there is no register.
fn type_of_register<'a>(scope: &ValueScope<'a>, name: &Name) -> Option<RegisterType<'a>>
    ensures { (g : Scope) → IsScope scope.now g →
        option_map (register_type g.tree.types) result ≡ option_map (λ (r : Register). r.ty) (register_named g.registers name.now.text) }
{
    let place = place_of_name(scope.registers, name.text.as_slice());
    type_at(scope.register_types, place)
}

/// Whether a type is one, and other than a register's.
#[tactic(auto, using(crate::proofs::RegisterTypes::bit_same, crate::proofs::RegisterTypes::pointer_same))]
fn has_other_type(
    types: &TypeNumbers<'_>,
    register: RegisterType<'_>,
    ty: &TypeNode,
) -> Result<bool, AllocError>
    ensures other { IfOk result (λ b. b ≡ fails (is_as (register_type (named_types types.now) register.entry)) (resolved (named_types types.now) (ty_of ty.now))) }
{
    match register {
        RegisterType::Written(written) => {
            let same = types.agree(written, ty)?;
            Ok(!same)
        }
        RegisterType::Bit => {
            let kind = types.kind(ty)?;
            Ok(fails_kind(TypeTest::Bit, kind))
        }
        RegisterType::Pointer => {
            let kind = types.kind(ty)?;
            Ok(fails_kind(TypeTest::Pointer, kind))
        }
    }
}

/// Whether a register, if there is one, has another type, or stands where none may.
fn is_wrong_register(
    types: &TypeNumbers<'_>,
    constant: bool,
    register: Option<RegisterType<'_>>,
    ty: &TypeNode,
) -> Result<bool, AllocError>
    ensures wrong { IfOk result (λ b. b ≡ wrong_typed constant (resolved (named_types types.now) (ty_of ty.now)) (option_map (register_type (named_types types.now)) register.entry)) }
{
    match register {
        Some(register) => {
            if constant {
                Ok(true)
            } else {
                has_other_type(types, register, ty)
            }
        }
        None => Ok(false),
    }
}

/// Whether a register of a name has another type, or stands where none may.
pub(crate) fn wrong_register(
    scope: &ValueScope<'_>,
    constant: bool,
    ty: &TypeNode,
    name: &Name,
) -> Result<bool, AllocError>
    ensures wrong { (g : Scope) → IsScope scope.now g →
        IfOk result (λ b. b ≡ wrong_register constant (resolved g.tree.types (ty_of ty.now)) (register_named g.registers name.now.text)) }
{
    let register = type_of_register(scope, name);
    is_wrong_register(scope.types, constant, register, ty)
}
