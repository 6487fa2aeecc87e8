//! Kinds of types.

ghost use Rattle.std.specs.Prelude.{◌≡◌, List};
ghost use Rattle.pg_check_types.specs.Resolved.{ResolvedType};
ghost use Rattle.pg_check_types.specs.Table.{type_of_shape};
ghost use Rattle.pg_check_types.specs.Kinds.{kind_of};

use crate::shape::Shape;
use pg_read_ast::pg_num::Width;

/// What kind a type is of.
#[derive(Clone, Copy, Debug, PartialEq, Eq)]
pub enum TypeKind {
    Integer(Width),
    Pointer,
    Void,
    /// An array or a structure.
    Aggregate,
}

pub(crate) fn kind_of_shape(shape: Shape) -> TypeKind
    ensures { (types : List ResolvedType) → result ≡ kind_of (type_of_shape types shape) }
{
    match shape {
        Shape::I1 => TypeKind::Integer(Width::W1),
        Shape::I8 => TypeKind::Integer(Width::W8),
        Shape::I16 => TypeKind::Integer(Width::W16),
        Shape::I32 => TypeKind::Integer(Width::W32),
        Shape::I64 => TypeKind::Integer(Width::W64),
        Shape::Pointer => TypeKind::Pointer,
        Shape::Void => TypeKind::Void,
        Shape::Array(_, _) => TypeKind::Aggregate,
        Shape::NoFields => TypeKind::Aggregate,
        Shape::MoreFields(_, _) => TypeKind::Aggregate,
    }
}
