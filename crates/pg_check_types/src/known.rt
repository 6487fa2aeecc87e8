//! Types of a program text that are known by their numbers.

ghost use Rattle.std.specs.Prelude.{◌≡◌, IfOk, IfSome, length, ◌<◌, true};
ghost use Rattle.pg_read_ast.specs.Views.{ty_of};
ghost use Rattle.pg_check_types.specs.Resolved.{resolved};
ghost use Rattle.pg_check_types.specs.Table.{Grows, type_at, type_of_shape, refers_below, IsShorter};
ghost use Rattle.pg_check_types.specs.Known.{denoted, IsWithin};
ghost use Rattle.pg_check_types.specs.Kinds.{kind_of, agree};
ghost use Rattle.pg_check_types.specs.Capped.{IsLayout};
ghost use Rattle.pg_check_types.specs.NumberedTypes.{named_types, table_of};

use crate::kind::{TypeKind, kind_of_shape};
use crate::layout::Layout;
use crate::shape::Shape;
use crate::table::TypeTable;
use crate::types::TypeNumbers;
use pg_read_ast::TypeNode;
use std::alloc::AllocError;
use std::marker::Model;

/// The types of a program text, each known by its number once it was asked for.
#[derive(Drop)]
pub struct KnownTypes<'b> {
    types: &'b TypeNumbers<'b>,
    table: TypeTable<'b>,
}

impl<'b> Model for KnownTypes<'b> {
    ghost use Rattle.std.specs.Coded.{codes};
    ghost use Rattle.pg_read_ast.specs.contracts.types.TypeNode as type_node;
    ghost use Rattle.pg_check_types.specs.Table.{types_of, Grows};
    ghost use Rattle.pg_check_types.specs.NumberedTypes.{NumberedTypes, table_of};

    ghost Value = { NumberedTypes };

    ghost coded = { Prim.hlevel (codes, type_node.the_row.coded) };

    ghost view = { λ t. record { items = t.types.now.items; entries = t.table } };

    ghost invariant = { λ t. Grows (table_of t.types.now) (types_of t.table) };
}

impl<'b> KnownTypes<'b> {
    /// The types of a text, of which nothing was asked yet.
    pub fn new(types: &'b TypeNumbers<'b>) -> KnownTypes<'b>
        ensures { result ≡ types.now }
    {
        KnownTypes {
            types,
            table: types.table(),
        }
    }

    /// The number of a type; none where it isn't a type.
    pub fn number(&mut self, ty: &TypeNode) -> Result<Option<usize>, AllocError>
        ensures value { IfOk result (λ o. denoted (table_of self.new) o ≡ resolved (named_types self.old) (ty_of ty.now)) }
        ensures within { IfOk result (λ o. IsWithin (table_of self.new) o) }
        ensures items { self.new.items ≡ self.old.items }
        ensures grows { Grows (table_of self.old) (table_of self.new) }
    {
        self.types.number(&mut self.table, ty)
    }

    /// What the type of a number is, over types of lower numbers.
    pub fn shape_of_number(&self, number: usize) -> Shape
        requires { number < length (table_of self.now) }
        ensures same { type_of_shape (table_of self.now) result ≡ type_at (table_of self.now) number }
        ensures below { refers_below number result ≡ true }
    {
        self.table.shape(number)
    }

    /// The kind of the type of a number.
    pub fn kind_of_number(&self, number: usize) -> TypeKind
        requires { number < length (table_of self.now) }
        ensures { result ≡ kind_of (type_at (table_of self.now) number) }
    {
        kind_of_shape(self.table.shape(number))
    }

    /// How the type of a number lies in memory.
    pub fn layout_of_number(&self, number: usize) -> Layout
        requires { number < length (table_of self.now) }
        ensures layout { IsLayout result (type_at (table_of self.now) number) }
        ensures shorter { IfSome result.shorter (IsShorter (table_of self.now) (type_at (table_of self.now) number) number) }
    {
        self.table.layout(number)
    }

    /// Whether the types of two numbers are the same; so they are where there is no number.
    pub fn agree_by_number(&self, one: Option<usize>, other: Option<usize>) -> bool
        requires one { IsWithin (table_of self.now) one }
        requires other { IsWithin (table_of self.now) other }
        ensures { result ≡ agree (denoted (table_of self.now) one) (denoted (table_of self.now) other) }
    {
        self.table.agree(one, other)
    }
}
