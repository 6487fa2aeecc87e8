//! The types of a program text.

ghost use Rattle.std.specs.Prelude.{◌≡◌, IfOk, is_some};
ghost use Rattle.std.specs.Option.{option_map};
ghost use Rattle.pg_read_ast.specs.Numbers.{type_named};
ghost use Rattle.pg_read_ast.specs.Views.{ty_of};
ghost use Rattle.pg_check_types.specs.Resolved.{resolved};
ghost use Rattle.pg_check_types.specs.Table.{types_of, Grows};
ghost use Rattle.pg_check_types.specs.Known.{denoted, IsWithin};
ghost use Rattle.pg_check_types.specs.Kinds.{kind_of, agree, is_oversize};
ghost use Rattle.pg_check_types.specs.NumberedTypes.{named_types, table_of};

use crate::items::{index_items, item_numbers};
use crate::kind::{TypeKind, kind_of_shape};
use crate::layout::Layout;
use crate::names::place_of_name;
use crate::resolving::type_number;
use crate::shape::Shape;
use crate::table::TypeTable;
use indexmap::IndexMap;
use pg_read_ast::pg_num::Width;
use pg_read_ast::pg_num::limits::SIZE_LIMIT;
use pg_read_ast::{TypeItem, TypeNode};
use std::alloc::{AllocError, Global};
use std::marker::Model;

/// The types of a program text: those of its type items, by their names, and what they are made of, by numbers.
#[derive(Drop)]
pub struct TypeNumbers<'a> {
    items: &'a [TypeItem],
    places: IndexMap<&'a [u8], usize>,
    numbers: Vec<Option<usize>>,
    shapes: IndexMap<Shape, Layout>,
    alloc: Global,
}

impl<'a> Model for TypeNumbers<'a> {
    ghost use Rattle.std.specs.Coded.{codes};
    ghost use Rattle.pg_read_ast.specs.contracts.types.TypeNode as type_node;
    ghost use Rattle.pg_check_types.specs.NumberedTypes.{NumberedTypes, AreNumbered};

    ghost Value = { NumberedTypes };

    ghost coded = { Prim.hlevel (codes, type_node.the_row.coded) };

    ghost view = { λ t. record { items = t.items.now; entries = t.shapes.entries } };

    ghost invariant = { λ t. AreNumbered t.items.now t.places t.numbers.items t.shapes.entries };
}

/// The widths of integer types.
const WIDTHS: [Width; 5] = [Width::W1, Width::W8, Width::W16, Width::W32, Width::W64];

/// Enters the types that have no parts, about which most is asked: so a question about one adds nothing to a table.
fn enter_scalars(table: &mut TypeTable<'_>) -> Result<(), AllocError> {
    for width in &WIDTHS {
        table.integer(*width)?;
    }
    table.pointer()?;
    table.void()?;
    Ok(())
}

impl<'a> TypeNumbers<'a> {
    /// The types of a text with these type items.
    pub fn new(alloc: Global, items: &'a [TypeItem]) -> Result<TypeNumbers<'a>, AllocError>
        ensures { IfOk result (λ t. t.items ≡ items.now) }
    {
        let places = index_items(alloc, items)?;
        let none = IndexMap::new(alloc);
        let mut table = TypeTable::over(alloc, &none);
        enter_scalars(&mut table)?;
        let numbers = item_numbers(alloc, &mut table, &places, items)?;
        let shapes = table.to_map(alloc)?;
        Ok(TypeNumbers {
            items,
            places,
            numbers,
            shapes,
            alloc,
        })
    }

    /// Whether a type item has this name.
    pub fn is_item(&self, name: &[u8]) -> bool
        ensures { result ≡ is_some (type_named (named_types self.now) name.now) }
    {
        place_of_name(&self.places, name).is_some()
    }

    /// A table over these types, for further ones.
    pub(crate) fn table(&self) -> TypeTable<'_>
        ensures { result ≡ self.now.entries }
    {
        TypeTable::over(self.alloc, &self.shapes)
    }

    /// The number of a type in a table over these types; none where it isn't a type.
    #[tactic(auto, unfolding(crate::specs::Resolved::resolved))]
    pub(crate) fn number(
        &self,
        table: &mut TypeTable<'_>,
        ty: &TypeNode,
    ) -> Result<Option<usize>, AllocError>
        requires { Grows (table_of self.now) (types_of table.old) }
        ensures value { IfOk result (λ o. denoted (types_of table.new) o ≡ resolved (named_types self.now) (ty_of ty.now)) }
        ensures within { IfOk result (λ o. IsWithin (types_of table.new) o) }
        ensures grows { Grows (types_of table.old) (types_of table.new) }
    {
        type_number(table, &self.places, self.numbers.as_slice(), ty)
    }

    /// What kind a type is of; none where it isn't a type.
    pub fn kind(&self, ty: &TypeNode) -> Result<Option<TypeKind>, AllocError>
        ensures kind { IfOk result (λ o. o ≡ option_map kind_of (resolved (named_types self.now) (ty_of ty.now))) }
    {
        let mut table = self.table();
        match self.number(&mut table, ty)? {
            Some(number) => Ok(Some(kind_of_shape(table.shape(number)))),
            None => Ok(None),
        }
    }

    /// Whether two types are the same, where both are types.
    pub fn agree(&self, one: &TypeNode, other: &TypeNode) -> Result<bool, AllocError>
        ensures agree { IfOk result (λ b. b ≡
            agree (resolved (named_types self.now) (ty_of one.now)) (resolved (named_types self.now) (ty_of other.now))) }
    {
        let mut table = self.table();
        let one = self.number(&mut table, one)?;
        let other = self.number(&mut table, other)?;
        Ok(table.agree(one, other))
    }

    /// Whether a type is larger than types may be.
    pub fn is_oversize(&self, ty: &TypeNode) -> Result<bool, AllocError>
        ensures size { IfOk result (λ b. b ≡ is_oversize (resolved (named_types self.now) (ty_of ty.now))) }
    {
        let mut table = self.table();
        match self.number(&mut table, ty)? {
            Some(number) => Ok(table.layout(number).size > SIZE_LIMIT),
            None => Ok(false),
        }
    }
}
