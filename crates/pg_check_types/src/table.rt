//! The types that occur in a program, by number.

ghost use Rattle.std.specs.Prelude.{◌≡◌, ◌^◌, Some, slice_get, IfOk, IfSome, length, ◌<◌, ◌≤◌, true};
ghost use Rattle.indexmap.specs.IndexMap.{keys};
ghost use Rattle.pg_check_types.specs.Resolved.{same_type, IntegerType, PointerType, VoidType, ArrayType, NoFields, MoreFields};
ghost use Rattle.pg_check_types.specs.Layout.{field_list};
ghost use Rattle.pg_check_types.specs.Capped.{IsLayout};
ghost use Rattle.pg_check_types.specs.Known.{denoted, IsWithin};
ghost use Rattle.pg_check_types.specs.Kinds.{agree};
ghost use Rattle.pg_check_types.specs.Table.{refers_below, type_of_shape, types_of, type_at, Grows, IsTable, IsAdded, IsBeginning, IsShorter};

use crate::layout::Layout;
use crate::measures::{
    array_layout, field_layout, integer_layout, no_fields_layout, pointer_layout, void_layout,
};
use crate::shape::Shape;
use indexmap::IndexMap;
use pg_read_ast::pg_num::Width;
use std::alloc::{AllocError, Global};
use std::marker::Model;

/// The types that occur in a program: those of a map that doesn't change, and further ones. Equal types have one number.
#[derive(Drop)]
pub struct TypeTable<'b> {
    below: &'b IndexMap<Shape, Layout>,
    more: IndexMap<Shape, Layout>,
}

impl<'b> Model for TypeTable<'b> {
    ghost use Rattle.std.specs.Prelude.{List, ◌++◌};
    ghost use Rattle.pg_check_types.specs.declared.shape.Shape.{Shape};
    ghost use Rattle.pg_check_types.specs.declared.layout.Layout.{Layout};
    ghost use Rattle.pg_check_types.specs.Table.{IsTable};

    ghost Value = { List (Shape × Layout) };

    ghost view = { λ t. t.below.now.entries ++ t.more.entries };

    ghost invariant = { λ t. IsTable (t.below.now.entries ++ t.more.entries) };
}

impl<'b> TypeTable<'b> {
    /// The types of a map, and no further ones.
    pub fn over(alloc: Global, below: &'b IndexMap<Shape, Layout>) -> TypeTable<'b>
        requires { IsTable below.now.entries }
        ensures { result ≡ below.now.entries }
    {
        TypeTable {
            below,
            more: IndexMap::new(alloc),
        }
    }

    /// How many types there are.
    fn len(&self) -> usize
        ensures length { result ≡ length self.now }
        ensures table { IsTable self.now }
    {
        self.below.len() + self.more.len()
    }

    /// The types as one map.
    pub fn to_map(&self, alloc: Global) -> Result<IndexMap<Shape, Layout>, AllocError>
        ensures types { IfOk result (λ m. m.entries ≡ self.now) }
        ensures table { IfOk result (λ m. IsTable m.entries) }
    {
        let mut shapes = IndexMap::new(alloc);
        for number in 0..self.len() {
            let (shape, layout) = self.entry(number);
            place_of(&mut shapes, shape, layout)?;
        }
        Ok(shapes)
    }

    /// The number of the type of a shape, whose parts are in the table.
    fn add(&mut self, shape: Shape, layout: Layout) -> Result<usize, AllocError>
        requires refers { refers_below (length self.old) shape ≡ true }
        requires layout { IsLayout layout (type_of_shape (types_of self.old) shape) }
        requires shorter { IfSome layout.shorter (IsShorter (types_of self.old) (type_of_shape (types_of self.old) shape) (length self.old)) }
        ensures found { IfOk result (λ t. slice_get (types_of self.new) t ≡
            Some (type_of_shape (types_of self.old) shape)) }
        ensures grows { Grows (types_of self.old) (types_of self.new) }
    {
        match self.below.get_index_of(&shape) {
            Some(place) => Ok(place),
            None => {
                let place = place_of(&mut self.more, shape, layout)?;
                Ok(self.below.len() + place)
            }
        }
    }

    /// The shape and the layout of the type of a number.
    fn entry(&self, number: usize) -> (Shape, Layout)
        requires { number < length self.now }
        ensures entry { slice_get self.now number ≡ Some result }
        ensures table { IsTable self.now }
    {
        let count = self.below.len();
        if number < count {
            entry_at(self.below, number)
        } else {
            entry_at(&self.more, number - count)
        }
    }

    /// How a type lies in memory.
    pub fn layout(&self, number: usize) -> Layout
        requires { number < length (types_of self.now) }
        ensures layout { IsLayout result (type_at (types_of self.now) number) }
        ensures shorter { IfSome result.shorter (IsShorter (types_of self.now) (type_at (types_of self.now) number) number) }
    {
        let (_shape, layout) = self.entry(number);
        layout
    }

    /// What a type is, over types of lower numbers.
    pub fn shape(&self, number: usize) -> Shape
        requires { number < length (types_of self.now) }
        ensures same { type_of_shape (types_of self.now) result ≡ type_at (types_of self.now) number }
        ensures below { refers_below number result ≡ true }
    {
        let (shape, _layout) = self.entry(number);
        shape
    }

    /// Whether two types are equal.
    pub fn are_same(&self, one: usize, other: usize) -> bool
        requires one { one < length (types_of self.now) }
        requires other { other < length (types_of self.now) }
        ensures { result ≡ same_type (type_at (types_of self.now) one) (type_at (types_of self.now) other) }
    {
        // Read for the proof: see docs/CONTRIBUTING.md. No shape stands twice.
        let _shapes = &self.more;
        one == other
    }

    /// Whether the types of two numbers are the same; so they are where there is no number.
    pub fn agree(&self, one: Option<usize>, other: Option<usize>) -> bool
        requires one { IsWithin (types_of self.now) one }
        requires other { IsWithin (types_of self.now) other }
        ensures { result ≡ agree (denoted (types_of self.now) one) (denoted (types_of self.now) other) }
    {
        match (one, other) {
            (Some(one), Some(other)) => self.are_same(one, other),
            _ => true,
        }
    }

    /// The number of an integer type.
    pub fn integer(&mut self, width: Width) -> Result<usize, AllocError>
        ensures found { IfOk result (λ t. slice_get (types_of self.new) t ≡ Some (IntegerType width)) }
        ensures grows { Grows (types_of self.old) (types_of self.new) }
    {
        match width {
            Width::W1 => self.add(Shape::I1, integer_layout(Width::W1)),
            Width::W8 => self.add(Shape::I8, integer_layout(Width::W8)),
            Width::W16 => self.add(Shape::I16, integer_layout(Width::W16)),
            Width::W32 => self.add(Shape::I32, integer_layout(Width::W32)),
            Width::W64 => self.add(Shape::I64, integer_layout(Width::W64)),
        }
    }

    /// The number of the type of pointers.
    pub fn pointer(&mut self) -> Result<usize, AllocError>
        ensures found { IfOk result (λ t. slice_get (types_of self.new) t ≡ Some PointerType) }
        ensures grows { Grows (types_of self.old) (types_of self.new) }
    {
        self.add(Shape::Pointer, pointer_layout())
    }

    /// The number of `void`.
    pub fn void(&mut self) -> Result<usize, AllocError>
        ensures found { IfOk result (λ t. slice_get (types_of self.new) t ≡ Some VoidType) }
        ensures grows { Grows (types_of self.old) (types_of self.new) }
    {
        self.add(Shape::Void, void_layout())
    }

    #[tactic(auto, using(crate::proofs::TableTypes::counted))]
    /// The number of an array of so many elements of a type.
    pub fn array(&mut self, count: u64, element: usize) -> Result<usize, AllocError>
        requires { element < length (types_of self.old) }
        ensures found { IfOk result (λ t. slice_get (types_of self.new) t ≡
            Some (ArrayType count (type_at (types_of self.old) element))) }
        ensures grows { Grows (types_of self.old) (types_of self.new) }
    {
        let layout = array_layout(count, self.layout(element));
        self.add(Shape::Array(count, element), layout)
    }

    /// The number of the structure without fields.
    pub fn no_fields(&mut self) -> Result<usize, AllocError>
        ensures found { IfOk result (λ t. slice_get (types_of self.new) t ≡ Some NoFields) }
        ensures grows { Grows (types_of self.old) (types_of self.new) }
    {
        self.add(Shape::NoFields, no_fields_layout())
    }

    #[tactic(auto, using(crate::proofs::TableTypes::counted))]
    /// The number of a structure with one more field.
    pub fn with_field(&mut self, front: usize, field: usize) -> Result<usize, AllocError>
        requires front { front < length (types_of self.old) }
        requires field { field < length (types_of self.old) }
        ensures found { IfOk result (λ t. slice_get (types_of self.new) t ≡
            Some (MoreFields (type_at (types_of self.old) front) (type_at (types_of self.old) field))) }
        ensures grows { Grows (types_of self.old) (types_of self.new) }
    {
        // Called for the proof: see docs/CONTRIBUTING.md. The types are counted, so a structure's fields are.
        let _count = self.len();
        let shorter = self.shorter_behind(front);
        let layout = field_layout(self.layout(front), self.layout(field), shorter);
        self.add(Shape::MoreFields(front, field), layout)
    }

    /// The structure of some of the first fields to which one leads that has a field more than `front`. Two steps back
    /// of one length are one step, so the way from a structure to that of any of its first fields takes the logarithm
    /// of their number (Myers, An applicative random-access stack, 1983).
    fn shorter_behind(&self, front: usize) -> usize
        requires { front < length (types_of self.now) }
        ensures near { result ≤ front }
        ensures beginning { IsBeginning (type_at (types_of self.now) result) (type_at (types_of self.now) front) }
    {
        let near = self.layout(front);
        match near.shorter {
            Some(next) => self.two_back(near.fields, next).unwrap_or(front),
            None => front,
        }
    }

    /// Where two steps back lead from a structure of `fields` fields, of which the first leads to `next`, if they are
    /// of one length.
    fn two_back(&self, fields: usize, next: usize) -> Option<usize>
        requires next { next < length (types_of self.now) }
        requires fields { length (field_list (type_at (types_of self.now) next)) ≤ fields }
        ensures { IfSome result (IsShorter (types_of self.now) (type_at (types_of self.now) next) next) }
    {
        let middle = self.layout(next);
        match middle.shorter {
            Some(last) => {
                let steps = (
                    fields - middle.fields,
                    middle.fields - self.layout(last).fields,
                );
                if steps.0 == steps.1 { Some(last) } else { None }
            }
            None => None,
        }
    }
}

/// The place of a shape among the keys. A new one goes last.
fn place_of(
    shapes: &mut IndexMap<Shape, Layout>,
    shape: Shape,
    layout: Layout,
) -> Result<usize, AllocError>
    ensures found { IfOk result (λ i. slice_get (keys shapes.new) i ≡ Some shape) }
    ensures entries { IsAdded shapes.old.entries shapes.new.entries shape layout }
    ensures small { IfOk result (λ i. i < 2 ^ 63) }
{
    let count = shapes.len();
    match shapes.get_index_of(&shape) {
        Some(place) => Ok(place),
        None => {
            shapes.insert(shape, layout)?;
            Ok(count)
        }
    }
}

/// The entry at a place.
fn entry_at(shapes: &IndexMap<Shape, Layout>, place: usize) -> (Shape, Layout)
    requires { place < length shapes.now.entries }
    ensures { slice_get shapes.now.entries place ≡ Some result }
{
    match shapes.get_index(place) {
        Some((shape, layout)) => (*shape, *layout),
        None => unreachable!(),
    }
}
