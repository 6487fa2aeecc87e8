//! Which types the indices of a path go to, and where one is refused.

ghost use Rattle.std.specs.Prelude.{◌≡◌, ◌<◌, [], ◌∷◌, IfOk, length, map, is_some, drop, Option, None};
ghost use Rattle.std.specs.Option.{option_map};
ghost use Rattle.pg_read_ast.specs.Views.{ty_of, typed_of};
ghost use Rattle.pg_check_types.specs.Resolved.{ResolvedType};
ghost use Rattle.pg_check_rules.specs.Places.{type_span};
ghost use Rattle.pg_check_types.specs.Table.{type_at};
ghost use Rattle.pg_check_types.specs.Known.{denoted, IsWithin};
ghost use Rattle.pg_check_types.specs.NumberedTypes.{named_types, table_of};
ghost use Rattle.pg_check_rules.specs.declared.fields.LastField.{LastField};
ghost use Rattle.pg_check_rules.specs.Earliest.{earliest};
ghost use Rattle.pg_check_rules.specs.ValueConditions.{field_at, wrong_indices};
ghost use Rattle.pg_check_values.specs.Steps.{refused_field, step_place, step_type, step_places};

use pg_check_rules::{LastField, chosen_of, earlier, index_numbers, type_span, val_span};
use pg_check_types::{KnownTypes, Shape, TypeNumbers};
use pg_read_ast::{TypeNode, TypedVal};
use pg_read_lex::Span;
use std::alloc::{AllocError, Global};

/// Where an index is refused, and the number of the type to which it goes.
#[derive(Clone, Copy, Debug)]
pub(crate) struct IndexStep {
    place: Option<Span>,
    next: Option<usize>,
}

/// The number of the type of a field, if there is one.
fn type_of_field(last: Option<LastField>) -> Option<usize>
    ensures { result ≡ option_map (λ (l : LastField). l.field) last }
{
    match last {
        Some(last) => Some(last.field),
        None => None,
    }
}

/// The place of an index that chooses no field.
#[tactic(auto, unfolding(pg_check_rules::specs::Earliest::earliest))]
fn refused_field(field: Option<usize>, index: &TypedVal) -> Option<Span>
    ensures { (o : Option ResolvedType) → is_some field ≡ is_some o → result ≡ earliest (refused_field o (typed_of index.now)) }
{
    match field {
        Some(_) => None,
        None => Some(val_span(&index.value)),
    }
}

/// How an index goes into a structure.
fn step_into_fields(
    types: &KnownTypes<'_>,
    number: usize,
    chosen: Option<i64>,
    index: &TypedVal,
) -> IndexStep
    requires { number < length (table_of types.now) }
    ensures place { result.place ≡ earliest (refused_field (field_at (type_at (table_of types.now) number) chosen) (typed_of index.now)) }
    ensures next { denoted (table_of types.now) result.next ≡ field_at (type_at (table_of types.now) number) chosen }
    ensures within { IsWithin (table_of types.now) result.next }
{
    let last = chosen_of(types, number, chosen);
    let next = type_of_field(last);
    IndexStep {
        place: refused_field(next, index),
        next,
    }
}

/// How an index goes into what has no parts.
#[tactic(auto, unfolding(pg_check_rules::specs::Earliest::earliest))]
fn step_into_scalar(index: &TypedVal) -> IndexStep
    ensures place { result.place ≡ earliest (type_span (typed_of index.now).ty ∷ []) }
    ensures next { result.next ≡ None }
{
    IndexStep {
        place: Some(type_span(&index.ty)),
        next: None,
    }
}

/// How an index goes into a type, if there is one. The structure without fields ends the path.
#[tactic(auto, unfolding(pg_check_rules::specs::Earliest::earliest))]
fn step(
    types: &KnownTypes<'_>,
    number: Option<usize>,
    chosen: Option<i64>,
    index: &TypedVal,
) -> IndexStep
    requires { IsWithin (table_of types.now) number }
    ensures place { result.place ≡ earliest (step_place (denoted (table_of types.now) number) chosen (typed_of index.now)) }
    ensures next { denoted (table_of types.now) result.next ≡ step_type (denoted (table_of types.now) number) chosen }
    ensures within { IsWithin (table_of types.now) result.next }
{
    match number {
        Some(number) => match types.shape_of_number(number) {
            Shape::Array(_, element) => IndexStep {
                place: None,
                next: Some(element),
            },
            Shape::NoFields => {
                let step = step_into_fields(types, number, chosen, index);
                IndexStep {
                    place: step.place,
                    next: None,
                }
            }
            Shape::MoreFields(_, _) => step_into_fields(types, number, chosen, index),
            _ => step_into_scalar(index),
        },
        None => IndexStep {
            place: None,
            next: None,
        },
    }
}

/// The earliest of the indices behind the first that is refused.
fn wrong_steps(
    types: &KnownTypes<'_>,
    number: Option<usize>,
    chosen: &[Option<i64>],
    indices: &[TypedVal],
) -> Option<Span>
    requires within { IsWithin (table_of types.now) number }
    requires same { length chosen.now ≡ length indices.now }
    ensures { result ≡ earliest (step_places (denoted (table_of types.now) number) (drop 1 chosen.now) (map typed_of (drop 1 indices.now))) }
{
    let mut found = None;
    let mut current = number;
    for place in 1..indices.len() {
        let step = step(types, current, chosen[place], &indices[place]);
        found = earlier(found, step.place);
        current = step.next;
    }
    found
}

/// The earliest index of a `getelementptr` that chooses no field, or goes into what has no parts.
pub fn wrong_indices(
    alloc: Global,
    types: &TypeNumbers<'_>,
    ty: &TypeNode,
    indices: &[TypedVal],
) -> Result<Option<Span>, AllocError>
    ensures place { IfOk result (λ o. o ≡ earliest (wrong_indices (named_types types.now) (ty_of ty.now) (map typed_of indices.now))) }
{
    let chosen = index_numbers(alloc, types, indices)?;
    let mut known = KnownTypes::new(types);
    let number = known.number(ty)?;
    Ok(wrong_steps(&known, number, chosen.as_slice(), indices))
}
