//! The cases of a `switch` that stand twice.

ghost use Rattle.std.specs.Prelude.{◌≡◌, ◌==◌, ℕ, List, Some, None, IfOk, OnOk, map};
ghost use Rattle.std.specs.List.{flat_map};
ghost use Rattle.pg_read_ast.specs.Views.{ty_of, case_of, op_of};
ghost use Rattle.pg_check_types.specs.NumberedTypes.{named_types};
ghost use Rattle.pg_check_types.specs.Resolved.{resolved};
ghost use Rattle.pg_check_rules.specs.Starts.{noted_start};
ghost use Rattle.pg_check_rules.specs.ValueConditions.{Scope};
ghost use Rattle.pg_check_rules.specs.LineConditions.{same_number, repeated_case, equal_cases};
ghost use Rattle.pg_check_rules.specs.Earliest.{earliest};
ghost use Rattle.pg_check_values.specs.Scopes.{IsLineScope};
ghost use Rattle.pg_check_lines.specs.declared.cases.CasePlace.{CasePlace};
ghost use Rattle.pg_check_lines.specs.Cases.{case_place, repeated, starts_behind, start_of, start_by};

use crate::line_types::value_type;
use indexmap::IndexMap;
use pg_check_rules::{earlier, earlier_start, is_before, number_at, place_if, val_span};
use pg_check_types::TypeNumbers;
use pg_check_values::LineScope;
use pg_read_ast::{CaseNode, OpNode, TypeNode};
use pg_read_lex::Span;
use std::alloc::{AllocError, Global};

/// The number of a case, if it has one, and its place.
#[derive(Clone, Copy)]
pub(crate) struct CasePlace {
    number: Option<u64>,
    span: Span,
}

fn case_place(
    types: &TypeNumbers<'_>,
    ty: &TypeNode,
    case: &CaseNode,
) -> Result<CasePlace, AllocError>
    ensures place { IfOk result (λ p. p ≡ case_place (resolved (named_types types.now) (ty_of ty.now)) (case_of case.now)) }
{
    let number = number_at(types, ty, &case.value.value)?;
    Ok(CasePlace {
        number,
        span: val_span(&case.value.value),
    })
}

/// The numbers of cases at the type of their `switch`, and their places.
fn case_places(
    alloc: Global,
    types: &TypeNumbers<'_>,
    ty: &TypeNode,
    cases: &[CaseNode],
) -> Result<Vec<CasePlace>, AllocError>
    ensures places { IfOk result (λ v. v.items ≡ map (case_place (resolved (named_types types.now) (ty_of ty.now))) (map case_of cases.now)) }
{
    let mut places = Vec::new(alloc);
    for case in cases {
        let place = case_place(types, ty, case)?;
        places.push(place)?;
    }
    Ok(places)
}

/// Keeps where a case of a number begins, if no other of it begins before.
fn note_number(starts: &mut IndexMap<u64, u32>, number: u64, start: u32) -> Result<(), AllocError>
    ensures { OnOk result ((n : ℕ) → start_of starts.new n ≡ noted_start (start_of starts.old n) (number == n) start) }
{
    let known = starts.get(&number).copied();
    starts.insert(number, earlier_start(known, start))?;
    Ok(())
}

/// Keeps where a case begins, if it has a number and no other of it begins before.
#[tactic(auto, using(crate::proofs::CaseStarts::not_noted))]
fn note_place(starts: &mut IndexMap<u64, u32>, place: CasePlace) -> Result<(), AllocError>
    ensures { OnOk result ((n : ℕ) → start_of starts.new n ≡
        noted_start (start_of starts.old n) (same_number place.number (Some n)) place.span.start) }
{
    match place.number {
        Some(number) => note_number(starts, number, place.span.start),
        None => Ok(()),
    }
}

/// Where the first case of each number begins.
fn index_places(alloc: Global, places: &[CasePlace]) -> Result<IndexMap<u64, u32>, AllocError>
    ensures { IfOk result (λ m. (n : ℕ) → start_of m n ≡ starts_behind None places.now n) }
{
    let mut starts = IndexMap::new(alloc);
    for place in places {
        note_place(&mut starts, *place)?;
    }
    Ok(starts)
}

fn known_start(starts: &IndexMap<u64, u32>, number: Option<u64>) -> Option<u32>
    ensures { result ≡ start_by (start_of starts.now) number }
{
    match number {
        Some(number) => starts.get(&number).copied(),
        None => None,
    }
}

/// A case of which another of its number stands before it.
fn repeated(starts: &IndexMap<u64, u32>, place: CasePlace) -> Option<Span>
    ensures { (all : List CasePlace) → ((n : ℕ) → start_of starts.now n ≡ starts_behind None all n) →
        result ≡ earliest (repeated all place) }
{
    let known = known_start(starts, place.number);
    place_if(is_before(known, place.span.start), place.span)
}

/// The earliest of these cases of which another of its number stands before it.
fn repeated_places(starts: &IndexMap<u64, u32>, places: &[CasePlace]) -> Option<Span>
    ensures { (all : List CasePlace) → ((n : ℕ) → start_of starts.now n ≡ starts_behind None all n) →
        result ≡ earliest (flat_map (repeated all) places.now) }
{
    let mut found = None;
    for place in places {
        found = earlier(found, repeated(starts, *place));
    }
    found
}

/// The earliest of these cases that is equal to one before it.
fn repeated_cases(
    alloc: Global,
    types: &TypeNumbers<'_>,
    ty: &TypeNode,
    cases: &[CaseNode],
) -> Result<Option<Span>, AllocError>
    ensures place { IfOk result (λ o. o ≡ earliest (flat_map
        (repeated_case (resolved (named_types types.now) (ty_of ty.now)) (map case_of cases.now)) (map case_of cases.now))) }
{
    let places = case_places(alloc, types, ty, cases)?;
    let starts = index_places(alloc, places.as_slice())?;
    Ok(repeated_places(&starts, places.as_slice()))
}

/// The earliest case of a `switch` that is equal to one before it.
#[tactic(auto, unfolding(pg_check_rules::specs::Earliest::earliest))]
pub fn equal_cases(scope: &LineScope<'_>, op: &OpNode) -> Result<Option<Span>, AllocError>
    ensures place { (g : Scope) → IsLineScope scope.now g → IfOk result (λ o. o ≡ earliest (equal_cases g (op_of op.now))) }
{
    match op {
        OpNode::Switch { value, cases, .. } => {
            repeated_cases(
                scope.values.alloc,
                scope.values.types,
                value_type(value),
                cases.as_slice(),
            )
        }
        _ => Ok(None),
    }
}
