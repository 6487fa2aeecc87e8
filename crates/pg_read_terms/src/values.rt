//! The reader of values.

ghost use Rattle.std.specs.Prelude.{◌≤◌, ◌<◌, length, drop, map, IfOk};
ghost use Rattle.pg_read_grammar.specs.declared.class.Class.TheVariants.{Comma};
ghost use Rattle.pg_read_grammar.specs.Classes.{is};
ghost use Rattle.pg_read_grammar.specs.Reading.{all_of};
ghost use Rattle.pg_read_grammar.specs.Reader.{plain_value_at, named_value_at, typed_in_at, value_at, other_value_at, gep_at, gep_tail_at, int_to_ptr_at, int_to_ptr_tail_at, behind_comma};
ghost use Rattle.pg_read_grammar.specs.Views.{Reads};
ghost use Rattle.pg_read_grammar.specs.Grammar.{literal_of};
ghost use Rattle.pg_read_terms.specs.Sets.{other_plain_value_at};
ghost use Rattle.pg_read_terms.specs.Ends.{gep_pointer_at, gep_indices_at, gep_end_at, int_to_ptr_number_at, int_to_ptr_end_at};
ghost use Rattle.pg_read_ast.specs.Views.{ty_of, val_of, typed_of};

use crate::reader::{Read, Text, keep, literal, name, next_is, take, take_if, too_deep};
use crate::sets::{ClassSet, next_in, take_in};
use crate::skips::flags;
use crate::types::type_node;
use pg_read_ast::{TypeNode, TypedVal, ValNode};
use pg_read_grammar::{Class, ReadError, Token};
use std::alloc::Global;

/// A value that is one word, or a global.
pub fn plain_value(text: &Text<'_>, at: usize) -> Read<ValNode>
    requires { at ≤ length text.now.tokens.now }
    ensures { Reads text.now.tokens.now at (λ x. val_of x.0) (λ x. x.1) result (plain_value_at (drop at text.now.tokens.now)) }
{
    if let Some((token, to)) = take_if(text.tokens, at, Class::True) {
        return Ok((ValNode::True(token.span), to));
    }
    if let Some((token, to)) = take_if(text.tokens, at, Class::False) {
        return Ok((ValNode::False(token.span), to));
    }
    if let Some((token, to)) = take_if(text.tokens, at, Class::Null) {
        return Ok((ValNode::Null(token.span), to));
    }
    other_plain_value(text, at)
}

fn other_plain_value(text: &Text<'_>, at: usize) -> Read<ValNode>
    requires { at ≤ length text.now.tokens.now }
    ensures { Reads text.now.tokens.now at (λ x. val_of x.0) (λ x. x.1) result (other_plain_value_at (drop at text.now.tokens.now)) }
{
    if let Some((token, to)) = take_if(text.tokens, at, Class::Undef) {
        return Ok((ValNode::Undef(token.span), to));
    }
    if let Some((token, to)) = take_if(text.tokens, at, Class::Poison) {
        return Ok((ValNode::Poison(token.span), to));
    }
    if let Some((token, to)) = take_if(text.tokens, at, Class::ZeroInitializer) {
        return Ok((ValNode::ZeroInitializer(token.span), to));
    }
    let (token, to) = take_in(text.tokens, at, ClassSet::GlobalName)?;
    Ok((ValNode::Global(name(text.alloc, token)?), to))
}

fn named_value(text: &Text<'_>, at: usize) -> Read<ValNode>
    requires { at ≤ length text.now.tokens.now }
    ensures { Reads text.now.tokens.now at (λ x. val_of x.0) (λ x. x.1) result (named_value_at (drop at text.now.tokens.now)) }
{
    if let Some((token, to)) = take_if(text.tokens, at, Class::Local) {
        return Ok((ValNode::Local(name(text.alloc, token)?), to));
    }
    plain_value(text, at)
}

/// A value in which at most `depth` brackets are open at once.
#[cycle(values)]
pub fn value(text: &Text<'_>, at: usize, depth: u32) -> Read<ValNode>
    requires { at ≤ length text.now.tokens.now }
    ensures { Reads text.now.tokens.now at (λ x. val_of x.0) (λ x. x.1) result (value_at depth (drop at text.now.tokens.now)) }
{
    if let Some((token, to)) = take_if(text.tokens, at, Class::Int) {
        return Ok((ValNode::Int(literal(text.alloc, token)?), to));
    }
    other_value(text, at, depth)
}

/// Such a value, but no integer.
#[cycle(values)]
#[tactic(auto, unfolding(pg_read_grammar::specs::Reader::other_value_at))]
pub fn other_value(text: &Text<'_>, at: usize, depth: u32) -> Read<ValNode>
    requires { at ≤ length text.now.tokens.now }
    ensures { Reads text.now.tokens.now at (λ x. val_of x.0) (λ x. x.1) result (other_value_at depth (drop at text.now.tokens.now)) }
{
    if depth == 0 {
        if next_in(text.tokens, at, ClassSet::OpensValue) {
            return Err(ReadError::Refused(too_deep(at)));
        }
        return named_value(text, at);
    }
    if next_is(text.tokens, at, Class::GetElementPtr) {
        return gep(text, at, depth - 1);
    }
    if next_is(text.tokens, at, Class::IntToPtr) {
        return int_to_ptr(text, at, depth - 1);
    }
    named_value(text, at)
}

/// A value and the type before it.
#[cycle(values)]
pub fn typed_value_in(text: &Text<'_>, at: usize, depth: u32) -> Read<TypedVal>
    requires { at ≤ length text.now.tokens.now }
    ensures { Reads text.now.tokens.now at (λ x. typed_of x.0) (λ x. x.1) result (typed_in_at depth (value_at depth) (drop at text.now.tokens.now)) }
{
    let (ty, at) = type_node(text, at, depth)?;
    let (value, at) = value(text, at, depth)?;
    Ok((TypedVal { ty, value }, at))
}

#[cycle(values)]
fn gep(text: &Text<'_>, at: usize, depth: u32) -> Read<ValNode>
    requires { at ≤ length text.now.tokens.now }
    ensures { Reads text.now.tokens.now at (λ x. val_of x.0) (λ x. x.1) result (gep_at depth (value_at depth) (drop at text.now.tokens.now)) }
{
    let (word, at) = take(text.tokens, at, Class::GetElementPtr)?;
    let at = flags(text.tokens, at);
    gep_tail(text, at, depth, word)
}

/// What stands behind the first token of a constant `getelementptr` and its flags.
#[cycle(values)]
pub fn gep_tail(text: &Text<'_>, at: usize, depth: u32, word: &Token) -> Read<ValNode>
    requires { at ≤ length text.now.tokens.now }
    ensures { Reads text.now.tokens.now at (λ x. val_of x.0) (λ x. x.1) result (gep_tail_at depth (value_at depth) word.now (drop at text.now.tokens.now)) }
{
    let (_, at) = take(text.tokens, at, Class::OpenRound)?;
    let (ty, at) = type_node(text, at, depth)?;
    gep_pointer(text, at, depth, word, ty)
}

/// What stands behind the type that the indices walk.
#[cycle(values)]
fn gep_pointer(text: &Text<'_>, at: usize, depth: u32, word: &Token, ty: TypeNode) -> Read<ValNode>
    requires { at ≤ length text.now.tokens.now }
    ensures { Reads text.now.tokens.now at (λ x. val_of x.0) (λ x. x.1) result (gep_pointer_at depth (value_at depth) word.now (ty_of ty) (drop at text.now.tokens.now)) }
{
    let (_, at) = take(text.tokens, at, Class::Comma)?;
    let (pointer, at) = typed_value_in(text, at, depth)?;
    gep_indices(text, at, depth, word, ty, pointer)
}

/// What stands behind the pointer.
#[cycle(values)]
fn gep_indices(
    text: &Text<'_>,
    at: usize,
    depth: u32,
    word: &Token,
    ty: TypeNode,
    pointer: TypedVal,
) -> Read<ValNode>
    requires { at ≤ length text.now.tokens.now }
    ensures { Reads text.now.tokens.now at (λ x. val_of x.0) (λ x. x.1) result (gep_indices_at depth (value_at depth) word.now (ty_of ty) (typed_of pointer) (drop at text.now.tokens.now)) }
{
    let (indices, at) = more_values(text, at, depth)?;
    gep_end(text, at, word, ty, pointer, indices)
}

/// What stands behind the indices.
fn gep_end(
    text: &Text<'_>,
    at: usize,
    word: &Token,
    ty: TypeNode,
    pointer: TypedVal,
    indices: Vec<TypedVal>,
) -> Read<ValNode>
    requires { at ≤ length text.now.tokens.now }
    ensures { Reads text.now.tokens.now at (λ x. val_of x.0) (λ x. x.1) result (gep_end_at word.now (ty_of ty) (typed_of pointer) (map typed_of indices.items) (drop at text.now.tokens.now)) }
{
    let (_, at) = take(text.tokens, at, Class::CloseRound)?;
    let TypedVal {
        ty: pointer_ty,
        value,
    } = pointer;
    let boxed = match Box::new(text.alloc, value) {
        Ok(boxed) => boxed,
        Err(_) => return Err(ReadError::Memory),
    };
    Ok((
        ValNode::GetElementPtr(word.span, ty, pointer_ty, boxed, indices),
        at,
    ))
}

#[cycle(values)]
fn more_values(text: &Text<'_>, at: usize, depth: u32) -> Read<Vec<TypedVal>>
    requires { at ≤ length text.now.tokens.now }
    ensures { Reads text.now.tokens.now at (λ x. map typed_of x.0.items) (λ x. x.1) result (all_of (is Comma) (behind_comma (typed_in_at depth (value_at depth))) (drop at text.now.tokens.now)) }
{
    let mut values = Vec::new(text.alloc);
    let mut place = at;
    // The label is for the proof: see docs/CONTRIBUTING.md.
    'items: while next_is(text.tokens, place, Class::Comma) {
        match comma_value(text, place, depth) {
            Err(error) => return Err(error),
            Ok((next, to)) => {
                keep(&mut values, next)?;
                place = to;
            }
        }
    }
    Ok((values, place))
}

/// A value and the type before it, behind a comma.
#[cycle(values)]
pub fn comma_value(text: &Text<'_>, at: usize, depth: u32) -> Read<TypedVal>
    requires { at ≤ length text.now.tokens.now }
    ensures read { Reads text.now.tokens.now at (λ x. typed_of x.0) (λ x. x.1) result (behind_comma (typed_in_at depth (value_at depth)) (drop at text.now.tokens.now)) }
    ensures on { IfOk result (λ x. at < x.1) }
{
    let (_, to) = take(text.tokens, at, Class::Comma)?;
    typed_value_in(text, to, depth)
}

fn int_to_ptr(text: &Text<'_>, at: usize, depth: u32) -> Read<ValNode>
    requires { at ≤ length text.now.tokens.now }
    ensures { Reads text.now.tokens.now at (λ x. val_of x.0) (λ x. x.1) result (int_to_ptr_at depth (drop at text.now.tokens.now)) }
{
    let (word, at) = take(text.tokens, at, Class::IntToPtr)?;
    int_to_ptr_tail(text, at, depth, word)
}

/// What stands behind the first token of a constant `inttoptr`.
pub fn int_to_ptr_tail(text: &Text<'_>, at: usize, depth: u32, word: &Token) -> Read<ValNode>
    requires { at ≤ length text.now.tokens.now }
    ensures { Reads text.now.tokens.now at (λ x. val_of x.0) (λ x. x.1) result (int_to_ptr_tail_at depth word.now (drop at text.now.tokens.now)) }
{
    let (_, at) = take(text.tokens, at, Class::OpenRound)?;
    let (from, at) = type_node(text, at, depth)?;
    int_to_ptr_number(text, at, depth, word, from)
}

/// What stands behind the type of the integer.
fn int_to_ptr_number(
    text: &Text<'_>,
    at: usize,
    depth: u32,
    word: &Token,
    from: TypeNode,
) -> Read<ValNode>
    requires { at ≤ length text.now.tokens.now }
    ensures { Reads text.now.tokens.now at (λ x. val_of x.0) (λ x. x.1) result (int_to_ptr_number_at depth word.now (ty_of from) (drop at text.now.tokens.now)) }
{
    let (number, at) = take(text.tokens, at, Class::Int)?;
    let (_, at) = take(text.tokens, at, Class::To)?;
    let (to, at) = type_node(text, at, depth)?;
    int_to_ptr_end(text, at, word, from, number, to)
}

/// What stands behind the type of the result.
fn int_to_ptr_end(
    text: &Text<'_>,
    at: usize,
    word: &Token,
    from: TypeNode,
    number: &Token,
    to: TypeNode,
) -> Read<ValNode>
    requires { at ≤ length text.now.tokens.now }
    ensures { Reads text.now.tokens.now at (λ x. val_of x.0) (λ x. x.1) result (int_to_ptr_end_at word.now (ty_of from) (literal_of number.now) (ty_of to) (drop at text.now.tokens.now)) }
{
    let (_, at) = take(text.tokens, at, Class::CloseRound)?;
    let number = literal(text.alloc, number)?;
    Ok((ValNode::IntToPtr(word.span, from, number, to), at))
}
