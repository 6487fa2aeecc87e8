//! The reader of constants.

ghost use Rattle.std.specs.Prelude.{◌≤◌, ◌<◌, length, drop, map, IfOk};
ghost use Rattle.pg_read_grammar.specs.declared.class.Class.TheVariants.{Comma};
ghost use Rattle.pg_read_grammar.specs.Classes.{is};
ghost use Rattle.pg_read_grammar.specs.Reading.{onto, all_of};
ghost use Rattle.pg_read_grammar.specs.Reader.{const_at, simple_const_at, array_const_at, struct_const_at, typed_const_at, listed_at, behind_comma};
ghost use Rattle.pg_read_grammar.specs.Views.{Reads};
ghost use Rattle.pg_read_ast.specs.Views.{const_of, typed_const_of};

use crate::reader::{Read, Text, keep, literal, next_is, take, take_if, too_deep};
use crate::sets::{ClassSet, next_in};
use crate::types::type_node;
use crate::values::value;
use pg_read_ast::{ConstNode, TypedConst};
use pg_read_grammar::{Class, ReadError};

fn simple_const(text: &Text<'_>, at: usize, depth: u32) -> Read<ConstNode>
    requires { at ≤ length text.now.tokens.now }
    ensures { Reads text.now.tokens.now at (λ x. const_of x.0) (λ x. x.1) result (simple_const_at depth (drop at text.now.tokens.now)) }
{
    if let Some((token, to)) = take_if(text.tokens, at, Class::CStr) {
        return Ok((ConstNode::Bytes(literal(text.alloc, token)?), to));
    }
    let (value, to) = value(text, at, depth)?;
    Ok((ConstNode::Val(value), to))
}

/// A constant in which at most `depth` brackets are open at once.
#[cycle(constants)]
#[tactic(auto, unfolding(pg_read_grammar::specs::Reader::const_at))]
pub fn constant(text: &Text<'_>, at: usize, depth: u32) -> Read<ConstNode>
    requires { at ≤ length text.now.tokens.now }
    ensures { Reads text.now.tokens.now at (λ x. const_of x.0) (λ x. x.1) result (const_at depth (drop at text.now.tokens.now)) }
{
    if depth == 0 {
        if next_in(text.tokens, at, ClassSet::OpensType) {
            return Err(ReadError::Refused(too_deep(at)));
        }
        return simple_const(text, at, depth);
    }
    if next_is(text.tokens, at, Class::OpenSquare) {
        return array_const(text, at, depth - 1);
    }
    if next_is(text.tokens, at, Class::OpenBrace) {
        return struct_const(text, at, depth - 1);
    }
    simple_const(text, at, depth)
}

#[cycle(constants)]
fn array_const(text: &Text<'_>, at: usize, depth: u32) -> Read<ConstNode>
    requires { at ≤ length text.now.tokens.now }
    ensures { Reads text.now.tokens.now at (λ x. const_of x.0) (λ x. x.1) result (array_const_at depth (const_at depth) (drop at text.now.tokens.now)) }
{
    let (first, at) = take(text.tokens, at, Class::OpenSquare)?;
    let (all, at) = constants_to(text, at, depth, Class::CloseSquare)?;
    Ok((ConstNode::Array(first.span, all), at))
}

#[cycle(constants)]
fn struct_const(text: &Text<'_>, at: usize, depth: u32) -> Read<ConstNode>
    requires { at ≤ length text.now.tokens.now }
    ensures { Reads text.now.tokens.now at (λ x. const_of x.0) (λ x. x.1) result (struct_const_at depth (const_at depth) (drop at text.now.tokens.now)) }
{
    let (first, at) = take(text.tokens, at, Class::OpenBrace)?;
    let (all, at) = constants_to(text, at, depth, Class::CloseBrace)?;
    Ok((ConstNode::Struct(first.span, all), at))
}

#[cycle(constants)]
fn typed_const(text: &Text<'_>, at: usize, depth: u32) -> Read<TypedConst>
    requires { at ≤ length text.now.tokens.now }
    ensures { Reads text.now.tokens.now at (λ x. typed_const_of x.0) (λ x. x.1) result (typed_const_at depth (const_at depth) (drop at text.now.tokens.now)) }
{
    let (ty, at) = type_node(text, at, depth)?;
    let (value, at) = constant(text, at, depth)?;
    Ok((TypedConst { ty, value }, at))
}

#[cycle(constants)]
fn constants_to(text: &Text<'_>, at: usize, depth: u32, close: Class) -> Read<Vec<TypedConst>>
    requires { at ≤ length text.now.tokens.now }
    ensures { Reads text.now.tokens.now at (λ x. map typed_const_of x.0.items) (λ x. x.1) result (listed_at close (typed_const_at depth (const_at depth)) (drop at text.now.tokens.now)) }
{
    if let Some((_, to)) = take_if(text.tokens, at, close) {
        return Ok((Vec::new(text.alloc), to));
    }
    let (first, at) = typed_const(text, at, depth)?;
    let mut all = Vec::new(text.alloc);
    if all.push(first).is_err() {
        return Err(ReadError::Memory);
    }
    let (all, at) = more_constants(text, at, depth, all)?;
    let (_, at) = take(text.tokens, at, close)?;
    Ok((all, at))
}

#[cycle(constants)]
fn more_constants(
    text: &Text<'_>,
    at: usize,
    depth: u32,
    all: Vec<TypedConst>,
) -> Read<Vec<TypedConst>>
    requires { at ≤ length text.now.tokens.now }
    ensures { Reads text.now.tokens.now at (λ x. map typed_const_of x.0.items) (λ x. x.1) result
        (onto (map typed_const_of all.items) (all_of (is Comma) (behind_comma (typed_const_at depth (const_at depth))) (drop at text.now.tokens.now))) }
{
    let mut all = all;
    let mut place = at;
    // The label is for the proof: see docs/CONTRIBUTING.md.
    'items: while next_is(text.tokens, place, Class::Comma) {
        match comma_constant(text, place, depth) {
            Err(error) => return Err(error),
            Ok((next, to)) => {
                keep(&mut all, next)?;
                place = to;
            }
        }
    }
    Ok((all, place))
}

#[cycle(constants)]
fn comma_constant(text: &Text<'_>, at: usize, depth: u32) -> Read<TypedConst>
    requires { at ≤ length text.now.tokens.now }
    ensures read { Reads text.now.tokens.now at (λ x. typed_const_of x.0) (λ x. x.1) result (behind_comma (typed_const_at depth (const_at depth)) (drop at text.now.tokens.now)) }
    ensures on { IfOk result (λ x. at < x.1) }
{
    let (_, to) = take(text.tokens, at, Class::Comma)?;
    typed_const(text, to, depth)
}
