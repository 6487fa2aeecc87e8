//! The reader of types.

ghost use Rattle.std.specs.Prelude.{◌≤◌, ◌<◌, length, drop, map, IfOk};
ghost use Rattle.pg_read_grammar.specs.declared.class.Class.TheVariants.{CloseBrace, Comma};
ghost use Rattle.pg_read_grammar.specs.Classes.{is};
ghost use Rattle.pg_read_grammar.specs.Reading.{onto, all_of};
ghost use Rattle.pg_read_grammar.specs.Reader.{simple_type_at, type_at, array_at, struct_at, listed_at, behind_comma};
ghost use Rattle.pg_read_grammar.specs.Views.{Reads};
ghost use Rattle.pg_read_grammar.specs.Grammar.{literal_of};
ghost use Rattle.pg_read_terms.specs.Sets.{wide_type_at, other_type_at};
ghost use Rattle.pg_read_terms.specs.Ends.{array_end_at};
ghost use Rattle.pg_read_ast.specs.Views.{ty_of};

use crate::reader::{
    Read, Text, keep, literal, name, next_is, take, take_if, too_deep, unsupported,
};
use crate::sets::{ClassSet, next_in};
use pg_read_ast::TypeNode;
use pg_read_grammar::{Class, ReadError, Token};

fn simple_type(text: &Text<'_>, at: usize) -> Read<TypeNode>
    requires { at ≤ length text.now.tokens.now }
    ensures { Reads text.now.tokens.now at (λ x. ty_of x.0) (λ x. x.1) result (simple_type_at (drop at text.now.tokens.now)) }
{
    if let Some((token, to)) = take_if(text.tokens, at, Class::I1) {
        return Ok((TypeNode::I1(token.span), to));
    }
    if let Some((token, to)) = take_if(text.tokens, at, Class::I8) {
        return Ok((TypeNode::I8(token.span), to));
    }
    if let Some((token, to)) = take_if(text.tokens, at, Class::I16) {
        return Ok((TypeNode::I16(token.span), to));
    }
    wide_type(text, at)
}

fn wide_type(text: &Text<'_>, at: usize) -> Read<TypeNode>
    requires { at ≤ length text.now.tokens.now }
    ensures { Reads text.now.tokens.now at (λ x. ty_of x.0) (λ x. x.1) result (wide_type_at (drop at text.now.tokens.now)) }
{
    if let Some((token, to)) = take_if(text.tokens, at, Class::I32) {
        return Ok((TypeNode::I32(token.span), to));
    }
    if let Some((token, to)) = take_if(text.tokens, at, Class::I64) {
        return Ok((TypeNode::I64(token.span), to));
    }
    other_type(text, at)
}

fn other_type(text: &Text<'_>, at: usize) -> Read<TypeNode>
    requires { at ≤ length text.now.tokens.now }
    ensures { Reads text.now.tokens.now at (λ x. ty_of x.0) (λ x. x.1) result (other_type_at (drop at text.now.tokens.now)) }
{
    if let Some((token, to)) = take_if(text.tokens, at, Class::Ptr) {
        return Ok((TypeNode::Ptr(token.span), to));
    }
    if let Some((token, to)) = take_if(text.tokens, at, Class::Void) {
        return Ok((TypeNode::Void(token.span), to));
    }
    let (token, to) = take(text.tokens, at, Class::Local)?;
    Ok((TypeNode::Named(name(text.alloc, token)?), to))
}

#[cycle(types)]
fn array_type(text: &Text<'_>, at: usize, depth: u32) -> Read<TypeNode>
    requires { at ≤ length text.now.tokens.now }
    ensures { Reads text.now.tokens.now at (λ x. ty_of x.0) (λ x. x.1) result (array_at (type_at depth) (drop at text.now.tokens.now)) }
{
    let (open, at) = take(text.tokens, at, Class::OpenSquare)?;
    let (count, at) = take(text.tokens, at, Class::Int)?;
    let (_, at) = take(text.tokens, at, Class::X)?;
    let (element, at) = type_node(text, at, depth)?;
    array_end(text, at, open, count, element)
}

/// What stands behind the type of an array's elements.
fn array_end(
    text: &Text<'_>,
    at: usize,
    bracket: &Token,
    count: &Token,
    element: TypeNode,
) -> Read<TypeNode>
    requires { at ≤ length text.now.tokens.now }
    ensures { Reads text.now.tokens.now at (λ x. ty_of x.0) (λ x. x.1) result (array_end_at bracket.now (literal_of count.now) (ty_of element) (drop at text.now.tokens.now)) }
{
    let (_, at) = take(text.tokens, at, Class::CloseSquare)?;
    let number = literal(text.alloc, count)?;
    let boxed = match Box::new(text.alloc, element) {
        Ok(boxed) => boxed,
        Err(_) => return Err(ReadError::Memory),
    };
    Ok((TypeNode::Array(bracket.span, number, boxed), at))
}

/// A type in which at most `depth` brackets are open at once.
#[cycle(types)]
#[tactic(auto, unfolding(pg_read_grammar::specs::Reader::type_at))]
pub fn type_node(text: &Text<'_>, at: usize, depth: u32) -> Read<TypeNode>
    requires { at ≤ length text.now.tokens.now }
    ensures { Reads text.now.tokens.now at (λ x. ty_of x.0) (λ x. x.1) result (type_at depth (drop at text.now.tokens.now)) }
{
    if next_in(text.tokens, at, ClassSet::NoType) {
        return Err(ReadError::Refused(unsupported(at)));
    }
    if depth == 0 {
        if next_in(text.tokens, at, ClassSet::OpensType) {
            return Err(ReadError::Refused(too_deep(at)));
        }
        return simple_type(text, at);
    }
    if next_is(text.tokens, at, Class::OpenSquare) {
        return array_type(text, at, depth - 1);
    }
    if next_is(text.tokens, at, Class::OpenBrace) {
        return struct_type(text, at, depth - 1);
    }
    simple_type(text, at)
}

#[cycle(types)]
fn struct_type(text: &Text<'_>, at: usize, depth: u32) -> Read<TypeNode>
    requires { at ≤ length text.now.tokens.now }
    ensures { Reads text.now.tokens.now at (λ x. ty_of x.0) (λ x. x.1) result (struct_at (type_at depth) (drop at text.now.tokens.now)) }
{
    let (open, at) = take(text.tokens, at, Class::OpenBrace)?;
    let (fields, at) = types_to(text, at, depth, Class::CloseBrace)?;
    Ok((TypeNode::Struct(open.span, fields), at))
}

/// Types behind commas, or none, up to a token.
#[cycle(types)]
pub fn types_to(text: &Text<'_>, at: usize, depth: u32, close: Class) -> Read<Vec<TypeNode>>
    requires { at ≤ length text.now.tokens.now }
    ensures { Reads text.now.tokens.now at (λ x. map ty_of x.0.items) (λ x. x.1) result (listed_at close (type_at depth) (drop at text.now.tokens.now)) }
{
    if let Some((_, to)) = take_if(text.tokens, at, close) {
        return Ok((Vec::new(text.alloc), to));
    }
    let (first, at) = type_node(text, at, depth)?;
    let mut types = Vec::new(text.alloc);
    if types.push(first).is_err() {
        return Err(ReadError::Memory);
    }
    let (types, at) = more_types(text, at, depth, types)?;
    let (_, at) = take(text.tokens, at, close)?;
    Ok((types, at))
}

#[cycle(types)]
fn more_types(text: &Text<'_>, at: usize, depth: u32, types: Vec<TypeNode>) -> Read<Vec<TypeNode>>
    requires { at ≤ length text.now.tokens.now }
    ensures { Reads text.now.tokens.now at (λ x. map ty_of x.0.items) (λ x. x.1) result
        (onto (map ty_of types.items) (all_of (is Comma) (behind_comma (type_at depth)) (drop at text.now.tokens.now))) }
{
    let mut types = types;
    let mut place = at;
    // The label is for the proof: see docs/CONTRIBUTING.md.
    'items: while next_is(text.tokens, place, Class::Comma) {
        match comma_type(text, place, depth) {
            Err(error) => return Err(error),
            Ok((next, to)) => {
                keep(&mut types, next)?;
                place = to;
            }
        }
    }
    Ok((types, place))
}

/// A type behind a comma.
#[cycle(types)]
pub fn comma_type(text: &Text<'_>, at: usize, depth: u32) -> Read<TypeNode>
    requires { at ≤ length text.now.tokens.now }
    ensures read { Reads text.now.tokens.now at (λ x. ty_of x.0) (λ x. x.1) result (behind_comma (type_at depth) (drop at text.now.tokens.now)) }
    ensures on { IfOk result (λ x. at < x.1) }
{
    let (_, to) = take(text.tokens, at, Class::Comma)?;
    type_node(text, to, depth)
}
