//! A label or a line, as far as it is certain.

ghost use Rattle.std.specs.Prelude.{◌≤◌, ◌<◌, Some, None, length, drop, map, IfOk};
ghost use Rattle.pg_read_grammar.specs.ReaderItems.{op_at, called_at, debug_tail_at, named_tail_at, part_at};
ghost use Rattle.pg_read.specs.BodyParts.{body_of};
ghost use Rattle.pg_read_grammar.specs.Views.{Reads};
ghost use Rattle.pg_read_ast.specs.Views.{block_of};

use crate::parts::{AfterPart, Body, BodyPart, add_call, add_line, add_part};
use crate::returns::return_line;
use pg_read_ast::{BlockNode, Name};
use pg_read_grammar::{Class, INNER_NESTING_LIMIT, ReadError, Token};
use pg_read_operations::{call, simple_op};
use pg_read_terms::{
    ClassSet, Read, Text, metadata_tail, name, next_in, next_is, skip_to, take, unsupported,
};

/// What is certain behind a call, or behind one of its attributes.
pub fn called(tokens: &[Token], at: usize, blocks: Vec<BlockNode>) -> Read<Body>
    requires { at ≤ length tokens.now }
    ensures { Reads tokens.now at (λ x. body_of x.0) (λ x. x.1) result (called_at (map block_of blocks.items) (drop at tokens.now)) }
{
    if next_is(tokens, at, Class::Comma) {
        let (_, at) = take(tokens, at, Class::Comma)?;
        let to = metadata_tail(tokens, at)?;
        let after = AfterPart::Complete;
        return Ok((Body { blocks, after }, to));
    }
    let after = AfterPart::Called;
    Ok((Body { blocks, after }, at))
}

/// An operation, as far as it is certain.
#[tactic(auto, unfolding(pg_read_grammar::specs::ReaderItems::op_at))]
fn op(text: &Text<'_>, at: usize, blocks: Vec<BlockNode>, name: Option<Name>) -> Read<Body>
    requires { at ≤ length text.now.tokens.now }
    ensures read { Reads text.now.tokens.now at (λ x. body_of x.0) (λ x. x.1) result (op_at (map block_of blocks.items) name (drop at text.now.tokens.now)) }
    ensures on { IfOk result (λ x. at < x.1) }
{
    if next_in(text.tokens, at, ClassSet::Call) {
        let (op, at) = call(text, at)?;
        let blocks = add_call(text.alloc, blocks, name, op)?;
        return called(text.tokens, at, blocks);
    }
    if next_is(text.tokens, at, Class::Ret) {
        return return_line(text, at, blocks, name);
    }
    let (op, to) = simple_op(text, at)?;
    let blocks = add_line(text.alloc, blocks, name, op)?;
    let after = AfterPart::Complete;
    Ok((Body { blocks, after }, to))
}

/// A line that is dropped, behind its first token.
pub fn debug_tail(text: &Text<'_>, at: usize, blocks: Vec<BlockNode>) -> Read<Body>
    requires { at ≤ length text.now.tokens.now }
    ensures { Reads text.now.tokens.now at (λ x. body_of x.0) (λ x. x.1) result (debug_tail_at (map block_of blocks.items) (drop at text.now.tokens.now)) }
{
    let (_, at) = take(text.tokens, at, Class::OpenRound)?;
    let to = skip_to(text.tokens, at, INNER_NESTING_LIMIT, Class::CloseRound)?;
    let blocks = add_part(text.alloc, blocks, BodyPart::Dropped)?;
    let after = AfterPart::Complete;
    Ok((Body { blocks, after }, to))
}

/// A line behind the name of its result.
pub fn named_tail(
    text: &Text<'_>,
    at: usize,
    blocks: Vec<BlockNode>,
    result_name: Name,
) -> Read<Body>
    requires { at ≤ length text.now.tokens.now }
    ensures { Reads text.now.tokens.now at (λ x. body_of x.0) (λ x. x.1) result (named_tail_at (map block_of blocks.items) result_name (drop at text.now.tokens.now)) }
{
    let (_, at) = take(text.tokens, at, Class::Equals)?;
    if next_in(text.tokens, at, ClassSet::NoOperation) {
        return Err(ReadError::Refused(unsupported(at)));
    }
    op(text, at, blocks, Some(result_name))
}

/// A label or a line, as far as it is certain.
#[tactic(auto, unfolding(pg_read_grammar::specs::ReaderItems::part_at))]
pub fn part(text: &Text<'_>, at: usize, blocks: Vec<BlockNode>) -> Read<Body>
    requires { at ≤ length text.now.tokens.now }
    ensures read { Reads text.now.tokens.now at (λ x. body_of x.0) (λ x. x.1) result (part_at (map block_of blocks.items) (drop at text.now.tokens.now)) }
    ensures on { IfOk result (λ x. at < x.1) }
{
    if next_is(text.tokens, at, Class::Label) {
        let (token, to) = take(text.tokens, at, Class::Label)?;
        let label = name(text.alloc, token)?;
        let blocks = add_part(text.alloc, blocks, BodyPart::Label(label))?;
        let after = AfterPart::Complete;
        return Ok((Body { blocks, after }, to));
    }
    if next_is(text.tokens, at, Class::DebugAttr) {
        let (_, at) = take(text.tokens, at, Class::DebugAttr)?;
        return debug_tail(text, at, blocks);
    }
    if next_is(text.tokens, at, Class::Local) {
        let (token, at) = take(text.tokens, at, Class::Local)?;
        let result_name = name(text.alloc, token)?;
        return named_tail(text, at, blocks, result_name);
    }
    op(text, at, blocks, None)
}
