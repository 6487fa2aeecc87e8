//! What goes on behind a call or behind `ret void`, and the next part.

ghost use Rattle.std.specs.Prelude.{◌≤◌, ◌<◌, length, drop, map, IfOk};
ghost use Rattle.pg_read_grammar.specs.ReaderItems.{add_line, behind_call_at, behind_void_at, next_part_at};
ghost use Rattle.pg_read.specs.BodyParts.{body_of, behind_local_at, begun_of, begun_gep_at, begun_cast_at, behind_begun_at, behind_gep_at, behind_cast_at};
ghost use Rattle.pg_read_grammar.specs.Views.{Reads};
ghost use Rattle.pg_read_ast.specs.Views.{block_of};

use crate::lines::{called, debug_tail, named_tail, part};
use crate::parts::{AfterPart, Body, VoidReturn, add_line, add_return};
use crate::returns::void_line;
use pg_read_ast::{BlockNode, OpNode, ValNode};
use pg_read_grammar::{Class, INNER_NESTING_LIMIT};
use pg_read_operations::{cast_tail, gep_op_tail};
use pg_read_terms::{
    ClassSet, Read, Text, attribute, flags, gep_tail, int_to_ptr_tail, metadata, name, next_in,
    next_is, take,
};

/// Behind a call: more of its attributes, or the next part.
fn behind_call(text: &Text<'_>, at: usize, blocks: Vec<BlockNode>) -> Read<Body>
    requires { at ≤ length text.now.tokens.now }
    ensures read { Reads text.now.tokens.now at (λ x. body_of x.0) (λ x. x.1) result (behind_call_at (map block_of blocks.items) (drop at text.now.tokens.now)) }
    ensures on { IfOk result (λ x. at < x.1) }
{
    if next_is(text.tokens, at, Class::DebugAttr) {
        let (_, at) = take(text.tokens, at, Class::DebugAttr)?;
        if next_is(text.tokens, at, Class::OpenRound) {
            return debug_tail(text, at, blocks);
        }
        return called(text.tokens, at, blocks);
    }
    if next_in(text.tokens, at, ClassSet::Part) {
        return part(text, at, blocks);
    }
    let at = attribute(text.tokens, at)?;
    called(text.tokens, at, blocks)
}

/// A local value of `ret void`, or the name of the next line.
fn behind_local(text: &Text<'_>, at: usize, blocks: Vec<BlockNode>, line: VoidReturn) -> Read<Body>
    requires { at ≤ length text.now.tokens.now }
    ensures read { Reads text.now.tokens.now at (λ x. body_of x.0) (λ x. x.1) result (behind_local_at (map block_of blocks.items) line.name line.word line.void (drop at text.now.tokens.now)) }
    ensures on { IfOk result (λ x. at < x.1) }
{
    let (token, at) = take(text.tokens, at, Class::Local)?;
    let local = name(text.alloc, token)?;
    if next_is(text.tokens, at, Class::Equals) {
        let blocks = add_return(text.alloc, blocks, line)?;
        return named_tail(text, at, blocks, local);
    }
    let value = ValNode::Local(local);
    void_line(text, at, blocks, line, value)
}

/// What a word behind `ret void` begins: the value of the return, or the operation of the next line.
#[derive(Drop)]
pub enum Begun {
    Value(ValNode),
    Line(OpNode),
}

/// A constant `getelementptr`, or an operation with the metadata behind it.
fn begun_gep(text: &Text<'_>, at: usize) -> Read<Begun>
    requires { at ≤ length text.now.tokens.now }
    ensures read { Reads text.now.tokens.now at (λ x. begun_of x.0) (λ x. x.1) result (begun_gep_at (drop at text.now.tokens.now)) }
    ensures on { IfOk result (λ x. at < x.1) }
{
    let (token, at) = take(text.tokens, at, Class::GetElementPtr)?;
    let at = flags(text.tokens, at);
    if next_is(text.tokens, at, Class::OpenRound) {
        let (value, to) = gep_tail(text, at, INNER_NESTING_LIMIT, token)?;
        return Ok((Begun::Value(value), to));
    }
    let (op, to) = gep_op_tail(text, at, token)?;
    Ok((Begun::Line(op), to))
}

/// A constant `inttoptr`, or an operation with the metadata behind it.
fn begun_cast(text: &Text<'_>, at: usize) -> Read<Begun>
    requires { at ≤ length text.now.tokens.now }
    ensures read { Reads text.now.tokens.now at (λ x. begun_of x.0) (λ x. x.1) result (begun_cast_at (drop at text.now.tokens.now)) }
    ensures on { IfOk result (λ x. at < x.1) }
{
    let (token, at) = take(text.tokens, at, Class::IntToPtr)?;
    if next_is(text.tokens, at, Class::OpenRound) {
        let (value, to) = int_to_ptr_tail(text, at, INNER_NESTING_LIMIT, token)?;
        return Ok((Begun::Value(value), to));
    }
    let (op, at) = cast_tail(text, at, token)?;
    let to = metadata(text.tokens, at)?;
    Ok((Begun::Line(op), to))
}

/// A `ret` with the value that was begun, or a `ret void` and the line that was.
fn behind_begun(
    text: &Text<'_>,
    at: usize,
    blocks: Vec<BlockNode>,
    line: VoidReturn,
    begun: Begun,
) -> Read<Body>
    requires { at ≤ length text.now.tokens.now }
    ensures { Reads text.now.tokens.now at (λ x. body_of x.0) (λ x. x.1) result
        (behind_begun_at (map block_of blocks.items) line.name line.word line.void (begun_of begun) (drop at text.now.tokens.now)) }
{
    match begun {
        Begun::Value(value) => void_line(text, at, blocks, line, value),
        Begun::Line(op) => {
            let blocks = add_return(text.alloc, blocks, line)?;
            let blocks = add_line(text.alloc, blocks, None, op)?;
            let after = AfterPart::Complete;
            Ok((Body { blocks, after }, at))
        }
    }
}

/// A constant `getelementptr`, or the next line.
fn behind_gep(text: &Text<'_>, at: usize, blocks: Vec<BlockNode>, line: VoidReturn) -> Read<Body>
    requires { at ≤ length text.now.tokens.now }
    ensures read { Reads text.now.tokens.now at (λ x. body_of x.0) (λ x. x.1) result (behind_gep_at (map block_of blocks.items) line.name line.word line.void (drop at text.now.tokens.now)) }
    ensures on { IfOk result (λ x. at < x.1) }
{
    let (begun, at) = begun_gep(text, at)?;
    behind_begun(text, at, blocks, line, begun)
}

/// A constant `inttoptr`, or the next line.
fn behind_cast(text: &Text<'_>, at: usize, blocks: Vec<BlockNode>, line: VoidReturn) -> Read<Body>
    requires { at ≤ length text.now.tokens.now }
    ensures read { Reads text.now.tokens.now at (λ x. body_of x.0) (λ x. x.1) result (behind_cast_at (map block_of blocks.items) line.name line.word line.void (drop at text.now.tokens.now)) }
    ensures on { IfOk result (λ x. at < x.1) }
{
    let (begun, at) = begun_cast(text, at)?;
    behind_begun(text, at, blocks, line, begun)
}

/// Behind `ret void`: its value, or the next part.
fn behind_void(text: &Text<'_>, at: usize, blocks: Vec<BlockNode>, line: VoidReturn) -> Read<Body>
    requires { at ≤ length text.now.tokens.now }
    ensures read { Reads text.now.tokens.now at (λ x. body_of x.0) (λ x. x.1) result (behind_void_at (map block_of blocks.items) line.name line.word line.void (drop at text.now.tokens.now)) }
    ensures on { IfOk result (λ x. at < x.1) }
{
    if next_is(text.tokens, at, Class::Local) {
        return behind_local(text, at, blocks, line);
    }
    if next_is(text.tokens, at, Class::GetElementPtr) {
        return behind_gep(text, at, blocks, line);
    }
    if next_is(text.tokens, at, Class::IntToPtr) {
        return behind_cast(text, at, blocks, line);
    }
    let blocks = add_return(text.alloc, blocks, line)?;
    part(text, at, blocks)
}

/// What goes on with the last part, or the next one.
#[tactic(auto, unfolding(pg_read_grammar::specs::ReaderItems::next_part_at))]
pub fn next_part(text: &Text<'_>, at: usize, body: Body) -> Read<Body>
    requires { at ≤ length text.now.tokens.now }
    ensures read { Reads text.now.tokens.now at (λ x. body_of x.0) (λ x. x.1) result (next_part_at (body_of body) (drop at text.now.tokens.now)) }
    ensures on { IfOk result (λ x. at < x.1) }
{
    let Body { blocks, after } = body;
    match after {
        AfterPart::Complete => part(text, at, blocks),
        AfterPart::Called => behind_call(text, at, blocks),
        AfterPart::Returned(line) => behind_void(text, at, blocks, line),
    }
}
