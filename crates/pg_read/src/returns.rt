//! Returns, also with a value behind `ret void`.

ghost use Rattle.std.specs.Prelude.{◌≤◌, ◌<◌, length, drop, map, IfOk};
ghost use Rattle.pg_read_grammar.specs.Reader.{int_or, plain_value_at};
ghost use Rattle.pg_read_grammar.specs.ReaderItems.{void_at, return_at};
ghost use Rattle.pg_read.specs.BodyParts.{body_of, void_line_at};
ghost use Rattle.pg_read_grammar.specs.Views.{Reads};
ghost use Rattle.pg_read_ast.specs.Views.{val_of, block_of};

use crate::parts::{AfterPart, Body, VoidReturn, add_line, add_return};
use pg_num::limits::NESTING_LIMIT;
use pg_read_ast::{BlockNode, Name, OpNode, TypeNode, TypedVal, ValNode};
use pg_read_grammar::Class;
use pg_read_terms::{
    ClassSet, Read, Text, literal, metadata, metadata_tail, next_in, next_is, plain_value, take,
    typed_value_in,
};

/// An integer, or a value that is one word or a global.
fn certain_value(text: &Text<'_>, at: usize) -> Read<ValNode>
    requires { at ≤ length text.now.tokens.now }
    ensures { Reads text.now.tokens.now at (λ x. val_of x.0) (λ x. x.1) result (int_or plain_value_at (drop at text.now.tokens.now)) }
{
    if next_is(text.tokens, at, Class::Int) {
        let (token, to) = take(text.tokens, at, Class::Int)?;
        return Ok((ValNode::Int(literal(text.alloc, token)?), to));
    }
    plain_value(text, at)
}

/// The metadata behind a value of `ret void`, and the line.
pub fn void_line(
    text: &Text<'_>,
    at: usize,
    blocks: Vec<BlockNode>,
    line: VoidReturn,
    value: ValNode,
) -> Read<Body>
    requires { at ≤ length text.now.tokens.now }
    ensures { Reads text.now.tokens.now at (λ x. body_of x.0) (λ x. x.1) result
        (void_line_at (map block_of blocks.items) line.name line.word line.void (val_of value) (drop at text.now.tokens.now)) }
{
    let to = metadata(text.tokens, at)?;
    let VoidReturn { name, word, void } = line;
    let ty = TypeNode::Void(void);
    let op = OpNode::Ret {
        span: word,
        value: TypedVal { ty, value },
    };
    let blocks = add_line(text.alloc, blocks, name, op)?;
    let after = AfterPart::Complete;
    Ok((Body { blocks, after }, to))
}

/// What is certain behind `ret void`.
fn void_tail(text: &Text<'_>, at: usize, blocks: Vec<BlockNode>, line: VoidReturn) -> Read<Body>
    requires { at ≤ length text.now.tokens.now }
    ensures { Reads text.now.tokens.now at (λ x. body_of x.0) (λ x. x.1) result (void_at (map block_of blocks.items) line.name line.word line.void (drop at text.now.tokens.now)) }
{
    if next_in(text.tokens, at, ClassSet::CertainValue) {
        let (value, at) = certain_value(text, at)?;
        return void_line(text, at, blocks, line, value);
    }
    if next_is(text.tokens, at, Class::Comma) {
        let (_, at) = take(text.tokens, at, Class::Comma)?;
        let to = metadata_tail(text.tokens, at)?;
        let blocks = add_return(text.alloc, blocks, line)?;
        let after = AfterPart::Complete;
        return Ok((Body { blocks, after }, to));
    }
    let after = AfterPart::Returned(line);
    Ok((Body { blocks, after }, at))
}

/// A `ret`, as far as it is certain.
#[tactic(auto, unfolding(pg_read_grammar::specs::ReaderItems::return_at))]
pub fn return_line(
    text: &Text<'_>,
    at: usize,
    blocks: Vec<BlockNode>,
    name: Option<Name>,
) -> Read<Body>
    requires { at ≤ length text.now.tokens.now }
    ensures read { Reads text.now.tokens.now at (λ x. body_of x.0) (λ x. x.1) result (return_at (map block_of blocks.items) name (drop at text.now.tokens.now)) }
    ensures on { IfOk result (λ x. at < x.1) }
{
    let (word, at) = take(text.tokens, at, Class::Ret)?;
    if next_is(text.tokens, at, Class::Void) {
        let (void, at) = take(text.tokens, at, Class::Void)?;
        let line = VoidReturn {
            name,
            word: word.span,
            void: void.span,
        };
        return void_tail(text, at, blocks, line);
    }
    let (value, at) = typed_value_in(text, at, NESTING_LIMIT)?;
    let to = metadata(text.tokens, at)?;
    let blocks = add_line(
        text.alloc,
        blocks,
        name,
        OpNode::Ret {
            span: word.span,
            value,
        },
    )?;
    let after = AfterPart::Complete;
    Ok((Body { blocks, after }, to))
}
