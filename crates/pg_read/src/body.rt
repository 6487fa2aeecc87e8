//! The body of a function, part by part.

ghost use Rattle.std.specs.Prelude.{◌≡◌, ◌≤◌, length, drop, map, IfOk};
ghost use Rattle.pg_read_grammar.specs.Reading.{comes};
ghost use Rattle.pg_read_grammar.specs.ReaderItems.{begins_after, blocks_by, body_end_at, body_at};
ghost use Rattle.pg_read.specs.BodyParts.{after_part_of, body_of, parts_at};
ghost use Rattle.pg_read_grammar.specs.Views.{Reads};
ghost use Rattle.pg_read_ast.specs.Views.{block_of};

use crate::next::next_part;
use crate::parts::{AfterPart, Body, add_return};
use pg_read_ast::BlockNode;
use pg_read_grammar::{Class, ReadError, Token};
use pg_read_terms::{ClassSet, Read, Text, contains, is_class, next_in, take, unsupported};
use std::alloc::{AllocError, Global};

/// A token goes on with what stands before the place, or begins the next part.
fn follows(after: &AfterPart, class: Class) -> bool
    ensures { result ≡ begins_after (after_part_of after.now) class }
{
    match after {
        AfterPart::Called => {
            is_class(class, Class::DebugAttr)
                || (contains(ClassSet::Part, class) || contains(ClassSet::Attribute, class))
        }
        _ => contains(ClassSet::Part, class),
    }
}

fn part_next(tokens: &[Token], at: usize, after: &AfterPart) -> bool
    requires { at ≤ length tokens.now }
    ensures { result ≡ comes (begins_after (after_part_of after.now)) (drop at tokens.now) }
{
    at < tokens.len() && follows(after, tokens[at].class)
}

/// The blocks, where no more parts come.
fn finished(alloc: Global, body: Body) -> Result<Vec<BlockNode>, AllocError>
    ensures { IfOk result (λ bs. map block_of bs.items ≡ blocks_by (map block_of body.blocks.items) (after_part_of body.after)) }
{
    let Body { blocks, after } = body;
    match after {
        AfterPart::Returned(line) => add_return(alloc, blocks, line),
        _ => Ok(blocks),
    }
}

fn body_end(text: &Text<'_>, at: usize, body: Body) -> Read<Vec<BlockNode>>
    requires { at ≤ length text.now.tokens.now }
    ensures { Reads text.now.tokens.now at (λ x. map block_of x.0.items) (λ x. x.1) result (body_end_at (body_of body) (drop at text.now.tokens.now)) }
{
    if next_in(text.tokens, at, ClassSet::NoOperation) {
        return Err(ReadError::Refused(unsupported(at)));
    }
    let (_, to) = take(text.tokens, at, Class::CloseBrace)?;
    let blocks = finished(text.alloc, body)?;
    Ok((blocks, to))
}

/// A body behind its opening brace.
fn body_parts(text: &Text<'_>, at: usize) -> Read<Vec<BlockNode>>
    requires { at ≤ length text.now.tokens.now }
    ensures { Reads text.now.tokens.now at (λ x. map block_of x.0.items) (λ x. x.1) result (parts_at (drop at text.now.tokens.now)) }
{
    let blocks = Vec::new(text.alloc);
    let after = AfterPart::Complete;
    let mut body = Body { blocks, after };
    let mut place = at;
    // The label is for the proof: see docs/CONTRIBUTING.md.
    'reading: while part_next(text.tokens, place, &body.after) {
        match next_part(text, place, body) {
            Err(error) => return Err(error),
            Ok((next, to)) => {
                body = next;
                place = to;
            }
        }
    }
    body_end(text, place, body)
}

/// The blocks of a function.
#[tactic(auto, unfolding(pg_read_grammar::specs::ReaderItems::body_at))]
pub fn body(text: &Text<'_>, at: usize) -> Read<Vec<BlockNode>>
    requires { at ≤ length text.now.tokens.now }
    ensures { Reads text.now.tokens.now at (λ x. map block_of x.0.items) (λ x. x.1) result (body_at (drop at text.now.tokens.now)) }
{
    let (_, at) = take(text.tokens, at, Class::OpenBrace)?;
    body_parts(text, at)
}
