//! Which operation stands at a place, and the metadata behind it.

ghost use Rattle.std.specs.Prelude.{◌≤◌, ◌<◌, length, drop, IfOk};
ghost use Rattle.pg_read_grammar.specs.ReaderOps.{simple_op_at, plain_op_at};
ghost use Rattle.pg_read_grammar.specs.Views.{Reads, Takes};
ghost use Rattle.pg_read_operations.specs.Rows.{behind_op_at, other_op_at, memory_op_at};
ghost use Rattle.pg_read_ast.specs.Views.{op_of};

use crate::branches::{branch, switch, unreachable_op};
use crate::elements::gep_op;
use crate::memory::{alloca, load, store};
use crate::numbers::{binary, cast, comparison, select};
use crate::phi::phi;
use pg_read_ast::OpNode;
use pg_read_grammar::{Class, ReadRefusal, Token};
use pg_read_terms::{ClassSet, Read, Text, metadata, next_in, next_is};

/// The metadata behind an operation.
fn lined_op(tokens: &[Token], at: usize, op: OpNode) -> Result<(OpNode, usize), ReadRefusal>
    requires { at ≤ length tokens.now }
    ensures { Takes tokens.now at (λ x. op_of x.0) (λ x. x.1) result (behind_op_at (op_of op) (drop at tokens.now)) }
{
    let at = metadata(tokens, at)?;
    Ok((op, at))
}

/// Any operation but a call and a return, and the metadata behind it.
#[tactic(auto, unfolding(pg_read_grammar::specs::ReaderOps::simple_op_at))]
pub fn simple_op(text: &Text<'_>, at: usize) -> Read<OpNode>
    requires { at ≤ length text.now.tokens.now }
    ensures read { Reads text.now.tokens.now at (λ x. op_of x.0) (λ x. x.1) result (simple_op_at (drop at text.now.tokens.now)) }
    ensures on { IfOk result (λ x. at < x.1) }
{
    if next_is(text.tokens, at, Class::GetElementPtr) {
        return gep_op(text, at);
    }
    if next_in(text.tokens, at, ClassSet::Cast) {
        let (op, at) = cast(text, at)?;
        return Ok(lined_op(text.tokens, at, op)?);
    }
    plain_op(text, at)
}

#[tactic(auto, unfolding(pg_read_grammar::specs::ReaderOps::plain_op_at))]
fn plain_op(text: &Text<'_>, at: usize) -> Read<OpNode>
    requires { at ≤ length text.now.tokens.now }
    ensures read { Reads text.now.tokens.now at (λ x. op_of x.0) (λ x. x.1) result (plain_op_at (drop at text.now.tokens.now)) }
    ensures on { IfOk result (λ x. at < x.1) }
{
    if next_in(text.tokens, at, ClassSet::Binary) {
        let (op, at) = binary(text, at)?;
        return Ok(lined_op(text.tokens, at, op)?);
    }
    if next_is(text.tokens, at, Class::Icmp) {
        let (op, at) = comparison(text, at)?;
        return Ok(lined_op(text.tokens, at, op)?);
    }
    if next_is(text.tokens, at, Class::Select) {
        let (op, at) = select(text, at)?;
        return Ok(lined_op(text.tokens, at, op)?);
    }
    other_op(text, at)
}

fn other_op(text: &Text<'_>, at: usize) -> Read<OpNode>
    requires { at ≤ length text.now.tokens.now }
    ensures read { Reads text.now.tokens.now at (λ x. op_of x.0) (λ x. x.1) result (other_op_at (drop at text.now.tokens.now)) }
    ensures on { IfOk result (λ x. at < x.1) }
{
    if next_is(text.tokens, at, Class::Phi) {
        return phi(text, at);
    }
    if next_is(text.tokens, at, Class::Br) {
        let (op, at) = branch(text, at)?;
        return Ok(lined_op(text.tokens, at, op)?);
    }
    if next_is(text.tokens, at, Class::Switch) {
        let (op, at) = switch(text, at)?;
        return Ok(lined_op(text.tokens, at, op)?);
    }
    if next_is(text.tokens, at, Class::Unreachable) {
        let (op, at) = unreachable_op(text.tokens, at)?;
        return Ok(lined_op(text.tokens, at, op)?);
    }
    memory_op(text, at)
}

fn memory_op(text: &Text<'_>, at: usize) -> Read<OpNode>
    requires { at ≤ length text.now.tokens.now }
    ensures read { Reads text.now.tokens.now at (λ x. op_of x.0) (λ x. x.1) result (memory_op_at (drop at text.now.tokens.now)) }
    ensures on { IfOk result (λ x. at < x.1) }
{
    if next_is(text.tokens, at, Class::Alloca) {
        return alloca(text, at);
    }
    if next_is(text.tokens, at, Class::Load) {
        return load(text, at);
    }
    store(text, at)
}
