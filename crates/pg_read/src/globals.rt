//! Named types and globals.

ghost use Rattle.std.specs.Prelude.{◌≤◌, ◌<◌, length, drop, IfOk};
ghost use Rattle.pg_read_grammar.specs.ReaderItems.{constancy_at, global_item_at, type_item_at};
ghost use Rattle.pg_read_grammar.specs.Views.{Reads, Takes};
ghost use Rattle.pg_read_ast.specs.Views.{global_of, type_item_of};

use pg_num::limits::NESTING_LIMIT;
use pg_read_ast::{GlobalItem, TypeItem};
use pg_read_grammar::{Class, ReadRefusal, Token};
use pg_read_terms::{
    ClassSet, Read, Text, attributes, constant, name, next_is, take, take_in, type_node,
};

/// A named type.
#[tactic(auto, unfolding(pg_read_grammar::specs::ReaderItems::type_item_at))]
pub fn type_item(text: &Text<'_>, at: usize) -> Read<TypeItem>
    requires { at ≤ length text.now.tokens.now }
    ensures read { Reads text.now.tokens.now at (λ x. type_item_of x.0) (λ x. x.1) result (type_item_at (drop at text.now.tokens.now)) }
    ensures on { IfOk result (λ x. at < x.1) }
{
    let (token, at) = take(text.tokens, at, Class::Local)?;
    let (_, at) = take(text.tokens, at, Class::Equals)?;
    let (_, at) = take(text.tokens, at, Class::TypeWord)?;
    let name = name(text.alloc, token)?;
    let (ty, at) = type_node(text, at, NESTING_LIMIT)?;
    Ok((TypeItem { name, ty }, at))
}

/// Whether a global is a constant.
fn constancy(tokens: &[Token], at: usize) -> Result<(bool, usize), ReadRefusal>
    requires { at ≤ length tokens.now }
    ensures { Takes tokens.now at (λ x. x.0) (λ x. x.1) result (constancy_at (drop at tokens.now)) }
{
    if next_is(tokens, at, Class::GlobalWord) {
        let (_, to) = take(tokens, at, Class::GlobalWord)?;
        return Ok((false, to));
    }
    let (_, to) = take(tokens, at, Class::ConstantWord)?;
    Ok((true, to))
}

/// A global, up to its constant.
#[tactic(auto, unfolding(pg_read_grammar::specs::ReaderItems::global_item_at))]
pub fn global_item(text: &Text<'_>, at: usize) -> Read<GlobalItem>
    requires { at ≤ length text.now.tokens.now }
    ensures read { Reads text.now.tokens.now at (λ x. global_of x.0) (λ x. x.1) result (global_item_at (drop at text.now.tokens.now)) }
    ensures on { IfOk result (λ x. at < x.1) }
{
    let (token, at) = take_in(text.tokens, at, ClassSet::GlobalName)?;
    let (_, at) = take(text.tokens, at, Class::Equals)?;
    let at = attributes(text.tokens, at)?;
    let (is_constant, at) = constancy(text.tokens, at)?;
    let name = name(text.alloc, token)?;
    let (ty, at) = type_node(text, at, NESTING_LIMIT)?;
    let (value, at) = constant(text, at, NESTING_LIMIT)?;
    Ok((
        GlobalItem {
            name,
            is_constant,
            ty,
            value,
        },
        at,
    ))
}
