//! Memory of a frame, loads and stores.

ghost use Rattle.std.specs.Prelude.{◌≤◌, ◌<◌, length, drop, IfOk};
ghost use Rattle.std.specs.Option.{option_map};
ghost use Rattle.pg_read_grammar.specs.declared.token.Fault.TheVariants.{Unsupported};
ghost use Rattle.pg_read_grammar.specs.declared.class.Class.TheVariants.{Int, Local};
ghost use Rattle.pg_read_grammar.specs.Classes.{is};
ghost use Rattle.pg_read_grammar.specs.Reading.{unless, take_one};
ghost use Rattle.pg_read_grammar.specs.ReaderOps.{alignment_at, count_at, alloca_at, volatile_at, load_at, store_at};
ghost use Rattle.pg_read_grammar.specs.Views.{Reads, Takes};
ghost use Rattle.pg_read_operations.specs.Rows.{address_at, load_end_at, store_end_at};
ghost use Rattle.pg_read_ast.specs.Views.{op_of, count_of, ty_of, typed_of};

use pg_num::limits::NESTING_LIMIT;
use pg_read_ast::{CountNode, OpNode, TypeNode, TypedVal};
use pg_read_grammar::{Class, ReadRefusal, Token};
use pg_read_terms::{
    ClassSet, Read, Text, literal, metadata, metadata_tail, next_in, next_is, take, type_node,
    typed_value_in, unsupported,
};

/// An alignment, or none, and metadata are dropped.
#[tactic(auto, unfolding(pg_read_grammar::specs::ReaderOps::alignment_at))]
fn alignment(tokens: &[Token], at: usize) -> Result<usize, ReadRefusal>
    requires { at ≤ length tokens.now }
    ensures { Takes tokens.now at (λ x. tt) (λ x. x) result (alignment_at (drop at tokens.now)) }
{
    if next_is(tokens, at, Class::Comma) {
        let (_, at) = take(tokens, at, Class::Comma)?;
        if next_is(tokens, at, Class::Align) {
            let (_, at) = take(tokens, at, Class::Align)?;
            let (_, at) = take(tokens, at, Class::Int)?;
            return metadata(tokens, at);
        }
        return metadata_tail(tokens, at);
    }
    Ok(at)
}

/// An integer; a local isn't supported in its place.
fn count_number(tokens: &[Token], at: usize) -> Result<(&Token, usize), ReadRefusal>
    requires { at ≤ length tokens.now }
    ensures { Takes tokens.now at (λ x. x.0.now) (λ x. x.1) result (unless Unsupported (is Local) (take_one (is Int)) (drop at tokens.now)) }
{
    if next_is(tokens, at, Class::Local) {
        return Err(unsupported(at));
    }
    take(tokens, at, Class::Int)
}

#[tactic(auto, unfolding(pg_read_grammar::specs::ReaderOps::count_at))]
fn count(text: &Text<'_>, at: usize) -> Read<Option<CountNode>>
    requires { at ≤ length text.now.tokens.now }
    ensures { Reads text.now.tokens.now at (λ x. option_map count_of x.0) (λ x. x.1) result (count_at (drop at text.now.tokens.now)) }
{
    if next_is(text.tokens, at, Class::Comma) {
        let (_, at) = take(text.tokens, at, Class::Comma)?;
        if next_is(text.tokens, at, Class::Align) {
            let (_, at) = take(text.tokens, at, Class::Align)?;
            let (_, at) = take(text.tokens, at, Class::Int)?;
            let at = metadata(text.tokens, at)?;
            return Ok((None, at));
        }
        if next_in(text.tokens, at, ClassSet::MetadataName) {
            let at = metadata_tail(text.tokens, at)?;
            return Ok((None, at));
        }
        let (ty, at) = type_node(text, at, NESTING_LIMIT)?;
        let (number, at) = count_number(text.tokens, at)?;
        let at = alignment(text.tokens, at)?;
        let count = literal(text.alloc, number)?;
        return Ok((Some(CountNode { ty, count }), at));
    }
    Ok((None, at))
}

/// Memory of the frame, and the metadata behind it.
pub fn alloca(text: &Text<'_>, at: usize) -> Read<OpNode>
    requires { at ≤ length text.now.tokens.now }
    ensures read { Reads text.now.tokens.now at (λ x. op_of x.0) (λ x. x.1) result (alloca_at (drop at text.now.tokens.now)) }
    ensures on { IfOk result (λ x. at < x.1) }
{
    let (word, at) = take(text.tokens, at, Class::Alloca)?;
    let (ty, at) = type_node(text, at, NESTING_LIMIT)?;
    let (count, at) = count(text, at)?;
    let node = OpNode::Alloca {
        span: word.span,
        ty,
        count,
    };
    Ok((node, at))
}

fn volatile_word(tokens: &[Token], at: usize) -> Result<usize, ReadRefusal>
    requires { at ≤ length tokens.now }
    ensures { Takes tokens.now at (λ x. tt) (λ x. x) result (volatile_at (drop at tokens.now)) }
{
    if next_is(tokens, at, Class::Volatile) {
        let (_, to) = take(tokens, at, Class::Volatile)?;
        return Ok(to);
    }
    Ok(at)
}

/// A load, and the metadata behind it.
pub fn load(text: &Text<'_>, at: usize) -> Read<OpNode>
    requires { at ≤ length text.now.tokens.now }
    ensures read { Reads text.now.tokens.now at (λ x. op_of x.0) (λ x. x.1) result (load_at (drop at text.now.tokens.now)) }
    ensures on { IfOk result (λ x. at < x.1) }
{
    let (word, at) = take(text.tokens, at, Class::Load)?;
    let at = volatile_word(text.tokens, at)?;
    let (ty, at) = type_node(text, at, NESTING_LIMIT)?;
    load_end(text, at, word, ty)
}

/// What stands behind the type of a load.
fn load_end(text: &Text<'_>, at: usize, word: &Token, ty: TypeNode) -> Read<OpNode>
    requires { at ≤ length text.now.tokens.now }
    ensures { Reads text.now.tokens.now at (λ x. op_of x.0) (λ x. x.1) result (load_end_at word.now (ty_of ty) (drop at text.now.tokens.now)) }
{
    let (pointer, at) = address(text, at)?;
    let node = OpNode::Load {
        span: word.span,
        ty,
        pointer,
    };
    Ok((node, at))
}

/// An address behind a comma, and the alignment and the metadata behind it.
fn address(text: &Text<'_>, at: usize) -> Read<TypedVal>
    requires { at ≤ length text.now.tokens.now }
    ensures { Reads text.now.tokens.now at (λ x. typed_of x.0) (λ x. x.1) result (address_at (drop at text.now.tokens.now)) }
{
    let (_, at) = take(text.tokens, at, Class::Comma)?;
    let (pointer, at) = typed_value_in(text, at, NESTING_LIMIT)?;
    let at = alignment(text.tokens, at)?;
    Ok((pointer, at))
}

/// A store, and the metadata behind it.
pub fn store(text: &Text<'_>, at: usize) -> Read<OpNode>
    requires { at ≤ length text.now.tokens.now }
    ensures read { Reads text.now.tokens.now at (λ x. op_of x.0) (λ x. x.1) result (store_at (drop at text.now.tokens.now)) }
    ensures on { IfOk result (λ x. at < x.1) }
{
    let (word, at) = take(text.tokens, at, Class::Store)?;
    let at = volatile_word(text.tokens, at)?;
    let (value, at) = typed_value_in(text, at, NESTING_LIMIT)?;
    store_end(text, at, word, value)
}

/// What stands behind the value of a store.
fn store_end(text: &Text<'_>, at: usize, word: &Token, value: TypedVal) -> Read<OpNode>
    requires { at ≤ length text.now.tokens.now }
    ensures { Reads text.now.tokens.now at (λ x. op_of x.0) (λ x. x.1) result (store_end_at word.now (typed_of value) (drop at text.now.tokens.now)) }
{
    let (pointer, at) = address(text, at)?;
    let node = OpNode::Store {
        span: word.span,
        value,
        pointer,
    };
    Ok((node, at))
}
