//! Items that are read and dropped.

ghost use Rattle.std.specs.Prelude.{◌≤◌, ◌<◌, length, drop, IfOk};
ghost use Rattle.pg_read_grammar.specs.ReaderItems.{node_at, metadata_item_tail_at, attributes_item_at, text_item_at};
ghost use Rattle.pg_read.specs.ItemStates.{distinct_at};
ghost use Rattle.pg_read_grammar.specs.Views.{Takes};

use pg_read_grammar::{Class, INNER_NESTING_LIMIT, ReadRefusal, Token};
use pg_read_terms::{ClassSet, next_is, skip_to, take, take_in};

fn node(tokens: &[Token], at: usize) -> Result<usize, ReadRefusal>
    requires { at ≤ length tokens.now }
    ensures { Takes tokens.now at (λ x. tt) (λ x. x) result (node_at (drop at tokens.now)) }
{
    if next_is(tokens, at, Class::Meta) {
        let (_, at) = take(tokens, at, Class::Meta)?;
        let (_, at) = take(tokens, at, Class::OpenRound)?;
        return skip_to(tokens, at, INNER_NESTING_LIMIT, Class::CloseRound);
    }
    let (_, at) = take(tokens, at, Class::Bang)?;
    if next_is(tokens, at, Class::OpenBrace) {
        let (_, at) = take(tokens, at, Class::OpenBrace)?;
        return skip_to(tokens, at, INNER_NESTING_LIMIT, Class::CloseBrace);
    }
    let (_, at) = take(tokens, at, Class::OpenRound)?;
    skip_to(tokens, at, INNER_NESTING_LIMIT, Class::CloseRound)
}

fn distinct(tokens: &[Token], at: usize) -> Result<usize, ReadRefusal>
    requires { at ≤ length tokens.now }
    ensures { Takes tokens.now at (λ x. tt) (λ x. x) result (distinct_at (drop at tokens.now)) }
{
    if next_is(tokens, at, Class::Distinct) {
        let (_, to) = take(tokens, at, Class::Distinct)?;
        return Ok(to);
    }
    Ok(at)
}

/// Metadata behind its name.
#[tactic(auto, unfolding(pg_read_grammar::specs::ReaderItems::metadata_item_tail_at))]
pub fn metadata_item_tail(tokens: &[Token], at: usize) -> Result<usize, ReadRefusal>
    requires { at ≤ length tokens.now }
    ensures { Takes tokens.now at (λ x. tt) (λ x. x) result (metadata_item_tail_at (drop at tokens.now)) }
{
    let (_, at) = take(tokens, at, Class::Equals)?;
    let at = distinct(tokens, at)?;
    node(tokens, at)
}

/// A group of attributes.
#[tactic(auto, unfolding(pg_read_grammar::specs::ReaderItems::attributes_item_at))]
pub fn attributes_item(tokens: &[Token], at: usize) -> Result<usize, ReadRefusal>
    requires { at ≤ length tokens.now }
    ensures read { Takes tokens.now at (λ x. tt) (λ x. x) result (attributes_item_at (drop at tokens.now)) }
    ensures on { IfOk result (λ x. at < x) }
{
    let (_, at) = take(tokens, at, Class::Attributes)?;
    let (_, at) = take_in(tokens, at, ClassSet::AttributeName)?;
    let (_, at) = take(tokens, at, Class::Equals)?;
    let (_, at) = take(tokens, at, Class::OpenBrace)?;
    skip_to(tokens, at, INNER_NESTING_LIMIT, Class::CloseBrace)
}

/// The name of the text's source, or a property of its target.
#[tactic(auto, unfolding(pg_read_grammar::specs::ReaderItems::text_item_at))]
pub fn text_item(tokens: &[Token], at: usize) -> Result<usize, ReadRefusal>
    requires { at ≤ length tokens.now }
    ensures read { Takes tokens.now at (λ x. tt) (λ x. x) result (text_item_at (drop at tokens.now)) }
    ensures on { IfOk result (λ x. at < x) }
{
    if next_is(tokens, at, Class::SourceFilename) {
        let (_, at) = take(tokens, at, Class::SourceFilename)?;
        let (_, at) = take(tokens, at, Class::Equals)?;
        let (_, to) = take(tokens, at, Class::Str)?;
        return Ok(to);
    }
    let (_, at) = take(tokens, at, Class::Target)?;
    let (_, at) = take_in(tokens, at, ClassSet::Word)?;
    let (_, at) = take(tokens, at, Class::Equals)?;
    let (_, to) = take(tokens, at, Class::Str)?;
    Ok(to)
}
