//! The reader of the metadata behind an instruction, which is dropped.

ghost use Rattle.std.specs.Prelude.{◌≤◌, ◌<◌, length, drop, IfOk};
ghost use Rattle.pg_read_grammar.specs.ReaderOps.{pair_at, metadata_at, metadata_tail_at};
ghost use Rattle.pg_read_grammar.specs.Views.{Takes};

use crate::reader::{next_is, take};
use crate::sets::{ClassSet, take_in};
use pg_read_grammar::{Class, ReadRefusal, Token};

fn pair(tokens: &[Token], at: usize) -> Result<(&Token, usize), ReadRefusal>
    requires { at ≤ length tokens.now }
    ensures read { Takes tokens.now at (λ x. x.0.now) (λ x. x.1) result (pair_at (drop at tokens.now)) }
    ensures on { IfOk result (λ x. at < x.1) }
{
    let (_, at) = take(tokens, at, Class::Comma)?;
    let (_, at) = take_in(tokens, at, ClassSet::MetadataName)?;
    take_in(tokens, at, ClassSet::MetadataName)
}

/// Pairs of metadata names, each behind a comma, are dropped.
#[tactic(auto, unfolding(pg_read_grammar::specs::ReaderOps::metadata_at))]
pub fn metadata(tokens: &[Token], at: usize) -> Result<usize, ReadRefusal>
    requires { at ≤ length tokens.now }
    ensures { Takes tokens.now at (λ x. tt) (λ x. x) result (metadata_at (drop at tokens.now)) }
{
    let mut place = at;
    while next_is(tokens, place, Class::Comma) {
        match pair(tokens, place) {
            Err(error) => return Err(error),
            Ok((_, to)) => place = to,
        }
    }
    Ok(place)
}

/// The same behind the first comma.
pub fn metadata_tail(tokens: &[Token], at: usize) -> Result<usize, ReadRefusal>
    requires { at ≤ length tokens.now }
    ensures { Takes tokens.now at (λ x. tt) (λ x. x) result (metadata_tail_at (drop at tokens.now)) }
{
    let (_, at) = take_in(tokens, at, ClassSet::MetadataName)?;
    let (_, at) = take_in(tokens, at, ClassSet::MetadataName)?;
    metadata(tokens, at)
}
