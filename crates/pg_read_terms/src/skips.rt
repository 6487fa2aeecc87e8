//! What is read and dropped: flags, and what stands in brackets.

ghost use Rattle.std.specs.Prelude.{◌≡◌, ◌≤◌, ◌<◌, length, drop, IfOk};
ghost use Rattle.pg_read_grammar.specs.Reader.{flags_at, plains_at, skip_at, bracketed_at, inside_at};
ghost use Rattle.pg_read_grammar.specs.Views.{Takes, done};

use crate::reader::{next_is, take, take_if, too_deep};
use crate::sets::{ClassSet, next_in, take_in};
use pg_read_grammar::{Class, ReadRefusal, Token};

/// Flags are dropped.
#[tactic(auto, unfolding(pg_read_grammar::specs::Reader::flags_at))]
pub fn flags(tokens: &[Token], at: usize) -> usize
    requires { at ≤ length tokens.now }
    ensures read { flags_at (drop at tokens.now) ≡ done (drop result tokens.now) }
    ensures from { at ≤ result }
    ensures to { result ≤ length tokens.now }
{
    let mut place = at;
    while next_is(tokens, place, Class::Flag) {
        place += 1;
    }
    place
}

#[tactic(auto, unfolding(pg_read_grammar::specs::Reader::plains_at))]
fn plains(tokens: &[Token], at: usize) -> usize
    requires { at ≤ length tokens.now }
    ensures read { plains_at (drop at tokens.now) ≡ done (drop result tokens.now) }
    ensures from { at ≤ result }
    ensures to { result ≤ length tokens.now }
{
    let mut place = at;
    while next_in(tokens, place, ClassSet::Plain) {
        place += 1;
    }
    place
}

#[cycle(skips)]
fn bracketed(tokens: &[Token], at: usize, depth: u32) -> Result<usize, ReadRefusal>
    requires { at ≤ length tokens.now }
    ensures read { Takes tokens.now at (λ x. tt) (λ x. x) result (bracketed_at (skip_at depth) (drop at tokens.now)) }
    ensures on { IfOk result (λ x. at < x) }
{
    if let Some((_, at)) = take_if(tokens, at, Class::OpenRound) {
        return skip_to(tokens, at, depth, Class::CloseRound);
    }
    if let Some((_, at)) = take_if(tokens, at, Class::OpenSquare) {
        return skip_to(tokens, at, depth, Class::CloseSquare);
    }
    if let Some((_, at)) = take_if(tokens, at, Class::OpenBrace) {
        return skip_to(tokens, at, depth, Class::CloseBrace);
    }
    let (_, to) = take_in(tokens, at, ClassSet::Plain)?;
    Ok(to)
}

#[cycle(skips)]
fn inside(tokens: &[Token], at: usize, depth: u32) -> Result<usize, ReadRefusal>
    requires { at ≤ length tokens.now }
    ensures { Takes tokens.now at (λ x. tt) (λ x. x) result (inside_at (skip_at depth) (drop at tokens.now)) }
{
    let mut place = at;
    while next_in(tokens, place, ClassSet::Bracket) {
        match bracketed(tokens, place, depth) {
            Err(error) => return Err(error),
            Ok(to) => place = to,
        }
    }
    Ok(place)
}

/// Any tokens up to the closing bracket, in which at most `depth` brackets are open at once.
#[cycle(skips)]
#[tactic(auto, unfolding(pg_read_grammar::specs::Reader::skip_at))]
pub fn skip_to(tokens: &[Token], at: usize, depth: u32, close: Class) -> Result<usize, ReadRefusal>
    requires { at ≤ length tokens.now }
    ensures { Takes tokens.now at (λ x. tt) (λ x. x) result (skip_at depth close (drop at tokens.now)) }
{
    if depth == 0 {
        let at = plains(tokens, at);
        if next_in(tokens, at, ClassSet::Opening) {
            return Err(too_deep(at));
        }
        let (_, to) = take(tokens, at, close)?;
        return Ok(to);
    }
    let at = inside(tokens, at, depth - 1)?;
    let (_, to) = take(tokens, at, close)?;
    Ok(to)
}
