//! Functions that are declared or defined.

ghost use Rattle.std.specs.Prelude.{◌≤◌, ◌<◌, length, drop, map, IfOk};
ghost use Rattle.pg_read_grammar.specs.ReaderItems.{declare_item_at, define_item_at};
ghost use Rattle.pg_read.specs.FunctionParts.{opened_at, declared_at, declare_end_at, attributed_body_at, params_and_body_at, defined_at, define_end_at};
ghost use Rattle.pg_read_grammar.specs.Views.{Reads};
ghost use Rattle.pg_read_ast.specs.Views.{declare_of, define_of, param_of, dparam_of, block_of};

use crate::body::body;
use crate::params::{declared_params, params};
use pg_num::limits::NESTING_LIMIT;
use pg_read_ast::{BlockNode, DeclareItem, DefineItem, DparamNode, Name, ParamNode};
use pg_read_grammar::{Class, ReadError};
use pg_read_terms::{ClassSet, Read, Text, attributes, name, take, take_in, type_node};

/// A function that is declared, up to its parameters.
#[tactic(auto, unfolding(pg_read_grammar::specs::ReaderItems::declare_item_at))]
pub fn declare_item(text: &Text<'_>, at: usize) -> Read<DeclareItem>
    requires { at ≤ length text.now.tokens.now }
    ensures read { Reads text.now.tokens.now at (λ x. declare_of x.0) (λ x. x.1) result (declare_item_at (drop at text.now.tokens.now)) }
    ensures on { IfOk result (λ x. at < x.1) }
{
    let (_, at) = take(text.tokens, at, Class::Declare)?;
    let at = attributes(text.tokens, at)?;
    declare_end(text, at)
}

/// What stands behind the first attributes of a function that is declared.
fn declare_end(text: &Text<'_>, at: usize) -> Read<DeclareItem>
    requires { at ≤ length text.now.tokens.now }
    ensures { Reads text.now.tokens.now at (λ x. declare_of x.0) (λ x. x.1) result (declare_end_at (drop at text.now.tokens.now)) }
{
    let (result, at) = type_node(text, at, NESTING_LIMIT)?;
    let (name, params, at) = declared(text, at)?;
    Ok((
        DeclareItem {
            result,
            name,
            params,
        },
        at,
    ))
}

/// The name of a function that is declared, and its parameters.
fn declared(text: &Text<'_>, at: usize) -> Result<(Name, Vec<DparamNode>, usize), ReadError>
    requires { at ≤ length text.now.tokens.now }
    ensures { Reads text.now.tokens.now at (λ x. (x.0, map dparam_of x.1.items)) (λ x. x.2) result (declared_at (drop at text.now.tokens.now)) }
{
    let (name, at) = opened(text, at)?;
    let (params, at) = declared_params(text, at)?;
    Ok((name, params, at))
}

/// The name of a function, and the bracket behind it.
fn opened(text: &Text<'_>, at: usize) -> Read<Name>
    requires { at ≤ length text.now.tokens.now }
    ensures { Reads text.now.tokens.now at (λ x. x.0) (λ x. x.1) result (opened_at (drop at text.now.tokens.now)) }
{
    let (token, at) = take_in(text.tokens, at, ClassSet::GlobalName)?;
    let (_, at) = take(text.tokens, at, Class::OpenRound)?;
    let name = name(text.alloc, token)?;
    Ok((name, at))
}

/// A function that is defined.
#[tactic(auto, unfolding(pg_read_grammar::specs::ReaderItems::define_item_at))]
pub fn define_item(text: &Text<'_>, at: usize) -> Read<DefineItem>
    requires { at ≤ length text.now.tokens.now }
    ensures read { Reads text.now.tokens.now at (λ x. define_of x.0) (λ x. x.1) result (define_item_at (drop at text.now.tokens.now)) }
    ensures on { IfOk result (λ x. at < x.1) }
{
    let (_, at) = take(text.tokens, at, Class::Define)?;
    let at = attributes(text.tokens, at)?;
    define_end(text, at)
}

/// What stands behind the first attributes of a function that is defined.
fn define_end(text: &Text<'_>, at: usize) -> Read<DefineItem>
    requires { at ≤ length text.now.tokens.now }
    ensures { Reads text.now.tokens.now at (λ x. define_of x.0) (λ x. x.1) result (define_end_at (drop at text.now.tokens.now)) }
{
    let (result, at) = type_node(text, at, NESTING_LIMIT)?;
    let (name, params, blocks, at) = defined(text, at)?;
    Ok((
        DefineItem {
            result,
            name,
            params,
            blocks,
        },
        at,
    ))
}

/// The name of a function that is defined, its parameters and its blocks.
fn defined(
    text: &Text<'_>,
    at: usize,
) -> Result<(Name, Vec<ParamNode>, Vec<BlockNode>, usize), ReadError>
    requires { at ≤ length text.now.tokens.now }
    ensures { Reads text.now.tokens.now at (λ x. (x.0, map param_of x.1.items, map block_of x.2.items)) (λ x. x.3) result (defined_at (drop at text.now.tokens.now)) }
{
    let (name, at) = opened(text, at)?;
    let (params, blocks, at) = params_and_body(text, at)?;
    Ok((name, params, blocks, at))
}

/// The parameters of a function that is defined, and its blocks.
fn params_and_body(
    text: &Text<'_>,
    at: usize,
) -> Result<(Vec<ParamNode>, Vec<BlockNode>, usize), ReadError>
    requires { at ≤ length text.now.tokens.now }
    ensures { Reads text.now.tokens.now at (λ x. (map param_of x.0.items, map block_of x.1.items)) (λ x. x.2) result (params_and_body_at (drop at text.now.tokens.now)) }
{
    let (params, at) = params(text, at)?;
    let (blocks, at) = attributed_body(text, at)?;
    Ok((params, blocks, at))
}

/// A body, and the attributes before it.
fn attributed_body(text: &Text<'_>, at: usize) -> Read<Vec<BlockNode>>
    requires { at ≤ length text.now.tokens.now }
    ensures { Reads text.now.tokens.now at (λ x. map block_of x.0.items) (λ x. x.1) result (attributed_body_at (drop at text.now.tokens.now)) }
{
    let at = attributes(text.tokens, at)?;
    body(text, at)
}
