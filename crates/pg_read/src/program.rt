//! The items of a whole text.

ghost use Rattle.std.specs.Prelude.{◌≤◌, ◌<◌, length, drop, IfOk};
ghost use Rattle.pg_read_grammar.specs.ReaderItems.{item_at, behind_attributes_at, next_item_at, items_end_at, program_at};
ghost use Rattle.pg_read.specs.ItemStates.{after_of, items_of, comma_at};
ghost use Rattle.pg_read_grammar.specs.Views.{Reads};
ghost use Rattle.pg_read_ast.specs.Views.{tree_of};

use crate::dropped::{attributes_item, metadata_item_tail, text_item};
use crate::functions::{declare_item, define_item};
use crate::globals::{global_item, type_item};
use crate::items::{
    AfterItem, Items, item_next, no_items, with_declared, with_defined, with_global, with_type,
};
use pg_read_ast::Module;
use pg_read_grammar::{Class, ReadError, Token};
use pg_read_terms::{
    ClassSet, Read, Text, attribute, next_in, next_is, take, take_in, unsupported,
};

/// An item, but for what may still go on with it.
#[tactic(auto, unfolding(pg_read_grammar::specs::ReaderItems::item_at))]
fn item(text: &Text<'_>, at: usize, tree: Module) -> Read<Items>
    requires { at ≤ length text.now.tokens.now }
    ensures read { Reads text.now.tokens.now at (λ x. items_of x.0) (λ x. x.1) result (item_at (tree_of tree) (drop at text.now.tokens.now)) }
    ensures on { IfOk result (λ x. at < x.1) }
{
    let after = AfterItem::Done;
    if next_in(text.tokens, at, ClassSet::MetadataName) {
        let (_, at) = take_in(text.tokens, at, ClassSet::MetadataName)?;
        let to = metadata_item_tail(text.tokens, at)?;
        return Ok((Items { tree, after }, to));
    }
    if next_in(text.tokens, at, ClassSet::GlobalName) {
        let (item, to) = global_item(text, at)?;
        let tree = with_global(tree, item)?;
        let after = AfterItem::Valued;
        return Ok((Items { tree, after }, to));
    }
    if next_is(text.tokens, at, Class::Declare) {
        let (item, to) = declare_item(text, at)?;
        let tree = with_declared(tree, item)?;
        let after = AfterItem::Declared;
        return Ok((Items { tree, after }, to));
    }
    if next_is(text.tokens, at, Class::Define) {
        let (item, to) = define_item(text, at)?;
        let tree = with_defined(tree, item)?;
        return Ok((Items { tree, after }, to));
    }
    if next_is(text.tokens, at, Class::Local) {
        let (item, to) = type_item(text, at)?;
        let tree = with_type(tree, item)?;
        return Ok((Items { tree, after }, to));
    }
    if next_is(text.tokens, at, Class::Attributes) {
        let to = attributes_item(text.tokens, at)?;
        return Ok((Items { tree, after }, to));
    }
    let to = text_item(text.tokens, at)?;
    Ok((Items { tree, after }, to))
}

/// More attributes, or the next item: metadata where an equals sign stands behind the name.
fn behind_attributes(text: &Text<'_>, at: usize, items: Items) -> Read<Items>
    requires { at ≤ length text.now.tokens.now }
    ensures read { Reads text.now.tokens.now at (λ x. items_of x.0) (λ x. x.1) result (behind_attributes_at (tree_of items.tree) (after_of items.after) (drop at text.now.tokens.now)) }
    ensures on { IfOk result (λ x. at < x.1) }
{
    if next_in(text.tokens, at, ClassSet::MetadataName) {
        let (_, at) = take_in(text.tokens, at, ClassSet::MetadataName)?;
        if next_in(text.tokens, at, ClassSet::MetadataName) {
            let (_, to) = take_in(text.tokens, at, ClassSet::MetadataName)?;
            return Ok((items, to));
        }
        let to = metadata_item_tail(text.tokens, at)?;
        let tree = items.tree;
        let after = AfterItem::Done;
        return Ok((Items { tree, after }, to));
    }
    if next_in(text.tokens, at, ClassSet::Item) {
        return item(text, at, items.tree);
    }
    let to = attribute(text.tokens, at)?;
    Ok((items, to))
}

fn comma(tokens: &[Token], at: usize, tree: Module) -> Read<Items>
    requires { at ≤ length tokens.now }
    ensures read { Reads tokens.now at (λ x. items_of x.0) (λ x. x.1) result (comma_at (tree_of tree) (drop at tokens.now)) }
    ensures on { IfOk result (λ x. at < x.1) }
{
    let (_, to) = take(tokens, at, Class::Comma)?;
    let after = AfterItem::Tailed;
    Ok((Items { tree, after }, to))
}

/// What goes on with the last item, or the next one.
#[tactic(auto, unfolding(pg_read_grammar::specs::ReaderItems::next_item_at))]
fn next_item(text: &Text<'_>, at: usize, items: Items) -> Read<Items>
    requires { at ≤ length text.now.tokens.now }
    ensures read { Reads text.now.tokens.now at (λ x. items_of x.0) (λ x. x.1) result (next_item_at (items_of items) (drop at text.now.tokens.now)) }
    ensures on { IfOk result (λ x. at < x.1) }
{
    match items.after {
        AfterItem::Done => item(text, at, items.tree),
        AfterItem::Declared => behind_attributes(text, at, items),
        AfterItem::Valued => {
            if next_is(text.tokens, at, Class::Comma) {
                return comma(text.tokens, at, items.tree);
            }
            item(text, at, items.tree)
        }
        AfterItem::Tailed => {
            if next_is(text.tokens, at, Class::Comma) {
                return comma(text.tokens, at, items.tree);
            }
            behind_attributes(text, at, items)
        }
    }
}

fn items_end(tokens: &[Token], at: usize, items: Items) -> Read<Module>
    requires { at ≤ length tokens.now }
    ensures { Reads tokens.now at (λ x. tree_of x.0) (λ x. x.1) result (items_end_at (items_of items) (drop at tokens.now)) }
{
    if next_in(tokens, at, ClassSet::NoItem) {
        return Err(ReadError::Refused(unsupported(at)));
    }
    Ok((items.tree, at))
}

/// The items of a text, up to the first token that can be none of them.
#[tactic(auto, unfolding(pg_read_grammar::specs::ReaderItems::program_at))]
pub fn program(text: &Text<'_>) -> Read<Module>
    ensures { Reads text.now.tokens.now 0 (λ x. tree_of x.0) (λ x. x.1) result (program_at text.now.tokens.now) }
{
    let tree = no_items(text.alloc);
    let after = AfterItem::Done;
    let mut items = Items { tree, after };
    let mut place = 0;
    // The label is for the proof: see docs/CONTRIBUTING.md.
    'reading: while item_next(text.tokens, place, items.after) {
        match next_item(text, place, items) {
            Err(error) => return Err(error),
            Ok((next, to)) => {
                items = next;
                place = to;
            }
        }
    }
    items_end(text.tokens, place, items)
}
