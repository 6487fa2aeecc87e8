//! The items so far, and what may still go on with the last of them.

ghost use Rattle.std.specs.Prelude.{◌≡◌, ◌≤◌, length, drop, IfOk};
ghost use Rattle.pg_read_grammar.specs.Reading.{comes};
ghost use Rattle.pg_read_grammar.specs.GrammarItems as grammar;
ghost use Rattle.pg_read_grammar.specs.ReaderItems.{empty, add_item, begins_after_item};
ghost use Rattle.pg_read.specs.ItemStates.{after_of};
ghost use Rattle.pg_read_ast.specs.Views.{tree_of, type_item_of, global_of, declare_of, define_of};

use pg_read_ast::{DeclareItem, DefineItem, GlobalItem, Module, TypeItem};
use pg_read_grammar::{Class, Token};
use pg_read_terms::{ClassSet, contains, is_class};
use std::alloc::{AllocError, Global};

/// What stands before a place among the items: complete items, a declaration whose attributes may go on, the
/// constant of a global, or attributes behind a comma after it.
#[derive(Clone, Copy, Debug, PartialEq, Eq)]
pub enum AfterItem {
    Done,
    Declared,
    Valued,
    Tailed,
}

/// The items so far, and what stands last among them.
#[derive(Drop)]
pub struct Items {
    pub tree: Module,
    pub after: AfterItem,
}

/// No items.
pub fn no_items(alloc: Global) -> Module
    ensures { tree_of result ≡ empty }
{
    Module {
        types: Vec::new(alloc),
        globals: Vec::new(alloc),
        declares: Vec::new(alloc),
        functions: Vec::new(alloc),
    }
}

/// A named type behind the other items.
#[tactic(auto, using(std::proofs::lemmas::List::map_push))]
pub fn with_type(tree: Module, item: TypeItem) -> Result<Module, AllocError>
    ensures { IfOk result (λ t. tree_of t ≡ add_item (tree_of tree) (grammar.TypeItem (type_item_of item))) }
{
    let mut tree = tree;
    if tree.types.push(item).is_err() {
        return Err(AllocError);
    }
    Ok(tree)
}

/// A global behind the other items.
#[tactic(auto, using(std::proofs::lemmas::List::map_push))]
pub fn with_global(tree: Module, item: GlobalItem) -> Result<Module, AllocError>
    ensures { IfOk result (λ t. tree_of t ≡ add_item (tree_of tree) (grammar.GlobalItem (global_of item))) }
{
    let mut tree = tree;
    if tree.globals.push(item).is_err() {
        return Err(AllocError);
    }
    Ok(tree)
}

/// A declared function behind the other items.
#[tactic(auto, using(std::proofs::lemmas::List::map_push))]
pub fn with_declared(tree: Module, item: DeclareItem) -> Result<Module, AllocError>
    ensures { IfOk result (λ t. tree_of t ≡ add_item (tree_of tree) (grammar.DeclareItem (declare_of item))) }
{
    let mut tree = tree;
    if tree.declares.push(item).is_err() {
        return Err(AllocError);
    }
    Ok(tree)
}

/// A defined function behind the other items.
#[tactic(auto, using(std::proofs::lemmas::List::map_push))]
pub fn with_defined(tree: Module, item: DefineItem) -> Result<Module, AllocError>
    ensures { IfOk result (λ t. tree_of t ≡ add_item (tree_of tree) (grammar.DefineItem (define_of item))) }
{
    let mut tree = tree;
    if tree.functions.push(item).is_err() {
        return Err(AllocError);
    }
    Ok(tree)
}

/// A token goes on with attributes, or begins the next item.
fn follows_attributes(class: Class) -> bool
    ensures { result ≡ begins_after_item (after_of AfterItem.Declared) class }
{
    contains(ClassSet::MetadataName, class)
        || (contains(ClassSet::Item, class) || contains(ClassSet::Attribute, class))
}

fn follows(after: AfterItem, class: Class) -> bool
    ensures { result ≡ begins_after_item (after_of after) class }
{
    match after {
        AfterItem::Done => contains(ClassSet::Item, class),
        AfterItem::Declared => follows_attributes(class),
        AfterItem::Valued => is_class(class, Class::Comma) || contains(ClassSet::Item, class),
        AfterItem::Tailed => is_class(class, Class::Comma) || follows_attributes(class),
    }
}

/// A token comes that goes on with the last item or begins the next one.
pub fn item_next(tokens: &[Token], at: usize, after: AfterItem) -> bool
    requires { at ≤ length tokens.now }
    ensures { result ≡ comes (begins_after_item (after_of after)) (drop at tokens.now) }
{
    at < tokens.len() && follows(after, tokens[at].class)
}
