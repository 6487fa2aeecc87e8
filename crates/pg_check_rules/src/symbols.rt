//! What global names stand for.

ghost use Rattle.std.specs.Prelude.{◌≡◌, ℕ, IfOk, map};
ghost use Rattle.std.specs.List.{find, enumerate_from};
ghost use Rattle.std.specs.Option.{option_map};
ghost use Rattle.std.specs.Str.{bytes_eq};
ghost use Rattle.pg_read_ast.specs.Syntax.{Variable, Declaration, Definition};
ghost use Rattle.pg_read_ast.specs.Views.{global_of, declare_of, define_of, tree_of};
ghost use Rattle.pg_check_types.specs.NameIndex.{texts_of};
ghost use Rattle.pg_check_rules.specs.Names.{symbol};
ghost use Rattle.pg_check_rules.specs.Symbols.{AreSymbols, symbol_of, placed, variable_text, definition_text, declaration_text};

use indexmap::IndexMap;
use pg_check_types::{index_names, place_of_name};
use pg_read_ast::{DeclareItem, DefineItem, GlobalItem, Module};
use std::alloc::{AllocError, Global};

/// What a global name stands for; variables and defined functions with their numbers.
#[derive(Clone, Copy)]
pub enum SymbolNode<'a> {
    Variable(usize, &'a GlobalItem),
    Definition(usize, &'a DefineItem),
    Declaration(&'a DeclareItem),
    Unknown,
}

/// The global names of a module.
#[derive(Drop)]
pub struct Symbols<'a> {
    pub tree: &'a Module,
    variables: IndexMap<&'a [u8], usize>,
    definitions: IndexMap<&'a [u8], usize>,
    declarations: IndexMap<&'a [u8], usize>,
    ghost known: { AreSymbols tree.now variables definitions declarations },
}

fn variable_names<'a>(alloc: Global, items: &'a [GlobalItem]) -> Result<Vec<&'a [u8]>, AllocError>
    ensures { IfOk result (λ v. texts_of v.items ≡ map variable_text (map global_of items.now)) }
{
    let mut names = Vec::new(alloc);
    for item in items {
        names.push(item.name.text.as_slice())?;
    }
    Ok(names)
}

fn definition_names<'a>(alloc: Global, items: &'a [DefineItem]) -> Result<Vec<&'a [u8]>, AllocError>
    ensures { IfOk result (λ v. texts_of v.items ≡ map definition_text (map define_of items.now)) }
{
    let mut names = Vec::new(alloc);
    for item in items {
        names.push(item.name.text.as_slice())?;
    }
    Ok(names)
}

fn declaration_names<'a>(
    alloc: Global,
    items: &'a [DeclareItem],
) -> Result<Vec<&'a [u8]>, AllocError>
    ensures { IfOk result (λ v. texts_of v.items ≡ map declaration_text (map declare_of items.now)) }
{
    let mut names = Vec::new(alloc);
    for item in items {
        names.push(item.name.text.as_slice())?;
    }
    Ok(names)
}

/// The global names of a module.
pub fn index_symbols<'a>(alloc: Global, tree: &'a Module) -> Result<Symbols<'a>, AllocError>
    ensures { IfOk result (λ s. s.tree.now ≡ tree.now) }
{
    let variables = variable_names(alloc, tree.globals.as_slice())?;
    let definitions = definition_names(alloc, tree.functions.as_slice())?;
    let declarations = declaration_names(alloc, tree.declares.as_slice())?;
    Ok(Symbols {
        tree,
        variables: index_names(alloc, variables.as_slice())?,
        definitions: index_names(alloc, definitions.as_slice())?,
        declarations: index_names(alloc, declarations.as_slice())?,
    })
}

/// The item at a place, with its place.
fn item_at<'a, T>(items: &'a [T], place: Option<usize>) -> Option<(usize, &'a T)>
    ensures { option_map (λ r. (r.0, r.1.now)) result ≡ placed items.now place }
{
    match place {
        Some(place) => match items.get(place) {
            Some(item) => Some((place, item)),
            None => None,
        },
        None => None,
    }
}

/// The variable of a name, with its number.
fn variable<'a>(symbols: &Symbols<'a>, text: &[u8]) -> Option<(usize, &'a GlobalItem)>
    ensures { option_map (λ r. (r.0, global_of r.1.now)) result ≡
        find (λ (g : ℕ × Variable). bytes_eq (variable_text g.1) text.now) (enumerate_from 0 (tree_of symbols.now.tree.now).globals) }
{
    let place = place_of_name(&symbols.variables, text);
    item_at(symbols.tree.globals.as_slice(), place)
}

/// The function of a name that is defined, with its number.
fn definition<'a>(symbols: &Symbols<'a>, text: &[u8]) -> Option<(usize, &'a DefineItem)>
    ensures { option_map (λ r. (r.0, define_of r.1.now)) result ≡
        find (λ (d : ℕ × Definition). bytes_eq (definition_text d.1) text.now) (enumerate_from 0 (tree_of symbols.now.tree.now).functions) }
{
    let place = place_of_name(&symbols.definitions, text);
    item_at(symbols.tree.functions.as_slice(), place)
}

/// The function of a name that is declared, with its place.
fn declaration<'a>(symbols: &Symbols<'a>, text: &[u8]) -> Option<(usize, &'a DeclareItem)>
    ensures { option_map (λ r. declare_of r.1.now) result ≡
        find (λ (d : Declaration). bytes_eq (declaration_text d) text.now) (tree_of symbols.now.tree.now).declares }
{
    let place = place_of_name(&symbols.declarations, text);
    item_at(symbols.tree.declares.as_slice(), place)
}

/// What a name stands for.
#[tactic(auto, unfolding(crate::specs::Names::symbol))]
pub fn symbol<'a>(symbols: &Symbols<'a>, text: &[u8]) -> SymbolNode<'a>
    ensures { symbol_of result ≡ symbol (tree_of symbols.now.tree.now) text.now }
{
    match variable(symbols, text) {
        Some((place, item)) => SymbolNode::Variable(place, item),
        None => match definition(symbols, text) {
            Some((place, item)) => SymbolNode::Definition(place, item),
            None => match declaration(symbols, text) {
                Some((_place, item)) => SymbolNode::Declaration(item),
                None => SymbolNode::Unknown,
            },
        },
    }
}
