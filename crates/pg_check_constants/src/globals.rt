//! What global names stand for, and the words of the pointers to variables.

ghost use Rattle.std.specs.Prelude.{◌≡◌, ◌≤◌, ◌^◌, ◌<◌, ◌+◌, IfOk, map, slice_get, unwrap_or};
ghost use Rattle.std.specs.Coded.{Coded-set, codes};
ghost use Rattle.pg_num.specs.Pointers.{word_of};
ghost use Rattle.pg_num.specs.declared.limits.TheConstants.{SIZE_LIMIT};
ghost use Rattle.pg_read_ast.specs.contracts.types.TypeNode as type_node;
ghost use Rattle.pg_read_ast.specs.Views.{global_of, tree_of};
ghost use Rattle.pg_check_types.specs.NumberedTypes.{named_types};
ghost use Rattle.pg_check_rules.specs.Names.{symbol};
ghost use Rattle.pg_check_rules.specs.Constants.{symbol_word};
ghost use Rattle.pg_check_constants.specs.Words.{words_from};
ghost use Rattle.pg_check_constants.specs.Sizes.{GlobalsFit};

use crate::fields::size_or_none;
use pg_check_rules::{SymbolNode, Symbols, granules_for, index_symbols, symbol};
use pg_check_types::{KnownTypes, TypeNumbers};
use pg_num::{Pointer, pack};
use pg_read_ast::{GlobalItem, Module};
use std::alloc::{AllocError, Global};

/// The globals of a module: what its global names stand for, its types, and the words of the pointers to its variables;
/// and what allocates what is made of them.
#[derive(Drop)]
pub struct Globals<'a> {
    pub alloc: Global,
    pub symbols: Symbols<'a>,
    pub types: &'a TypeNumbers<'a>,
    words: Vec<u64>,
    ghost items: { types.now.items ≡ symbols.tree.now.types.items } by { Prim.hlevel (Coded-set, codes, type_node.the_row.coded) },
    ghost known: { words.items ≡ words_from (tree_of symbols.tree.now).types 1 (tree_of symbols.tree.now).globals },
}

/// The word of the pointer to the first byte of a global.
fn word_from(start: u32, size: u32) -> u64
    requires start { start < 2 ^ 22 }
    requires size { size ≤ SIZE_LIMIT }
    ensures { result ≡ word_of (record { start = start; length = size; offset = 0 }) }
{
    pack(Pointer {
        start,
        length: size,
        offset: 0,
    })
}

/// The words of the pointers to globals.
fn global_words(
    alloc: Global,
    types: &TypeNumbers<'_>,
    globals: &[GlobalItem],
) -> Result<Vec<u64>, AllocError>
    requires { GlobalsFit (named_types types.now) (map global_of globals.now) }
    ensures words { IfOk result (λ v. v.items ≡ words_from (named_types types.now) 1 (map global_of globals.now)) }
{
    let mut words = Vec::new(alloc);
    let mut start = 1;
    for global in globals {
        let mut known = KnownTypes::new(&*types);
        let number = known.number(&global.ty)?;
        let size = size_or_none(&known, number);
        let word = word_from(start, size);
        words.push(word)?;
        start = start + granules_for(size);
    }
    Ok(words)
}

/// The globals of a module, whose types and constants keep within the limits of sizes.
pub fn index_globals<'a>(
    alloc: Global,
    types: &'a TypeNumbers<'a>,
    tree: &'a Module,
) -> Result<Globals<'a>, AllocError>
    requires items { types.now.items ≡ tree.now.types.items }
    requires fits { GlobalsFit (tree_of tree.now).types (tree_of tree.now).globals }
    ensures same { IfOk result (λ g. g.symbols.tree.now ≡ tree.now) }
{
    let symbols = index_symbols(alloc, tree)?;
    let words = global_words(alloc, types, tree.globals.as_slice())?;
    Ok(Globals {
        alloc,
        symbols,
        types,
        words,
    })
}

fn word_or_zero(words: &[u64], place: usize) -> u64
    ensures { result ≡ unwrap_or (slice_get words.now place) 0 }
{
    match words.get(place) {
        Some(word) => *word,
        None => 0,
    }
}

/// The word of the pointer that a global name is; 0 of what isn't a variable.
pub(crate) fn symbol_word(globals: &Globals<'_>, text: &[u8]) -> u64
    ensures { result ≡ symbol_word (tree_of globals.now.symbols.tree.now)
        (symbol (tree_of globals.now.symbols.tree.now) text.now) }
{
    match symbol(&globals.symbols, text) {
        SymbolNode::Variable(place, _) => word_or_zero(globals.words.as_slice(), place),
        _ => 0,
    }
}
