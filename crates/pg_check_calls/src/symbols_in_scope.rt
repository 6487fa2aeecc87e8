//! What global names stand for, looked up from a line.

ghost use Rattle.std.specs.Prelude.{◌≡◌, is_some};
ghost use Rattle.pg_check_rules.specs.Symbols.{symbol_of};
ghost use Rattle.pg_check_rules.specs.Names.{symbol, register_named};
ghost use Rattle.pg_check_rules.specs.Earliest.{earliest};
ghost use Rattle.pg_check_rules.specs.ValueConditions.{Scope, unknown_symbol};
ghost use Rattle.pg_check_rules.specs.CallConditions.{variable_symbol, unsupported_symbol, unsupported_thread_symbol, is_callable, known_of};
ghost use Rattle.pg_check_values.specs.Scopes.{IsLineScope};

use pg_check_rules::{SymbolNode, known_named, symbol};
use pg_check_types::place_of_name;
use pg_check_values::LineScope;
use pg_ir::LibraryCall;
use pg_read_ast::Name;
use pg_read_lex::Span;

/// What a global name stands for.
pub(crate) fn symbol_named<'a>(scope: &LineScope<'a>, name: &Name) -> SymbolNode<'a>
    ensures { (g : Scope) → IsLineScope scope.now g → symbol_of result ≡ symbol g.tree name.now.text }
{
    symbol(scope.values.symbols, name.text.as_slice())
}

/// Whether a function has a register of this name.
pub(crate) fn has_register(scope: &LineScope<'_>, name: &Name) -> bool
    ensures { (g : Scope) → IsLineScope scope.now g → result ≡ is_some (register_named g.registers name.now.text) }
{
    place_of_name(scope.values.registers, name.text.as_slice()).is_some()
}

#[tactic(auto, unfolding(pg_check_rules::specs::Earliest::earliest))]
fn unknown_symbol(symbol: SymbolNode<'_>, span: Span) -> Option<Span>
    ensures { result ≡ earliest (unknown_symbol (symbol_of symbol.entry) span) }
{
    match symbol {
        SymbolNode::Variable(_, _) => None,
        SymbolNode::Definition(_, _) => None,
        SymbolNode::Declaration(_) => None,
        SymbolNode::Unknown => Some(span),
    }
}

/// The place of a global name that stands for nothing.
pub(crate) fn unknown_name(scope: &LineScope<'_>, name: &Name) -> Option<Span>
    ensures { (g : Scope) → IsLineScope scope.now g → result ≡ earliest (unknown_symbol (symbol g.tree name.now.text) name.now.span) }
{
    let symbol = symbol_named(scope, name);
    unknown_symbol(symbol, name.span)
}

/// A place, where a name stands for a variable.
#[tactic(auto, unfolding(pg_check_rules::specs::Earliest::earliest))]
pub(crate) fn variable_symbol(symbol: SymbolNode<'_>, span: Span) -> Option<Span>
    ensures { result ≡ earliest (variable_symbol (symbol_of symbol.entry) span) }
{
    match symbol {
        SymbolNode::Variable(_, _) => Some(span),
        SymbolNode::Definition(_, _) => None,
        SymbolNode::Declaration(_) => None,
        SymbolNode::Unknown => None,
    }
}

/// The known function that a name stands for, where it is declared.
pub(crate) fn known_of(symbol: SymbolNode<'_>) -> Option<LibraryCall>
    ensures { result ≡ known_of (symbol_of symbol.entry) }
{
    match symbol {
        SymbolNode::Variable(_, _) => None,
        SymbolNode::Definition(_, _) => None,
        SymbolNode::Declaration(item) => known_named(item.name.text.as_slice()),
        SymbolNode::Unknown => None,
    }
}

/// Whether a name stands for a function that is defined, or declared and known.
pub(crate) fn is_callable(symbol: SymbolNode<'_>) -> bool
    ensures { result ≡ is_callable (symbol_of symbol.entry) }
{
    match symbol {
        SymbolNode::Variable(_, _) => false,
        SymbolNode::Definition(_, _) => true,
        SymbolNode::Declaration(item) => known_named(item.name.text.as_slice()).is_some(),
        SymbolNode::Unknown => false,
    }
}

#[tactic(auto, unfolding(pg_check_rules::specs::Earliest::earliest))]
fn unsupported_symbol(symbol: SymbolNode<'_>, span: Span) -> Option<Span>
    ensures { result ≡ earliest (unsupported_symbol (symbol_of symbol.entry) span) }
{
    match symbol {
        SymbolNode::Variable(_, _) => None,
        SymbolNode::Definition(_, _) => None,
        SymbolNode::Declaration(item) => match known_named(item.name.text.as_slice()) {
            Some(_) => None,
            None => Some(span),
        },
        SymbolNode::Unknown => None,
    }
}

/// The place of a name that stands for a function that is declared and not known.
pub(crate) fn unsupported_name(scope: &LineScope<'_>, name: &Name) -> Option<Span>
    ensures { (g : Scope) → IsLineScope scope.now g → result ≡ earliest (unsupported_symbol (symbol g.tree name.now.text) name.now.span) }
{
    let symbol = symbol_named(scope, name);
    unsupported_symbol(symbol, name.span)
}

#[tactic(auto, unfolding(pg_check_rules::specs::Earliest::earliest))]
fn unsupported_thread_symbol(symbol: SymbolNode<'_>, span: Span) -> Option<Span>
    ensures { result ≡ earliest (unsupported_thread_symbol (symbol_of symbol.entry) span) }
{
    match symbol {
        SymbolNode::Variable(_, _) => Some(span),
        SymbolNode::Definition(_, _) => None,
        SymbolNode::Declaration(_) => Some(span),
        SymbolNode::Unknown => None,
    }
}

/// The place of a name that stands for a variable or a function that is declared.
pub(crate) fn unsupported_thread_name(scope: &LineScope<'_>, name: &Name) -> Option<Span>
    ensures { (g : Scope) → IsLineScope scope.now g → result ≡ earliest (unsupported_thread_symbol (symbol g.tree name.now.text) name.now.span) }
{
    let symbol = symbol_named(scope, name);
    unsupported_thread_symbol(symbol, name.span)
}
