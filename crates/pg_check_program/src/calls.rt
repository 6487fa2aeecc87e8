//! Calls of what a name stands for.

ghost use Rattle.std.specs.Prelude.{◌≡◌};
ghost use Rattle.pg_check_rules.specs.Numbered.{call_of, library_call};
ghost use Rattle.pg_check_rules.specs.Symbols.{symbol_of};
ghost use Rattle.pg_check_program.specs.Room.{IsShort};

use pg_check_rules::{SymbolNode, known_named};
use pg_ir::{LibraryCall, Op, Value, Values};

fn library_call(known: Option<LibraryCall>, args: Vec<Value>) -> Op
    ensures { result ≡ library_call known args.items }
{
    match known {
        Some(function) => Op::CallLibrary {
            function,
            args: Values::from_vec(args),
        },
        None => Op::Unreachable,
    }
}

/// A call of what a name stands for.
pub(crate) fn call_of(symbol: SymbolNode<'_>, args: Vec<Value>) -> Op
    requires { IsShort (symbol_of symbol) }
    ensures { result ≡ call_of (symbol_of symbol.entry) args.items }
{
    match symbol {
        SymbolNode::Definition(place, _) => Op::Call {
            function: place as u32,
            args: Values::from_vec(args),
        },
        SymbolNode::Declaration(item) => library_call(known_named(item.name.text.as_slice()), args),
        _ => Op::Unreachable,
    }
}
