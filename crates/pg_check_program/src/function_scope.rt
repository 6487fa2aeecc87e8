//! What the names of a function's lines are looked up in.

ghost use Rattle.pg_read_ast.specs.Views.{tree_of};
ghost use Rattle.pg_check_program.specs.Room.{HaveRoom, FewSymbols};

use indexmap::IndexMap;
use pg_check_constants::Globals;

/// What the names of a function's lines are looked up in: the globals of the module with its types, the function's
/// registers and labels by their names, and the number of its first basic block.
#[derive(Clone, Copy)]
pub(crate) struct FunctionScope<'a> {
    pub globals: &'a Globals<'a>,
    pub registers: &'a IndexMap<&'a [u8], usize>,
    pub labels: &'a IndexMap<&'a [u8], usize>,
    pub first: u32,
    ghost register_room: { HaveRoom 0 registers.now },
    ghost label_room: { HaveRoom first labels.now },
    ghost few_symbols: { FewSymbols (tree_of globals.now.symbols.tree.now) },
}
