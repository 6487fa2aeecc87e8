//! Registers and basic blocks by their names.

ghost use Rattle.std.specs.Prelude.{◌≡◌, unwrap_or};
ghost use Rattle.pg_check_rules.specs.Names.{register_number};
ghost use Rattle.pg_check_rules.specs.Numbered.{block_at};
ghost use Rattle.pg_check_program.specs.ScopeNames.{ScopeNames, scope_in};

use crate::function_scope::FunctionScope;
use pg_check_types::place_of_name;
use pg_ir::BlockNo;
use pg_read_ast::Name;

/// The number of a register, and 0 where there is none.
pub(crate) fn register_number(scope: &FunctionScope<'_>, name: &Name) -> u32
    ensures { (names : ScopeNames scope.now) →
        result ≡ unwrap_or (register_number names.registers name.now.text) 0 }
{
    match place_of_name(scope.registers, name.text.as_slice()) {
        Some(place) => place as u32,
        None => 0,
    }
}

/// The number of the basic block of a label, and the function's first where there is none.
pub(crate) fn block_at(scope: &FunctionScope<'_>, name: &Name) -> BlockNo
    ensures { (names : ScopeNames scope.now) →
        result ≡ block_at (scope_in scope.now names) scope.now.first name.now }
{
    match place_of_name(scope.labels, name.text.as_slice()) {
        Some(place) => BlockNo(scope.first + place as u32),
        None => BlockNo(scope.first),
    }
}
