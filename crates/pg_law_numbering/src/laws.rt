//! What holds of modules and their programs: each law is the clause of a function that does nothing.

ghost use Rattle.std.specs.Prelude.{ℕ, List};
ghost use Rattle.pg_read_ast.specs.Syntax.{Tree};
ghost use Rattle.pg_read_grammar.specs.Accepted.{IsModule};
ghost use Rattle.pg_ir.specs.WellFormed.{IsProgram};
ghost use Rattle.pg_check_rules.specs.Conditions.{IsUnrefused};
ghost use Rattle.pg_check_rules.specs.Numbered.{program_of};
ghost use Rattle.pg_law_numbering.specs.Parsed.{IsInOrder};

use pg_read_grammar::laws::{a_module_ends_its_blocks, a_module_orders_its_names};

/// The ending lines of a module end their blocks, and its names stand in the order of the text.
pub fn a_module_is_in_order()
    ensures { (text : List ℕ) (m : Tree) → IsModule text m → IsInOrder m }
{
    a_module_ends_its_blocks();
    a_module_orders_its_names();
}

/// The numbered program of an accepted tree is a program, where ending lines end their blocks and names stand in order.
pub fn an_accepted_tree_is_a_program()
    ensures { (m : Tree) → IsInOrder m → IsUnrefused m → IsProgram (program_of m) }
{}

/// The numbered program of an accepted module is a program.
pub fn an_accepted_module_is_a_program()
    ensures { (text : List ℕ) (m : Tree) → IsModule text m → IsUnrefused m → IsProgram (program_of m) }
{
    a_module_is_in_order();
}
