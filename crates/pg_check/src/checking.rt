//! The numbered program of a module, or its first refusal.

ghost use Rattle.std.specs.Prelude.{◌≡◌, IfOk, IfErr};
ghost use Rattle.pg_read_ast.specs.Views.{tree_of};
ghost use Rattle.pg_check_rules.specs.Conditions.{IsUnrefused};
ghost use Rattle.pg_check_rules.specs.Numbered.{program_of};
ghost use Rattle.pg_check_rules.specs.declared.fault.CheckFault.TheVariants.{OutOfMemory};
ghost use Rattle.pg_check_program.specs.pg_law_numbering.Parsed.{IsInOrder};
ghost use Rattle.pg_check.specs.Checked.{IsProgramOf, IsFaultOf};

use crate::first::first_of_module;
use pg_check_program::pg_law_numbering::laws::an_accepted_tree_is_a_program;
use pg_check_program::program_parts;
use pg_check_rules::CheckFault;
use pg_check_types::TypeNumbers;
use pg_ir::{Program, ProgramError};
use pg_read_ast::Module;
use std::alloc::Global;

/// The numbered program of a module that isn't refused.
fn numbered(alloc: Global, types: &TypeNumbers<'_>, tree: &Module) -> Result<Program, CheckFault>
    requires items { types.now.items ≡ tree.now.types.items }
    requires order { IsInOrder (tree_of tree.now) }
    requires accepted { IsUnrefused (tree_of tree.now) }
    ensures program { IfOk result (λ p. p ≡ program_of (tree_of tree.now)) }
    ensures fault { IfErr result (λ e. e ≡ OutOfMemory) }
{
    let parts = program_parts(alloc, types, tree)?;
    an_accepted_tree_is_a_program();
    match Program::new(
        alloc,
        parts.functions,
        parts.blocks,
        parts.instrs,
        parts.globals,
        parts.main,
    ) {
        Ok(program) => Ok(program),
        Err(ProgramError::OutOfMemory) => Err(CheckFault::OutOfMemory),
        Err(ProgramError::Malformed) => unreachable!(),
    }
}

/// The numbered program of a module that isn't refused, or else its first refusal.
///
/// The module's ending lines end their blocks and its names stand in the order of the text, as in each module that
/// was read from a text.
pub fn check(alloc: Global, tree: &Module) -> Result<Program, CheckFault>
    requires { IsInOrder (tree_of tree.now) }
    ensures program { IfOk result (λ p. IsProgramOf (tree_of tree.now) p) }
    ensures fault { IfErr result (λ e. IsFaultOf (tree_of tree.now) e) }
{
    let types = TypeNumbers::new(alloc, tree.types.as_slice())?;
    match first_of_module(alloc, &types, tree)? {
        Some(refusal) => Err(CheckFault::At {
            kind: refusal.kind,
            span: refusal.span,
        }),
        None => numbered(alloc, &types, tree),
    }
}
