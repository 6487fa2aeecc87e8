//! A function by number: its registers, its labels, its instructions.

ghost use Rattle.std.specs.Prelude.{◌≡◌, ◌++◌, ◌+◌, ◌≤◌, ℕ, List, IfOk, OnOk, length, map};
ghost use Rattle.std.specs.List.{filter_map};
ghost use Rattle.std.specs.Option.{option_to_list};
ghost use Rattle.pg_num.specs.declared.limits.TheConstants.{FUNCTION_REGISTER_LIMIT, INSTRUCTION_LIMIT};
ghost use Rattle.pg_read_ast.specs.Views.{ty_of, define_of, tree_of};
ghost use Rattle.pg_check_types.specs.NameIndex.{known_place, texts_of};
ghost use Rattle.pg_check_types.specs.NumberedTypes.{named_types};
ghost use Rattle.pg_check_types.specs.Resolved.{resolved};
ghost use Rattle.pg_check_rules.specs.Names.{label_number};
ghost use Rattle.pg_check_rules.specs.Numbered.{scalar_in, function_at, function_instrs};
ghost use Rattle.pg_check_names.specs.Registers.{register_type};
ghost use Rattle.pg_check_program.specs.FunctionRows.{numbered_item, text_in, kind_scalar};
ghost use Rattle.pg_check_program.specs.Room.{FewSymbols, FunctionFits};

use crate::function_scope::FunctionScope;
use crate::line_rows::add_block_lines;
use indexmap::IndexMap;
use pg_check_constants::Globals;
use pg_check_names::{RegisterType, own_names};
use pg_check_types::{TypeKind, TypeNumbers, index_names};
use pg_ir::{BlockNo, Function, Instr, Scalar, Scalars};
use pg_num::Width;
use pg_read_ast::{DefineItem, Name, TypeNode};
use std::alloc::{AllocError, Global};

/// The texts of names.
fn name_texts<'a>(alloc: Global, names: &'a [Name]) -> Result<Vec<&'a [u8]>, AllocError>
    ensures { IfOk result (λ v. texts_of v.items ≡ map text_in names.now) }
{
    let mut texts = Vec::new(alloc);
    for name in names {
        texts.push(name.text.as_slice())?;
    }
    Ok(texts)
}

/// The place of the first of each name.
#[tactic(auto, using(crate::proofs::NamePlaces::place_is))]
fn name_places<'a>(
    alloc: Global,
    names: &'a [Name],
) -> Result<IndexMap<&'a [u8], usize>, AllocError>
    ensures { IfOk result (λ m. (text : List ℕ) → known_place m text ≡ label_number names.now text) }
{
    let texts = name_texts(alloc, names)?;
    index_names(alloc, texts.as_slice())
}

/// Adds the instructions of a function, whose basic blocks are numbered from `first` on.
pub(crate) fn add_function(
    globals: &Globals<'_>,
    found: &mut Vec<Instr>,
    item: &DefineItem,
    first: u32,
) -> Result<(), AllocError>
    requires symbols { FewSymbols (tree_of globals.now.symbols.tree.now) }
    requires fits { FunctionFits (tree_of globals.now.symbols.tree.now).types (define_of item.now) }
    requires room { first + length (define_of item.now).blocks ≤ INSTRUCTION_LIMIT }
    ensures instrs { OnOk result (found.new.items ≡ found.old.items ++ function_instrs (tree_of globals.now.symbols.tree.now) first
        (numbered_item (tree_of globals.now.symbols.tree.now).types item.now)) }
{
    let own = own_names(globals.alloc, globals.types, item)?;
    let names = own.registers.as_slice();
    let label_names = own.labels.as_slice();
    let registers = name_places(globals.alloc, names)?;
    let labels = name_places(globals.alloc, label_names)?;
    let scope = FunctionScope {
        globals,
        registers: &registers,
        labels: &labels,
        first,
    };
    let params = item.params.as_slice();
    let blocks = item.blocks.as_slice();
    add_block_lines(&scope, found, names, params.len(), blocks)?;
    Ok(())
}

/// The type of the values of a kind of type, which an instruction can give.
fn kind_scalar(kind: Option<TypeKind>) -> Option<Scalar>
    ensures { result ≡ kind_scalar kind }
{
    match kind {
        Some(TypeKind::Integer(width)) => Some(Scalar::Int(width)),
        Some(TypeKind::Pointer) => Some(Scalar::Ptr),
        _ => None,
    }
}

/// The type of a type's values, which an instruction can give.
#[tactic(auto, using(crate::proofs::Scalars::scalar_of_kind))]
fn scalar_at(types: &TypeNumbers<'_>, ty: &TypeNode) -> Result<Option<Scalar>, AllocError>
    ensures scalar { IfOk result (λ s. s ≡ scalar_in (resolved (named_types types.now) (ty_of ty.now))) }
{
    let kind = types.kind(ty)?;
    Ok(kind_scalar(kind))
}

/// The type of a register's values.
fn register_scalar(
    types: &TypeNumbers<'_>,
    ty: RegisterType<'_>,
) -> Result<Option<Scalar>, AllocError>
    ensures scalar { IfOk result (λ s. s ≡ scalar_in (register_type (named_types types.now) ty.entry)) }
{
    match ty {
        RegisterType::Written(ty) => scalar_at(types, ty),
        RegisterType::Bit => Ok(Some(Scalar::Int(Width::W1))),
        RegisterType::Pointer => Ok(Some(Scalar::Ptr)),
    }
}

fn push_some(found: &mut Vec<Scalar>, one: Option<Scalar>) -> Result<(), AllocError>
    ensures { OnOk result (found.new.items ≡ found.old.items ++ option_to_list one) }
{
    match one {
        Some(one) => {
            found.push(one)?;
            Ok(())
        }
        None => Ok(()),
    }
}

/// The types of registers' values.
fn register_scalars(
    alloc: Global,
    types: &TypeNumbers<'_>,
    all: &[RegisterType<'_>],
) -> Result<Vec<Scalar>, AllocError>
    ensures scalars { IfOk result (λ v. v.items ≡ filter_map (λ t. scalar_in (register_type (named_types types.now) t)) all.now) }
{
    let mut found = Vec::new(alloc);
    for place in 0..all.len() {
        let one = register_scalar(types, all[place])?;
        push_some(&mut found, one)?;
    }
    Ok(found)
}

/// A function whose basic blocks are numbered from `first` on.
pub(crate) fn function_at(
    globals: &Globals<'_>,
    item: &DefineItem,
    first: u32,
) -> Result<Function, AllocError>
    requires params { length (define_of item.now).params ≤ FUNCTION_REGISTER_LIMIT }
    requires blocks { length (define_of item.now).blocks ≤ INSTRUCTION_LIMIT }
    ensures function { IfOk result (λ f. f ≡ function_at (tree_of globals.now.symbols.tree.now) first
        (numbered_item (tree_of globals.now.symbols.tree.now).types item.now)) }
{
    let own = own_names(globals.alloc, globals.types, item)?;
    let all = own.types.as_slice();
    let registers = register_scalars(globals.alloc, globals.types, all)?;
    let scalars = Scalars::from_vec(registers);
    let result = scalar_at(globals.types, &item.result)?;
    let params = item.params.as_slice();
    let blocks = item.blocks.as_slice();
    let param_count = params.len() as u32;
    let block_count = blocks.len() as u32;
    Ok(Function {
        params: param_count,
        registers: scalars,
        first_block: BlockNo(first),
        blocks: block_count,
        result,
    })
}
