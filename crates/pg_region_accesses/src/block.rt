//! The accesses of a basic block, and whether it is quiet.

ghost use Rattle.std.specs.Prelude.{◌≡◌, ℕ, ◌<◌, ◌≤◌, length, All, IfOk, OnOk, IfSome, option_map, if◌then◌else◌};
ghost use Rattle.pg_region_paths.specs.pg_num.declared.limits.TheConstants.{FUNCTION_REGISTER_LIMIT};
ghost use Rattle.pg_region_paths.specs.RootPaths.{path_in, set_in, count_in};
ghost use Rattle.pg_region_paths.specs.Fits.{FitsGep};
ghost use Rattle.pg_region_paths.specs.Registers.{is_register, has_pointer, path_by};
ghost use Rattle.pg_region_accesses.specs.Accesses.{block_accesses, op_accesses, set_accesses, summary_of};
ghost use Rattle.pg_region_accesses.specs.Appends.{Appends};
ghost use Rattle.pg_region_accesses.specs.Tables.{in_table};
ghost use Rattle.pg_region_accesses.specs.Loud.{AreLoud};

use crate::access::push_op;
use crate::count::block_count;
use crate::register_sets::{none_of, sets_of};
use crate::rooted::{Rooted, Summary};
use pg_region_paths::RootPaths;
use pg_region_paths::pg_ir::{BlockNo, Instr, InstrId, Program, Scalar};
use pg_region_paths::pg_num::limits::FUNCTION_REGISTER_LIMIT;
use std::alloc::{AllocError, Global};

/// Adds what an instruction accesses, passes it, and gives whether it is quiet; a return is where `may_return` says so.
fn push_instr(
    accesses: &mut Vec<Rooted>,
    may_return: bool,
    gated: &[bool],
    sums: &[Option<Summary>],
    known: &mut RootPaths,
    types: &[Scalar],
    id: InstrId,
    instr: &Instr,
) -> Result<bool, AllocError>
    requires result { IfSome instr.now.result (λ r. r < count_in known.old) }
    requires fits { FitsGep instr.now.op }
    ensures is_set { known.new.is_set ≡ known.old.is_set }
    ensures count { count_in known.new ≡ count_in known.old }
    ensures paths { OnOk result ((s : ℕ) → path_in known.new s ≡
        (if is_register instr.now.result s then path_by (path_in known.old) (has_pointer types.now instr.now.result) instr.now.op else path_in known.old s)) }
    ensures accesses { IfOk result (λ b. Appends (op_accesses may_return (in_table gated.now) (summary_of sums.now) (path_in known.old) id.0 instr.now.op) accesses.old.items b accesses.new.items) }
{
    let is_quiet = push_op(accesses, may_return, gated, sums, known, id, &instr.op)?;
    known.pass(types, instr);
    Ok(is_quiet)
}

/// Adds what a block accesses, and gives whether it is quiet; a return is where `may_return` says so.
pub(crate) fn push_block(
    accesses: &mut Vec<Rooted>,
    p: &Program,
    may_return: bool,
    gated: &[bool],
    sums: &[Option<Summary>],
    known: &mut RootPaths,
    b: BlockNo,
) -> Result<bool, AllocError>
    requires block { b.0 < length p.now.blocks }
    requires registers { FUNCTION_REGISTER_LIMIT ≤ count_in known.old }
    ensures is_set { known.new.is_set ≡ known.old.is_set }
    ensures count { count_in known.new ≡ count_in known.old }
    ensures accesses { IfOk result (λ is_quiet. Appends
        (block_accesses may_return p.now (in_table gated.now) (summary_of sums.now) (set_in known.old) b.0) accesses.old.items is_quiet accesses.new.items) }
{
    p.facts();
    let block = *p.block(b);
    let function = p.function(block.function);
    let types = function.registers.as_slice();
    known.enter()?;
    for k in 0..block.count {
        let id = InstrId(block.first.0 + k);
        let instr = p.instr(id);
        let is_quiet = push_instr(accesses, may_return, gated, sums, known, types, id, instr)?;
        if !is_quiet {
            return Ok(false);
        }
    }
    Ok(true)
}

/// What a set of blocks accesses, if they are quiet; a block that returns is where `may_return` says so.
pub fn accesses_of(
    alloc: Global,
    p: &Program,
    may_return: bool,
    gated: &[bool],
    sums: &[Option<Summary>],
    blocks: &[u32],
) -> Result<Option<Vec<Rooted>>, AllocError>
    requires { All (λ b. b < length p.now.blocks) blocks.now }
    ensures { IfOk result (λ accesses. option_map (λ v. v.items) accesses ≡ set_accesses may_return p.now (in_table gated.now) (summary_of sums.now) blocks.now) }
{
    let set = sets_of(alloc, p, blocks)?;
    let mut known = RootPaths::new(alloc, set)?;
    let mut accesses = Vec::new(alloc);
    for b in blocks {
        if !push_block(
            &mut accesses,
            p,
            may_return,
            gated,
            sums,
            &mut known,
            BlockNo(*b),
        )? {
            return Ok(None);
        }
    }
    Ok(Some(accesses))
}

/// The blocks that are quiet within no set of blocks.
pub fn loud_blocks(
    alloc: Global,
    p: &Program,
    gated: &[bool],
    sums: &[Option<Summary>],
) -> Result<Vec<bool>, AllocError>
    ensures { IfOk result (λ loud. (length loud.items ≡ length p.now.blocks) × AreLoud p.now (in_table gated.now) (summary_of sums.now) loud.items) }
{
    let unset = none_of(alloc, FUNCTION_REGISTER_LIMIT as usize)?;
    let mut known = RootPaths::new(alloc, unset)?;
    let mut accesses = Vec::new(alloc);
    let mut loud = Vec::new(alloc);
    for b in 0..block_count(p) {
        let is_quiet = push_block(
            &mut accesses,
            p,
            false,
            gated,
            sums,
            &mut known,
            BlockNo(b as u32),
        )?;
        loud.push(!is_quiet)?;
        accesses.clear();
    }
    Ok(loud)
}
