//! What holds of each numbered program: each law is the clause of a function that does nothing.

ghost use Rattle.std.specs.Prelude.{◌≡◌, ◌+◌, ◌≤◌, ℕ, Some, length, slice_get};
ghost use Rattle.pg_ir.specs.declared.function.Block.{Block};
ghost use Rattle.pg_ir.specs.declared.function.Function.{Function};
ghost use Rattle.pg_ir.specs.declared.function.GlobalInfo.{GlobalInfo};
ghost use Rattle.pg_ir.specs.Edges.{phis_of};
ghost use Rattle.pg_ir.specs.Program.{NumberedProgram};
ghost use Rattle.pg_ir.specs.WellFormed.{IsProgram, granules_for};

/// A program has at most 4,096 functions, 4,096 globals and 65,536 instructions. A function has at most 4,096 registers,
/// a block at most as many `phi`s, and a global at most 2,097,151 bytes. All globals end at granule 2,097,152 or before it.
pub fn a_program_has_these_bounds()
    ensures functions { (p : NumberedProgram) → IsProgram p → length p.functions ≤ 4096 }
    ensures globals { (p : NumberedProgram) → IsProgram p → length p.globals ≤ 4096 }
    ensures instructions { (p : NumberedProgram) → IsProgram p → length p.instrs ≤ 65536 }
    ensures registers { (p : NumberedProgram) (f : ℕ) (x : Function) → IsProgram p → slice_get p.functions f ≡ Some x → length x.registers ≤ 4096 }
    ensures phis { (p : NumberedProgram) (b : ℕ) (x : Block) → IsProgram p → slice_get p.blocks b ≡ Some x → length (phis_of p b) ≤ 4096 }
    ensures size { (p : NumberedProgram) (g : ℕ) (x : GlobalInfo) → IsProgram p → slice_get p.globals g ≡ Some x → x.size ≤ 2097151 }
    ensures granules { (p : NumberedProgram) (g : ℕ) (x : GlobalInfo) → IsProgram p → slice_get p.globals g ≡ Some x → x.start + granules_for x.size ≤ 2097152 }
{}
