//! Laws on symbolic values: each is the clause of a function that does nothing.

ghost use Rattle.std.specs.Prelude.{◌≡◌, List, Option, length};
ghost use Rattle.pg_ir.specs.declared.instr.Op.{Op};
ghost use Rattle.pg_ir.specs.declared.value.Scalar.{Scalar};
ghost use Rattle.pg_ir.specs.Program.{NumberedProgram};
ghost use Rattle.pg_ir.specs.WellFormed.{FitsOp};
ghost use Rattle.pg_precondition.specs.Nodes.{NodeList};
ghost use Rattle.pg_slice_values.specs.declared.symbolic_node.SymbolicNode.{SymbolicNode};
ghost use Rattle.pg_slice_values.specs.Forms.{CastFits};
ghost use Rattle.pg_slice_values.specs.SymbolicNodes.{Grew, IsSymbolicNode, symbolic_by};

/// A symbolic value stands for the same where nodes were added behind.
pub fn symbolic_nodes_stay()
    ensures same { (old new : NodeList) (s : SymbolicNode) → Grew old new → IsSymbolicNode (length old) s → symbolic_by new s ≡ symbolic_by old s }
    ensures is { (old new : NodeList) (s : SymbolicNode) → Grew old new → IsSymbolicNode (length old) s → IsSymbolicNode (length new) s }
{}

/// The casts of a program narrow or widen as their kinds say, as `operation` requires.
pub fn casts_fit()
    ensures { (p : NumberedProgram) (types : List Scalar) (returns given : Option Scalar) (o : Op) → FitsOp p types returns given o → CastFits o }
{}
