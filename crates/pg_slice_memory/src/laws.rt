//! Laws on what is known of memory.

ghost use Rattle.std.specs.Prelude.{◌≡◌, ◌≤◌, ◌<◌, ◌+◌, ◌^◌, ℕ, length};
ghost use Rattle.pg_num.specs.declared.layout.TheConstants.{MEMORY_BYTES};
ghost use Rattle.pg_ir.specs.Program.{NumberedProgram};
ghost use Rattle.pg_precondition.specs.Nodes.{NodeList};
ghost use Rattle.pg_num.specs.Places.{ByteRange};
ghost use Rattle.pg_slice_values.specs.pg_slice_rules.declared.decision.Decision.{Decision};
ghost use Rattle.pg_slice_values.specs.pg_slice_rules.Freeable.{bounds_of};
ghost use Rattle.pg_slice_values.specs.pg_slice_rules.SymbolicValues.{Bounded, OnInput, Symbolic, Unknown, stored};
ghost use Rattle.pg_stamps.specs.declared.stamps.TheConstants.{PLACE_COUNT};
ghost use Rattle.pg_slice_memory.specs.Changes.{AreSymbolicNodes, Changes, symbolics_of};
ghost use Rattle.pg_slice_values.specs.SymbolicNodes.{Grew};

/// Nodes that are added change nothing of what is known of the bytes.
#[tactic(auto, using(crate::proofs::ByteNodes::names_more))]
pub fn more_nodes_change_nothing()
    ensures symbolic { (p : NumberedProgram) (old new : NodeList) (cs : Changes) → Grew old new → AreSymbolicNodes (length old) cs → symbolics_of p new cs ≡ symbolics_of p old cs }
    ensures names { (m n : ℕ) (cs : Changes) → m ≤ n → AreSymbolicNodes m cs → AreSymbolicNodes n cs }
{}

/// A pointer of which only the bounds are known is stored as a number that isn't known.
pub fn bounds_give_no_bytes()
    ensures { (r : ByteRange) (f : OnInput) (x : Decision) (bytes : ℕ → Symbolic) → stored r (Bounded f x) bytes ≡ stored r (Unknown x) bytes }
{}

/// Each byte of memory has a place, and so has each byte within the bounds of any word.
pub fn bounds_have_places()
    ensures memory { MEMORY_BYTES ≤ PLACE_COUNT }
    ensures bounds { (word : ℕ) → word < 2 ^ 64 → (bounds_of word).start + (bounds_of word).bytes ≤ PLACE_COUNT }
{}
