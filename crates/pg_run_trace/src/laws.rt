//! What holds of the names of kinds: each law is the clause of a function that does nothing.

ghost use Rattle.std.specs.Prelude.{◌≡◌, ℕ, List, Some};
ghost use Rattle.pg_run_trace.specs.declared.turn.TurnKind.{TurnKind};
ghost use Rattle.pg_run_trace.specs.KindNames.{kind_named, kind_text};

/// A kind is found by its name, what is found by a name has it, and no two kinds have one name.
pub fn a_kind_has_a_name_of_its_own()
    ensures found { (k : TurnKind) → kind_named (kind_text k) ≡ Some k }
    ensures named { (text : List ℕ) (k : TurnKind) → kind_named text ≡ Some k → kind_text k ≡ text }
    ensures one { (a b : TurnKind) → kind_text a ≡ kind_text b → a ≡ b }
{}
