//! What holds of canonical texts: each law is the clause of a function that does nothing.

ghost use Rattle.std.specs.Prelude.{◌≡◌, ℕ, ◌<◌, List, All};
ghost use Rattle.pg_read_ast.specs.Syntax.{Tree};
ghost use Rattle.pg_read_ast.specs.Numbers.{numbered_tree, canonical_text};
ghost use Rattle.pg_read_grammar.specs.Accepted.{IsModule};
ghost use Rattle.pg_law_canonical.specs.Spans.{without_spans};

/// The canonical text of a module of a text of bytes is a text of the same module, but for the places of its parts, in
/// which each unnamed parameter, block and result whose number the canonical text writes has this number as its name.
pub fn a_canonical_text_is_the_module()
    ensures { (text : List ℕ) (m : Tree) → All (λ b. b < 256) text → IsModule text m → (n : Tree) × IsModule (canonical_text m) n × (without_spans n ≡ without_spans (numbered_tree m)) }
{}

/// The module of a canonical text has this text as its canonical text.
pub fn a_canonical_text_is_written_again()
    ensures { (text : List ℕ) (m n : Tree) → All (λ b. b < 256) text → IsModule text m → IsModule (canonical_text m) n → canonical_text n ≡ canonical_text m }
{}
