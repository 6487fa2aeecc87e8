//! What holds of texts and modules: each law is the clause of a function that does nothing.

ghost use Rattle.std.specs.Prelude.{◌≡◌, ◌⊎◌, ◌+◌, ℕ, true, List, map};
ghost use Rattle.pg_num.specs.declared.limits.TheConstants.{NESTING_LIMIT};
ghost use Rattle.pg_read_ast.specs.Syntax.{Tree};
ghost use Rattle.pg_read_grammar.specs.declared.fault.ReadFault.{ReadFault};
ghost use Rattle.pg_read_grammar.specs.declared.nesting.TheConstants.{INNER_NESTING_LIMIT};
ghost use Rattle.pg_read_grammar.specs.Accepted.{IsModule, IsUnread};
ghost use Rattle.pg_read_grammar.specs.GrammarItems.{Part, blocks_of};
ghost use Rattle.pg_read_grammar.specs.Endings.{all_end_last};
ghost use Rattle.pg_read_grammar.specs.NameOrder.{all_ascend};
ghost use Rattle.pg_read_grammar.specs.Splits.{AreBlocks, joined, block_of};

/// A text is one module at most.
pub fn a_text_is_one_module()
    ensures { (text : List ℕ) (m n : Tree) → IsModule text m → IsModule text n → m ≡ n }
{}

/// A text is a module or has a first refusal, and not both.
pub fn a_text_is_a_module_or_refused()
    ensures some { (text : List ℕ) → ((m : Tree) × IsModule text m) ⊎ ((e : ReadFault) × IsUnread text e) }
    ensures apart { (text : List ℕ) (e : ReadFault) → IsUnread text e → (m : Tree) → IsModule text m → ⊥ }
{}

/// A text has one first refusal at most.
pub fn a_text_has_one_refusal()
    ensures { (text : List ℕ) (e d : ReadFault) → IsUnread text e → IsUnread text d → e ≡ d }
{}

/// The parts of a body can be split into blocks, and each split gives the blocks of the grammar.
pub fn parts_are_split_in_one_way()
    ensures some { (ps : List Part) → (bs : List (List Part)) × AreBlocks bs × (joined bs ≡ ps) }
    ensures same { (bs : List (List Part)) → AreBlocks bs → blocks_of (joined bs) ≡ map block_of bs }
{}

/// In a module no line of a block stands after a `br`, a `switch`, a `ret` or an `unreachable`.
pub fn a_module_ends_its_blocks()
    ensures { (text : List ℕ) (m : Tree) → IsModule text m → all_end_last m ≡ true }
{}

/// In a module the names that a function writes before its parameters, blocks and results start one behind the other,
/// and none of them where the text begins.
pub fn a_module_orders_its_names()
    ensures { (text : List ℕ) (m : Tree) → IsModule text m → all_ascend m ≡ true }
{}

/// An open bracket takes one from the limit of nesting.
pub fn an_open_bracket_takes_one_from_the_limit()
    ensures { INNER_NESTING_LIMIT + 1 ≡ NESTING_LIMIT }
{}
