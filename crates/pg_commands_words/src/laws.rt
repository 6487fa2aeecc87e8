//! What holds of command lines: each law is the clause of a function that does nothing.
ghost use Rattle.std.specs.Prelude.{◌≡◌, ℕ, ℤ, List, [], ◌∷◌, codes};
ghost use Rattle.pg_num.specs.declared.limits.TheConstants.{NUMBERS_LIMIT, QUANTUM_LIMIT};
ghost use Rattle.pg_commands_words.specs.Commands.{IsWithin, Meaning, Means, once};
ghost use Rattle.pg_commands_words.specs.Pieces.{Word};
ghost use Rattle.pg_commands_words.specs.declared.values.TheConstants.{DEFAULT_QUANTUM};

/// Words are one command with its values at most.
pub fn words_are_one_command()
    ensures { (words : List Word) (a b : Meaning) → Means words a → Means words b → a ≡ b }
{}

/// The quantum is 100 where the words give none, as the word `once` alone, and at least 1 and at most 10,000 in each
/// command. A command has at most 512 numbers.
pub fn a_command_has_these_bounds()
    ensures default { DEFAULT_QUANTUM ≡ 100 }
    ensures quantum { QUANTUM_LIMIT ≡ 10000 }
    ensures numbers { NUMBERS_LIMIT ≡ 512 }
    ensures alone { (quantum : ℕ) (numbers : List ℤ) → Means (codes "once" ∷ []) (once quantum numbers) → quantum ≡ 100 }
    ensures within { (words : List Word) (meaning : Meaning) → Means words meaning → IsWithin meaning }
{}
