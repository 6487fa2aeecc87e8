//! Small reference runs on their own inputs.

ghost use Rattle.std.specs.Prelude.{◌≡◌, ◌∷◌, [], false, pos, true};
ghost use Rattle.pg_slice_rules.specs.Closed.{admits};
ghost use Rattle.pg_slice_rules.specs.Counted.{counted};
ghost use Rattle.pg_slice_rules.specs.Rooted.{rooted};
ghost use Rattle.pg_slice_rules.specs.Sets.{taken};
ghost use Rattle.pg_slice_rules.specs.Summed.{summed};
ghost use Rattle.pg_law_instances.specs.pg_law_least.Keeps.{every};

/// A run on two zeros: its own input is admitted under no decisions, under its slice and under all; another one isn't,
/// where the branch that chooses a root is pinned.
pub fn a_chosen_root_is_its_own()
    ensures none { admits rooted (taken [] []) (pos 0 ∷ pos 0 ∷ []) ≡ true }
    ensures slice { admits rooted (taken (3 ∷ []) []) (pos 0 ∷ pos 0 ∷ []) ≡ true }
    ensures all { admits rooted every (pos 0 ∷ pos 0 ∷ []) ≡ true }
    ensures other { admits rooted every (pos 0 ∷ pos 7 ∷ []) ≡ false }
{}

/// A loop that counts to the input's number, which is 0.
pub fn a_count_is_its_own()
    ensures slice { admits counted (taken [] (23 ∷ [])) (pos 0 ∷ []) ≡ true }
    ensures all { admits counted every (pos 0 ∷ []) ≡ true }
    ensures other { admits counted every (pos 1 ∷ []) ≡ false }
{}

/// Two threads that sum up the input 1 2 3: where all decisions are taken, the input has as many numbers.
pub fn a_sum_is_its_own()
    ensures none { admits summed (taken [] []) (pos 1 ∷ pos 2 ∷ pos 3 ∷ []) ≡ true }
    ensures slice { admits summed (taken [] (104 ∷ 105 ∷ [])) (pos 1 ∷ pos 2 ∷ pos 3 ∷ []) ≡ true }
    ensures all { admits summed every (pos 1 ∷ pos 2 ∷ pos 3 ∷ []) ≡ true }
    ensures other { admits summed every (pos 1 ∷ pos 2 ∷ []) ≡ false }
{}
