//! What the definitions say of small reference runs.

ghost use Rattle.std.specs.Prelude.{◌≡◌, ◌∷◌, [], false, pos, true};
ghost use Rattle.pg_slice_rules.specs.declared.decision.Decision.TheVariants.{Pinned, Exact};
ghost use Rattle.pg_slice_rules.specs.Closed.{asks, admits};
ghost use Rattle.pg_slice_rules.specs.Counted.{counted};
ghost use Rattle.pg_slice_rules.specs.Offset.{offset};
ghost use Rattle.pg_slice_rules.specs.Rooted.{rooted};
ghost use Rattle.pg_slice_rules.specs.Sets.{taken};
ghost use Rattle.pg_slice_rules.specs.Summed.{summed};

/// A free region stores through a pointer that an earlier branch chose, so that branch is pinned, also where the
/// region's own branch is.
pub fn a_root_is_chosen_by_a_branch()
    ensures none { asks rooted (taken [] []) ≡ Pinned 3 ∷ [] }
    ensures own { asks rooted (taken (6 ∷ []) []) ≡ Pinned 3 ∷ [] }
    ensures closed { asks rooted (taken (3 ∷ []) []) ≡ [] }
    ensures same { admits rooted (taken (3 ∷ []) []) (pos 0 ∷ pos 7 ∷ []) ≡ true }
    ensures other { admits rooted (taken (3 ∷ []) []) (pos 1 ∷ pos 0 ∷ []) ≡ false }
{}

/// A pointer that a quotient of the input moves has its base's bounds, also on an input on which the quotient is undefined:
/// that input is admitted, but where the store's address is asked for.
pub fn an_undefined_offset_keeps_the_bounds()
    ensures none { asks offset (taken [] []) ≡ [] }
    ensures other { admits offset (taken [] []) (pos 3 ∷ []) ≡ true }
    ensures undefined { admits offset (taken [] []) (pos 0 ∷ []) ≡ true }
    ensures exact { admits offset (taken [] (4 ∷ [])) (pos 0 ∷ []) ≡ false }
{}

/// Two loops that nobody is disturbed by need no decision. The load of a thread's number is exact, since a join is
/// asked to wait for that thread.
pub fn loops_are_free()
    ensures none { asks counted (taken [] []) ≡ Exact 23 ∷ [] }
    ensures closed { asks counted (taken [] (23 ∷ [])) ≡ [] }
    ensures more { admits counted (taken [] (23 ∷ [])) (pos 5 ∷ []) ≡ true }
{}

/// Two threads that sum up the input under a mutex: the loads of their numbers are all that is fixed, so the order serves
/// an input of any length.
pub fn sums_of_any_length()
    ensures none { asks summed (taken [] []) ≡ Exact 104 ∷ Exact 105 ∷ [] }
    ensures closed { asks summed (taken [] (104 ∷ 105 ∷ [])) ≡ [] }
    ensures longer { admits summed (taken [] (104 ∷ 105 ∷ [])) (pos 3 ∷ pos 3 ∷ pos 3 ∷ pos 3 ∷ []) ≡ true }
    ensures empty { admits summed (taken [] (104 ∷ 105 ∷ [])) [] ≡ true }
{}
