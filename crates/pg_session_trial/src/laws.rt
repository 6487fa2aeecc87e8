//! What holds of trials: each law is the clause of a function that does nothing.
ghost use Rattle.std.specs.Prelude.{◌≡◌, ◌+◌, ◌*◌, ◌%◌, ◌<◌, ◌≤◌, ℕ, length, pos, Some, slice_get};
ghost use Rattle.pg_session_trial.specs.Lines.{trial_line, trial_lines};
ghost use Rattle.pg_session_trial.specs.declared.line.TheConstants.{TRIAL_LINES, TRIAL_LIMIT};

/// A trial has 500 lines, and a number up to 9,999 names it. Line i has `(37 * i + n) mod 500 + 1` numbers, the j-th of
/// which is `n + j`.
pub fn a_trial_has_these_lines()
    ensures lines { TRIAL_LINES ≡ 500 }
    ensures limit { TRIAL_LIMIT ≡ 9999 }
    ensures all { (n : ℕ) → length (trial_lines n) ≡ 500 }
    ensures line { (n i : ℕ) → i < 500 → slice_get (trial_lines n) i ≡ Some (trial_line n i) }
    ensures count { (n i : ℕ) → length (trial_line n i) ≡ (37 * i + n) % 500 + 1 }
    ensures number { (n i j : ℕ) → j < length (trial_line n i) → slice_get (trial_line n i) j ≡ Some (pos (n + j)) }
{}
