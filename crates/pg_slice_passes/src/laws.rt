//! Laws on the steps of a run, one after another. Nothing runs.

ghost use Rattle.std.specs.Prelude.{◌≡◌, ◌∷◌, ◌++◌, [], ℕ, suc, Some, slice_get};
ghost use Rattle.pg_slice_rules.specs.Known.{Reference, Taken, after_step};
ghost use Rattle.pg_slice_rules.specs.Moments.{Moment};
ghost use Rattle.pg_law_demands.specs.Along.{known_at};
ghost use Rattle.pg_slice_passes.specs.Along.{first_steps, step_from};

/// What is known after step n is what the step makes of what is known before it, and the first n + 1 steps are the first n
/// and this one.
pub fn one_step_more()
    ensures known { (R : Reference) (d : Taken) (n : ℕ) (m : Moment) → slice_get R.moments n ≡ Some m → known_at R d (suc n) ≡ after_step R d n m (known_at R d n) }
    ensures steps { (R : Reference) (d : Taken) (n : ℕ) (m : Moment) → slice_get R.moments n ≡ Some m
        → first_steps R d (suc n) ≡ first_steps R d n ++ step_from R d n (known_at R d n) m ∷ [] }
{}
