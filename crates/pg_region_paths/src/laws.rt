//! Laws on root paths.

ghost use Rattle.pg_region_paths.specs.Relation.{PathsAreThoseOfCases};

#[tactic(auto, using(crate::proofs::Cases::cases_exact))]
/// An operand has the root path that the cases give it: a global, a constant and a register that the set of blocks doesn't
/// set are roots; a `getelementptr` moves the path of its base; a load of a pointer adds a load, four at most; and
/// nothing else has a path.
pub fn paths_are_those_of_cases()
    ensures { PathsAreThoseOfCases }
{}
