//! The law for the reference runs that recordings make.

ghost use Rattle.pg_law_own_input.specs.References.{ReferencesAdmitOwn};

/// Any decisions of a reference run, closed or not, admit the input that it was recorded on: so does its slice.
pub fn a_reference_run_admits_its_own_input()
    ensures { ReferencesAdmitOwn }
{}
