//! Marks of steps.
ghost use Rattle.std.specs.Prelude.{◌≡◌, ◌⊎◌, ℕ, true, false, IfOk, replicate, slice_index_or, slice_set};

use std::alloc::{AllocError, Global};

/// Whether a mark is set; not where there is none.
pub fn mark_at(marks: &[bool], number: usize) -> bool
    ensures { result ≡ slice_index_or marks.now number false }
{
    match marks.get(number) {
        Some(mark) => *mark,
        None => false,
    }
}

/// Sets a mark, if there is one.
pub fn set_mark(marks: &mut Vec<bool>, number: usize)
    ensures only { (i : ℕ) → slice_index_or marks.new.items i false ≡ true → (slice_index_or marks.old.items i false ≡ true) ⊎ (i ≡ number) }
    ensures set { marks.new.items ≡ slice_set marks.old.items number true }
{
    if number < marks.len() {
        marks[number] = true;
    }
}

/// Marks that aren't set.
///
/// # Errors
///
/// Where no memory is left.
pub fn no_marks(alloc: Global, count: usize) -> Result<Vec<bool>, AllocError>
    ensures { IfOk result (λ v. v.items ≡ replicate count false) }
{
    vec![in alloc; false; count]
}
