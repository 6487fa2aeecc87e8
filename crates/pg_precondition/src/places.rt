//! The new numbers of the marked nodes.

ghost use Rattle.std.specs.Prelude.{◌≡◌, ◌<◌, IfOk, length, suc, if◌then◌else◌};
ghost use Rattle.pg_precondition.specs.Marks.{ArePlaces};

use crate::marks::is_set;
use std::alloc::{AllocError, Global};

/// One more where a mark is set.
fn counted(count: u32, mark: bool) -> u32
    requires { count < 4294967295 }
    ensures { result ≡ (if mark then suc count else count) }
{
    if mark { count + 1 } else { count }
}

/// Of each mark how many before it are set.
pub(crate) fn places_of(alloc: Global, marks: &[bool], count: u32) -> Result<Vec<u32>, AllocError>
    requires { length marks.now ≡ count }
    ensures { IfOk result (λ v. ArePlaces marks.now v.items) }
{
    let mut places = Vec::with_capacity(alloc, marks.len())?;
    let mut place: u32 = 0;
    for i in 0..count {
        places.push(place)?;
        place = counted(place, is_set(marks, i));
    }
    Ok(places)
}
