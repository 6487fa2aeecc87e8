//! Where root paths lead at a step.

ghost use Rattle.std.specs.Prelude.{◌≡◌, ◌<◌, ◌≤◌, ◌+◌, true, Some, drop, length, slice_get, take};
ghost use Rattle.std.specs.Option.{option_copied};

use pg_region_accesses::Rooted;

/// Where a path leads at a step: the pointers from which its loads read, in their order, and the last pointer.
#[derive(Clone, Copy, PartialEq, Eq)]
pub struct At {
    pub(crate) pointers: [u64; 4],
    pub(crate) last: u64,
}

/// Those from a place on.
pub(crate) fn from(ats: &[At], first: usize) -> &[At]
    ensures { result.now ≡ drop first ats.now }
{
    if first < ats.len() {
        &ats[first..]
    } else {
        &[]
    }
}

/// Takes away those from a place on.
pub(crate) fn cut(ats: &mut Vec<At>, first: usize)
    ensures { ats.new.items ≡ take first ats.old.items }
{
    ats.truncate(first);
}

/// The access with this number.
pub(crate) fn rooted_at(accesses: &[Rooted], i: usize) -> Rooted
    requires { i < length accesses.now }
    ensures { slice_get accesses.now i ≡ Some result }
{
    accesses[i]
}

/// Where the path with this number leads, if there is one.
pub(crate) fn at_if(ats: &[At], k: usize) -> Option<&At>
    ensures { option_copied result ≡ slice_get ats.now k }
{
    ats.get(k)
}

/// The place with this number.
pub(crate) fn place_at(ats: &[At], i: usize) -> At
    requires { i < length ats.now }
    ensures { slice_get ats.now i ≡ Some result }
{
    ats[i]
}

/// Whether two places are there and are the same.
pub(crate) fn is_same(a: Option<At>, b: Option<At>) -> bool
    ensures { result ≡ true → a ≡ b }
{
    match (a, b) {
        (Some(a), Some(b)) => a == b,
        _ => false,
    }
}

/// Whether so many stand from a place on.
pub(crate) fn stand(ats: &[At], first: usize, count: usize) -> bool
    ensures { result ≡ true → first + count ≤ length ats.now }
{
    first <= ats.len() && count <= ats.len() - first
}

/// So many of the first.
fn front(ats: &[At], count: usize) -> &[At]
    requires { count ≤ length ats.now }
    ensures { result.now ≡ take count ats.now }
{
    &ats[..count]
}

/// So many from a place on.
pub(crate) fn window(ats: &[At], first: usize, count: usize) -> &[At]
    requires { first + count ≤ length ats.now }
    ensures places { result.now ≡ take count (drop first ats.now) }
    ensures count { length result.now ≡ count }
{
    front(from(ats, first), count)
}
