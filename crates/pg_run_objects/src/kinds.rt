//! The kinds of objects at a place.

ghost use Rattle.std.specs.Prelude.{◌≡◌};
ghost use Rattle.pg_run_objects.specs.Objects.{has_arrived, is_barrier, is_free, is_held_by, may_be_barrier, may_be_condition, may_be_mutex};

use crate::object::Object;

/// A mutex, or nothing, which the first operation makes a mutex.
pub(crate) fn mutex_or_none(object: Option<Object>) -> bool
    ensures { result ≡ may_be_mutex object }
{
    match object {
        None | Some(Object::Mutex { .. }) => true,
        Some(_) => false,
    }
}

/// A condition variable, or nothing, which the first operation makes one.
pub(crate) fn condition_or_none(object: Option<Object>) -> bool
    ensures { result ≡ may_be_condition object }
{
    match object {
        None | Some(Object::Condition) => true,
        Some(_) => false,
    }
}

pub(crate) fn barrier_or_none(object: Option<Object>) -> bool
    ensures { result ≡ may_be_barrier object }
{
    match object {
        None | Some(Object::Barrier { .. }) => true,
        Some(_) => false,
    }
}

pub(crate) fn barrier(object: Option<Object>) -> bool
    ensures { result ≡ is_barrier object }
{
    match object {
        Some(Object::Barrier { .. }) => true,
        _ => false,
    }
}

/// No thread holds it.
pub(crate) fn free(object: Option<Object>) -> bool
    ensures { result ≡ is_free object }
{
    match object {
        Some(Object::Mutex { holder: Some(_) }) => false,
        _ => true,
    }
}

pub(crate) fn held_by(object: Option<Object>, t: u8) -> bool
    ensures { result ≡ is_held_by t object }
{
    match object {
        Some(Object::Mutex { holder: Some(u) }) => u.0 == t,
        _ => false,
    }
}

/// Threads have arrived at it in this round.
pub(crate) fn arrived(object: Option<Object>) -> bool
    ensures { result ≡ has_arrived object }
{
    match object {
        Some(Object::Barrier { arrived, .. }) => arrived > 0,
        _ => false,
    }
}
