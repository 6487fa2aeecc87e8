//! The kinds and objects of requests.

ghost use Rattle.std.specs.Prelude.{◌≡◌};
ghost use Rattle.pg_run_trace.specs.Kinds.{kind_of, object_of};
ghost use Rattle.pg_run_trace.specs.Recording.{happening_of};

use crate::step::Happening;
use crate::turn::TurnKind;
use pg_ir::{Request, ThreadNo};

/// The kind of a request.
pub fn kind_of(r: &Request) -> TurnKind
    ensures { result ≡ kind_of r.now }
{
    match *r {
        Request::Start => TurnKind::Start,
        Request::Exit { .. } => TurnKind::Exit,
        Request::Create { .. } => TurnKind::Create,
        Request::Join { .. } => TurnKind::Join,
        Request::MutexInit { .. } => TurnKind::MutexInit,
        Request::Lock { .. } => TurnKind::Lock,
        Request::Trylock { .. } => TurnKind::Trylock,
        Request::Unlock { .. } => TurnKind::Unlock,
        Request::MutexDestroy { .. } => TurnKind::MutexDestroy,
        Request::CondInit { .. } => TurnKind::CondInit,
        Request::Wait { .. } => TurnKind::Wait,
        Request::Wake { .. } => TurnKind::Wake,
        Request::Signal { .. } => TurnKind::Signal,
        Request::Broadcast { .. } => TurnKind::Broadcast,
        Request::CondDestroy { .. } => TurnKind::CondDestroy,
        Request::BarrierInit { .. } => TurnKind::BarrierInit,
        Request::Arrive { .. } => TurnKind::Arrive,
        Request::Leave { .. } => TurnKind::Leave,
        Request::BarrierDestroy { .. } => TurnKind::BarrierDestroy,
        Request::Out { .. } => TurnKind::Out,
        Request::Putchar { .. } => TurnKind::Putchar,
    }
}

/// What a request of thread `t` names, where `made` threads are made so far: a thread by its number, a
/// mutex, condition variable or barrier by its byte place, a print by 0.
pub fn object_of(t: ThreadNo, made: u8, r: &Request) -> u64
    ensures { result ≡ object_of t.0 made r.now }
{
    match *r {
        Request::Start | Request::Exit { .. } => u64::from(t.0),
        Request::Create { .. } => u64::from(made),
        Request::Join { target, .. } => target,
        Request::MutexInit { object } => u64::from(object),
        Request::Lock { object } => u64::from(object),
        Request::Trylock { object } => u64::from(object),
        Request::Unlock { object } => u64::from(object),
        Request::MutexDestroy { object } => u64::from(object),
        Request::CondInit { object } => u64::from(object),
        Request::Wait { condition, .. } => u64::from(condition),
        Request::Wake { condition, .. } => u64::from(condition),
        Request::Signal { object } => u64::from(object),
        Request::Broadcast { object } => u64::from(object),
        Request::CondDestroy { object } => u64::from(object),
        Request::BarrierInit { object, .. } => u64::from(object),
        Request::Arrive { object } => u64::from(object),
        Request::Leave { object } => u64::from(object),
        Request::BarrierDestroy { object } => u64::from(object),
        Request::Out { .. } | Request::Putchar { .. } => 0,
    }
}

/// The event that a request of thread `t` is, where `made` threads are made so far.
pub fn happening_of(t: ThreadNo, made: u8, r: &Request) -> Happening
    ensures { result ≡ happening_of t.0 made r.now }
{
    Happening {
        kind: kind_of(r),
        object: object_of(t, made, r),
    }
}
