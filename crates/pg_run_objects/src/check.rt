//! What a request traps for.

ghost use Rattle.std.specs.Prelude.{◌≡◌, ◌≤◌, ◌==◌, ◌||◌, not};
ghost use Rattle.pg_run_objects.specs.Objects.{has_arrived, is_barrier, is_free, is_held_by, is_missing, may_be_barrier, may_be_condition, may_be_mutex, object_at};
ghost use Rattle.pg_run_objects.specs.Sync.{Sync, check, check_barrier, check_one, check_two, has_waiters, missing_of, ready, may_go, room_for, unless};

use crate::kinds::{
    arrived, barrier, barrier_or_none, condition_or_none, free, held_by, mutex_or_none,
};
use crate::object::Object;
use crate::state::SyncState;
use crate::threads::{ended, released, signalled};
use pg_ir::pg_num::limits::{OBJECT_LIMIT, THREAD_LIMIT};
use pg_ir::{Request, ThreadNo, TrapName};

fn trap_unless(holds: bool, name: TrapName) -> Option<TrapName>
    ensures { result ≡ unless holds name }
{
    if holds { None } else { Some(name) }
}

impl SyncState {
    fn room(&self, count: usize) -> Option<TrapName>
        requires { count ≤ 2 }
        ensures { result ≡ room_for self.now count }
    {
        trap_unless(
            count == 0 || self.object_count() + count <= OBJECT_LIMIT as usize,
            TrapName::TooManyObjects,
        )
    }

    fn check_object(
        &self,
        kind: bool,
        object: Option<Object>,
        state: Option<TrapName>,
    ) -> Option<TrapName>
        ensures { result ≡ check_one self.now kind object state }
    {
        if !kind {
            return Some(TrapName::WrongObject);
        }
        match self.room(usize::from(object.is_none())) {
            Some(name) => Some(name),
            None => state,
        }
    }

    fn check_mutex(&self, place: u32) -> Option<TrapName>
        ensures { result ≡ check_one self.now (may_be_mutex (object_at place self.now.objects)) (object_at place self.now.objects) None }
    {
        let object = self.object(place);
        self.check_object(mutex_or_none(object), object, None)
    }

    fn check_free_mutex(&self, place: u32) -> Option<TrapName>
        ensures { let x = object_at place self.now.objects in result ≡ check_one self.now (may_be_mutex x) x (unless (is_free x) TrapName.BusyObject) }
    {
        let object = self.object(place);
        self.check_object(
            mutex_or_none(object),
            object,
            trap_unless(free(object), TrapName::BusyObject),
        )
    }

    fn check_held_mutex(&self, t: ThreadNo, place: u32) -> Option<TrapName>
        ensures { let x = object_at place self.now.objects in result ≡ check_one self.now (may_be_mutex x) x (unless (is_held_by t.0 x) TrapName.NotOwner) }
    {
        let object = self.object(place);
        self.check_object(
            mutex_or_none(object),
            object,
            trap_unless(held_by(object, t.0), TrapName::NotOwner),
        )
    }

    fn check_condition(&self, place: u32) -> Option<TrapName>
        ensures { let x = object_at place self.now.objects in result ≡ check_one self.now (may_be_condition x) x None }
    {
        let object = self.object(place);
        self.check_object(condition_or_none(object), object, None)
    }

    fn check_idle_condition(&self, place: u32) -> Option<TrapName>
        ensures { let x = object_at place self.now.objects in result ≡ check_one self.now (may_be_condition x) x (unless (not (has_waiters place self.now.waiters)) TrapName.BusyObject) }
    {
        let object = self.object(place);
        self.check_object(
            condition_or_none(object),
            object,
            trap_unless(!self.has_waiters(place), TrapName::BusyObject),
        )
    }

    /// How many of a condition and a mutex are missing.
    fn missing(&self, condition: u32, mutex: u32) -> usize
        ensures value { result ≡ missing_of self.now condition mutex }
        ensures few { result ≤ 2 }
    {
        let first = usize::from(self.object(condition).is_none());
        let second = usize::from(self.object(mutex).is_none() && condition != mutex);
        first + second
    }

    fn check_both(&self, condition: u32, mutex: u32, state: Option<TrapName>) -> Option<TrapName>
        ensures { result ≡ check_two self.now condition mutex state }
    {
        if !condition_or_none(self.object(condition)) || !mutex_or_none(self.object(mutex)) {
            return Some(TrapName::WrongObject);
        }
        match self.room(self.missing(condition, mutex)) {
            Some(name) => Some(name),
            None => state,
        }
    }

    fn check_wait(&self, t: ThreadNo, condition: u32, mutex: u32) -> Option<TrapName>
        ensures { result ≡ check_two self.now condition mutex (unless (is_held_by t.0 (object_at mutex self.now.objects)) TrapName.NotOwner) }
    {
        self.check_both(
            condition,
            mutex,
            trap_unless(held_by(self.object(mutex), t.0), TrapName::NotOwner),
        )
    }

    fn check_barrier_init(&self, place: u32, count: u32) -> Option<TrapName>
        ensures { let x = object_at place self.now.objects in result ≡ check_one self.now (may_be_barrier x) x (unless (count == 0 || not (has_arrived x)) TrapName.BusyObject) }
    {
        let object = self.object(place);
        self.check_object(
            barrier_or_none(object),
            object,
            trap_unless(count == 0 || !arrived(object), TrapName::BusyObject),
        )
    }

    fn check_idle_barrier(&self, place: u32) -> Option<TrapName>
        ensures { let x = object_at place self.now.objects in result ≡ check_barrier x (unless (not (has_arrived x)) TrapName.BusyObject) }
    {
        let object = self.object(place);
        if !barrier(object) {
            return Some(TrapName::WrongObject);
        }
        trap_unless(!arrived(object), TrapName::BusyObject)
    }

    /// The trap of the first check of a request that fails.
    #[tactic(auto, unfolding(crate::specs::Sync::check))]
    pub fn check(&self, t: ThreadNo, r: &Request) -> Option<TrapName>
        ensures { result ≡ check self.now t.0 r.now }
    {
        match *r {
            Request::Create { .. } => trap_unless(
                u32::from(self.thread_count()) < THREAD_LIMIT,
                TrapName::TooManyThreads,
            ),
            Request::Join { target, .. } => trap_unless(
                self.joinable(t, target),
                TrapName::BadJoin,
            ),
            Request::MutexInit { object } => self.check_free_mutex(object),
            Request::Lock { object } => self.check_mutex(object),
            Request::Trylock { object } => self.check_mutex(object),
            Request::Unlock { object } => self.check_held_mutex(t, object),
            Request::MutexDestroy { object } => self.check_free_mutex(object),
            Request::CondInit { object } => self.check_idle_condition(object),
            Request::Wait { condition, mutex } => self.check_wait(t, condition, mutex),
            Request::Wake { condition, mutex } => self.check_both(condition, mutex, None),
            Request::Signal { object } => self.check_condition(object),
            Request::Broadcast { object } => self.check_condition(object),
            Request::CondDestroy { object } => self.check_idle_condition(object),
            Request::BarrierInit { object, count } => self.check_barrier_init(object, count),
            Request::Arrive { object } => trap_unless(
                barrier(self.object(object)),
                TrapName::WrongObject,
            ),
            Request::Leave { object } => trap_unless(
                barrier_or_none(self.object(object)),
                TrapName::WrongObject,
            ),
            Request::BarrierDestroy { object } => self.check_idle_barrier(object),
            Request::Start | Request::Exit { .. } | Request::Out { .. } | Request::Putchar { .. } =>
                None,
        }
    }

    /// Whether what a request waits for has come, if its checks hold.
    pub(crate) fn may_go(&self, t: ThreadNo, r: &Request) -> bool
        ensures { result ≡ may_go self.now t.0 r.now }
    {
        match *r {
            Request::Join { target, .. } => ended(self.stage(target)),
            Request::Lock { object } => free(self.object(object)),
            Request::Wake { mutex, .. } => signalled(self.stage(u64::from(t.0)))
                && free(self.object(mutex)),
            Request::Leave { .. } => released(self.stage(u64::from(t.0))),
            _ => true,
        }
    }

    /// Whether a thread's request can be done now, or traps: a lock waits until its mutex is free, a
    /// wake until its thread was signalled and its mutex is free, a leave until its thread was
    /// released, and a join until its thread has ended (POSIX.1-2017).
    #[tactic(auto, unfolding(crate::specs::Sync::ready))]
    pub fn ready(&self, t: ThreadNo, r: &Request) -> bool
        ensures { result ≡ ready self.now t.0 r.now }
    {
        self.check(t, r).is_some() || self.may_go(t, r)
    }
}
