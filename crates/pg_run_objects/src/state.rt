//! The state of synchronisation.

ghost use Rattle.std.specs.Prelude.{◌≡◌, ◌<◌, ◌≤◌, ◌++◌, ◌∷◌, [], true, false, find, is_some, length, map, slice_get, slice_set, IfOk};
ghost use Rattle.pg_ir.specs.pg_num.declared.limits.TheConstants.{OBJECT_LIMIT, THREAD_LIMIT};
ghost use Rattle.pg_run_objects.specs.Objects.{IsAscendingFrom, drop_object, is_missing, object_at, put_object};
ghost use Rattle.pg_run_objects.specs.Stages.{is_unsignalled};
ghost use Rattle.pg_run_objects.specs.Sync.{Sync, at_stage, broadcast, fresh, has_waiters, joined_in, made, may_join, over, release, signal, stage_of, waits_on};

use crate::object::Object;
use crate::status::{Stage, Status, Waiter};
use crate::table::ObjectTable;
use crate::threads::{
    each_ended, is_joinable, push_status, release_each, set_joined, set_stage, stage_at,
};
use crate::waiters::{any_waits, push_waiter, take_first};
use pg_ir::ThreadNo;
use pg_ir::pg_num::limits::THREAD_LIMIT;
use std::alloc::{AllocError, Global};
use std::marker::Model;

/// The objects, the threads and those that wait on a condition, with room for all.
#[derive(Drop)]
pub struct SyncState {
    objects: ObjectTable,
    threads: Vec<Status>,
    waiters: Vec<Waiter>,
    returned: bool,
}

impl Model for SyncState {
    ghost use Rattle.std.specs.Prelude.{vec_capacity};
    ghost use Rattle.pg_run_objects.specs.Stages.{FitsLimits};
    ghost use Rattle.pg_run_objects.specs.Sync.{Sync};

    ghost Value = { Sync };

    ghost view = { λ s. record { objects = s.objects; threads = s.threads.items; waiters = s.waiters.items; returned = s.returned } };

    ghost invariant = { λ s. FitsLimits s.threads.items s.waiters.items (vec_capacity s.threads) (vec_capacity s.waiters) };
}

const NEW: Status = Status {
    stage: Stage::Made,
    joined: false,
};

impl SyncState {
    /// The state of a run before its first step: thread 0 is made, and there are no objects.
    ///
    /// # Errors
    ///
    /// Where no memory is left for it.
    #[tactic(auto, unfolding(crate::specs::Sync::fresh, crate::specs::Stages::FitsLimits))]
    pub fn new(alloc: Global) -> Result<SyncState, AllocError>
        ensures { IfOk result (λ y. y ≡ fresh) }
    {
        let mut threads = Vec::with_capacity(alloc, THREAD_LIMIT as usize)?;
        push_status(&mut threads, NEW);
        Ok(SyncState {
            objects: ObjectTable::new(alloc)?,
            threads,
            waiters: Vec::with_capacity(alloc, THREAD_LIMIT as usize)?,
            returned: false,
        })
    }

    /// How many threads were made so far.
    #[tactic(auto, unfolding(crate::specs::Stages::FitsLimits))]
    pub fn thread_count(&self) -> u8
        ensures count { result ≡ length self.now.threads }
        ensures few { length self.now.threads ≤ THREAD_LIMIT }
    {
        self.threads.len() as u8
    }

    /// Whether the run is over: main has returned, or every thread has ended.
    #[tactic(auto, unfolding(crate::specs::Sync::over))]
    pub fn is_over(&self) -> bool
        ensures { result ≡ over self.now }
    {
        self.returned || each_ended(self.threads.as_slice())
    }

    /// What holds of each state.
    #[tactic(auto, unfolding(crate::specs::Stages::FitsLimits))]
    pub fn facts(&self)
        ensures ascending { IsAscendingFrom 0 self.now.objects }
        ensures objects { length self.now.objects ≤ OBJECT_LIMIT }
        ensures threads { length self.now.threads ≤ THREAD_LIMIT }
    {
        self.objects.facts();
        // Read for the proof: see docs/CONTRIBUTING.md.
        let _threads = &self.threads;
    }

    pub(crate) fn object(&self, place: u32) -> Option<Object>
        ensures { result ≡ object_at place self.now.objects }
    {
        self.objects.get(place)
    }

    pub(crate) fn object_count(&self) -> usize
        ensures count { result ≡ length self.now.objects }
        ensures few { result ≤ OBJECT_LIMIT }
    {
        self.objects.len()
    }

    /// The stage of a thread; ended, where there is none of this number.
    pub(crate) fn stage(&self, n: u64) -> Stage
        ensures { result ≡ stage_of self.now n }
    {
        stage_at(self.threads.as_slice(), n)
    }

    pub(crate) fn joinable(&self, t: ThreadNo, n: u64) -> bool
        ensures { result ≡ may_join t.0 n (slice_get self.now.threads n) }
    {
        is_joinable(self.threads.as_slice(), t.0, n)
    }

    pub(crate) fn has_waiters(&self, condition: u32) -> bool
        ensures { result ≡ has_waiters condition self.now.waiters }
    {
        any_waits(self.waiters.as_slice(), condition)
    }

    pub(crate) fn put(&mut self, place: u32, object: Object)
        requires room { is_missing (object_at place self.old.objects) ≡ true → length self.old.objects < OBJECT_LIMIT }
        ensures { self.new ≡ record self.old { objects = put_object place object self.old.objects } }
    {
        self.objects.put(place, object);
    }

    pub(crate) fn take(&mut self, place: u32)
        ensures { self.new ≡ record self.old { objects = drop_object place self.old.objects } }
    {
        self.objects.take(place);
    }

    /// A thread that doesn't wait for a signal comes to a stage.
    #[tactic(auto, using(crate::proofs::WaiterCounts::kept_at_stage, crate::proofs::WaiterCounts::kept_with_room))]
    pub(crate) fn come_to(&mut self, t: ThreadNo, stage: Stage)
        requires { is_unsignalled (stage_of self.old t.0) ≡ false }
        ensures { self.new ≡ record self.old { threads = at_stage t.0 stage self.old.threads } }
    {
        set_stage(&mut self.threads, t.0, stage);
    }

    /// A thread begins to wait, after all that wait so far.
    #[tactic(auto, using(crate::proofs::WaiterCounts::kept_by_wait, crate::proofs::WaiterCounts::kept_with_room, crate::proofs::WaiterCounts::room_of_waiter))]
    pub(crate) fn begin_wait(&mut self, t: ThreadNo, condition: u32)
        requires made { t.0 < length self.old.threads }
        requires waits { is_unsignalled (stage_of self.old t.0) ≡ false }
        ensures { self.new ≡ record self.old { threads = at_stage t.0 (Stage.Waiting false) self.old.threads; waiters = self.old.waiters ++ record { condition = condition; thread = t } ∷ [] } }
    {
        set_stage(&mut self.threads, t.0, Stage::Waiting { signalled: false });
        push_waiter(
            &mut self.waiters,
            Waiter {
                condition,
                thread: t,
            },
        );
    }

    /// The one that has waited longest on a condition is signalled, and leaves the waiters.
    #[tactic(auto, using(crate::proofs::WaiterCounts::kept_by_signal, crate::proofs::Waits::nobody_leaves, crate::proofs::WaiterCounts::kept_with_room))]
    pub(crate) fn signal_first(&mut self, condition: u32) -> bool
        ensures state { self.new ≡ signal self.old condition }
        ensures found { result ≡ is_some (find (waits_on condition) self.old.waiters) }
    {
        match take_first(&mut self.waiters, condition) {
            Some(w) => {
                set_stage(
                    &mut self.threads,
                    w.thread.0,
                    Stage::Waiting { signalled: true },
                );
                true
            }
            None => false,
        }
    }

    /// All that wait on a condition are signalled, and leave the waiters.
    #[tactic(auto, using(crate::proofs::Broadcasts::broadcast_on, crate::proofs::Broadcasts::broadcast_of_none, crate::proofs::Broadcasts::signal_of_none, crate::proofs::Broadcasts::fewer_wait))]
    pub(crate) fn signal_all(&mut self, condition: u32)
        ensures { self.new ≡ broadcast self.old condition }
    {
        while self.signal_first(condition) {}
    }

    #[tactic(auto, using(crate::proofs::WaiterCounts::kept_by_release, crate::proofs::WaiterCounts::kept_with_room))]
    pub(crate) fn release_all(&mut self, barrier: u32)
        ensures { self.new ≡ record self.old { threads = map (release barrier) self.old.threads } }
    {
        release_each(&mut self.threads, barrier);
    }

    /// Another thread has joined thread `n`, whose number it gives.
    #[tactic(auto, using(crate::proofs::WaiterCounts::kept_by_join, crate::proofs::WaiterCounts::kept_with_room))]
    pub(crate) fn mark_joined(&mut self, n: u64) -> ThreadNo
        requires { n < length self.old.threads }
        ensures state { self.new ≡ record self.old { threads = slice_set self.old.threads n (joined_in (slice_get self.old.threads n)) } }
        ensures number { result.0 ≡ n }
    {
        set_joined(&mut self.threads, n);
        ThreadNo(n as u8)
    }

    #[tactic(auto, using(crate::proofs::WaiterCounts::kept_by_create, crate::proofs::WaiterCounts::kept_with_room, crate::proofs::WaiterCounts::room_of_thread))]
    pub(crate) fn add_thread(&mut self)
        requires { length self.old.threads < THREAD_LIMIT }
        ensures { self.new ≡ record self.old { threads = self.old.threads ++ made ∷ [] } }
    {
        push_status(&mut self.threads, NEW);
    }

    pub(crate) fn set_returned(&mut self)
        ensures { self.new ≡ record self.old { returned = true } }
    {
        self.returned = true;
    }
}
