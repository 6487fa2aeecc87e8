//! Condition variables.

ghost use Rattle.std.specs.Prelude.{◌≡◌, ◌<◌, None, length, true, false};
ghost use Rattle.pg_ir.specs.pg_num.declared.limits.TheConstants.{OBJECT_LIMIT};
ghost use Rattle.pg_run_objects.specs.Objects.{is_missing, object_at, put_object};
ghost use Rattle.pg_run_objects.specs.Stages.{is_unsignalled};
ghost use Rattle.pg_run_objects.specs.Sync.{answer, broadcast, missing_of, room_for, signal, stage_of, wait, wake};

use crate::object::Object;
use crate::reply::{Reply, answer};
use crate::state::SyncState;
use crate::status::Stage;
use pg_ir::ThreadNo;

impl SyncState {
    pub(crate) fn make_condition(&mut self, place: u32) -> Reply
        requires { is_missing (object_at place self.old.objects) ≡ true → length self.old.objects < OBJECT_LIMIT }
        ensures state { self.new ≡ record self.old { objects = put_object place Object.Condition self.old.objects } }
        ensures answer { result ≡ answer 0 }
    {
        self.put(place, Object::Condition);
        answer(0)
    }

    /// A condition and a mutex are in the table, the mutex as given.
    #[tactic(auto, using(crate::proofs::CheckedRequests::room_first, crate::proofs::CheckedRequests::room_second))]
    fn put_both(&mut self, condition: u32, mutex: u32, holder: Option<ThreadNo>)
        requires { room_for self.old (missing_of self.old condition mutex) ≡ None }
        ensures { self.new ≡ record self.old { objects = put_object mutex (Object.Mutex holder) (put_object condition Object.Condition self.old.objects) } }
    {
        self.put(condition, Object::Condition);
        self.put(mutex, Object::Mutex { holder });
    }

    /// The thread gives the mutex back, and waits after all that wait so far.
    pub(crate) fn wait(&mut self, t: ThreadNo, condition: u32, mutex: u32) -> Reply
        requires room { room_for self.old (missing_of self.old condition mutex) ≡ None }
        requires made { t.0 < length self.old.threads }
        requires waits { is_unsignalled (stage_of self.old t.0) ≡ false }
        ensures state { self.new ≡ wait self.old t.0 condition mutex }
        ensures answer { result ≡ answer 0 }
    {
        self.put_both(condition, mutex, None);
        self.begin_wait(t, condition);
        answer(0)
    }

    /// The thread was signalled, and holds the mutex again.
    pub(crate) fn wake(&mut self, t: ThreadNo, condition: u32, mutex: u32) -> Reply
        requires room { room_for self.old (missing_of self.old condition mutex) ≡ None }
        requires waits { is_unsignalled (stage_of self.old t.0) ≡ false }
        ensures state { self.new ≡ wake self.old t.0 condition mutex }
        ensures answer { result ≡ answer 0 }
    {
        self.put_both(condition, mutex, Some(t));
        self.come_to(t, Stage::Running);
        answer(0)
    }

    pub(crate) fn signal(&mut self, place: u32) -> Reply
        requires { is_missing (object_at place self.old.objects) ≡ true → length self.old.objects < OBJECT_LIMIT }
        ensures state { self.new ≡ signal (record self.old { objects = put_object place Object.Condition self.old.objects }) place }
        ensures answer { result ≡ answer 0 }
    {
        self.put(place, Object::Condition);
        self.signal_first(place);
        answer(0)
    }

    pub(crate) fn broadcast(&mut self, place: u32) -> Reply
        requires { is_missing (object_at place self.old.objects) ≡ true → length self.old.objects < OBJECT_LIMIT }
        ensures state { self.new ≡ broadcast (record self.old { objects = put_object place Object.Condition self.old.objects }) place }
        ensures answer { result ≡ answer 0 }
    {
        self.put(place, Object::Condition);
        self.signal_all(place);
        answer(0)
    }
}
