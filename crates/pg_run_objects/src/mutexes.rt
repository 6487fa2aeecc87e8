//! Mutexes.

ghost use Rattle.std.specs.Prelude.{◌≡◌, ◌<◌, length, true, if◌then◌else◌};
ghost use Rattle.pg_ir.specs.pg_num.declared.limits.TheConstants.{OBJECT_LIMIT};
ghost use Rattle.pg_run_objects.specs.Objects.{drop_object, is_free, is_missing, object_at};
ghost use Rattle.pg_run_objects.specs.declared.reply.Reply.{Reply};
ghost use Rattle.pg_run_objects.specs.Sync.{Sync, answer, give_back, hold};

use crate::errno::EBUSY;
use crate::kinds::free;
use crate::object::Object;
use crate::reply::{Reply, answer};
use crate::state::SyncState;
use pg_ir::ThreadNo;

impl SyncState {
    /// No thread holds the mutex from now on.
    pub(crate) fn give_back(&mut self, place: u32) -> Reply
        requires { is_missing (object_at place self.old.objects) ≡ true → length self.old.objects < OBJECT_LIMIT }
        ensures state { self.new ≡ record self.old { objects = give_back place self.old.objects } }
        ensures answer { result ≡ answer 0 }
    {
        self.put(place, Object::Mutex { holder: None });
        answer(0)
    }

    pub(crate) fn hold(&mut self, t: ThreadNo, place: u32) -> Reply
        requires { is_missing (object_at place self.old.objects) ≡ true → length self.old.objects < OBJECT_LIMIT }
        ensures state { self.new ≡ record self.old { objects = hold self.old t.0 place } }
        ensures answer { result ≡ answer 0 }
    {
        self.put(place, Object::Mutex { holder: Some(t) });
        answer(0)
    }

    pub(crate) fn try_hold(&mut self, t: ThreadNo, place: u32) -> Reply
        requires { is_missing (object_at place self.old.objects) ≡ true → length self.old.objects < OBJECT_LIMIT }
        ensures { ◌≡◌ {A = Sync × Reply} (self.new, result)
            (if is_free (object_at place self.old.objects) then (record self.old { objects = hold self.old t.0 place }, answer 0) else (self.old, answer EBUSY)) }
    {
        if !free(self.object(place)) {
            return answer(EBUSY);
        }
        self.hold(t, place)
    }

    /// The object leaves the table.
    pub(crate) fn destroy(&mut self, place: u32) -> Reply
        ensures state { self.new ≡ record self.old { objects = drop_object place self.old.objects } }
        ensures answer { result ≡ answer 0 }
    {
        self.take(place);
        answer(0)
    }
}
