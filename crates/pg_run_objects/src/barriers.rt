//! Barriers.

ghost use Rattle.std.specs.Prelude.{◌≡◌, ◌+◌, ◌<◌, ◌==◌, length, map, true, false, Some, if◌then◌else◌};
ghost use Rattle.pg_ir.specs.pg_num.declared.limits.TheConstants.{OBJECT_LIMIT};
ghost use Rattle.pg_run_objects.specs.Objects.{is_missing, object_at, put_object};
ghost use Rattle.pg_run_objects.specs.Stages.{is_unsignalled};
ghost use Rattle.pg_run_objects.specs.declared.reply.Reply.{Reply};
ghost use Rattle.pg_run_objects.specs.Sync.{Sync, answer, arrive_at, at_stage, release, stage_of, was_last};

use crate::errno::{EINVAL, PTHREAD_BARRIER_SERIAL_THREAD};
use crate::object::Object;
use crate::reply::{Reply, answer};
use crate::state::SyncState;
use crate::status::Stage;
use crate::threads::came_last;
use pg_ir::ThreadNo;

impl SyncState {
    pub(crate) fn make_barrier(&mut self, place: u32, count: u32) -> Reply
        requires { is_missing (object_at place self.old.objects) ≡ true → length self.old.objects < OBJECT_LIMIT }
        ensures { ◌≡◌ {A = Sync × Reply} (self.new, result)
            (if count == 0 then (self.old, answer EINVAL) else (record self.old { objects = put_object place (Object.Barrier count 0) self.old.objects }, answer 0)) }
    {
        if count == 0 {
            return answer(EINVAL);
        }
        self.put(place, Object::Barrier { count, arrived: 0 });
        answer(0)
    }

    /// The thread is the last to arrive: all that have arrived are released, and the round begins again.
    #[tactic(auto, using(crate::proofs::CheckedRequests::released_in))]
    fn arrive_last(&mut self, t: ThreadNo, place: u32, count: u32)
        requires room { is_missing (object_at place self.old.objects) ≡ true → length self.old.objects < OBJECT_LIMIT }
        requires waits { is_unsignalled (stage_of self.old t.0) ≡ false }
        ensures { self.new ≡ record self.old {
          objects = put_object place (Object.Barrier count 0) self.old.objects;
          threads = at_stage t.0 (Stage.Arrived place true true) (map (release place) self.old.threads);
        } }
    {
        self.put(place, Object::Barrier { count, arrived: 0 });
        self.release_all(place);
        self.come_to(
            t,
            Stage::Arrived {
                barrier: place,
                released: true,
                last: true,
            },
        );
    }

    /// The thread arrives, and waits for others.
    fn arrive_early(&mut self, t: ThreadNo, place: u32, count: u32, arrived: u32)
        requires room { is_missing (object_at place self.old.objects) ≡ true → length self.old.objects < OBJECT_LIMIT }
        requires waits { is_unsignalled (stage_of self.old t.0) ≡ false }
        requires more { arrived < count }
        ensures { self.new ≡ record self.old {
          objects = put_object place (Object.Barrier count (arrived + 1)) self.old.objects;
          threads = at_stage t.0 (Stage.Arrived place false false) self.old.threads;
        } }
    {
        self.put(
            place,
            Object::Barrier {
                count,
                arrived: arrived + 1,
            },
        );
        self.come_to(
            t,
            Stage::Arrived {
                barrier: place,
                released: false,
                last: false,
            },
        );
    }

    pub(crate) fn arrive(&mut self, t: ThreadNo, place: u32) -> Reply
        requires { is_unsignalled (stage_of self.old t.0) ≡ false }
        ensures state { self.new ≡ arrive_at self.old t.0 place (object_at place self.old.objects) }
        ensures answer { result ≡ answer 0 }
    {
        if let Some(Object::Barrier { count, arrived }) = self.object(place) {
            if u64::from(arrived) + 1 < u64::from(count) {
                self.arrive_early(t, place, count, arrived);
            } else {
                self.arrive_last(t, place, count);
            }
        }
        answer(0)
    }

    /// The thread goes on after a barrier.
    pub(crate) fn leave(&mut self, t: ThreadNo) -> Reply
        requires { is_unsignalled (stage_of self.old t.0) ≡ false }
        ensures state { self.new ≡ record self.old { threads = at_stage t.0 Stage.Running self.old.threads } }
        ensures answer { result ≡ answer (if was_last (stage_of self.old t.0) then PTHREAD_BARRIER_SERIAL_THREAD else 0) }
    {
        let last = came_last(self.stage(u64::from(t.0)));
        self.come_to(t, Stage::Running);
        answer(if last {
            PTHREAD_BARRIER_SERIAL_THREAD
        } else {
            0
        })
    }
}
