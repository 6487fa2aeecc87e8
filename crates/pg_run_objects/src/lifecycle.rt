//! Creates, starts, exits and joins.

ghost use Rattle.std.specs.Prelude.{◌≡◌, ◌<◌, ◌==◌, ◌&&◌, ◌||◌, ◌++◌, ◌∷◌, [], Some, length, false, slice_get, slice_set};
ghost use Rattle.pg_ir.specs.pg_num.declared.limits.TheConstants.{THREAD_LIMIT};
ghost use Rattle.pg_run_objects.specs.Stages.{is_unsignalled};
ghost use Rattle.pg_run_objects.specs.Sync.{answer, at_stage, joined_in, made, stage_of};

use crate::reply::{Reply, answer};
use crate::state::SyncState;
use crate::status::Stage;
use pg_ir::ThreadNo;

impl SyncState {
    pub(crate) fn start(&mut self, t: ThreadNo) -> Reply
        requires { is_unsignalled (stage_of self.old t.0) ≡ false }
        ensures state { self.new ≡ record self.old { threads = at_stage t.0 Stage.Running self.old.threads } }
        ensures answer { result ≡ answer 0 }
    {
        self.come_to(t, Stage::Running);
        answer(0)
    }

    pub(crate) fn exit(&mut self, t: ThreadNo, is_return: bool) -> Reply
        requires { is_unsignalled (stage_of self.old t.0) ≡ false }
        ensures state { self.new ≡ record self.old { threads = at_stage t.0 Stage.Ended self.old.threads; returned = self.old.returned || (is_return && t.0 == 0) } }
        ensures answer { result ≡ answer 0 }
    {
        self.come_to(t, Stage::Ended);
        if is_return && t.0 == 0 {
            self.set_returned();
        }
        answer(0)
    }

    pub(crate) fn create(&mut self) -> Reply
        requires { length self.old.threads < THREAD_LIMIT }
        ensures state { self.new ≡ record self.old { threads = self.old.threads ++ made ∷ [] } }
        ensures answer { result ≡ answer 0 }
    {
        self.add_thread();
        answer(0)
    }

    pub(crate) fn join(&mut self, n: u64) -> Reply
        requires { n < length self.old.threads }
        ensures state { self.new ≡ record self.old { threads = slice_set self.old.threads n (joined_in (slice_get self.old.threads n)) } }
        ensures answer { result ≡ record { value = 0; exit_of = Some (record { 0 = n }) } }
    {
        let joined = self.mark_joined(n);
        Reply {
            value: 0,
            exit_of: Some(joined),
        }
    }
}
