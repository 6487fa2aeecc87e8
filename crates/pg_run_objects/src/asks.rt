//! Whether a request may be asked.

ghost use Rattle.std.specs.Prelude.{◌≡◌};
ghost use Rattle.pg_run_objects.specs.Stages.{is_leave, is_second_part, is_start, is_wake, may_ask};
ghost use Rattle.pg_run_objects.specs.Sync.{stage_of};

use crate::state::SyncState;
use crate::status::Stage;
use pg_ir::{Request, ThreadNo};

fn start(r: &Request) -> bool
    ensures { result ≡ is_start r.now }
{
    match *r {
        Request::Start => true,
        _ => false,
    }
}

fn wake(r: &Request) -> bool
    ensures { result ≡ is_wake r.now }
{
    match *r {
        Request::Wake { .. } => true,
        _ => false,
    }
}

fn leave(r: &Request) -> bool
    ensures { result ≡ is_leave r.now }
{
    match *r {
        Request::Leave { .. } => true,
        _ => false,
    }
}

fn second_part(r: &Request) -> bool
    ensures { result ≡ is_second_part r.now }
{
    match *r {
        Request::Wake { .. } | Request::Leave { .. } => true,
        _ => false,
    }
}

impl SyncState {
    /// Whether a thread may ask this as its next request: its start before all else, a wake exactly
    /// after a wait, a leave exactly after an arrive, and nothing where it has ended or wasn't made.
    #[tactic(auto, unfolding(crate::specs::Stages::may_ask))]
    pub fn may_ask(&self, t: ThreadNo, r: &Request) -> bool
        ensures { result ≡ may_ask (stage_of self.now t.0) r.now }
    {
        match self.stage(u64::from(t.0)) {
            Stage::Made => start(r),
            Stage::Running => !(start(r) || second_part(r)),
            Stage::Waiting { .. } => wake(r),
            Stage::Arrived { .. } => leave(r),
            Stage::Ended => false,
        }
    }
}
