//! Threads before they have a seat, so that all memory of a run can be taken before it begins.

ghost use Rattle.std.specs.Prelude.{◌≡◌, ◌<◌, [], IfOk};
ghost use Rattle.pg_seats.specs.pg_num.declared.limits.TheConstants.{THREAD_LIMIT};
ghost use Rattle.pg_seats.specs.Plan.{IsEnforced};
ghost use Rattle.pg_worker.specs.Standing.{IsAt, first_view, run_in, table_in};
ghost use Rattle.pg_worker.specs.Unseated.{IsUnseated};

use crate::pages::Pages;
use crate::shared::Shared;
use crate::starts::start_of;
use crate::turn_lists::turns_of;
use crate::worker::Worker;
use pg_seats::Place;
use pg_seats::pg_ir::{Program, ThreadNo};
use pg_seats::pg_num::limits::GUIDED_STEP_LIMIT;
use pg_seats::pg_run_thread::Fiber;
use pg_seats::pg_run_trace::Schedule;
use std::alloc::{AllocError, Global};

/// A thread before its first step, which has no seat yet: its own state, the numbers of its turns, room for the numbers that it
/// prints, and a mark for each page.
#[derive(Drop)]
pub struct Unseated {
    pub(crate) fiber: Fiber,
    pub(crate) thread: ThreadNo,
    pub(crate) turns: Vec<u64>,
    pub(crate) prints: Vec<u64>,
    pub(crate) pages: Pages,
}

impl Unseated {
    /// A thread of a program along a schedule.
    ///
    /// # Errors
    ///
    /// Where no memory is left.
    pub fn new(
        alloc: Global,
        p: &Program,
        s: &Schedule,
        thread: ThreadNo,
    ) -> Result<Unseated, AllocError>
        requires { thread.0 < THREAD_LIMIT }
        ensures { IfOk result (IsUnseated p.now s.now thread.0) }
    {
        let turns = turns_of(alloc, s.turns.as_slice(), thread)?;
        let prints = Vec::with_capacity(alloc, turns.len())?;
        let pages = Pages::new(alloc)?;
        let function = start_of(p, s.turns.as_slice(), thread);
        let fiber = Fiber::new(alloc, p, thread, function)?;
        Ok(Unseated {
            fiber,
            thread,
            turns,
            prints,
            pages,
        })
    }

    /// Its worker, with this seat. Takes no memory.
    pub fn seated(self, shared: &Shared<'_>, seat: Place) -> Worker
        requires enforced { IsEnforced (run_in shared.now) }
        requires thread { IsUnseated shared.now.program.now shared.now.schedule.now self.thread.0 self }
        requires own { seat.table_id ≡ table_in shared.now }
        requires view { seat.me ≡ (first_view (run_in shared.now) self.thread.0, []) }
        ensures at { IsAt (run_in shared.now) (table_in shared.now) 0 result }
        ensures first { (result.thread ≡ self.thread) × (result.done ≡ 0) }
    {
        // Read for the proof: see docs/CONTRIBUTING.md.
        let _shared = shared;
        let Unseated {
            fiber,
            thread,
            turns,
            prints,
            pages,
        } = self;
        Worker {
            seat,
            fiber,
            left: GUIDED_STEP_LIMIT,
            thread,
            turns,
            done: 0,
            prints,
            value: 0,
            pages,
        }
    }
}
