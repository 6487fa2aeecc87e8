//! The operations of synchronisation.

ghost use Rattle.std.specs.Prelude.{◌≡◌, IfErr, None, true};
ghost use Rattle.pg_run_objects.specs.Stages.{may_ask};
ghost use Rattle.pg_run_objects.specs.Sync.{applied, check, done, may_go, named, ready, stage_of};

use crate::reply::{Reply, SyncTrap, answer};
use crate::state::SyncState;
use pg_ir::{Request, ThreadNo};

impl SyncState {
    /// Does what a thread asks, if the checks hold and what it waits for has come.
    #[tactic(auto, unfolding(crate::specs::Sync::done, crate::specs::Sync::check), using(crate::proofs::CheckedRequests::room_one, crate::proofs::CheckedRequests::room_two, crate::proofs::CheckedRequests::asks_when_unsignalled, crate::proofs::CheckedRequests::wakes_when_signalled, crate::proofs::CheckedRequests::asks_when_made, crate::proofs::CheckedRequests::joined_when_made, crate::proofs::CheckedRequests::holds))]
    fn done(&mut self, t: ThreadNo, r: &Request) -> Reply
        requires asks { may_ask (stage_of self.old t.0) r.now ≡ true }
        requires checks { check self.old t.0 r.now ≡ None }
        requires goes { may_go self.old t.0 r.now ≡ true }
        ensures { (self.new, result) ≡ done self.old t.0 r.now }
    {
        match *r {
            Request::Start => self.start(t),
            Request::Exit { is_return, .. } => self.exit(t, is_return),
            Request::Create { .. } => self.create(),
            Request::Join { target, .. } => self.join(target),
            Request::MutexInit { object } => self.give_back(object),
            Request::Lock { object } => self.hold(t, object),
            Request::Trylock { object } => self.try_hold(t, object),
            Request::Unlock { object } => self.give_back(object),
            Request::MutexDestroy { object } => self.destroy(object),
            Request::CondInit { object } => self.make_condition(object),
            Request::Wait { condition, mutex } => self.wait(t, condition, mutex),
            Request::Wake { condition, mutex } => self.wake(t, condition, mutex),
            Request::Signal { object } => self.signal(object),
            Request::Broadcast { object } => self.broadcast(object),
            Request::CondDestroy { object } => self.destroy(object),
            Request::BarrierInit { object, count } => self.make_barrier(object, count),
            Request::Arrive { object } => self.arrive(t, object),
            Request::Leave { .. } => self.leave(t),
            Request::BarrierDestroy { object } => self.destroy(object),
            Request::Out { .. } => answer(0),
            Request::Putchar { value } => answer(value % 256),
        }
    }

    /// Does what a thread asks: the new state, and the number that the call returns (POSIX.1-2017).
    ///
    /// # Errors
    ///
    /// The trap of the first check that fails; the state is then as before.
    #[tactic(auto, unfolding(crate::specs::Sync::applied, crate::specs::Sync::ready))]
    pub fn apply(&mut self, t: ThreadNo, r: &Request) -> Result<Reply, SyncTrap>
        requires asks { may_ask (stage_of self.old t.0) r.now ≡ true }
        requires ready { ready self.old t.0 r.now ≡ true }
        ensures applied { (self.new, named result) ≡ applied self.old t.0 r.now }
        ensures unchanged { IfErr result (λ _. self.new ≡ self.old) }
    {
        match self.check(t, r) {
            Some(name) => Err(SyncTrap(name)),
            None => Ok(self.done(t, r)),
        }
    }
}
