//! The state of a run.

ghost use Rattle.std.specs.Prelude.{◌≡◌, ◌<◌, ◌≤◌, ◌+◌, ◌*◌, ◌^◌, ◌++◌, ◌∷◌, [], length, slice_get, slice_set, slice_index, true, vec_capacity, IfOk};
ghost use Rattle.std.specs.Prelude.{OnErr, OnOk};
ghost use Rattle.std.specs.List.{All};
ghost use Rattle.pg_run_trace.specs.pg_num.declared.limits.TheConstants.{THREAD_LIMIT};
ghost use Rattle.pg_run_memory.specs.Memory.{read, written};
ghost use Rattle.pg_run_objects.specs.Stages.{may_ask};
ghost use Rattle.pg_run_objects.specs.Sync.{applied, check, named, over, stage_of};
ghost use Rattle.pg_run_objects.specs.Sync.{ready as sync_ready};
ghost use Rattle.pg_run_thread.specs.States.{IsOf};
ghost use Rattle.pg_run.specs.Readers.{depth_of, register_of};
ghost use Rattle.pg_run.specs.State.{exit_value_of, initial, next_of, instr_of};
ghost use Rattle.pg_run.specs.MachineStep.{is_ended, may_act, ready, operands_in, value_with, local_after, number_in};
ghost use Rattle.pg_run.specs.Machine.{HasRoom, IsMachine, MayGoOn};
ghost use Rattle.pg_run.specs.Went.{advance_in, locals_advanced};

use pg_run_memory::Memory;
use pg_run_objects::{Reply, SyncState, SyncTrap};
use pg_run_thread::{Action, Advance, Fiber};
use pg_run_trace::pg_ir::{InstrId, Program, Request, ThreadNo, TrapName};
use pg_run_trace::pg_num::limits::THREAD_LIMIT;
use pg_run_trace::pg_num::{Place, Width, to_signed, trunc};
use std::alloc::{AllocError, Global};
use std::marker::Model;

/// The state of a run: the threads, memory, the synchronisation objects, a word for each thread, what
/// was printed, and main's value.
#[derive(Drop)]
pub(crate) struct MachineState {
    fibers: Vec<Fiber>,
    memory: Memory,
    sync: SyncState,
    ended: bool,
    words: Vec<u64>,
    printed: Vec<u8>,
    value: u64,
}

impl Model for MachineState {
    ghost use Rattle.std.specs.Prelude.{◌≡◌, ◌≤◌, length, vec_capacity};
    ghost use Rattle.pg_run_trace.specs.pg_num.declared.limits.TheConstants.{THREAD_LIMIT};
    ghost use Rattle.pg_run_objects.specs.Sync.{over};
    ghost use Rattle.pg_run.specs.State.{State};

    ghost Value = { State };

    ghost view = { λ m. record { locals = m.fibers.items; memory = m.memory; sync = m.sync; words = m.words.items; printed = m.printed.items; value = m.value } };

    ghost invariant = { λ m. (m.ended ≡ over m.sync) × (length m.words.items ≡ length m.fibers.items) × (THREAD_LIMIT ≤ vec_capacity m.fibers) × (THREAD_LIMIT ≤ vec_capacity m.words) };
}

/// A list of one item, with room for one of each thread that a run may have.
fn one<T: Drop>(alloc: Global, item: T) -> Result<Vec<T>, AllocError>
    ensures items { IfOk result (λ v. v.items ≡ item ∷ []) }
    ensures room { IfOk result (λ v. THREAD_LIMIT ≤ vec_capacity v) }
{
    let mut items = Vec::with_capacity(alloc, THREAD_LIMIT as usize)?;
    items.push_reserved(item);
    Ok(items)
}

/// Whether a thread has no action left.
pub(crate) fn is_ended(action: &Action) -> bool
    ensures { result ≡ is_ended action.now }
{
    match action {
        Action::Ended => true,
        _ => false,
    }
}

impl MachineState {
    /// The value of a register of a thread's present call.
    pub(crate) fn register(&self, t: ThreadNo, r: u32) -> Option<u64>
        ensures { result ≡ register_of self.now t.0 r }
    {
        match self.fibers.get(t.0 as usize) {
            Some(fiber) => fiber.register(r),
            None => None,
        }
    }

    /// How many calls of a thread are open.
    pub(crate) fn depth(&self, t: ThreadNo) -> u32
        ensures { result ≡ depth_of self.now t.0 }
    {
        match self.fibers.get(t.0 as usize) {
            Some(fiber) => fiber.open_calls(),
            None => 0,
        }
    }

    /// The first state of a run.
    #[tactic(auto, using(crate::proofs::Steps::initial_is), unfolding(crate::specs::State::initial))]
    pub(crate) fn new(alloc: Global, p: &Program) -> Result<MachineState, AllocError>
        ensures state { IfOk result (λ m. m ≡ initial p.now) }
        ensures of { IfOk result (IsMachine p.now) }
    {
        p.facts();
        let sync = SyncState::new(alloc)?;
        Ok(MachineState {
            fibers: one(alloc, Fiber::new(alloc, p, ThreadNo(0), p.main())?)?,
            memory: Memory::new(alloc, p)?,
            ended: sync.is_over(),
            sync,
            words: one(alloc, 0)?,
            printed: Vec::new(alloc),
            value: 0,
        })
    }

    /// How many threads were made.
    pub(crate) fn count(&self) -> usize
        ensures { result ≡ length self.now.locals }
    {
        self.fibers.len()
    }

    /// How many threads the objects know.
    pub(crate) fn thread_count(&self) -> u8
        ensures { result ≡ length self.now.sync.threads }
    {
        self.sync.thread_count()
    }

    /// Whether the run is over.
    pub(crate) fn is_over(&self) -> bool
        ensures { result ≡ over self.now.sync }
    {
        self.ended
    }

    /// What a thread's next step is; ended, where it isn't made.
    #[tactic(auto, unfolding(crate::specs::State::next_of))]
    pub(crate) fn next(&self, p: &Program, t: ThreadNo) -> Action
        requires { All (IsOf p.now) self.now.locals }
        ensures { result ≡ next_of p.now self.now t.0 }
    {
        match self.fibers.get(t.0 as usize) {
            Some(fiber) => fiber.next(p),
            None => Action::Ended,
        }
    }

    /// The number of a thread's present instruction; 0, where it isn't made.
    #[tactic(auto, unfolding(crate::specs::State::instr_of))]
    pub(crate) fn id(&self, t: ThreadNo) -> InstrId
        ensures { result.0 ≡ instr_of self.now t.0 }
    {
        match self.fibers.get(t.0 as usize) {
            Some(fiber) => fiber.id(),
            None => InstrId(0),
        }
    }

    /// The values of the first four operands of a thread's present step.
    pub(crate) fn operands(&self, p: &Program, t: ThreadNo) -> [u64; 4]
        requires { All (IsOf p.now) self.now.locals }
        ensures { result ≡ operands_in p.now (slice_get self.now.locals t.0) }
    {
        match self.fibers.get(t.0 as usize) {
            Some(fiber) => fiber.operands(p),
            None => [0; 4],
        }
    }

    /// Whether the action of a thread can be done now, or traps.
    pub(crate) fn may_act(&self, t: ThreadNo, action: &Action) -> bool
        ensures { result ≡ may_act self.now t.0 action.now }
    {
        match action {
            Action::Ended => false,
            Action::Event(r) => self.sync.ready(t, r),
            _ => true,
        }
    }

    /// Whether a thread's next step, which is this action, can be taken: the run isn't over, the thread
    /// is made and hasn't ended, and the action is ready.
    #[tactic(auto, unfolding(crate::specs::MachineStep::ready))]
    pub(crate) fn can_take(&self, p: &Program, t: ThreadNo, action: &Action) -> bool
        requires { action.now ≡ next_of p.now self.now t.0 }
        ensures { result ≡ ready p.now self.now t.0 }
    {
        !self.is_over() && self.may_act(t, action)
    }

    /// Whether a thread's next step can be taken.
    pub(crate) fn ready(&self, p: &Program, t: ThreadNo) -> bool
        requires { All (IsOf p.now) self.now.locals }
        ensures { result ≡ ready p.now self.now t.0 }
    {
        self.can_take(p, t, &self.next(p, t))
    }

    /// The trap of the first check on the objects that a request fails.
    pub(crate) fn check(&self, t: ThreadNo, r: &Request) -> Option<TrapName>
        ensures { result ≡ check self.now.sync t.0 r.now }
    {
        self.sync.check(t, r)
    }

    /// Does what a request does with the objects.
    pub(crate) fn apply(&mut self, t: ThreadNo, r: &Request) -> Result<Reply, SyncTrap>
        requires asks { may_ask (stage_of self.old.sync t.0) r.now ≡ true }
        requires ready { sync_ready self.old.sync t.0 r.now ≡ true }
        requires threads { length self.old.sync.threads ≡ length self.old.locals }
        ensures applied { (self.new.sync, named result) ≡ applied self.old.sync t.0 r.now }
        ensures rest { self.new ≡ record self.old { sync = self.new.sync } }
        ensures room { IfOk result (λ _. HasRoom self.old r.now) }
    {
        let answer = self.sync.apply(t, r);
        self.ended = self.sync.is_over();
        answer
    }

    /// A thread's argument until it ends, then its exit value; 0, where it isn't made.
    pub(crate) fn word(&self, t: u64) -> u64
        ensures { result ≡ slice_index self.now.words t }
    {
        match self.words.get(t as usize) {
            Some(&word) => word,
            None => 0,
        }
    }

    /// A thread's step, with the answer to its action; gives the number that the instruction's own
    /// register got.
    #[tactic(auto, unfolding(crate::specs::State::next_of))]
    pub(crate) fn advance(&mut self, p: &Program, t: ThreadNo, answer: u64) -> u64
        requires { MayGoOn p.now self.old t.0 }
        ensures state { self.new ≡ record self.old { locals = local_after p.now self.old.locals t.0 answer (slice_get self.old.locals t.0) } }
        ensures number { result ≡ number_in p.now (slice_get self.old.locals t.0) answer }
    {
        let fiber = &mut self.fibers[t.0 as usize];
        fiber.resume(p, answer)
    }

    /// Does the next step of a thread if only its own state decides and sees it, and gives what is told of
    /// it; else nothing changes, and it gives what the step asks.
    // Most steps of a run are of this kind.
    #[inline(always)]
    pub(crate) fn advance_thread(&mut self, p: &Program, t: ThreadNo) -> Advance
        requires { All (IsOf p.now) self.old.locals }
        ensures state { self.new ≡ record self.old { locals = locals_advanced p.now self.old.locals t.0 (slice_get self.old.locals t.0) } }
        ensures answer { result ≡ advance_in p.now (slice_get self.old.locals t.0) }
    {
        if (t.0 as usize) < self.fibers.len() {
            let fiber = &mut self.fibers[t.0 as usize];
            fiber.advance(p)
        } else {
            Advance::Asks(Action::Ended)
        }
    }

    pub(crate) fn read(&self, at: Place) -> u64
        ensures { result ≡ read self.now.memory at }
    {
        self.memory.get(at)
    }

    pub(crate) fn write(&mut self, at: Place, number: u64)
        requires { number < 2 ^ (8 * at.bytes) }
        ensures { self.new ≡ record self.old { memory = written self.old.memory at number } }
    {
        self.memory.put(at, number);
    }

    /// Keeps a thread's exit value, which is main's value where the thread is main.
    pub(crate) fn keep_exit(&mut self, t: ThreadNo, value: u64)
        requires { t.0 < length self.old.words }
        ensures { self.new ≡ record self.old { words = slice_set self.old.words t.0 value; value = value_with t.0 value self.old.value } }
    {
        self.words[t.0 as usize] = value;
        if t.0 == 0 {
            self.value = value;
        }
    }

    pub(crate) fn print(&mut self, alloc: Global, text: &[u8]) -> Result<(), AllocError>
        ensures printed { OnOk result (self.new ≡ record self.old { printed = self.old.printed ++ text.now }) }
        ensures kept { OnErr result (self.new ≡ self.old) }
    {
        self.printed.extend_from_slice(text)
    }

    /// Adds a thread, which will begin with this argument. Takes no memory.
    pub(crate) fn add_thread(&mut self, fiber: Fiber, argument: u64)
        requires { length self.old.locals < THREAD_LIMIT }
        ensures { self.new ≡ record self.old { locals = self.old.locals ++ fiber ∷ []; words = self.old.words ++ argument ∷ [] } }
    {
        self.fibers.push_reserved(fiber);
        self.words.push_reserved(argument);
    }

    pub(crate) fn printed(&self) -> &[u8]
        ensures { result.now ≡ self.now.printed }
    {
        self.printed.as_slice()
    }

    /// The printed bytes.
    pub(crate) fn into_printed(self) -> Vec<u8>
        ensures { result.items ≡ self.printed }
    {
        self.printed
    }

    /// Main's value as an integer of 32 bits.
    pub(crate) fn exit_value(&self) -> i32
        ensures { result ≡ exit_value_of self.now }
    {
        to_signed(Width::W32, trunc(Width::W32, self.value)) as i32
    }
}
