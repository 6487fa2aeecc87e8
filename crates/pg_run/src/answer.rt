//! The answers to actions.

ghost use Rattle.std.specs.Prelude.{◌≡◌, ◌<◌, ◌≤◌, ◌+◌, ◌*◌, ◌^◌, ◌++◌, ◌∷◌, [], length, slice_get, slice_set, slice_index, string_bytes, IfOk, IfSome, OnErr};
ghost use Rattle.pg_run_trace.specs.pg_num.declared.limits.TheConstants.{THREAD_LIMIT};
ghost use Rattle.pg_run_trace.specs.pg_ir.declared.request.Request.TheVariants as requests;
ghost use Rattle.pg_run_memory.specs.Memory.{written};
ghost use Rattle.pg_run_objects.specs.Sync.{applied};
ghost use Rattle.pg_run.specs.Completed.{completed, on_completed};
ghost use Rattle.pg_run.specs.Fits.{JoinFits};
ghost use Rattle.pg_run.specs.Machine.{MayAsk, MayDo};
ghost use Rattle.pg_run.specs.MachineStep.{answer_of, answered, on_applied, written_if};
ghost use Rattle.pg_run.specs.Texts.{printed_by};
ghost use Rattle.pg_run_trace.specs.pg_num.Inputs.{input_at};

use crate::run::Run;
use crate::state::MachineState;
use pg_run_objects::Reply;
use pg_run_thread::{Action, Fiber};
use pg_run_trace::pg_ir::{Program, Request, ThreadNo, TrapName};
use pg_run_trace::pg_num::{Place, Width, from_signed, to_signed};
use std::alloc::{AllocError, Global};

/// The input's number at an index, as a word, and 0 outside of the input.
pub fn number_at(input: &[i64], index: i64) -> u64
    ensures { result ≡ input_at input.now index }
{
    if index < 0 {
        return 0;
    }
    match input.get(index as usize) {
        Some(&n) => from_signed(Width::W64, n),
        None => 0,
    }
}

/// The text of a number that is printed: in signed decimal, and a line feed where it ends its line.
fn number_text(alloc: Global, value: u64, ends_line: bool) -> Result<String, AllocError>
    ensures { IfOk result (λ text. string_bytes text ≡ printed_by (requests.Out value ends_line)) }
{
    let number = to_signed(Width::W64, value);
    if ends_line {
        format!(in alloc; "{number}\n")
    } else {
        format!(in alloc; "{number}")
    }
}

impl MachineState {
    /// Makes a thread, and writes its number to a place, or gives the trap of the create.
    // The thread is made before the objects know of it, so nothing is changed where no memory is left.
    fn create(
        &mut self,
        alloc: Global,
        p: &Program,
        t: ThreadNo,
        at: Place,
        function: u32,
        argument: u64,
    ) -> Result<Result<u64, TrapName>, AllocError>
        requires { MayAsk p.now self.old t.0 (requests.Create at function argument) }
        ensures answer { IfOk result (λ a. (self.new, a) ≡ on_applied p.now self.old t.0 (requests.Create at function argument) (applied self.old.sync t.0 (requests.Create at function argument))) }
        ensures kept { OnErr result (self.new ≡ self.old) }
    {
        let r = Request::Create {
            at,
            function,
            argument,
        };
        if let Some(name) = self.check(t, &r) {
            return Ok(Err(name));
        }
        let fiber = Fiber::new(alloc, p, ThreadNo(self.count() as u8), function)?;
        match self.apply(t, &r) {
            Err(trap) => Ok(Err(trap.0)),
            Ok(reply) => {
                self.begin(fiber, at, argument);
                Ok(Ok(reply.value))
            }
        }
    }

    /// Adds a thread that was made, and writes its number to a place.
    fn begin(&mut self, fiber: Fiber, at: Place, argument: u64)
        requires few { length self.old.locals < THREAD_LIMIT }
        requires place { at.bytes ≡ 8 }
        ensures { self.new ≡ record self.old { locals = self.old.locals ++ fiber ∷ []; memory = written self.old.memory at (length self.old.locals); words = self.old.words ++ argument ∷ [] } }
    {
        let n = self.count() as u64;
        self.add_thread(fiber, argument);
        self.write(at, n);
    }

    /// Writes the exit value of a thread to a place, if there is one.
    fn write_exit(&mut self, target: u64, at: Option<Place>)
        requires { IfSome at (λ r. r.bytes ≡ 8) }
        ensures { self.new ≡ record self.old { memory = written_if at (slice_index self.old.words target) self.old.memory } }
    {
        if let Some(place) = at {
            let word = self.word(target);
            self.write(place, word);
        }
    }

    /// Keeps the exit value of an exit, and writes that of a join.
    fn complete(&mut self, t: ThreadNo, r: &Request)
        requires made { t.0 < length self.old.words }
        requires fits { JoinFits r.now }
        ensures { self.new ≡ completed self.old t.0 r.now }
    {
        match *r {
            Request::Exit { value, .. } => self.keep_exit(t, value),
            Request::Join { target, at } => self.write_exit(target, at),
            _ => {}
        }
    }

    /// The number that answers a request: for a start the thread's argument, else the reply's.
    fn answer_to(&self, t: ThreadNo, reply: &Reply, r: &Request) -> u64
        ensures { result ≡ answer_of self.now t.0 reply.now r.now }
    {
        match r {
            Request::Start => self.word(t.0 as u64),
            _ => reply.value,
        }
    }

    /// Does a request that makes no thread, but for what it prints, and gives the number that answers it,
    /// or its trap.
    fn settle(&mut self, p: &Program, t: ThreadNo, r: &Request) -> Result<u64, TrapName>
        requires { MayAsk p.now self.old t.0 r.now }
        ensures { (self.new, result) ≡ on_completed self.old t.0 r.now (applied self.old.sync t.0 r.now) }
    {
        match self.apply(t, r) {
            Err(trap) => Err(trap.0),
            Ok(reply) => {
                let answer = self.answer_to(t, &reply, r);
                self.complete(t, r);
                Ok(answer)
            }
        }
    }

    /// Does a request, and gives the number that answers it, or its trap.
    fn event(
        &mut self,
        alloc: Global,
        p: &Program,
        t: ThreadNo,
        r: &Request,
    ) -> Result<Result<u64, TrapName>, AllocError>
        requires { MayAsk p.now self.old t.0 r.now }
        ensures answer { IfOk result (λ a. (self.new, a) ≡ on_applied p.now self.old t.0 r.now (applied self.old.sync t.0 r.now)) }
        ensures kept { OnErr result (self.new ≡ self.old) }
    {
        match *r {
            Request::Create {
                at,
                function,
                argument,
            } => self.create(alloc, p, t, at, function, argument),
            Request::Out { value, ends_line } => {
                let text = number_text(alloc, value, ends_line)?;
                self.print(alloc, text.as_bytes())?;
                Ok(self.settle(p, t, r))
            }
            Request::Putchar { value } => {
                self.print(alloc, &[(value % 256) as u8])?;
                Ok(self.settle(p, t, r))
            }
            _ => Ok(self.settle(p, t, r)),
        }
    }

    /// Does what an action does but for the thread's own state, and gives the number that answers it,
    /// or its trap.
    #[tactic(auto, unfolding(crate::specs::MachineStep::answered))]
    pub(crate) fn answer(
        &mut self,
        run: &Run,
        t: ThreadNo,
        action: &Action,
    ) -> Result<Result<u64, TrapName>, AllocError>
        requires { MayDo run.now.program.now self.old t.0 action.now }
        ensures answer { IfOk result (λ a. (self.new, a) ≡ answered run.now.program.now run.now.input.now self.old t.0 action.now) }
        ensures kept { OnErr result (self.new ≡ self.old) }
    {
        match action {
            Action::In(index) => Ok(Ok(number_at(run.input, *index))),
            Action::InLen => Ok(Ok(run.input.len() as u64)),
            Action::Load(at) => Ok(Ok(self.read(*at))),
            Action::Store(at, number) => {
                self.write(*at, *number);
                Ok(Ok(0))
            }
            Action::Event(r) => self.event(run.alloc, run.program, t, r),
            Action::Trap(name) => Ok(Err(*name)),
            _ => Ok(Ok(0)),
        }
    }
}
