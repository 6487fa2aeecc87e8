//! What a step leaves of a thread.
//!
//! This is one of three matches over `Op`, beside those of `decide` and `advance`: docs/CONTRIBUTING.md says why there are three.

ghost use Rattle.std.specs.Prelude.{◌≡◌, ◌<◌, ◌≤◌, ◌+◌, ◌∷◌, [], length, map, IfOk, IfSome, Some, true, false};
ghost use Rattle.std.specs.List.{AllByRecursion};
ghost use Rattle.pg_ir.specs.pg_num.declared.layout.TheConstants.{THREAD_GRANULES};
ghost use Rattle.pg_ir.specs.pg_num.declared.limits.TheConstants.{INSTRUCTION_LIMIT, THREAD_LIMIT};
ghost use Rattle.pg_ir.specs.declared.instr.Op.TheVariants.{Ret, CallLibrary};
ghost use Rattle.pg_ir.specs.Operands.{CanRead, CanReadReturned};
ghost use Rattle.pg_run_thread.specs.LocalState.{own_memory};
ghost use Rattle.pg_run_thread.specs.Operands.{number_at, operands_of};
ghost use Rattle.pg_run_thread.specs.Step.{on_top, under_top, top_registers, stepped, returned, result_number, library_after, library_halfway, library_heap, instr_after, next, after};
ghost use Rattle.pg_run_thread.specs.Told.{place_in, operand_values, number_given, or_zero, library_own, op_own};
ghost use Rattle.pg_run_thread.specs.Needs.{IsPresent, CallerFits, CanDo, CanTake};
ghost use Rattle.pg_run_thread.specs.States.{IsOf, CanStep};
ghost use Rattle.pg_ir.specs.Program.{parameter_count};

use crate::action::Action;
use crate::decide::action_of;
use crate::edges::edge_of;
use crate::fiber::Fiber;
use crate::library::library_number;
use crate::numbers::{own_number, plain_number, returned_number};
use crate::operands::{argument_number, number_of, operand_numbers};
use crate::thread_memory::{granules_for, heap_with, pushed};
use pg_ir::{Instr, LibraryCall, Op, Program, Request, Value};

impl Fiber {
    /// Goes back to the caller, whose register gets the number.
    #[tactic(auto, using(crate::proofs::ReturnTargets::caller_below), unfolding(crate::specs::Told::id_of))]
    fn leave(&mut self, p: &Program, n: u64)
        requires depth { 2 ≤ length self.old.frames }
        requires caller { CallerFits p.now (under_top self.old.frames) }
        ensures { self.new ≡ record self.old { halfway = false; frames = returned p.now (under_top self.old.frames) n } }
    {
        p.facts();
        self.drop_top();
        let target = p.instr(self.id()).result;
        self.put(target, n);
    }

    /// Returns from the present function; from the thread's first this ends the thread.
    #[tactic(auto, using(crate::proofs::ReturnTargets::alone))]
    fn finish(&mut self, p: &Program, value: Option<Value>)
        requires going { 0 < length self.old.frames }
        requires operand { CanReadReturned p.now (length (top_registers self.old.frames)) value }
        requires caller { CallerFits p.now (under_top self.old.frames) }
        ensures { self.new ≡ record self.old { halfway = false; frames = returned p.now (under_top self.old.frames) (number_at p.now (top_registers self.old.frames) (operands_of (Ret value)) 0) } }
    {
        let n = returned_number(p, self.top(), value);
        if self.depth() == 1 {
            self.end();
        } else {
            self.leave(p, n);
        }
    }

    /// As `put`, and gives the number that the register got.
    fn put_number(&mut self, target: Option<u32>, n: u64) -> u64
        requires going { 0 < length self.old.frames }
        requires place { place_in self.old.frames < INSTRUCTION_LIMIT }
        requires target { IfSome target (λ r. r < length (top_registers self.old.frames)) }
        ensures state { self.new ≡ record self.old { halfway = false; frames = on_top (λ f. stepped f target n) self.old.frames } }
        ensures number { result ≡ or_zero target n }
    {
        self.put(target, n);
        own_number(target, n)
    }

    /// Does a call of a known function.
    #[tactic(auto, using(crate::proofs::ReturnTargets::or_zero_zero))]
    fn act_known(
        &mut self,
        p: &Program,
        function: LibraryCall,
        args: &[Value],
        target: Option<u32>,
        reply: u64,
    ) -> u64
        requires going { 0 < length self.old.frames }
        requires place { place_in self.old.frames < INSTRUCTION_LIMIT }
        requires target { IfSome target (λ r. r < length (top_registers self.old.frames)) }
        requires thread { self.old.thread < THREAD_LIMIT }
        requires operands { AllByRecursion (CanRead p.now (length (top_registers self.old.frames))) args.now }
        ensures state { self.new ≡ record self.old {
          halfway = library_halfway self.old.halfway function;
          frames = library_after self.old.halfway function self.old.frames
              (on_top (λ f. stepped f target (result_number p.now (own_memory self.old) (top_registers self.old.frames) (CallLibrary function args.now) reply)) self.old.frames);
          heap =
              library_heap (own_memory self.old) function (number_at p.now (top_registers self.old.frames) args.now 0);
        } }
        ensures number { result ≡ or_zero target (library_own self.old.halfway function
            (result_number p.now (own_memory self.old) (top_registers self.old.frames) (CallLibrary function args.now) reply)) }
    {
        let size = argument_number(p, self.top(), args, 0);
        let memory = self.memory();
        let n = library_number(memory, function, size, reply);
        match function {
            LibraryCall::PthreadExit => {
                self.end();
                own_number(target, n)
            }
            LibraryCall::PthreadCondWait | LibraryCall::PthreadBarrierWait => {
                if self.is_halfway() {
                    self.put_number(target, n)
                } else {
                    self.wait();
                    0
                }
            }
            LibraryCall::Malloc => {
                self.set_heap(heap_with(memory, size));
                self.put_number(target, n)
            }
            _ => self.put_number(target, n),
        }
    }

    /// Does the present instruction, and gives the number that its own register got.
    #[tactic(auto, using(crate::proofs::ReturnTargets::or_zero_zero, crate::proofs::BranchTargets::taken_enters))]
    pub(crate) fn act(&mut self, p: &Program, instr: &Instr, reply: u64) -> u64
        requires present { IsPresent p.now self.old instr.now }
        requires room { CanDo p.now self.old instr.now.op }
        requires edge { CanTake p.now self.old instr.now.block.0 instr.now.op }
        ensures state { self.new ≡ instr_after p.now self.old reply (Some instr.now) }
        ensures number { result ≡ or_zero instr.now.result (op_own p.now self.old (top_registers self.old.frames) reply instr.now.op) }
    {
        match &instr.op {
            Op::Br { .. } => {
                self.go(p, instr.block, edge_of(p, instr, 0));
                0
            }
            Op::CondBr { cond, .. } => {
                let n = number_of(p, self.top(), *cond);
                self.go(p, instr.block, edge_of(p, instr, n));
                0
            }
            Op::Switch { on, .. } => {
                let n = number_of(p, self.top(), *on);
                self.go(p, instr.block, edge_of(p, instr, n));
                0
            }
            Op::Call { function, args } => {
                self.enter(p, *function, args.as_slice());
                0
            }
            Op::Ret { value } => {
                self.finish(p, *value);
                0
            }
            Op::Alloca { bytes } => {
                let n = pushed(self.memory(), *bytes);
                self.put_taking(instr.result, n, granules_for(*bytes) as u32);
                own_number(instr.result, n)
            }
            Op::CallLibrary { function, args } => self.act_known(
                p,
                *function,
                args.as_slice(),
                instr.result,
                reply,
            ),
            op => {
                let n = plain_number(p, self.top(), op, reply);
                self.put_number(instr.result, n)
            }
        }
    }

    /// What the next step is.
    #[tactic(auto, using(crate::proofs::NextActions::next_at, crate::proofs::PresentInstructions::place_below, crate::proofs::PresentInstructions::is_present), unfolding(crate::specs::Step::next))]
    pub fn next(&self, p: &Program) -> Action
        requires { IsOf p.now self.now }
        ensures action { result ≡ next p.now self.now }
    {
        p.facts();
        if self.is_ended() {
            return Action::Ended;
        }
        if !self.has_begun() {
            return Action::Event(Request::Start);
        }
        let instr = p.instr(self.id());
        action_of(p, &self.present(), instr)
    }

    /// The values of the first four operands of the present step in text order, 0 for one that is
    /// missing or was never set. A start has none.
    #[tactic(auto, using(crate::proofs::NextActions::operands_at, crate::proofs::PresentInstructions::place_below, crate::proofs::PresentInstructions::is_present), unfolding(crate::specs::Told::operand_values))]
    pub fn operands(&self, p: &Program) -> [u64; 4]
        requires { IsOf p.now self.now }
        ensures values { result ≡ operand_values p.now self.now }
    {
        p.facts();
        if self.is_ended() || !self.has_begun() {
            return [0; 4];
        }
        let instr = p.instr(self.id());
        operand_numbers(p, self.top(), &instr.op)
    }

    /// Does the first step.
    #[tactic(auto, using(crate::proofs::PresentInstructions::function_below, crate::proofs::PresentInstructions::parameters_fit, crate::proofs::StatesAfter::after_start))]
    fn start(&mut self, p: &Program, argument: u64)
        requires of { IsOf p.now self.old }
        requires going { 0 < length self.old.frames }
        requires not_begun { self.old.begun ≡ false }
        ensures { self.new ≡ after p.now self.old argument }
    {
        p.facts();
        let count = parameters(p, self.function());
        self.begin(count, argument);
    }

    /// Does the step with the answer to it, and gives the number that the instruction's own register
    /// got in it, 0 where it got none.
    #[tactic(auto, using(crate::proofs::NextActions::can_go, crate::proofs::PresentInstructions::place_below, crate::proofs::PresentInstructions::is_present, crate::proofs::StepRooms::can_do, crate::proofs::StepRooms::can_take, crate::proofs::StatesAfter::after_at, crate::proofs::StatesAfter::number_of, crate::proofs::StepsKeepStates::still_of), unfolding(crate::specs::Step::after, crate::specs::Told::number_given))]
    pub fn resume(&mut self, p: &Program, reply: u64) -> u64
        requires of { IsOf p.now self.old }
        requires can { CanStep (next p.now self.old) }
        ensures state { self.new ≡ after p.now self.old reply }
        ensures number { result ≡ number_given p.now self.old reply }
        ensures of { IsOf p.now self.new }
    {
        p.facts();
        if !self.has_begun() {
            self.start(p, reply);
            return 0;
        }
        let instr = p.instr(self.id());
        self.act(p, instr, reply)
    }
}

/// How many parameters a function has.
#[tactic(auto, unfolding(pg_ir::specs::Program::parameter_count))]
fn parameters(p: &Program, f: u32) -> u32
    requires { f < length p.now.functions }
    ensures { result ≡ parameter_count p.now f }
{
    p.function(f).params
}
