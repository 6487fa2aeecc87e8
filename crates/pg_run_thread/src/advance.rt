//! Steps that only the thread's own state decides: what they ask and what they leave at once.
//!
//! This is one of three matches over `Op`, beside those of `decide` and `steps`: docs/CONTRIBUTING.md says why there are three.

ghost use Rattle.std.specs.Prelude.{◌≡◌, ℕ, true, false, length};
ghost use Rattle.pg_ir.specs.Operands.{CanReadAll};
ghost use Rattle.pg_run_thread.specs.LocalState.{own_memory};
ghost use Rattle.pg_run_thread.specs.Compute.{computes};
ghost use Rattle.pg_run_thread.specs.Operands.{number_at, operands_of};
ghost use Rattle.pg_run_thread.specs.Step.{edge_action, instr_after, moved, next, on_top, op_action, top_registers, total};
ghost use Rattle.pg_run_thread.specs.Told.{op_own, or_zero};
ghost use Rattle.pg_run_thread.specs.Needs.{CanDo, IsBranch, IsNoBranch, IsPresent, block_taken};
ghost use Rattle.pg_run_thread.specs.States.{CanStep, IsOf};
ghost use Rattle.pg_run_thread.specs.Advance.{advanced, done_if, instr_done, op_local};

use crate::action::Action;
use crate::decide::action_of;
use crate::edges::edge_of;
use crate::fiber::Fiber;
use crate::operands::{argument_number, value_of};
use crate::optional::computed_if;
use pg_ir::{Instr, LibraryCall, Op, Program, Request, TrapName};

/// What is told of a step that only the thread's own state decides and sees.
#[derive(Clone, Copy, Debug, PartialEq, Eq)]
pub enum LocalStep {
    /// A step of another kind, of which nothing is told.
    Other,
    /// A conditional branch or a switch, by the number of its condition.
    Branch { condition: u64 },
    /// An `alloca` or a `malloc`: the number of its operand, 0 for an `alloca`, which has none, and the
    /// word of the pointer that its register got, 0 where it has no register.
    Allocation { operand: u64, result: u64 },
}

/// What became of a thread's next step.
#[derive(Clone, Copy, Debug, PartialEq, Eq)]
pub enum Advance {
    /// Only the thread's own state decides and sees it: it is done, and this is told of it.
    Done(LocalStep),
    /// It asks this, and nothing is done yet.
    Asks(Action),
}

/// The first operand that is told of an operation, which is a call's; 0 where none is told.
fn told_operand(p: &Program, registers: &[Option<u64>], op: &Op) -> u64
    requires operands { CanReadAll p.now (length registers.now) op.now }
    requires straight { IsNoBranch op.now }
    ensures { (n : ℕ) → op_local result n op.now ≡ op_local (number_at p.now registers.now (operands_of op.now) 0) n op.now }
{
    match op {
        Op::CallLibrary { args, .. } => argument_number(p, registers, args.as_slice(), 0),
        _ => 0,
    }
}

/// What is told of an operation that is no branch, by its first operand and by the number that its register
/// got.
fn told_of(op: &Op, operand: u64, number: u64) -> LocalStep
    requires { IsNoBranch op.now }
    ensures { result ≡ op_local operand number op.now }
{
    match op {
        Op::Alloca { .. } => LocalStep::Allocation {
            operand: 0,
            result: number,
        },
        Op::CallLibrary {
            function: LibraryCall::Malloc,
            ..
        } => LocalStep::Allocation {
            operand,
            result: number,
        },
        _ => LocalStep::Other,
    }
}

impl Fiber {
    /// Takes a branch, by the number of its condition.
    #[tactic(auto, using(crate::proofs::BranchTargets::taken_enters), unfolding(crate::specs::Step::edge_action))]
    fn branch(&mut self, p: &Program, instr: &Instr, n: u64, told: LocalStep) -> Advance
        requires present { IsPresent p.now self.old instr.now }
        requires branch { IsBranch instr.now.op }
        ensures { (self.new, result) ≡ done_if (edge_action p.now (top_registers self.old.frames) instr.now.block.0 (block_taken n instr.now.op)) self.old
            (record self.old { halfway = false; frames = on_top (λ f. moved p.now f instr.now.block.0 (block_taken n instr.now.op)) self.old.frames }) told }
    {
        if self.go(p, instr.block, edge_of(p, instr, n)) {
            Advance::Done(told)
        } else {
            Advance::Asks(Action::Trap(TrapName::Unset))
        }
    }

    /// Does an operation that only computes, or gives its trap.
    fn compute(&mut self, p: &Program, instr: &Instr) -> Advance
        requires present { IsPresent p.now self.old instr.now }
        requires computes { computes instr.now.op ≡ true }
        ensures { (self.new, result) ≡ instr_done p.now self.old instr.now }
    {
        match computed_if(p, self.top(), &instr.op) {
            Some(n) => {
                self.put(instr.result, n);
                Advance::Done(LocalStep::Other)
            }
            None => Advance::Asks(action_of(p, &self.present(), instr)),
        }
    }

    /// Does an operation of another kind, or tells what it asks.
    fn decide(&mut self, p: &Program, instr: &Instr) -> Advance
        requires present { IsPresent p.now self.old instr.now }
        requires straight { IsNoBranch instr.now.op }
        requires room { CanStep (op_action p.now (own_memory self.old) self.old.halfway (top_registers self.old.frames) (length self.old.frames)
            (total self.old.frames) instr.now.block.0 instr.now.op) → CanDo p.now self.old instr.now.op }
        ensures { (self.new, result) ≡ instr_done p.now self.old instr.now }
    {
        let action = action_of(p, &self.present(), instr);
        match action {
            Action::Local => {
                let operand = told_operand(p, self.top(), &instr.op);
                let number = self.act(p, instr, 0);
                Advance::Done(told_of(&instr.op, operand, number))
            }
            _ => Advance::Asks(action),
        }
    }

    /// Does the present instruction if only the thread's own state decides and sees it, or tells what it asks.
    fn advance_by(&mut self, p: &Program, instr: &Instr) -> Advance
        requires present { IsPresent p.now self.old instr.now }
        requires room { CanStep (op_action p.now (own_memory self.old) self.old.halfway (top_registers self.old.frames) (length self.old.frames)
            (total self.old.frames) instr.now.block.0 instr.now.op) → CanDo p.now self.old instr.now.op }
        ensures { (self.new, result) ≡ instr_done p.now self.old instr.now }
    {
        match &instr.op {
            Op::Br { .. } => self.branch(p, instr, 0, LocalStep::Other),
            Op::CondBr { cond: on, .. } | Op::Switch { on, .. } => {
                match value_of(p, self.top(), *on) {
                    Some(n) => self.branch(p, instr, n, LocalStep::Branch { condition: n }),
                    None => Advance::Asks(Action::Trap(TrapName::Unset)),
                }
            }
            Op::Phi { .. }
            | Op::Call { .. }
            | Op::Ret { .. }
            | Op::Unreachable
            | Op::Alloca { .. }
            | Op::Load { .. }
            | Op::Store { .. }
            | Op::CallLibrary { .. } => self.decide(p, instr),
            _ => self.compute(p, instr),
        }
    }

    /// Does the next step if only the thread's own state decides and sees it, with one look at the
    /// instruction, and gives what is told of it; else nothing changes, and it gives what the step asks, for
    /// which `resume` takes the answer.
    #[tactic(auto, using(crate::proofs::PresentInstructions::place_below, crate::proofs::PresentInstructions::is_present, crate::proofs::StepRooms::can_do), unfolding(crate::specs::Advance::advanced))]
    pub fn advance(&mut self, p: &Program) -> Advance
        requires { IsOf p.now self.old }
        ensures step { (self.new, result) ≡ advanced p.now self.old }
        ensures of { IsOf p.now self.new }
    {
        p.facts();
        if self.is_ended() {
            return Advance::Asks(Action::Ended);
        }
        if !self.has_begun() {
            return Advance::Asks(Action::Event(Request::Start));
        }
        let instr = p.instr(self.id());
        self.advance_by(p, instr)
    }
}
