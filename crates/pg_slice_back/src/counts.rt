//! How many registers each call has, along a run and back.

ghost use Rattle.std.specs.Prelude.{◌≡◌, ◌<◌, ◌≤◌, ◌+◌, ◌-◌, ℕ, List, [], ◌∷◌, Some, IfOk, OnOk, length, slice_index_or, slice_set};
ghost use Rattle.pg_ir.specs.Program.{types_of};
ghost use Rattle.pg_slice_rules.specs.Known.{Reference, SymbolicState, after_step, registers_of, start_of, thread_of, top_of, under_top};
ghost use Rattle.pg_slice_rules.specs.Moments.{Moment, instr_in, thread_in};
ghost use Rattle.pg_law_least.specs.Keeps.{every};
ghost use Rattle.pg_slice_back.specs.Lens.{first_of, lens_by_kind, lens_made, lens_some, rest_of};
ghost use Rattle.pg_slice_back.specs.Stacks.{AreStacks, IsStack};

use pg_ir::{Instr, Op, Program};
use pg_run_trace::{Step, StepKind, TurnKind};
use pg_slice_passes::pg_slice_registers::register_count;
use std::alloc::{AllocError, Global};

/// A call: how many registers it has, and the number behind that of the call under it; 0 where there is none.
#[derive(Clone, Copy)]
pub(crate) struct Held {
    pub(crate) count: usize,
    pub(crate) under: usize,
}

/// How many registers the calls of the threads have: all calls so far, and of each thread the number behind that of the present
/// one; 0 where it has none.
#[derive(Drop)]
pub(crate) struct Calls {
    held: Vec<Held>,
    tops: Vec<usize>,
}

/// How many registers the call has before this number; 0 where there is none.
fn count_of(held: &[Held], h: usize) -> usize
    ensures { (ls : List ℕ) → IsStack held.now h ls → result ≡ first_of ls }
{
    if h == 0 {
        return 0;
    }
    match held.get(h - 1) {
        Some(call) => call.count,
        None => 0,
    }
}

/// The number behind that of the call under one.
fn under(held: &[Held], h: usize) -> usize
    ensures { (ls : List ℕ) → IsStack held.now h ls → IsStack held.now result (rest_of ls) }
{
    if h == 0 {
        return 0;
    }
    match held.get(h - 1) {
        Some(call) => call.under,
        None => 0,
    }
}

/// How many registers a call begins with, that is handed so many arguments.
fn entered(program: &Program, f: u32, arguments: usize) -> usize
    ensures { result ≡ arguments + (length (types_of program.now f) - arguments) }
{
    register_count(program, f).max(arguments)
}

/// The number behind that of a thread's present call.
fn top_at(tops: &[usize], thread: usize) -> usize
    ensures { result ≡ slice_index_or tops.now thread 0 }
{
    match tops.get(thread) {
        Some(top) => *top,
        None => 0,
    }
}

/// Sets the number behind that of a thread's present call, if there is such a thread.
fn set_top(tops: &mut Vec<usize>, thread: usize, top: usize)
    ensures { tops.new.items ≡ slice_set tops.old.items thread top }
{
    if thread < tops.len() {
        tops[thread] = top;
    }
}

impl Calls {
    /// The main thread's call before the first step.
    ///
    /// # Errors
    ///
    /// Where no memory is left.
    pub(crate) fn start(alloc: Global, program: &Program) -> Result<Calls, AllocError>
        ensures { IfOk result (λ c. AreStacks c (start_of program.now)) }
    {
        let mut held = Vec::new(alloc);
        held.push(Held {
            count: register_count(program, program.main()),
            under: 0,
        })?;
        let mut tops = Vec::new(alloc);
        tops.push(1)?;
        Ok(Calls { held, tops })
    }

    /// How many registers the present call of a thread has.
    pub(crate) fn count(&self, thread: usize) -> usize
        ensures { (s : SymbolicState) → AreStacks self.now s → result ≡ length (registers_of s thread) }
    {
        count_of(self.held.as_slice(), top_at(self.tops.as_slice(), thread))
    }

    /// How many registers the call under the present one of a thread has.
    pub(crate) fn under(&self, thread: usize) -> usize
        ensures { (s : SymbolicState) → AreStacks self.now s → result ≡ length (top_of (under_top (thread_of s thread).calls)) }
    {
        let top = under(self.held.as_slice(), top_at(self.tops.as_slice(), thread));
        count_of(self.held.as_slice(), top)
    }

    /// How many threads there are.
    pub(crate) fn threads(&self) -> usize
        ensures { (s : SymbolicState) → AreStacks self.now s → result ≡ length s.threads }
    {
        self.tops.len()
    }

    /// After a step. Each thread whose step it is has begun.
    ///
    /// # Errors
    ///
    /// Where no memory is left. Nothing is said of the calls then.
    pub(crate) fn pass(
        &mut self,
        program: &Program,
        instr: &Instr,
        step: &Step,
    ) -> Result<(), AllocError>
        ensures { OnOk result ((R : Reference) (n : ℕ) (m : Moment) (s : SymbolicState) → R.program ≡ program.now → instr_in R.program m ≡ Some instr.now → m.did.did ≡ step.now
            → thread_in m < length s.threads → AreStacks self.old s → AreStacks self.new (after_step R every n m s)) }
    {
        let thread = step.thread.0 as usize;
        let before = top_at(self.tops.as_slice(), thread);
        let top = top_after(&mut self.held, program, &instr.op, &step.kind, before)?;
        set_top(&mut self.tops, thread, top);
        push_made(&mut self.held, &mut self.tops, made(program, &step.kind))?;
        Ok(())
    }
}

/// One call more, over another; gives the number behind its own.
fn push(held: &mut Vec<Held>, count: usize, under: usize) -> Result<usize, AllocError>
    ensures stack { IfOk result (λ h. (ls : List ℕ) → IsStack held.old.items under ls → IsStack held.new.items h (count ∷ ls)) }
    ensures kept { OnOk result ((h : ℕ) (ls : List ℕ) → IsStack held.old.items h ls → IsStack held.new.items h ls) }
{
    held.push(Held { count, under })?;
    Ok(held.as_slice().len())
}

/// The number behind that of the present call of a step's thread after the step, by the one before it.
fn top_after(
    held: &mut Vec<Held>,
    program: &Program,
    op: &Op,
    kind: &StepKind,
    top: usize,
) -> Result<usize, AllocError>
    ensures stack { IfOk result (λ h. (ls : List ℕ) → IsStack held.old.items top ls → IsStack held.new.items h (lens_by_kind program.now op.now kind.now ls)) }
    ensures kept { OnOk result ((h : ℕ) (ls : List ℕ) → IsStack held.old.items h ls → IsStack held.new.items h ls) }
{
    match kind {
        StepKind::Access(_) => Ok(top),
        StepKind::Event(e) => match e.kind {
            TurnKind::Exit => Ok(0),
            _ => Ok(top),
        },
        _ => match op {
            Op::Call { function, args } => {
                push(
                    held,
                    entered(program, *function, args.as_slice().len()),
                    top,
                )
            }
            Op::Ret { .. } => Ok(under(held.as_slice(), top)),
            _ => Ok(top),
        },
    }
}

/// How many registers the call has of the thread that a step makes, if it makes one.
fn made(program: &Program, kind: &StepKind) -> Option<usize>
    ensures { lens_made program.now kind.now ≡ lens_some result }
{
    match kind {
        StepKind::Event(e) => match e.kind {
            TurnKind::Create => Some(created(program, e.operands[2])),
            _ => None,
        },
        _ => None,
    }
}

/// The call of a thread more, if there is one, with so many registers.
fn push_made(
    held: &mut Vec<Held>,
    tops: &mut Vec<usize>,
    made: Option<usize>,
) -> Result<(), AllocError>
    ensures many { OnOk result (length tops.new.items ≡ length tops.old.items + length (lens_some made)) }
    ensures made { OnOk result ((u : ℕ) → length tops.old.items ≤ u
        → IsStack held.new.items (slice_index_or tops.new.items u 0) (slice_index_or (lens_some made) (u - length tops.old.items) [])) }
    ensures others { OnOk result ((u : ℕ) → u < length tops.old.items → slice_index_or tops.new.items u 0 ≡ slice_index_or tops.old.items u 0) }
    ensures kept { OnOk result ((h : ℕ) (ls : List ℕ) → IsStack held.old.items h ls → IsStack held.new.items h ls) }
{
    match made {
        Some(count) => {
            let top = push(held, count, 0)?;
            tops.push(top)?;
            Ok(())
        }
        None => Ok(()),
    }
}

/// How many registers the function has with this number.
fn created(program: &Program, f: u64) -> usize
    ensures { result ≡ length (types_of program.now f) }
{
    if f < program.function_count() as u64 {
        register_count(program, f as u32)
    } else {
        0
    }
}
