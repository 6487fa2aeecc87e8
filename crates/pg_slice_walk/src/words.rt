//! Words of threads that have to be known: a thread's word is its argument until it ends, and then its exit value. A start gives it
//! to a parameter, and a join writes it.

ghost use Rattle.std.specs.Prelude.{◌≡◌, ◌<◌, ◌≤◌, ◌⊎◌, ℕ, suc, Bool, true, false, Some, None, IfOk, IfNone, IfSome, OnOk, replicate, slice_get, slice_index_or};
ghost use Rattle.std.specs.List.{AllByRecursion};
ghost use Rattle.pg_ir.specs.declared.instr.Instr.{Instr as AnInstr};
ghost use Rattle.pg_ir.specs.Program.{NumberedProgram, parameter_count};
ghost use Rattle.pg_run_trace.specs.declared.step.Step.{Step as AStep};
ghost use Rattle.pg_run_trace.specs.declared.step.Event.{Event as AnEvent};
ghost use Rattle.pg_run_trace.specs.declared.step.Write.{Write as AWrite};
ghost use Rattle.pg_run_trace.specs.declared.turn.TurnKind.TheVariants.{Create as ACreate, Join as AJoin};
ghost use Rattle.pg_run_trace.specs.declared.step.StepKind.TheVariants as kinds;
ghost use Rattle.pg_slice_rules.specs.Closed.{AreWithin};
ghost use Rattle.pg_slice_rules.specs.Known.{Reference, SymbolicState, Taken};
ghost use Rattle.pg_slice_rules.specs.Moments.{Moment};
ghost use Rattle.pg_slice_back.specs.pg_slice_decisions.Steps.{AreOf, left_by, taken_by};
ghost use Rattle.pg_slice_back.specs.pg_law_demands.Along.{known_at};
ghost use Rattle.pg_slice_back.specs.pg_law_demands.Back.{back_exit, of_operand, of_optional, word_demand};
ghost use Rattle.pg_slice_back.specs.pg_law_demands.Cells.{IsMet};
ghost use Rattle.pg_slice_demands.specs.Asked.{asked_of};
ghost use Rattle.pg_slice_back.specs.pg_slice_replay.declared.run.ReferenceRun.{ReferenceRun as AReferenceRun};
ghost use Rattle.pg_slice_back.specs.pg_slice_replay.Kept.{step_count};
ghost use Rattle.pg_slice_back.specs.pg_slice_passes.Given.{EdgesStand};
ghost use Rattle.pg_slice_back.specs.declared.registers.Counts.{Counts as ACounts};
ghost use Rattle.pg_slice_back.specs.Leaves.{IsLess};
ghost use Rattle.pg_slice_back.specs.Met.{AreMet};
ghost use Rattle.pg_slice_back.specs.Steps.{IsCallOf, IsLiveStep};
ghost use Rattle.pg_slice_walk.specs.declared.words.AskedWord.{AskedWord as AnAskedWord};
ghost use Rattle.pg_slice_walk.specs.Words.{AreWordsMet, AsksArgument, IsWordMet, WritesAsked};

use pg_ir::{Op, Program, ThreadNo, Value};
use pg_run_trace::{Access, Event, Step, StepKind, TurnKind, Write};
use pg_slice_back::pg_slice_decisions::DecisionSet;
use pg_slice_back::pg_slice_passes::pg_slice_checks::is_start;
use pg_slice_back::{StepAt, back_live, call_of, is_exit, put_argument, put_optional};
use pg_slice_demands::{Call, Demanded};
use std::alloc::{AllocError, Global};

/// How many threads a step can name.
const THREADS: usize = 256;

/// The word of a thread that has to be known, whole or its bounds alone.
#[derive(Clone, Copy)]
pub(crate) struct AskedWord {
    pub(crate) thread: usize,
    pub(crate) whole: bool,
}

/// So many words of which nothing is asked.
fn unasked(alloc: Global, count: usize) -> Result<Vec<Option<bool>>, AllocError>
    ensures { IfOk result (λ v. v.items ≡ replicate count None) }
{
    vec![in alloc; None; count]
}

/// No word has to be known.
pub(crate) fn no_words(alloc: Global) -> Result<Vec<Option<bool>>, AllocError>
    ensures { IfOk result (λ v. (s : SymbolicState) → AreWordsMet s v.items) }
{
    // In two lines for the proof: see docs/CONTRIBUTING.md.
    let words = unasked(alloc, THREADS)?;
    Ok(words)
}

/// What is asked of the word of a thread.
fn word_at(words: &[Option<bool>], thread: usize) -> Option<bool>
    ensures { result ≡ slice_index_or words.now thread None }
{
    match words.get(thread) {
        Some(asked) => *asked,
        None => None,
    }
}

/// Says what is asked of the word of a thread, if there is one.
fn set_word(words: &mut Vec<Option<bool>>, thread: usize, whole: bool)
    ensures { (u : ℕ) (b : Bool) → slice_index_or words.new.items u None ≡ Some b → (slice_index_or words.old.items u None ≡ Some b) ⊎ ((u ≡ thread) × (whole ≡ b)) }
{
    if thread < words.len() {
        words[thread] = Some(whole);
    }
}

/// Whether a byte of a write has to be known.
fn is_asked(demanded: &Demanded, write: Write) -> bool
    ensures { result ≡ true → WritesAsked demanded.now write }
{
    let own = Access {
        pointer: write.pointer,
        number: write.number,
        bytes: 8,
        writes: true,
        event: true,
    };
    let from = own.start() as u64;
    let found = demanded.byte_in(from, from + 8);
    found.is_some()
}

/// The word that a join writes to bytes of which one has to be known, if it does so: the whole of it.
fn joined(demanded: &Demanded, event: &Event) -> Option<AskedWord>
    ensures { IfSome result (λ u. (x : AWrite) × (event.now.write ≡ Some x) × WritesAsked demanded.now x × (u.thread ≡ event.now.object) × (u.whole ≡ true)) }
{
    match event.write {
        Some(write) => {
            if is_asked(demanded, write) {
                Some(AskedWord {
                    thread: event.object as usize,
                    whole: true,
                })
            } else {
                None
            }
        }
        None => None,
    }
}

/// How many parameters a function has, none where there is no such function.
#[tactic(auto, unfolding(pg_ir::specs::Program::parameter_count), using(pg_slice_registers::proofs::MissingFunctions::no_parameters))]
fn parameter_count(program: &Program, f: u32) -> u32
    ensures { result ≡ parameter_count program.now f }
{
    if f < program.function_count() {
        program.function(f).params
    } else {
        0
    }
}

/// Nothing is asked any more of the parameter to which a start gives its thread's word; gives what was.
fn asked_argument(
    demanded: &mut Demanded,
    program: &Program,
    function: u32,
    at: Call,
    count: usize,
) -> Option<bool>
    ensures less { IsLess demanded.old demanded.new }
    ensures asked { IfSome result (λ w. AsksArgument program.now demanded.old function at count w) }
{
    if count == 0 || parameter_count(program, function) == 0 {
        return None;
    }
    demanded.take_register(at, 0)
}

/// The word that a start gives to a parameter that has to be known, whole or its bounds alone, if it does so: that of its own
/// thread. Nothing is asked of this any more then.
fn started(
    demanded: &mut Demanded,
    program: &Program,
    function: u32,
    at: Call,
    count: usize,
) -> Option<AskedWord>
    ensures less { IsLess demanded.old demanded.new }
    ensures asked { IfSome result (λ u. (u.thread ≡ at.thread.0) × AsksArgument program.now demanded.old function at count u.whole) }
{
    match asked_argument(demanded, program, function, at, count) {
        Some(whole) => Some(AskedWord {
            thread: at.thread.0 as usize,
            whole,
        }),
        None => None,
    }
}

/// Whether an event is a join.
fn is_join(kind: TurnKind) -> bool
    ensures { result ≡ true → kind ≡ AJoin }
{
    match kind {
        TurnKind::Join => true,
        _ => false,
    }
}

/// Whether an event makes a thread.
fn is_create(kind: TurnKind) -> bool
    ensures yes { result ≡ true → kind ≡ ACreate }
    ensures no { result ≡ false → kind ≡ ACreate → ⊥ }
{
    match kind {
        TurnKind::Create => true,
        _ => false,
    }
}

/// The event that a step is, other than a load or a store, if it is one.
fn event_in(step: &Step) -> Option<Event>
    ensures some { IfSome result (λ v. step.now.kind ≡ kinds.Event v) }
    ensures none { IfNone result ((v : AnEvent) → step.now.kind ≡ kinds.Event v → ⊥) }
{
    match &step.kind {
        StepKind::Event(e) => Some(*e),
        _ => None,
    }
}

/// The word of a thread that has to be known before an event, for what has to be known behind it, if there is one. Of a parameter that a
/// start gives nothing is asked any more.
fn asked_by(demanded: &mut Demanded, at: Call, s: &StepAt, event: &Event) -> Option<AskedWord>
    ensures less { IsLess demanded.old demanded.new }
    ensures asked { IfSome result (λ u. (R : Reference) (d : Taken) (x : AnInstr) (step : AStep) (counts : ACounts) (m : Moment)
        → IsLiveStep R d s.now.program.now s.now.reference.now x step counts s.now.number m → IsCallOf m at
        → step.kind ≡ kinds.Event event.now → counts.present ≡ s.now.counts.present → AreMet (known_at R d (suc s.now.number)) demanded.old
        → IsWordMet (known_at R d s.now.number) u) }
{
    if is_join(event.kind) {
        return joined(demanded, event);
    }
    if is_start(event.kind) {
        return started(
            demanded,
            s.program,
            s.reference.function(s.number),
            at,
            s.counts.present,
        );
    }
    None
}

/// The word of a thread that has to be known before a step, for what has to be known behind it, if there is one.
fn asked_word(demanded: &mut Demanded, at: Call, s: &StepAt) -> Option<AskedWord>
    ensures less { IsLess demanded.old demanded.new }
    ensures asked { IfSome result (λ u. (R : Reference) (d : Taken) (x : AnInstr) (counts : ACounts) (m : Moment)
        → IsLiveStep R d s.now.program.now s.now.reference.now x s.now.step.now counts s.now.number m → IsCallOf m at
        → counts.present ≡ s.now.counts.present → AreMet (known_at R d (suc s.now.number)) demanded.old → IsWordMet (known_at R d s.now.number) u) }
{
    match event_in(s.step) {
        Some(e) => asked_by(demanded, at, s, &e),
        None => None,
    }
}

/// The word of a thread doesn't have to be known any more; gives what was asked of it.
fn leave_word(words: &mut Vec<Option<bool>>, thread: usize) -> Option<bool>
    ensures was { result ≡ slice_index_or words.old.items thread None }
    ensures rest { (u : ℕ) (b : Bool) → slice_index_or words.new.items u None ≡ Some b → (slice_index_or words.old.items u None ≡ Some b) × (u ≡ thread → ⊥) }
{
    let was = word_at(words, thread);
    if was.is_some() && thread < words.len() {
        words[thread] = None;
    }
    was
}

/// The first of the values, if there is one.
fn first_of(values: &[Value]) -> Option<Value>
    ensures { result ≡ slice_get values.now 0 }
{
    values.get(0).copied()
}

/// What a thread's exit hands on, if it is an operand: main's `pthread_exit` hands on 0.
fn exit_operand(op: &Op, thread: ThreadNo) -> Option<Value>
    ensures { (s : SymbolicState) (k : ℕ) (w : Bool) → AllByRecursion (IsMet s) (back_exit thread.0 k w op.now).demands → AllByRecursion (IsMet s) (of_optional thread.0 k w result) }
{
    match op {
        Op::Ret { value } => *value,
        Op::CallLibrary { args, .. } => {
            if thread.0 == 0 {
                None
            } else {
                first_of(args.as_slice())
            }
        }
        _ => None,
    }
}

/// Back over an exit: where its thread's word has to be known, what it hands on has to be.
fn leave_exit(
    demanded: &mut Demanded,
    words: &mut Vec<Option<bool>>,
    at: Call,
    op: &Op,
) -> Result<(), AllocError>
    ensures rest { (u : ℕ) (b : Bool) → slice_index_or words.new.items u None ≡ Some b → (slice_index_or words.old.items u None ≡ Some b) × (u ≡ at.thread.0 → ⊥) }
    ensures met { OnOk result ((s : SymbolicState) → ((w : Bool) → slice_index_or words.old.items at.thread.0 None ≡ Some w
        → AllByRecursion (IsMet s) (back_exit at.thread.0 at.depth w op.now).demands)
        → AreMet s demanded.old → AreMet s demanded.new) }
{
    match leave_word(words, at.thread.0 as usize) {
        Some(whole) => put_optional(demanded, at, exit_operand(op, at.thread), whole),
        None => Ok(()),
    }
}

/// Back over a create, before which there are so many threads: where the word of the thread that it makes has to be known, the argument
/// has to be.
fn leave_created(
    demanded: &mut Demanded,
    words: &mut Vec<Option<bool>>,
    at: Call,
    op: &Op,
    threads: usize,
) -> Result<(), AllocError>
    ensures rest { (u : ℕ) (b : Bool) → slice_index_or words.new.items u None ≡ Some b → (slice_index_or words.old.items u None ≡ Some b) × (u ≡ threads → ⊥) }
    ensures met { OnOk result ((s : SymbolicState) → ((w : Bool) → slice_index_or words.old.items threads None ≡ Some w
        → AllByRecursion (IsMet s) (of_operand at.thread.0 at.depth w op.now 3))
        → AreMet s demanded.old → AreMet s demanded.new) }
{
    match leave_word(words, threads) {
        Some(whole) => put_argument(demanded, at, op, 3, whole),
        None => Ok(()),
    }
}

/// Back over an event, before which there are so many threads: a word that it sets needn't be known any more, and what it is set to has
/// to be.
fn leave_event(
    demanded: &mut Demanded,
    words: &mut Vec<Option<bool>>,
    at: Call,
    op: &Op,
    kind: TurnKind,
    threads: usize,
) -> Result<(), AllocError>
    ensures { OnOk result ((R : Reference) (e : Taken) (p : NumberedProgram) (r : AReferenceRun) (x : AnInstr) (step : AStep) (counts : ACounts) (v : AnEvent) (n : ℕ) (m : Moment)
        → IsLiveStep R e p r x step counts n m → IsCallOf m at → x.op ≡ op.now → step.kind ≡ kinds.Event v → v.kind ≡ kind → counts.threads ≡ threads
        → AreWordsMet (known_at R e (suc n)) words.old.items → AreMet (known_at R e n) demanded.old
        → AreMet (known_at R e n) demanded.new × AreWordsMet (known_at R e n) words.new.items) }
{
    if is_exit(kind) {
        leave_exit(demanded, words, at, op)?;
        return Ok(());
    }
    if is_create(kind) {
        leave_created(demanded, words, at, op, threads)?;
        return Ok(());
    }
    Ok(())
}

/// Back over a step, before which there are so many threads: a word that it sets needn't be known any more, and what it is set to has
/// to be.
fn leave_words(
    demanded: &mut Demanded,
    words: &mut Vec<Option<bool>>,
    at: Call,
    op: &Op,
    step: &Step,
    threads: usize,
) -> Result<(), AllocError>
    ensures { OnOk result ((R : Reference) (e : Taken) (p : NumberedProgram) (r : AReferenceRun) (x : AnInstr) (counts : ACounts) (n : ℕ) (m : Moment)
        → IsLiveStep R e p r x step.now counts n m → IsCallOf m at → x.op ≡ op.now → counts.threads ≡ threads
        → AreWordsMet (known_at R e (suc n)) words.old.items → AreMet (known_at R e n) demanded.old
        → AreMet (known_at R e n) demanded.new × AreWordsMet (known_at R e n) words.new.items) }
{
    match event_in(step) {
        Some(e) => leave_event(demanded, words, at, op, e.kind, threads),
        None => Ok(()),
    }
}

/// The word of a thread that there may be has to be known, whole or its bounds alone.
fn ask_word(words: &mut Vec<Option<bool>>, asked: Option<AskedWord>)
    ensures { (u : ℕ) (b : Bool) → slice_index_or words.new.items u None ≡ Some b
        → (slice_index_or words.old.items u None ≡ Some b) ⊎ ((a : AnAskedWord) × (asked ≡ Some a) × (u ≡ a.thread) × (a.whole ≡ b)) }
{
    if let Some(word) = asked {
        if word.whole || word_at(words, word.thread).is_none() {
            set_word(words, word.thread, word.whole);
        }
    }
}

/// Goes back over a live step: what has to be known behind it, words of threads too, makes what has to be known before it, and the
/// decisions that this needs are taken.
///
/// # Errors
///
/// Where no memory is left. Nothing is said of what has to be known then.
pub(crate) fn back_one(
    alloc: Global,
    demanded: &mut Demanded,
    words: &mut Vec<Option<bool>>,
    decisions: &mut DecisionSet,
    s: &StepAt,
) -> Result<(), AllocError>
    requires number { s.now.number < step_count s.now.reference.now }
    requires edges { EdgesStand s.now.program.now s.now.reference.now }
    requires size { (k : ℕ) × AreOf k decisions.old × (s.now.number < k) }
    ensures size { (k : ℕ) → AreOf k decisions.old → AreOf k decisions.new }
    ensures kept { AreWithin (taken_by decisions.old) (taken_by decisions.new) }
    ensures less { left_by decisions.new ≤ left_by decisions.old }
    ensures back { OnOk result ((R : Reference) (e : Taken) (m : Moment)
        → IsLiveStep R e s.now.program.now s.now.reference.now s.now.instr.now s.now.step.now s.now.counts s.now.number m
        → AreWithin (taken_by decisions.old) e
        → AreWordsMet (known_at R e (suc s.now.number)) words.old.items → AreMet (known_at R e (suc s.now.number)) demanded.old
        → AreMet (known_at R e s.now.number) demanded.new × AreWordsMet (known_at R e s.now.number) words.new.items × AreWithin (taken_by decisions.new) e) }
{
    let at = call_of(s.reference, s.step, s.number);
    let asked = asked_word(demanded, at, s);
    back_live(alloc, demanded, decisions, s)?;
    leave_words(demanded, words, at, &s.instr.op, s.step, s.counts.threads)?;
    ask_word(words, asked);
    Ok(())
}
