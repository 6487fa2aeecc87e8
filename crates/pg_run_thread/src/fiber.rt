//! A thread by itself: its calls and their registers.

ghost use Rattle.std.specs.Prelude.{◌≡◌, ◌<◌, ◌≤◌, ◌+◌, ◌∷◌, ◌==◌, [], length, map, slice_get, IfOk, IfSome, Some, true, false};
ghost use Rattle.pg_ir.specs.pg_num.declared.layout.TheConstants.{THREAD_GRANULES};
ghost use Rattle.pg_ir.specs.pg_num.declared.limits.TheConstants.{CALL_DEPTH_LIMIT, FUNCTION_REGISTER_LIMIT, INSTRUCTION_LIMIT, THREAD_LIMIT, THREAD_REGISTER_LIMIT};
ghost use Rattle.pg_ir.specs.Edges.{phis_of, successors};
ghost use Rattle.pg_ir.specs.Program.{types_of, entry_of};
ghost use Rattle.std.specs.List.{AllByRecursion};
ghost use Rattle.pg_ir.specs.Operands.{CanEnter, CanRead};
ghost use Rattle.pg_run_thread.specs.EdgeStep.{have_values};
ghost use Rattle.pg_run_thread.specs.Operands.{operand};
ghost use Rattle.pg_ir.specs.WellFormed.{StartsAs};
ghost use Rattle.pg_run_thread.specs.LocalState.{fresh, own_memory, top_height};
ghost use Rattle.pg_run_thread.specs.Step.{total, entered, on_top, top_height_of, under_top, top_registers, top_function, stepped, moved, taken, begun_registers};
ghost use Rattle.pg_run_thread.specs.Needs.{CanCall};
ghost use Rattle.pg_run_thread.specs.Told.{id_of, place_in};
ghost use Rattle.pg_run_thread.specs.States.{IsOf};

use crate::edges::{set_register, take_edge};
use crate::head::Head;
use crate::present::Present;
use crate::room::{push_call, push_head, reserved};
use crate::thread_memory::ThreadMemory;
use pg_ir::pg_num::limits::{CALL_DEPTH_LIMIT, FUNCTION_REGISTER_LIMIT, THREAD_REGISTER_LIMIT};
use pg_ir::{BlockNo, Edge, InstrId, Program, ThreadNo, Value};
use std::alloc::{AllocError, Global};
use std::marker::Model;

/// A thread by itself: the present call, the calls that wait for it, and the registers of all.
#[derive(Drop)]
pub struct Fiber {
    thread: ThreadNo,
    begun: bool,
    halfway: bool,
    ended: bool,
    top: Head,
    base: u32,
    heap: u32,
    heads: Vec<Head>,
    registers: Vec<Option<u64>>,
    room: Vec<Option<u64>>,
}

impl Model for Fiber {
    ghost use Rattle.std.specs.Prelude.{vec_capacity};
    ghost use Rattle.pg_run_thread.specs.LocalState.{LocalState};
    ghost use Rattle.pg_run_thread.specs.Stack.{frames_of, IsStack};

    ghost Value = { LocalState };

    ghost view = { λ s. record { thread = s.thread.0; begun = s.begun; halfway = s.halfway; frames = frames_of s.ended s.top s.base s.heads.items s.registers.items; heap = s.heap } };

    ghost invariant = { λ s. IsStack s.base s.heads.items s.registers.items (vec_capacity s.heads) (vec_capacity s.registers) (vec_capacity s.room) };
}

/// How many registers a function has.
#[tactic(auto, unfolding(pg_ir::specs::Program::types_of))]
fn register_count(p: &Program, f: u32) -> usize
    requires { f < length p.now.functions }
    ensures { result ≡ length (types_of p.now f) }
{
    p.function(f).registers.as_slice().len()
}

/// The first instruction of a function.
#[tactic(auto, unfolding(pg_ir::specs::Program::entry_of, pg_ir::specs::Program::first_block_of, pg_ir::specs::Program::first_of))]
fn entry(p: &Program, f: u32) -> u32
    requires { f < length p.now.functions }
    ensures { result ≡ entry_of p.now f }
{
    p.block(p.function(f).first_block).first.0
}

impl Fiber {
    /// A thread that will begin with this function.
    #[tactic(auto, unfolding(crate::specs::LocalState::fresh, crate::specs::Stack::frames_of, pg_ir::specs::Program::types_of, pg_ir::specs::Program::entry_of, pg_ir::specs::Program::first_block_of, pg_ir::specs::Program::first_of))]
    fn with_room(alloc: Global, p: &Program, t: ThreadNo, f: u32) -> Result<Fiber, AllocError>
        requires { f < length p.now.functions }
        ensures { IfOk result (λ s. s ≡ fresh p.now t.0 f) }
    {
        p.facts();
        let function = p.function(f);
        let count = function.registers.as_slice().len();
        let place = p.block(function.first_block).first.0;
        Ok(Fiber {
            thread: t,
            begun: false,
            halfway: false,
            ended: false,
            top: Head {
                function: f,
                place,
                count: count as u32,
                height: 0,
            },
            base: 0,
            heap: 0,
            heads: Vec::with_capacity(alloc, CALL_DEPTH_LIMIT as usize)?,
            registers: reserved(alloc, count, THREAD_REGISTER_LIMIT as usize)?,
            room: reserved(alloc, 0, FUNCTION_REGISTER_LIMIT as usize)?,
        })
    }

    /// A thread that will begin with this function: main, or one from a pointer to a pointer.
    #[tactic(auto, using(crate::proofs::StepsKeepStates::fresh_of, pg_ir::proofs::FunctionPlaces::starts_within))]
    pub fn new(alloc: Global, p: &Program, t: ThreadNo, f: u32) -> Result<Fiber, AllocError>
        requires thread { t.0 < THREAD_LIMIT }
        requires function { StartsAs p.now f }
        ensures state { IfOk result (λ s. s ≡ fresh p.now t.0 f) }
        ensures of { IfOk result (IsOf p.now) }
    {
        p.facts();
        Fiber::with_room(alloc, p, t, f)
    }

    #[tactic(auto, unfolding(crate::specs::Stack::frames_of))]
    pub(crate) fn is_ended(&self) -> bool
        ensures { result ≡ (length self.now.frames == 0) }
    {
        self.ended
    }

    /// Whether it has begun: the step that makes it begin was done.
    pub fn has_begun(&self) -> bool
        ensures begun { result ≡ self.now.begun }
    {
        self.begun
    }

    /// The number of the present instruction, for a start that of the function's first; 0 where the
    /// thread has ended.
    #[tactic(auto, unfolding(crate::specs::Stack::frames_of, crate::specs::Told::id_of))]
    pub fn id(&self) -> InstrId
        ensures id { result.0 ≡ id_of self.now }
    {
        if self.ended {
            InstrId(0)
        } else {
            InstrId(self.top.place)
        }
    }

    /// The registers of the present frame.
    #[tactic(auto, unfolding(crate::specs::Stack::frames_of))]
    pub(crate) fn top(&self) -> &[Option<u64>]
        requires { 0 < length self.now.frames }
        ensures { result.now ≡ top_registers self.now.frames }
    {
        // Read for the proof: see docs/CONTRIBUTING.md.
        let _ended = self.ended;
        &self.registers[self.base as usize..]
    }

    /// The function of the present frame.
    #[tactic(auto, unfolding(crate::specs::Stack::frames_of))]
    pub(crate) fn function(&self) -> u32
        requires { 0 < length self.now.frames }
        ensures { result ≡ top_function self.now.frames }
    {
        // Read for the proof: see docs/CONTRIBUTING.md.
        let _ended = self.ended;
        self.top.function
    }

    /// How many frames there are.
    #[tactic(auto, using(crate::proofs::Stacks::depth_of))]
    pub(crate) fn depth(&self) -> u32
        requires { 0 < length self.now.frames }
        ensures depth { result ≡ length self.now.frames }
        ensures few { result ≤ CALL_DEPTH_LIMIT }
    {
        // Read for the proof: see docs/CONTRIBUTING.md.
        let _ended = self.ended;
        self.heads.len() as u32 + 1
    }

    /// How many registers the frames have together.
    #[tactic(auto, using(crate::proofs::Stacks::used_of))]
    pub(crate) fn used(&self) -> u32
        requires { 0 < length self.now.frames }
        ensures count { result ≡ total self.now.frames }
        ensures few { result ≤ THREAD_REGISTER_LIMIT }
    {
        // Read for the proof: see docs/CONTRIBUTING.md.
        let _ended = self.ended;
        self.registers.len() as u32
    }

    /// What the thread has taken of its memory.
    #[tactic(auto, unfolding(crate::specs::Stack::frames_of))]
    pub(crate) fn memory(&self) -> ThreadMemory
        requires { 0 < length self.now.frames }
        ensures { result ≡ own_memory self.now }
    {
        // Read for the proof: see docs/CONTRIBUTING.md.
        let _ended = self.ended;
        ThreadMemory {
            thread: self.thread.0,
            stack: self.top.height,
            heap: self.heap,
        }
    }

    pub(crate) fn is_halfway(&self) -> bool
        ensures { result ≡ self.now.halfway }
    {
        self.halfway
    }

    /// By what the next step is decided.
    pub(crate) fn present(&self) -> Present
        requires { 0 < length self.now.frames }
        ensures registers { result.registers.now ≡ top_registers self.now.frames }
        ensures memory { result.memory ≡ own_memory self.now }
        ensures halfway { result.halfway ≡ self.now.halfway }
        ensures depth { result.depth ≡ length self.now.frames }
        ensures used { result.used ≡ total self.now.frames }
        ensures few { result.used ≤ THREAD_REGISTER_LIMIT }
    {
        Present {
            registers: self.top(),
            memory: self.memory(),
            halfway: self.is_halfway(),
            depth: self.depth(),
            used: self.used(),
        }
    }

    /// Sets a register, if there is one, and goes on to the next instruction.
    #[tactic(auto, unfolding(crate::specs::Stack::frames_of))]
    pub(crate) fn put(&mut self, target: Option<u32>, n: u64)
        requires going { 0 < length self.old.frames }
        requires place { place_in self.old.frames < INSTRUCTION_LIMIT }
        requires target { IfSome target (λ r. r < length (top_registers self.old.frames)) }
        ensures { self.new ≡ record self.old { halfway = false; frames = on_top (λ f. stepped f target n) self.old.frames } }
    {
        // Read for the proof: see docs/CONTRIBUTING.md.
        let _ended = self.ended;
        set_register(&mut self.registers[self.base as usize..], target, Some(n));
        self.top.place += 1;
        self.halfway = false;
    }

    /// As `put`, and takes so many granules more of the stack.
    #[tactic(auto, unfolding(crate::specs::Stack::frames_of))]
    pub(crate) fn put_taking(&mut self, target: Option<u32>, n: u64, granules: u32)
        requires going { 0 < length self.old.frames }
        requires place { place_in self.old.frames < INSTRUCTION_LIMIT }
        requires target { IfSome target (λ r. r < length (top_registers self.old.frames)) }
        requires room { top_height self.old.frames + granules ≤ THREAD_GRANULES }
        ensures { self.new ≡ record self.old { halfway = false; frames = on_top (λ f. taken (stepped f target n) granules) self.old.frames } }
    {
        // Read for the proof: see docs/CONTRIBUTING.md.
        let _ended = self.ended;
        set_register(&mut self.registers[self.base as usize..], target, Some(n));
        self.top.place += 1;
        self.top.height += granules;
        self.halfway = false;
    }

    /// Says how many granules the heap has.
    pub(crate) fn set_heap(&mut self, granules: u32)
        ensures { self.new ≡ record self.old { heap = granules } }
    {
        self.heap = granules;
    }

    /// Stays at the instruction, whose first half is done.
    pub(crate) fn wait(&mut self)
        ensures { self.new ≡ record self.old { halfway = true } }
    {
        self.halfway = true;
    }

    /// Goes on to another block of the function, if each `phi` there has a value; else nothing changes.
    /// Says whether it goes on.
    #[tactic(auto, using(crate::proofs::EdgeValues::along_values, crate::proofs::EdgeValues::along_set, crate::proofs::EdgeValues::along_reads, crate::proofs::EdgeValues::along_few), unfolding(crate::specs::Stack::frames_of, crate::specs::EdgeStep::over_edge))]
    pub(crate) fn go(&mut self, p: &Program, from: BlockNo, edge: Edge) -> bool
        requires going { 0 < length self.old.frames }
        requires from { from.0 < length p.now.blocks }
        requires target { slice_get (successors p.now from.0) edge.target ≡ Some edge.to.0 }
        requires enters { CanEnter p.now (length (top_registers self.old.frames)) edge.to.0 }
        ensures given { result ≡ have_values p.now (top_registers self.old.frames) from.0 (phis_of p.now edge.to.0) }
        ensures goes { result ≡ true → self.new ≡ record self.old { halfway = false; frames = on_top (λ f. moved p.now f from.0 edge.to.0) self.old.frames } }
        ensures stays { result ≡ false → self.new ≡ self.old }
    {
        // Read for the proof: see docs/CONTRIBUTING.md.
        let _ended = self.ended;
        let registers = &mut self.registers[self.base as usize..];
        let given = take_edge(p, registers, &mut self.room, from, edge);
        if given {
            self.top.place = p.body(edge.to).0;
            self.halfway = false;
        }
        given
    }

    /// Ends the thread.
    #[tactic(auto, unfolding(crate::specs::Stack::frames_of))]
    pub(crate) fn end(&mut self)
        ensures { self.new ≡ record self.old { halfway = false; frames = [] } }
    {
        self.ended = true;
        self.halfway = false;
    }

    /// Begins: the function's parameter, if it has one, gets the thread's argument.
    #[tactic(auto, unfolding(crate::specs::Stack::frames_of))]
    pub(crate) fn begin(&mut self, parameters: u32, argument: u64)
        requires going { 0 < length self.old.frames }
        requires room { parameters ≤ length (top_registers self.old.frames) }
        ensures { self.new ≡ record self.old { begun = true; frames = on_top (λ f. record f { registers = begun_registers parameters f.registers argument }) self.old.frames } }
    {
        // Read for the proof: see docs/CONTRIBUTING.md.
        let _ended = self.ended;
        self.begun = true;
        if parameters != 0 {
            set_register(
                &mut self.registers[self.base as usize..],
                Some(0),
                Some(argument),
            );
        }
    }

    /// Enters a function: the present frame waits from now on.
    pub(crate) fn enter(&mut self, p: &Program, g: u32, args: &[Value])
        requires going { 0 < length self.old.frames }
        requires operands { AllByRecursion (CanRead p.now (length (top_registers self.old.frames))) args.now }
        requires can { CanCall p.now self.old g args.now }
        ensures { self.new ≡ record self.old {
          halfway = false;
          frames = entered p.now g (top_height_of self.old.frames) (map (operand p.now (top_registers self.old.frames)) args.now) ∷ self.old.frames;
        } }
    {
        // Read for the proof: see docs/CONTRIBUTING.md.
        let _ended = self.ended;
        let used = self.registers.len() as u32;
        let count = register_count(p, g);
        let head = Head {
            count: used - self.base,
            ..self.top
        };
        push_head(&mut self.heads, head);
        push_call(p, &mut self.registers, self.base as usize, args, count);
        self.base = used;
        self.top = Head {
            function: g,
            place: entry(p, g),
            count: 0,
            height: self.top.height,
        };
        self.halfway = false;
    }

    /// Gives the present frame and its part of the stack back.
    pub(crate) fn drop_top(&mut self)
        requires { 2 ≤ length self.old.frames }
        ensures { self.new ≡ record self.old { frames = under_top self.old.frames } }
    {
        // Read for the proof: see docs/CONTRIBUTING.md.
        let _ended = self.ended;
        let Some(head) = self.heads.pop() else {
            return;
        };
        self.registers.truncate(self.base as usize);
        self.base -= head.count;
        self.top = head;
    }
}
