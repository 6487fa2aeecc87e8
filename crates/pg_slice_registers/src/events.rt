//! What events leave in registers.

ghost use Rattle.std.specs.Prelude.{◌≡◌};
ghost use Rattle.pg_ir.specs.Program.{parameter_count};

use crate::given::printed;
use crate::thread::SymbolicRegisters;
use pg_ir::{Instr, Op, Program};
use pg_precondition::Nodes;
use pg_run_trace::{Event, TurnKind};
use pg_slice_values::{SymbolicNode, constant};
use std::alloc::AllocError;

/// How many parameters a function has, none where there is no such function.
#[tactic(auto, unfolding(pg_ir::specs::Program::parameter_count), using(crate::proofs::MissingFunctions::no_parameters))]
fn parameter_count(p: &Program, f: u32) -> u32
    ensures { result ≡ parameter_count p.now f }
{
    if f < p.function_count() {
        p.function(f).params
    } else {
        0
    }
}

impl SymbolicRegisters {
    ghost use Rattle.std.specs.Prelude.{◌≡◌, ℕ, Bool, length, OnOk, OnErr};
    ghost use Rattle.pg_num.specs.declared.width.Width.{Width};
    ghost use Rattle.pg_ir.specs.declared.instr.Op.TheVariants.{Load};
    ghost use Rattle.pg_ir.specs.declared.value.Value.{Value};
    ghost use Rattle.pg_ir.specs.Program.{NumberedProgram};
    ghost use Rattle.pg_precondition.specs.Nodes.{NodeList};
    ghost use Rattle.pg_run_trace.specs.declared.step.Access.{Access};
    ghost use Rattle.pg_slice_rules.specs.Moments.{Moment};
    ghost use Rattle.pg_slice_rules.specs.SymbolicValues.{Symbolic, always};
    ghost use Rattle.pg_slice_rules.specs.Known.{function_in, load_of, low_byte, operand_at, set_symbolic, started, with_top};
    ghost use Rattle.pg_slice_rules.specs.Known as along;
    ghost use Rattle.pg_slice_values.specs.SymbolicNodes.{Grew, IsSymbolicNode, symbolic_by};
    ghost use Rattle.pg_slice_registers.specs.SymbolicRegisterNodes.{AreCalls, calls_by};
    ghost use Rattle.pg_slice_registers.specs.Events.{HasOperands, IsLibraryCall};

    /// A start: the first parameter, if there is one, is the thread's argument.
    #[tactic(auto, using(crate::proofs::DefinedEvents::starts, crate::proofs::DefinedEvents::starts_not))]
    fn begin(&mut self, parameters: u32, argument: SymbolicNode)
        ensures value { (ns : NodeList) → calls_by ns self.new ≡ with_top (started parameters (symbolic_by ns argument)) (calls_by ns self.old) }
        ensures is { (n : ℕ) → AreCalls n self.old → IsSymbolicNode n argument → AreCalls n self.new }
    {
        if parameters != 0 {
            self.set(Some(0), argument);
        }
    }

    /// A print: its register gets the low byte of the number.
    fn print(&mut self, nodes: &mut Nodes, p: &Program, x: &Instr) -> Result<(), AllocError>
        requires call { IsLibraryCall x.now.op }
        requires symbolic_nodes { AreCalls (length nodes.old) self.old }
        ensures grew { Grew nodes.old nodes.new }
        ensures is { OnOk result (AreCalls (length nodes.new) self.new) }
        ensures same { OnErr result (self.new ≡ self.old) }
        ensures value { OnOk result (calls_by nodes.new self.new ≡ with_top (λ rs. set_symbolic x.now.result (low_byte (operand_at p.now rs x.now.op 0)) rs) (calls_by nodes.old self.old)) }
    {
        let s = printed(nodes, p, &x.op, self.registers())?;
        self.set(x.result, s);
        Ok(())
    }

    /// The answer of a call: its register gets the recorded number.
    fn answer(
        &mut self,
        nodes: &mut Nodes,
        target: Option<u32>,
        reply: u64,
    ) -> Result<(), AllocError>
        requires symbolic_nodes { AreCalls (length nodes.old) self.old }
        ensures grew { Grew nodes.old nodes.new }
        ensures is { OnOk result (AreCalls (length nodes.new) self.new) }
        ensures same { OnErr result (self.new ≡ self.old) }
        ensures value { OnOk result (calls_by nodes.new self.new ≡ with_top (set_symbolic target (always reply)) (calls_by nodes.old self.old)) }
    {
        let s = constant(nodes, reply)?;
        self.set(target, s);
        Ok(())
    }

    /// A live step that is an event, by the function of the present call and the thread's argument, which a start gives
    /// its first parameter.
    ///
    /// # Errors
    ///
    /// Where no memory is left. Nodes may have been added; the calls are as before.
    #[tactic(auto, using(pg_slice_values::proofs::GrowingNodes::grew_none))]
    pub fn after_event(
        &mut self,
        nodes: &mut Nodes,
        p: &Program,
        x: &Instr,
        e: Event,
        function: u32,
        argument: SymbolicNode,
    ) -> Result<(), AllocError>
        requires call { HasOperands e.kind x.now.op }
        requires argument { IsSymbolicNode (length nodes.old) argument }
        requires symbolic_nodes { AreCalls (length nodes.old) self.old }
        ensures grew { Grew nodes.old nodes.new }
        ensures is { OnOk result (AreCalls (length nodes.new) self.new) }
        ensures same { OnErr result (self.new ≡ self.old) }
        ensures value { (m : Moment) → function_in m.calls ≡ function
            → OnOk result (calls_by nodes.new self.new ≡ along.after_event p.now m e e.kind (symbolic_by nodes.old argument) x.now (calls_by nodes.old self.old)) }
    {
        match e.kind {
            TurnKind::Start => {
                self.begin(parameter_count(p, function), argument);
                Ok(())
            }
            TurnKind::Exit => {
                self.end();
                Ok(())
            }
            TurnKind::Wait => Ok(()),
            TurnKind::Arrive => Ok(()),
            TurnKind::Putchar => self.print(nodes, p, x),
            _ => self.answer(nodes, x.result, e.reply),
        }
    }

    /// A live load or store, by what a load gives.
    pub fn after_access(&mut self, x: &Instr, loaded: SymbolicNode)
        ensures value { (ns : NodeList) (p : NumberedProgram) (exact : Bool) (n : ℕ) (a : Access) (bytes : ℕ → Symbolic)
            → ((w : Width) (from : Value) → x.now.op ≡ Load w from → symbolic_by ns loaded ≡ load_of exact n w a bytes)
            → calls_by ns self.new ≡ with_top (along.after_access p exact n a bytes x.now x.now.op) (calls_by ns self.old) }
        ensures is { (n : ℕ) → AreCalls n self.old → IsSymbolicNode n loaded → AreCalls n self.new }
    {
        if let Op::Load { .. } = &x.op {
            self.set(x.result, loaded);
        }
    }
}
