//! What steps other than accesses and events leave.

use crate::given::given;
use crate::operands::optional;
use crate::step::OpStep;
use crate::thread::SymbolicRegisters;
use pg_ir::{Instr, Op, Program, Value};
use pg_precondition::Nodes;
use pg_slice_rules::Decision;
use pg_slice_values::SymbolicNode;
use std::alloc::{AllocError, Global};

impl SymbolicRegisters {
    ghost use Rattle.std.specs.Prelude.{◌≡◌, ◌<◌, ℕ, Option, IsTrue, length, IfSome, OnOk, OnErr};
    ghost use Rattle.std.specs.Option.{option_map};
    ghost use Rattle.pg_precondition.specs.Nodes.{NodeList};
    ghost use Rattle.pg_slice_rules.specs.Moments.{Moment};
    ghost use Rattle.pg_slice_rules.specs.Freeable.{FreeRegion};
    ghost use Rattle.pg_slice_rules.specs.Known.{optional_symbolic, set_symbolic, top_of, under_top, with_top};
    ghost use Rattle.pg_slice_rules.specs.Known as along;
    ghost use Rattle.pg_slice_values.specs.SymbolicNodes.{Grew, IsSymbolicNode, symbolic_by};
    ghost use Rattle.pg_slice_values.specs.Forms.{CastFits};
    ghost use Rattle.pg_slice_registers.specs.SymbolicRegisterNodes.{AreCalls, calls_by};
    ghost use Rattle.pg_slice_registers.specs.Steps.{IsStepAt, branched, given_symbolic, is_plain, is_straight, set_given};

    /// Gives a register of the present call what an instruction gives, if there is a register and something is given.
    #[tactic(auto, using(crate::proofs::DefinedSteps::nothing_given))]
    fn set_given(&mut self, target: Option<u32>, s: Option<SymbolicNode>)
        ensures value { (ns : NodeList) → calls_by ns self.new ≡ with_top (set_given target (option_map (symbolic_by ns) s)) (calls_by ns self.old) }
        ensures is { (n : ℕ) → AreCalls n self.old → IfSome s (IsSymbolicNode n) → AreCalls n self.new }
    {
        if let Some(s) = s {
            self.set(target, s);
        }
    }

    /// The step of an instruction that at most sets its register.
    fn straight(
        &mut self,
        alloc: Global,
        nodes: &mut Nodes,
        p: &Program,
        x: &Instr,
        word: u64,
    ) -> Result<(), AllocError>
        requires straight { IsTrue (is_straight x.now.op) }
        requires cast { CastFits x.now.op }
        requires symbolic_nodes { AreCalls (length nodes.old) self.old }
        ensures grew { Grew nodes.old nodes.new }
        ensures is { OnOk result (AreCalls (length nodes.new) self.new) }
        ensures same { OnErr result (self.new ≡ self.old) }
        ensures value { OnOk result (calls_by nodes.new self.new ≡ with_top (λ rs. set_given x.now.result (given_symbolic p.now word x.now.op rs) rs) (calls_by nodes.old self.old)) }
    {
        let s = given(alloc, nodes, p, &x.op, word, self.registers())?;
        self.set_given(x.result, s);
        Ok(())
    }

    /// The step of a conditional branch or a switch: where its region is an instance, the registers that it may set are
    /// forgotten.
    #[tactic(auto, using(pg_slice_values::proofs::GrowingNodes::grew_none))]
    fn branch(
        &mut self,
        alloc: Global,
        nodes: &mut Nodes,
        p: &Program,
        x: &Instr,
        step: OpStep,
        sets: &[bool],
    ) -> Result<(), AllocError>
        requires block { IfSome step.edge (λ b. b < length p.now.blocks) }
        requires symbolic_nodes { AreCalls (length nodes.old) self.old }
        ensures grew { Grew nodes.old nodes.new }
        ensures is { OnOk result (AreCalls (length nodes.new) self.new) }
        ensures same { OnErr result (self.new ≡ self.old) }
        ensures value { OnOk result (calls_by nodes.new self.new ≡ with_top (branched p.now step sets.now x.now.block.0) (calls_by nodes.old self.old)) }
    {
        if step.is_instance() {
            self.forget(sets, Decision::Pinned(step.number));
            Ok(())
        } else {
            self.along_edge(alloc, nodes, p, x.block, step.edge)
        }
    }

    /// The step of a return.
    fn give_back(
        &mut self,
        nodes: &mut Nodes,
        p: &Program,
        v: Option<Value>,
        target: Option<u32>,
    ) -> Result<(), AllocError>
        requires symbolic_nodes { AreCalls (length nodes.old) self.old }
        ensures grew { Grew nodes.old nodes.new }
        ensures is { OnOk result (AreCalls (length nodes.new) self.new) }
        ensures same { OnErr result (self.new ≡ self.old) }
        ensures value { OnOk result (calls_by nodes.new self.new
            ≡ with_top (set_symbolic target (optional_symbolic p.now (top_of (calls_by nodes.old self.old)) v)) (under_top (calls_by nodes.old self.old))) }
    {
        let s = optional(nodes, p, v, self.registers())?;
        self.leave(target, s);
        Ok(())
    }

    /// A live step that is neither an access nor an event, by what the run has at it; `sets` marks the registers that the
    /// region of its branch may set.
    ///
    /// # Errors
    ///
    /// Where no memory is left. Nodes may have been added; the calls are as before.
    pub fn after_op(
        &mut self,
        alloc: Global,
        nodes: &mut Nodes,
        p: &Program,
        x: &Instr,
        step: OpStep,
        sets: &[bool],
    ) -> Result<(), AllocError>
        requires plain { IsTrue (is_plain x.now.op) }
        requires cast { CastFits x.now.op }
        requires block { IfSome step.edge (λ b. b < length p.now.blocks) }
        requires symbolic_nodes { AreCalls (length nodes.old) self.old }
        ensures grew { Grew nodes.old nodes.new }
        ensures is { OnOk result (AreCalls (length nodes.new) self.new) }
        ensures same { OnErr result (self.new ≡ self.old) }
        ensures value { (m : Moment) (region : Option FreeRegion) → IsStepAt p.now x.now step sets.now m region
            → OnOk result (calls_by nodes.new self.new ≡ along.after_op p.now step.pinned step.number m region step.word x.now x.now.op (calls_by nodes.old self.old)) }
    {
        match &x.op {
            Op::Br { .. } => self.along_edge(alloc, nodes, p, x.block, step.edge),
            Op::CondBr { .. } => self.branch(alloc, nodes, p, x, step, sets),
            Op::Switch { .. } => self.branch(alloc, nodes, p, x, step, sets),
            Op::Call { function, args } => self.enter(alloc, nodes, p, *function, args.as_slice()),
            Op::Ret { value } => self.give_back(nodes, p, *value, step.target),
            _ => self.straight(alloc, nodes, p, x, step.word),
        }
    }
}
