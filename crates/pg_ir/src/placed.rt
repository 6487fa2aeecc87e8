//! Whether instructions, blocks and functions stand where they may.

ghost use Rattle.std.specs.Prelude.{◌≡◌, ◌-◌, ◌<◌, ◌^◌, length, drop, slice_get};
ghost use Rattle.std.specs.List.{prefix_len};
ghost use Rattle.pg_ir.specs.Edges.{is_phi, is_terminator, phis_of, instrs_of};
ghost use Rattle.pg_ir.specs.Program.{first_of, end_of};
ghost use Rattle.pg_ir.specs.WellFormed.{type_at};
ghost use Rattle.pg_ir.specs.PlaceTests.{lists_block, phis_list, in_function, target_fits, case_targets_fit, targets_fit, has_case_to, has_target, goes_to, phi_at, follows_phi};
ghost use Rattle.pg_ir.specs.PlaceTests.{each_goes_to, sources_fit, is_entered, phi_fits, phi_fits_if_one, end_fits, place_fits, result_fits, instr_op_fits, instr_fits};

use crate::edge::{Case, Incoming};
use crate::instr::{Instr, Op};
use crate::parts::Parts;
use crate::value::Scalar;

fn is_phi(op: &Op) -> bool
    ensures { result ≡ is_phi op.now }
{
    match op {
        Op::Phi { .. } => true,
        _ => false,
    }
}

fn is_terminator(op: &Op) -> bool
    ensures { result ≡ is_terminator op.now }
{
    match op {
        Op::Br { .. } | Op::CondBr { .. } | Op::Switch { .. } | Op::Ret { .. } | Op::Unreachable =>
            true,
        _ => false,
    }
}

fn lists_block(block: u32, x: &Instr) -> bool
    ensures { result ≡ lists_block block x.now }
{
    match &x.op {
        Op::Phi { from } => from.as_slice().iter().any(|i| i.block.0 == block),
        _ => false,
    }
}

#[tactic(auto, using(crate::proofs::PassingPrefix::prefix_more, crate::proofs::PassingPrefix::prefix_stop))]
pub(crate) fn count_phis(xs: &[Instr]) -> usize
    ensures { result ≡ prefix_len (λ x. is_phi x.op) xs.now }
{
    for (i, x) in xs.iter().enumerate() {
        if !is_phi(&x.op) {
            return i;
        }
    }
    xs.len()
}

fn has_case_to(target: u32, cases: &[Case]) -> bool
    ensures { result ≡ has_case_to target cases.now }
{
    cases.iter().any(|c| c.to.0 == target)
}

fn has_target(target: u32, op: &Op) -> bool
    ensures { result ≡ has_target target op.now }
{
    match op {
        Op::Br { to } => to.0 == target,
        Op::CondBr { yes, no, .. } => yes.0 == target || no.0 == target,
        Op::Switch { other, cases, .. } => {
            other.0 == target || has_case_to(target, cases.as_slice())
        }
        _ => false,
    }
}

fn result_fits(types: &[Scalar], register: Option<u32>) -> bool
    ensures { result ≡ result_fits types.now register }
{
    match register {
        Some(r) => (r as usize) < types.len(),
        None => true,
    }
}

fn type_at(types: &[Scalar], register: Option<u32>) -> Option<Scalar>
    ensures { result ≡ type_at types.now register }
{
    match register {
        Some(r) => types.get(r as usize).copied(),
        None => None,
    }
}

impl Parts {
    /// How many instructions of a basic block there are from its first on.
    fn length_of(&self, block: usize) -> usize
        ensures { result ≡ end_of self.now block - first_of self.now block }
    {
        self.end_of(block).saturating_sub(self.first_of(block))
    }

    /// The instructions from a number on.
    pub(crate) fn instrs_from(&self, first: usize) -> &[Instr]
        ensures { result.now ≡ drop first self.now.instrs }
    {
        &self.instrs[first.min(self.instrs.len())..]
    }

    /// The instructions of a basic block, as far as there are such.
    #[tactic(auto, unfolding(crate::specs::Edges::instrs_of))]
    pub(crate) fn instrs_of(&self, block: usize) -> &[Instr]
        ensures { result.now ≡ instrs_of self.now block }
    {
        let rest = self.instrs_from(self.first_of(block));
        &rest[..self.length_of(block).min(rest.len())]
    }

    /// Whether each phi of block `target` lists `block`.
    #[tactic(auto, unfolding(crate::specs::PlaceTests::phis_list, crate::specs::Edges::phis_of))]
    fn phis_list(&self, block: u32, target: u32) -> bool
        ensures { result ≡ phis_list self.now block target }
    {
        self.instrs_of(target as usize)
            .iter()
            .take_while(|x| is_phi(&x.op))
            .all(|x| lists_block(block, x))
    }

    /// How many phis a basic block begins with.
    #[tactic(auto, unfolding(crate::specs::Edges::phis_of), using(crate::proofs::PassingPrefix::prefix_length))]
    pub(crate) fn phi_count(&self, block: usize) -> usize
        ensures { result ≡ length (phis_of self.now block) }
    {
        count_phis(self.instrs_of(block))
    }

    fn is_in_function(&self, function: u32, block: u32) -> bool
        ensures { result ≡ in_function function (slice_get self.now.blocks block) }
    {
        match self.blocks.get(block as usize) {
            Some(b) => b.function == function,
            None => false,
        }
    }

    #[tactic(auto, unfolding(crate::specs::PlaceTests::target_fits))]
    fn target_fits(&self, function: u32, block: u32, target: u32) -> bool
        ensures { result ≡ target_fits self.now function block target }
    {
        self.is_in_function(function, target) && self.phis_list(block, target)
    }

    fn case_targets_fit(&self, function: u32, block: u32, cases: &[Case]) -> bool
        ensures { result ≡ case_targets_fit self.now function block cases.now }
    {
        cases
            .iter()
            .all(|c| self.target_fits(function, block, c.to.0))
    }

    /// Whether each block to which the last instruction of `block` may go on is one of its function
    /// and has phis that list `block`.
    fn targets_fit(&self, function: u32, block: u32, op: &Op) -> bool
        ensures { result ≡ targets_fit self.now function block op.now }
    {
        match op {
            Op::Br { to } => self.target_fits(function, block, to.0),
            Op::CondBr { yes, no, .. } => {
                self.target_fits(function, block, yes.0) && self.target_fits(function, block, no.0)
            }
            Op::Switch { other, cases, .. } => {
                self.target_fits(function, block, other.0)
                    && self.case_targets_fit(function, block, cases.as_slice())
            }
            _ => true,
        }
    }

    #[tactic(auto, unfolding(crate::specs::PlaceTests::goes_to))]
    fn goes_to(&self, block: u32, target: u32) -> bool
        ensures { result ≡ goes_to self.now block target }
    {
        match self
            .instrs
            .get(self.end_of(block as usize).saturating_sub(1))
        {
            Some(x) => has_target(target, &x.op),
            None => false,
        }
    }

    fn is_phi_at(&self, i: usize) -> bool
        ensures { result ≡ phi_at (slice_get self.now.instrs i) }
    {
        match self.instrs.get(i) {
            Some(x) => is_phi(&x.op),
            None => false,
        }
    }

    fn follows_phi(&self, i: usize, x: &Instr) -> bool
        ensures { result ≡ follows_phi self.now i x.now }
    {
        i == self.first_of(x.block.0 as usize) || self.is_phi_at(i.saturating_sub(1))
    }

    fn sources_fit(&self, x: &Instr) -> bool
        ensures { result ≡ sources_fit self.now x.now }
    {
        match &x.op {
            Op::Phi { from } => self.each_goes_to(from.as_slice(), x.block.0),
            _ => true,
        }
    }

    fn each_goes_to(&self, from: &[Incoming], block: u32) -> bool
        ensures { result ≡ each_goes_to self.now from.now block }
    {
        from.iter().all(|j| self.goes_to(j.block.0, block))
    }

    fn is_entered(&self, block: u32) -> bool
        ensures { result ≡ is_entered self.now block }
    {
        block != self.first_block_of(self.function_of(block))
    }

    #[tactic(auto, unfolding(crate::specs::PlaceTests::phi_fits))]
    fn phi_fits(&self, i: usize, x: &Instr) -> bool
        ensures { result ≡ phi_fits self.now i x.now }
    {
        self.follows_phi(i, x) && self.is_entered(x.block.0) && self.sources_fit(x)
    }

    fn end_fits(&self, i: usize, x: &Instr) -> bool
        requires { i < 2 ^ 63 }
        ensures { result ≡ end_fits self.now i x.now }
    {
        if is_terminator(&x.op) {
            i + 1 == self.end_of(x.block.0 as usize)
        } else {
            i + 1 != self.end_of(x.block.0 as usize)
        }
    }

    #[tactic(auto, unfolding(crate::specs::PlaceTests::place_fits))]
    fn place_fits(&self, i: usize, x: &Instr) -> bool
        requires { i < 2 ^ 63 }
        ensures { result ≡ place_fits self.now i x.now }
    {
        (x.block.0 as usize) < self.blocks.len()
            && self.first_of(x.block.0 as usize) <= i
            && i < self.end_of(x.block.0 as usize)
            && self.end_fits(i, x)
    }

    #[tactic(auto, unfolding(crate::specs::PlaceTests::instr_op_fits))]
    fn instr_op_fits(&self, function: u32, x: &Instr) -> bool
        ensures { result ≡ instr_op_fits self.now function x.now }
    {
        let types = self.types_of(function);
        result_fits(types, x.result)
            && self.op_fits(
                types,
                self.result_of(function),
                type_at(types, x.result),
                &x.op,
            )
    }

    fn phi_fits_if_one(&self, i: usize, x: &Instr) -> bool
        ensures { result ≡ phi_fits_if_one self.now i x.now }
    {
        !is_phi(&x.op) || self.phi_fits(i, x)
    }

    /// Whether an instruction fits its place, its block and its operands.
    #[tactic(auto, unfolding(crate::specs::PlaceTests::instr_fits))]
    pub(crate) fn instr_fits(&self, i: usize, x: &Instr) -> bool
        requires { i < 2 ^ 63 }
        ensures { result ≡ instr_fits self.now i x.now }
    {
        let function = self.function_of(x.block.0);
        self.place_fits(i, x)
            && self.instr_op_fits(function, x)
            && self.targets_fit(function, x.block.0, &x.op)
            && self.phi_fits_if_one(i, x)
    }
}
