//! Whether operands and results have the types that operations take and give.

ghost use Rattle.std.specs.Prelude.{◌≡◌, nat_lt, length};
ghost use Rattle.std.specs.List.{list_all};
ghost use Rattle.pg_num.specs.Numbers.{modulus};
ghost use Rattle.pg_ir.specs.WellFormed.{width_of};
ghost use Rattle.pg_ir.specs.TypeTests.{has_type, each_has_type, have_types, begins_thread, starts_thread, create_fits, library_fits, return_fits, has_width, both_have_type, binary_fits};
ghost use Rattle.pg_ir.specs.TypeTests.{compared_fit, stored_fits, narrower, chosen_fit, incoming_fits, all_incoming_fit, cases_fit, indices_fit, call_fits, value_op_fits, cast_fits};
ghost use Rattle.pg_ir.specs.TypeTests.{memory_op_fits, control_op_fits, op_fits};

use crate::edge::{Case, Incoming};
use crate::function::Function;
use crate::instr::Op;
use crate::library_call::LibraryCall;
use crate::parts::Parts;
use crate::value::{Index, Scalar, Value};
use pg_num::Width;

fn is_below(width: Width, value: u64) -> bool
    ensures { result ≡ nat_lt value (modulus width) }
{
    match width {
        Width::W1 => value < 2,
        Width::W8 => value < 0x100,
        Width::W16 => value < 0x1_0000,
        Width::W32 => value < 0x1_0000_0000,
        Width::W64 => true,
    }
}

fn width_of(s: Scalar) -> Width
    ensures { result ≡ width_of s }
{
    match s {
        Scalar::Int(w) => w,
        Scalar::Ptr => Width::W64,
    }
}

fn has_width(width: Width, result_type: Option<Scalar>) -> bool
    ensures { result ≡ has_width width result_type }
{
    match result_type {
        Some(s) => width_of(s) == width,
        None => false,
    }
}

fn is_narrower(a: Width, b: Width) -> bool
    ensures { result ≡ narrower a b }
{
    a.bits() < b.bits()
}

fn cases_fit(width: Width, cases: &[Case]) -> bool
    ensures { result ≡ cases_fit width cases.now }
{
    cases.iter().all(|c| is_below(width, c.value))
}

fn begins_thread(f: &Function) -> bool
    ensures { result ≡ begins_thread (Some f.now) }
{
    f.params == 1
        && f.registers.as_slice().first().copied() == Some(Scalar::Ptr)
        && f.result == Some(Scalar::Ptr)
}

impl Parts {
    fn has_type(&self, types: &[Scalar], s: Scalar, v: Value) -> bool
        ensures { result ≡ has_type self.now types.now s v }
    {
        match v {
            Value::Register(r) => types.get(r as usize).copied() == Some(s),
            Value::Const(n) => is_below(width_of(s), n),
            Value::Global(g) => s == Scalar::Ptr && (g as usize) < self.globals.len(),
            Value::Function(_) => false,
        }
    }

    fn both_have_type(&self, types: &[Scalar], s: Scalar, a: Value, b: Value) -> bool
        ensures { result ≡ both_have_type self.now types.now s a b }
    {
        self.has_type(types, s, a) && self.has_type(types, s, b)
    }

    fn each_has_type(&self, types: &[Scalar], params: &[Scalar], args: &[Value]) -> bool
        ensures { result ≡ each_has_type self.now types.now params.now args.now }
    {
        params
            .iter()
            .zip(args.iter())
            .all(|(s, v)| self.has_type(types, *s, *v))
    }

    fn have_types(&self, types: &[Scalar], params: &[Scalar], args: &[Value]) -> bool
        ensures { result ≡ have_types self.now types.now params.now args.now }
    {
        params.len() == args.len() && self.each_has_type(types, params, args)
    }

    fn starts_thread(&self, v: Value) -> bool
        ensures { result ≡ starts_thread self.now v }
    {
        match v {
            Value::Function(n) => match self.functions.get(n as usize) {
                Some(f) => begins_thread(f),
                None => false,
            },
            _ => false,
        }
    }

    fn create_fits(&self, types: &[Scalar], args: &[Value]) -> bool
        ensures { result ≡ create_fits self.now types.now args.now }
    {
        match args {
            [at, attribute, function, argument] => {
                self.has_type(types, Scalar::Ptr, *at)
                    && self.has_type(types, Scalar::Ptr, *attribute)
                    && self.starts_thread(*function)
                    && self.has_type(types, Scalar::Ptr, *argument)
            }
            _ => false,
        }
    }

    fn library_fits(&self, types: &[Scalar], function: LibraryCall, args: &[Value]) -> bool
        ensures { result ≡ library_fits self.now types.now function args.now }
    {
        match function {
            LibraryCall::PthreadCreate => self.create_fits(types, args),
            _ => self.have_types(types, function.parameters(), args),
        }
    }

    fn return_fits(&self, types: &[Scalar], returns: Option<Scalar>, value: Option<Value>) -> bool
        ensures { result ≡ return_fits self.now types.now returns value }
    {
        match (returns, value) {
            (None, None) => true,
            (Some(s), Some(v)) => self.has_type(types, s, v),
            _ => false,
        }
    }

    fn binary_fits(
        &self,
        types: &[Scalar],
        result_type: Option<Scalar>,
        width: Width,
        a: Value,
        b: Value,
    ) -> bool
        ensures { result ≡ binary_fits self.now types.now result_type width a b }
    {
        result_type == Some(Scalar::Int(width))
            && self.both_have_type(types, Scalar::Int(width), a, b)
    }

    fn compared_fit(&self, types: &[Scalar], width: Width, a: Value, b: Value) -> bool
        ensures { result ≡ compared_fit self.now types.now width a b }
    {
        self.both_have_type(types, Scalar::Int(width), a, b)
            || width == Width::W64 && self.both_have_type(types, Scalar::Ptr, a, b)
    }

    fn stored_fits(&self, types: &[Scalar], width: Width, v: Value) -> bool
        ensures { result ≡ stored_fits self.now types.now width v }
    {
        self.has_type(types, Scalar::Int(width), v)
            || width == Width::W64 && self.has_type(types, Scalar::Ptr, v)
    }

    fn chosen_fit(&self, types: &[Scalar], result_type: Option<Scalar>, a: Value, b: Value) -> bool
        ensures { result ≡ chosen_fit self.now types.now result_type a b }
    {
        match result_type {
            Some(s) => self.both_have_type(types, s, a, b),
            None => false,
        }
    }

    fn incoming_fits(&self, types: &[Scalar], s: Scalar, i: &Incoming) -> bool
        ensures { result ≡ incoming_fits self.now types.now s i.now }
    {
        (i.block.0 as usize) < self.blocks.len() && self.has_type(types, s, i.value)
    }

    fn each_incoming_fits(&self, types: &[Scalar], s: Scalar, from: &[Incoming]) -> bool
        ensures { result ≡ list_all (incoming_fits self.now types.now s) from.now }
    {
        from.iter().all(|i| self.incoming_fits(types, s, i))
    }

    fn all_incoming_fit(
        &self,
        types: &[Scalar],
        result_type: Option<Scalar>,
        from: &[Incoming],
    ) -> bool
        ensures { result ≡ all_incoming_fit self.now types.now result_type from.now }
    {
        match result_type {
            Some(s) => self.each_incoming_fits(types, s, from),
            None => false,
        }
    }

    fn indices_fit(&self, types: &[Scalar], indices: &[Index]) -> bool
        ensures { result ≡ indices_fit self.now types.now indices.now }
    {
        indices
            .iter()
            .all(|i| self.has_type(types, Scalar::Int(i.width), i.value))
    }

    fn call_fits(
        &self,
        types: &[Scalar],
        result_type: Option<Scalar>,
        function: u32,
        args: &[Value],
    ) -> bool
        ensures { result ≡ call_fits self.now types.now result_type function args.now }
    {
        result_type == self.result_of(function)
            && (function as usize) < self.functions.len()
            && self.have_types(types, self.parameter_types(function), args)
    }

    fn value_op_fits(&self, types: &[Scalar], result_type: Option<Scalar>, op: &Op) -> bool
        ensures { result ≡ value_op_fits self.now types.now result_type op.now }
    {
        match op {
            Op::Add { width, left, right }
            | Op::Sub { width, left, right }
            | Op::Mul { width, left, right }
            | Op::Divide {
                width,
                left,
                right,
                ..
            }
            | Op::Shift {
                width,
                left,
                right,
                ..
            }
            | Op::Bits {
                width,
                left,
                right,
                ..
            } => self.binary_fits(types, result_type, *width, *left, *right),
            Op::Compare {
                width,
                left,
                right,
                ..
            } => {
                result_type == Some(Scalar::Int(Width::W1))
                    && self.compared_fit(types, *width, *left, *right)
            }
            Op::Select { cond, yes, no } => {
                self.has_type(types, Scalar::Int(Width::W1), *cond)
                    && self.chosen_fit(types, result_type, *yes, *no)
            }
            Op::Phi { from } => self.all_incoming_fit(types, result_type, from.as_slice()),
            _ => false,
        }
    }

    fn cast_fits(&self, types: &[Scalar], result_type: Option<Scalar>, op: &Op) -> bool
        ensures { result ≡ cast_fits self.now types.now result_type op.now }
    {
        match op {
            Op::Trunc { from, to, of } => {
                result_type == Some(Scalar::Int(*to))
                    && is_narrower(*to, *from)
                    && self.has_type(types, Scalar::Int(*from), *of)
            }
            Op::Zext { from, to, of } | Op::Sext { from, to, of } => {
                result_type == Some(Scalar::Int(*to))
                    && is_narrower(*from, *to)
                    && self.has_type(types, Scalar::Int(*from), *of)
            }
            Op::PtrToInt { from, to, of } => {
                result_type == Some(Scalar::Int(*to))
                    && *from == Width::W64
                    && self.has_type(types, Scalar::Ptr, *of)
            }
            Op::IntToPtr { from, to, of } => {
                result_type == Some(Scalar::Ptr)
                    && *to == Width::W64
                    && self.has_type(types, Scalar::Int(*from), *of)
            }
            _ => false,
        }
    }

    fn memory_op_fits(&self, types: &[Scalar], result_type: Option<Scalar>, op: &Op) -> bool
        ensures { result ≡ memory_op_fits self.now types.now result_type op.now }
    {
        match op {
            Op::Alloca { .. } => result_type == Some(Scalar::Ptr),
            Op::Load { width, from } => {
                has_width(*width, result_type) && self.has_type(types, Scalar::Ptr, *from)
            }
            Op::Store { width, value, at } => {
                result_type.is_none()
                    && self.stored_fits(types, *width, *value)
                    && self.has_type(types, Scalar::Ptr, *at)
            }
            Op::Gep { base, indices } => {
                result_type == Some(Scalar::Ptr)
                    && self.has_type(types, Scalar::Ptr, *base)
                    && self.indices_fit(types, indices.as_slice())
            }
            _ => false,
        }
    }

    fn control_op_fits(
        &self,
        types: &[Scalar],
        returns: Option<Scalar>,
        result_type: Option<Scalar>,
        op: &Op,
    ) -> bool
        ensures { result ≡ control_op_fits self.now types.now returns result_type op.now }
    {
        match op {
            Op::Br { .. } | Op::Unreachable => result_type.is_none(),
            Op::CondBr { cond, .. } => {
                result_type.is_none() && self.has_type(types, Scalar::Int(Width::W1), *cond)
            }
            Op::Switch {
                width,
                on,
                cases,
                ..
            } => {
                result_type.is_none()
                    && self.has_type(types, Scalar::Int(*width), *on)
                    && cases_fit(*width, cases.as_slice())
            }
            Op::Ret { value } => result_type.is_none() && self.return_fits(types, returns, *value),
            Op::Call { function, args } => self.call_fits(
                types,
                result_type,
                *function,
                args.as_slice(),
            ),
            Op::CallLibrary { function, args } => {
                result_type == function.returned()
                    && self.library_fits(types, *function, args.as_slice())
            }
            _ => false,
        }
    }

    /// Whether the operands and the result of an operation have the types that it takes and gives:
    /// `returns` is what the function returns, `result_type` the type of the register that is set.
    #[tactic(auto, unfolding(crate::specs::TypeTests::op_fits))]
    pub(crate) fn op_fits(
        &self,
        types: &[Scalar],
        returns: Option<Scalar>,
        result_type: Option<Scalar>,
        op: &Op,
    ) -> bool
        ensures { result ≡ op_fits self.now types.now returns result_type op.now }
    {
        match op {
            Op::Add { .. }
            | Op::Sub { .. }
            | Op::Mul { .. }
            | Op::Divide { .. }
            | Op::Shift { .. }
            | Op::Bits { .. }
            | Op::Compare { .. }
            | Op::Select { .. }
            | Op::Phi { .. } => self.value_op_fits(types, result_type, op),
            Op::Trunc { .. }
            | Op::Zext { .. }
            | Op::Sext { .. }
            | Op::PtrToInt { .. }
            | Op::IntToPtr { .. } => self.cast_fits(types, result_type, op),
            Op::Alloca { .. } | Op::Load { .. } | Op::Store { .. } | Op::Gep { .. } => {
                self.memory_op_fits(types, result_type, op)
            }
            _ => self.control_op_fits(types, returns, result_type, op),
        }
    }
}
