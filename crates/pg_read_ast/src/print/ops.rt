//! The canonical text of operations.

ghost use Rattle.std.specs.Prelude.{◌≡◌, ◌++◌, OnOk, map, codes, flat_map};
ghost use Rattle.std.specs.List.{join_by};
ghost use Rattle.std.specs.Option.{option_map};
ghost use Rattle.pg_read_ast.specs.Text.{type_text, typed_text, more_typed_text, binary_word, predicate_word, cast_word};
ghost use Rattle.pg_read_ast.specs.Text.{more_label_text, pair_text, incoming_text, more_incoming_text, case_text};
ghost use Rattle.pg_read_ast.specs.Text.{dots_text, written_text, types_written_text, count_text, cast_text, phi_text};
ghost use Rattle.pg_read_ast.specs.Text.{switch_text, called_text, gep_op_text, op_text};
ghost use Rattle.pg_read_ast.specs.Views.{ty_of, val_of, typed_of, incoming_of, case_of, written_of, count_of, op_of};

use crate::names::Name;
use crate::ops::{ArgNode, BinaryOp, CallTypes, CaseNode, CastOp, CountNode, IncomingNode, OpNode};
use crate::print::names::{put, put_label_behind, put_name_behind, put_text};
use crate::print::types::{put_more_types, put_type, put_type_behind};
use crate::print::values::{
    put_gep_word, put_more_typed, put_typed, put_typed_behind, put_val_behind,
};
use crate::types::TypeNode;
use crate::values::{TypedVal, ValNode};
use pg_read_lex::pg_num::Compare;
use std::alloc::AllocError;

fn binary_name(op: BinaryOp) -> &'static str
    ensures { result.now ≡ binary_word op }
{
    match op {
        BinaryOp::Add => "add",
        BinaryOp::Sub => "sub",
        BinaryOp::Mul => "mul",
        BinaryOp::Udiv => "udiv",
        BinaryOp::Sdiv => "sdiv",
        BinaryOp::Urem => "urem",
        BinaryOp::Srem => "srem",
        BinaryOp::Shl => "shl",
        BinaryOp::Lshr => "lshr",
        BinaryOp::Ashr => "ashr",
        BinaryOp::And => "and",
        BinaryOp::Or => "or",
        BinaryOp::Xor => "xor",
    }
}

fn predicate_name(predicate: Compare) -> &'static str
    ensures { result.now ≡ predicate_word predicate }
{
    match predicate {
        Compare::Eq => "eq",
        Compare::Ne => "ne",
        Compare::Ugt => "ugt",
        Compare::Uge => "uge",
        Compare::Ult => "ult",
        Compare::Ule => "ule",
        Compare::Sgt => "sgt",
        Compare::Sge => "sge",
        Compare::Slt => "slt",
        Compare::Sle => "sle",
    }
}

fn cast_name(op: CastOp) -> &'static str
    ensures { result.now ≡ cast_word op }
{
    match op {
        CastOp::Trunc => "trunc",
        CastOp::Zext => "zext",
        CastOp::Sext => "sext",
        CastOp::PtrToInt => "ptrtoint",
        CastOp::IntToPtr => "inttoptr",
    }
}

#[tactic(auto, unfolding(crate::specs::Text::pair_text))]
fn put_pair(
    out: &mut Vec<u8>,
    ty: &TypeNode,
    left: &ValNode,
    right: &ValNode,
) -> Result<(), AllocError>
    ensures { OnOk result (out.new.items ≡ out.old.items ++ pair_text (ty_of ty.now) (val_of left.now) (val_of right.now)) }
{
    put_type_behind(out, " ", ty)?;
    put_val_behind(out, " ", left)?;
    put_val_behind(out, ", ", right)
}

#[tactic(auto, unfolding(crate::specs::Text::cast_text))]
fn put_cast(
    out: &mut Vec<u8>,
    op: CastOp,
    value: &TypedVal,
    to: &TypeNode,
) -> Result<(), AllocError>
    ensures { OnOk result (out.new.items ≡ out.old.items ++ cast_text op (typed_of value.now) (ty_of to.now)) }
{
    put_text(out, cast_name(op))?;
    put_typed_behind(out, " ", value)?;
    put_type_behind(out, " to ", to)
}

#[tactic(auto, unfolding(crate::specs::Text::incoming_text))]
fn put_incoming(out: &mut Vec<u8>, node: &IncomingNode) -> Result<(), AllocError>
    ensures { OnOk result (out.new.items ≡ out.old.items ++ incoming_text (incoming_of node.now)) }
{
    put_val_behind(out, "[ ", &node.value)?;
    put_name_behind(out, ", %", &node.block)?;
    put_text(out, " ]")
}

fn put_more_incoming(out: &mut Vec<u8>, all: &[IncomingNode]) -> Result<(), AllocError>
    ensures { OnOk result (out.new.items ≡ out.old.items ++ flat_map more_incoming_text (map incoming_of all.now)) }
{
    for each in all {
        put_text(out, ", ")?;
        put_incoming(out, each)?;
    }
    Ok(())
}

#[tactic(auto, unfolding(crate::specs::Text::phi_text))]
fn put_phi(
    out: &mut Vec<u8>,
    ty: &TypeNode,
    first: &IncomingNode,
    more: &[IncomingNode],
) -> Result<(), AllocError>
    ensures { OnOk result (out.new.items ≡ out.old.items ++ phi_text (ty_of ty.now) (incoming_of first.now) (map incoming_of more.now)) }
{
    put_type_behind(out, "phi ", ty)?;
    put_text(out, " ")?;
    put_incoming(out, first)?;
    put_more_incoming(out, more)
}

#[tactic(auto, unfolding(crate::specs::Text::case_text))]
fn put_case(out: &mut Vec<u8>, node: &CaseNode) -> Result<(), AllocError>
    ensures { OnOk result (out.new.items ≡ out.old.items ++ case_text (case_of node.now)) }
{
    put_typed_behind(out, " ", &node.value)?;
    put_label_behind(out, ", ", &node.block)
}

fn put_cases(out: &mut Vec<u8>, all: &[CaseNode]) -> Result<(), AllocError>
    ensures { OnOk result (out.new.items ≡ out.old.items ++ flat_map case_text (map case_of all.now)) }
{
    for each in all {
        put_case(out, each)?;
    }
    Ok(())
}

#[tactic(auto, unfolding(crate::specs::Text::switch_text))]
fn put_switch(
    out: &mut Vec<u8>,
    value: &TypedVal,
    other: &Name,
    cases: &[CaseNode],
) -> Result<(), AllocError>
    ensures { OnOk result (out.new.items ≡ out.old.items ++ switch_text (typed_of value.now) other.now (map case_of cases.now)) }
{
    put_typed_behind(out, "switch ", value)?;
    put_label_behind(out, ", ", other)?;
    put_text(out, " [")?;
    put_cases(out, cases)?;
    put_text(out, " ]")
}

fn put_types(out: &mut Vec<u8>, all: &[TypeNode]) -> Result<(), AllocError>
    ensures { OnOk result (out.new.items ≡ out.old.items ++ join_by type_text (codes ", ") (map ty_of all.now)) }
{
    match all {
        [] => Ok(()),
        [first, more @ ..] => {
            put_type(out, first)?;
            put_more_types(out, more)
        }
    }
}

fn put_dots(out: &mut Vec<u8>, dots: bool, types: &[TypeNode]) -> Result<(), AllocError>
    ensures { OnOk result (out.new.items ≡ out.old.items ++ dots_text dots (map ty_of types.now)) }
{
    if !dots {
        return Ok(());
    }
    match types {
        [] => put_text(out, "..."),
        [_, ..] => put_text(out, ", ..."),
    }
}

#[tactic(auto, unfolding(crate::specs::Text::written_text))]
fn put_written(out: &mut Vec<u8>, node: &CallTypes) -> Result<(), AllocError>
    ensures { OnOk result (out.new.items ≡ out.old.items ++ written_text (written_of node.now)) }
{
    put_text(out, " (")?;
    put_types(out, node.types.as_slice())?;
    put_dots(out, node.dots, node.types.as_slice())?;
    put_text(out, ")")
}

fn put_types_written(out: &mut Vec<u8>, types: &Option<CallTypes>) -> Result<(), AllocError>
    ensures { OnOk result (out.new.items ≡ out.old.items ++ types_written_text (option_map written_of types.now)) }
{
    match types {
        None => Ok(()),
        Some(types) => put_written(out, types),
    }
}

fn put_args(out: &mut Vec<u8>, all: &[ArgNode]) -> Result<(), AllocError>
    ensures { OnOk result (out.new.items ≡ out.old.items ++ join_by typed_text (codes ", ") (map typed_of all.now)) }
{
    match all {
        [] => Ok(()),
        [first, more @ ..] => {
            put_typed(out, first)?;
            put_more_typed(out, more)
        }
    }
}

#[tactic(auto, unfolding(crate::specs::Text::called_text))]
fn put_called(out: &mut Vec<u8>, callee: &Name, args: &[ArgNode]) -> Result<(), AllocError>
    ensures { OnOk result (out.new.items ≡ out.old.items ++ called_text callee.now (map typed_of args.now)) }
{
    put_name_behind(out, " @", callee)?;
    put_text(out, "(")?;
    put_args(out, args)?;
    put_text(out, ")")
}

fn put_count(out: &mut Vec<u8>, count: &Option<CountNode>) -> Result<(), AllocError>
    ensures { OnOk result (out.new.items ≡ out.old.items ++ count_text (option_map count_of count.now)) }
{
    match count {
        None => Ok(()),
        Some(node) => {
            put_type_behind(out, ", ", &node.ty)?;
            put_text(out, " ")?;
            put(out, node.count.text.as_slice())
        }
    }
}

#[tactic(auto, unfolding(crate::specs::Text::gep_op_text))]
fn put_gep(
    out: &mut Vec<u8>,
    ty: &TypeNode,
    pointer: &TypedVal,
    indices: &[TypedVal],
) -> Result<(), AllocError>
    ensures { OnOk result (out.new.items ≡ out.old.items ++ gep_op_text (ty_of ty.now) (typed_of pointer.now) (map typed_of indices.now)) }
{
    put_gep_word(out)?;
    put_type(out, ty)?;
    put_typed_behind(out, ", ", pointer)?;
    put_more_typed(out, indices)
}

fn put_binary(
    out: &mut Vec<u8>,
    op: BinaryOp,
    ty: &TypeNode,
    left: &ValNode,
    right: &ValNode,
) -> Result<(), AllocError>
    ensures { OnOk result (out.new.items ≡ out.old.items ++ (binary_word op ++ pair_text (ty_of ty.now) (val_of left.now) (val_of right.now))) }
{
    put_text(out, binary_name(op))?;
    put_pair(out, ty, left, right)
}

fn put_icmp(
    out: &mut Vec<u8>,
    predicate: Compare,
    ty: &TypeNode,
    left: &ValNode,
    right: &ValNode,
) -> Result<(), AllocError>
    ensures { OnOk result (out.new.items ≡ out.old.items
        ++ (codes "icmp " ++ (predicate_word predicate ++ pair_text (ty_of ty.now) (val_of left.now) (val_of right.now)))) }
{
    put_text(out, "icmp ")?;
    put_text(out, predicate_name(predicate))?;
    put_pair(out, ty, left, right)
}

fn put_select(
    out: &mut Vec<u8>,
    condition: &TypedVal,
    yes: &TypedVal,
    no: &TypedVal,
) -> Result<(), AllocError>
    ensures { OnOk result (out.new.items ≡ out.old.items
        ++ (codes "select " ++ (typed_text (typed_of condition.now) ++ (more_typed_text (typed_of yes.now) ++ more_typed_text (typed_of no.now))))) }
{
    put_typed_behind(out, "select ", condition)?;
    put_typed_behind(out, ", ", yes)?;
    put_typed_behind(out, ", ", no)
}

fn put_cond_br(
    out: &mut Vec<u8>,
    condition: &TypedVal,
    yes: &Name,
    no: &Name,
) -> Result<(), AllocError>
    ensures { OnOk result (out.new.items ≡ out.old.items
        ++ (codes "br " ++ (typed_text (typed_of condition.now) ++ (more_label_text yes.now ++ more_label_text no.now)))) }
{
    put_typed_behind(out, "br ", condition)?;
    put_label_behind(out, ", ", yes)?;
    put_label_behind(out, ", ", no)
}

fn put_call(
    out: &mut Vec<u8>,
    ty: &TypeNode,
    written: &Option<CallTypes>,
    callee: &Name,
    arguments: &[ArgNode],
) -> Result<(), AllocError>
    ensures { OnOk result (out.new.items ≡ out.old.items
        ++ (codes "call " ++ (type_text (ty_of ty.now) ++ (types_written_text (option_map written_of written.now) ++ called_text callee.now (map typed_of arguments.now))))) }
{
    put_type_behind(out, "call ", ty)?;
    put_types_written(out, written)?;
    put_called(out, callee, arguments)
}

fn put_alloca(out: &mut Vec<u8>, ty: &TypeNode, count: &Option<CountNode>) -> Result<(), AllocError>
    ensures { OnOk result (out.new.items ≡ out.old.items ++ (codes "alloca " ++ (type_text (ty_of ty.now) ++ count_text (option_map count_of count.now)))) }
{
    put_type_behind(out, "alloca ", ty)?;
    put_count(out, count)
}

fn put_load(out: &mut Vec<u8>, ty: &TypeNode, pointer: &TypedVal) -> Result<(), AllocError>
    ensures { OnOk result (out.new.items ≡ out.old.items ++ (codes "load " ++ (type_text (ty_of ty.now) ++ more_typed_text (typed_of pointer.now)))) }
{
    put_type_behind(out, "load ", ty)?;
    put_typed_behind(out, ", ", pointer)
}

fn put_store(out: &mut Vec<u8>, value: &TypedVal, pointer: &TypedVal) -> Result<(), AllocError>
    ensures { OnOk result (out.new.items ≡ out.old.items ++ (codes "store " ++ (typed_text (typed_of value.now) ++ more_typed_text (typed_of pointer.now)))) }
{
    put_typed_behind(out, "store ", value)?;
    put_typed_behind(out, ", ", pointer)
}

#[tactic(auto, unfolding(crate::specs::Text::op_text))]
pub fn put_op(out: &mut Vec<u8>, node: &OpNode) -> Result<(), AllocError>
    ensures { OnOk result (out.new.items ≡ out.old.items ++ op_text (op_of node.now)) }
{
    match node {
        OpNode::Binary {
            op,
            ty,
            left,
            right,
            ..
        } => put_binary(out, *op, ty, left, right),
        OpNode::Icmp {
            predicate,
            ty,
            left,
            right,
            ..
        } => put_icmp(out, *predicate, ty, left, right),
        OpNode::Cast { op, value, ty, .. } => put_cast(out, *op, value, ty),
        OpNode::Select {
            condition,
            yes,
            no,
            ..
        } => put_select(out, condition, yes, no),
        OpNode::Phi {
            ty,
            first,
            others,
            ..
        } => put_phi(out, ty, first, others.as_slice()),
        OpNode::Br { block, .. } => put_label_behind(out, "br ", block),
        OpNode::CondBr {
            condition,
            yes,
            no,
            ..
        } => put_cond_br(out, condition, yes, no),
        OpNode::Switch {
            value,
            other,
            cases,
            ..
        } => put_switch(out, value, other, cases.as_slice()),
        OpNode::Call {
            ty,
            written,
            callee,
            arguments,
            ..
        } => put_call(out, ty, written, callee, arguments.as_slice()),
        OpNode::RetVoid { .. } => put_text(out, "ret void"),
        OpNode::Ret { value, .. } => put_typed_behind(out, "ret ", value),
        OpNode::Unreachable { .. } => put_text(out, "unreachable"),
        OpNode::Alloca { ty, count, .. } => put_alloca(out, ty, count),
        OpNode::Load { ty, pointer, .. } => put_load(out, ty, pointer),
        OpNode::Store { value, pointer, .. } => put_store(out, value, pointer),
        OpNode::GetElementPtr {
            ty,
            pointer,
            indices,
            ..
        } => put_gep(out, ty, pointer, indices.as_slice()),
    }
}
