//! Types that are `void`, and operations that give a value.

ghost use Rattle.std.specs.Prelude.{◌≡◌, ◌<◌, ℕ, suc, [], length, map, IfSome, not};
ghost use Rattle.std.specs.Str.{bytes_eq};
ghost use Rattle.pg_read_ast.specs.Numbers.{type_named, name_void, void_within, is_void, gives};
ghost use Rattle.pg_read_ast.specs.Resolving.{resolved_void, type_at, IsPlaceIn};
ghost use Rattle.pg_read_ast.specs.Views.{ty_of, type_item_of, op_of, typed_of};

use crate::names::Name;
use crate::nodes::TypeItem;
use crate::ops::OpNode;
use crate::types::TypeNode;
use crate::values::TypedVal;

/// What a type is, where a name is looked up once.
#[derive(Clone, Copy)]
pub enum Resolved {
    Void,
    Item(usize),
    Other,
}

#[tactic(auto, using(crate::proofs::Voids::named_begin, crate::proofs::Voids::named_skip, crate::proofs::Voids::named_here, crate::proofs::Voids::named_none))]
fn type_place(types: &[TypeItem], name: &[u8]) -> Option<usize>
    ensures within { IfSome result (λ place. place < length types.now) }
    ensures found { type_named (map type_item_of types.now) name.now ≡ type_at types.now result }
{
    let mut place = 0;
    while place < types.len() {
        if has_name(&types[place], name) {
            return Some(place);
        }
        place += 1;
    }
    None
}

fn has_name(item: &TypeItem, name: &[u8]) -> bool
    ensures { result ≡ bytes_eq item.now.name.text name.now }
{
    item.name.text.as_slice() == name
}

#[tactic(auto, using(crate::proofs::Voids::void_item, crate::proofs::Voids::void_unknown))]
fn resolve_name(types: &[TypeItem], name: &Name) -> Resolved
    ensures within { IsPlaceIn result (length types.now) }
    ensures value { (turns : ℕ) → name_void turns (map type_item_of types.now) name.now.text ≡ resolved_void turns types.now result }
{
    match type_place(types, name.text.as_slice()) {
        Some(place) => Resolved::Item(place),
        None => Resolved::Other,
    }
}

fn resolve(types: &[TypeItem], ty: &TypeNode) -> Resolved
    ensures within { IsPlaceIn result (length types.now) }
    ensures value { (turns : ℕ) → void_within turns (map type_item_of types.now) (ty_of ty.now) ≡ resolved_void turns types.now result }
{
    match ty {
        TypeNode::Void(_) => Resolved::Void,
        TypeNode::Named(name) => resolve_name(types, name),
        TypeNode::I1(_) => Resolved::Other,
        TypeNode::I8(_) => Resolved::Other,
        TypeNode::I16(_) => Resolved::Other,
        TypeNode::I32(_) => Resolved::Other,
        TypeNode::I64(_) => Resolved::Other,
        TypeNode::Ptr(_) => Resolved::Other,
        TypeNode::Array(_, _, _) => Resolved::Other,
        TypeNode::Struct(_, _) => Resolved::Other,
    }
}

/// What an item's type is, and else the same.
#[tactic(auto, using(crate::proofs::Voids::item_more))]
fn looked_up(types: &[TypeItem], resolved: Resolved) -> Resolved
    requires { IsPlaceIn resolved (length types.now) }
    ensures within { IsPlaceIn result (length types.now) }
    ensures value { (turns : ℕ) → resolved_void (suc turns) types.now resolved ≡ resolved_void turns types.now result }
{
    match resolved {
        Resolved::Item(place) => resolve(types, &types[place].ty),
        Resolved::Void => Resolved::Void,
        Resolved::Other => Resolved::Other,
    }
}

#[tactic(auto, unfolding(crate::specs::Resolving::item_void))]
fn is_void_word(resolved: Resolved) -> bool
    ensures { result ≡ resolved_void 0 [] resolved }
{
    match resolved {
        Resolved::Void => true,
        Resolved::Item(_) => false,
        Resolved::Other => false,
    }
}

/// Whether a type is `void` or a name for it.
#[tactic(auto, using(crate::proofs::Voids::void_end))]
fn is_void_type(types: &[TypeItem], ty: &TypeNode) -> bool
    ensures { result ≡ is_void (map type_item_of types.now) (ty_of ty.now) }
{
    let mut resolved = resolve(types, ty);
    for _ in 0..types.len() {
        resolved = looked_up(types, resolved);
    }
    is_void_word(resolved)
}

/// Whether an instruction has a result that isn't void.
#[tactic(auto, unfolding(crate::specs::Numbers::gives))]
pub fn has_result(types: &[TypeItem], op: &OpNode) -> bool
    ensures { result ≡ gives (map type_item_of types.now) (op_of op.now) }
{
    match op {
        OpNode::Binary { ty, .. } => !is_void_type(types, ty),
        OpNode::Icmp { .. } => true,
        OpNode::Cast { ty, .. } => !is_void_type(types, ty),
        OpNode::Select { yes, .. } => is_not_void(types, yes),
        OpNode::Phi { ty, .. } => !is_void_type(types, ty),
        OpNode::Br { .. } => false,
        OpNode::CondBr { .. } => false,
        OpNode::Switch { .. } => false,
        OpNode::Call { ty, .. } => !is_void_type(types, ty),
        OpNode::RetVoid { .. } => false,
        OpNode::Ret { .. } => false,
        OpNode::Unreachable { .. } => false,
        OpNode::Alloca { .. } => true,
        OpNode::Load { ty, .. } => !is_void_type(types, ty),
        OpNode::Store { .. } => false,
        OpNode::GetElementPtr { .. } => true,
    }
}

fn is_not_void(types: &[TypeItem], value: &TypedVal) -> bool
    ensures { result ≡ not (is_void (map type_item_of types.now) (typed_of value.now).ty) }
{
    !is_void_type(types, &value.ty)
}
