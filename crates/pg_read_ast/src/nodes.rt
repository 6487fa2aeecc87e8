//! Lines, basic blocks, items and the module, as they are written.

use crate::names::Name;
use crate::ops::OpNode;
use crate::types::TypeNode;
use crate::values::ConstNode;
use pg_read_lex::Span;

/// An instruction, and the name of its result where one is written.
#[derive(Drop)]
pub struct LineNode {
    pub name: Option<Name>,
    pub op: OpNode,
}

/// A basic block.
#[derive(Drop)]
pub struct BlockNode {
    pub label: Option<Name>,
    pub lines: Vec<LineNode>,
}

/// A parameter of a function.
#[derive(Drop)]
pub struct ParamNode {
    pub ty: TypeNode,
    pub name: Option<Name>,
}

/// A parameter of a declared function.
#[derive(Drop)]
pub enum DparamNode {
    Param(ParamNode),
    Metadata(Span),
    Dots(Span),
}

/// A type with a name.
#[derive(Drop)]
pub struct TypeItem {
    pub name: Name,
    pub ty: TypeNode,
}

/// A global variable or constant.
#[derive(Drop)]
pub struct GlobalItem {
    pub name: Name,
    pub is_constant: bool,
    pub ty: TypeNode,
    pub value: ConstNode,
}

/// A function that is declared.
#[derive(Drop)]
pub struct DeclareItem {
    pub result: TypeNode,
    pub name: Name,
    pub params: Vec<DparamNode>,
}

/// A function that is defined.
#[derive(Drop)]
pub struct DefineItem {
    pub result: TypeNode,
    pub name: Name,
    pub params: Vec<ParamNode>,
    pub blocks: Vec<BlockNode>,
}

/// A program text: its items of each kind, in text order.
#[derive(Drop)]
pub struct Module {
    pub types: Vec<TypeItem>,
    pub globals: Vec<GlobalItem>,
    pub declares: Vec<DeclareItem>,
    pub functions: Vec<DefineItem>,
}
