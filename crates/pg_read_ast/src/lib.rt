//! The syntax of a program text as a tree, and its canonical text.
// How goals are searched for: see docs/CONTRIBUTING.md.
#![tactic(auto)]

mod names;
mod nodes;
mod ops;
mod print;
mod types;
mod values;

pub use names::{Bytes, Literal, Name};
pub use nodes::{
    BlockNode, DeclareItem, DefineItem, DparamNode, GlobalItem, LineNode, Module, ParamNode,
    TypeItem,
};
pub use ops::{ArgNode, BinaryOp, CallTypes, CaseNode, CastOp, CountNode, IncomingNode, OpNode};
pub use pg_read_lex;
pub use pg_read_lex::pg_num;
pub use print::{NextNumber, has_result, print_module};
pub use types::TypeNode;
pub use values::{ConstNode, TypedConst, TypedVal, ValNode};
