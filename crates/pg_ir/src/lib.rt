//! The numbered program: functions, blocks, instructions and globals by number, with what holds of each.
// How goals are searched for: see docs/CONTRIBUTING.md.
#![tactic(auto)]

mod build;
mod edge;
mod error;
mod function;
mod ids;
mod instr;
pub mod laws;
mod library_call;
mod lists;
mod parts;
mod placed;
mod prepare;
mod program;
mod request;
mod signature;
mod tables;
mod typed;
mod value;

pub use edge::{Case, Incoming};
pub use error::ProgramError;
pub use function::{Block, Function, GlobalInfo};
pub use ids::{BlockNo, InstrId, ThreadNo};
pub use instr::{Instr, Op};
pub use library_call::LibraryCall;
pub use lists::{Bytes, Cases, Incomings, Indices, Scalars, Values};
pub use pg_num;
pub use program::{Edge, Program};
pub use request::{Request, TrapName};
pub use value::{Index, Scalar, Scale, Value};
